//! The laws of `has4`, `has` and `rel`, in terms of sets.
ghost use Rattle.cidr.specs.Laws.Sets.{Has4AnswersMembership, HasAnswersMembership, RelatesSets};

use ipnetwork::laws;

/// `has4` replies `yes` exactly for the members of the network, and `no` exactly for the other
/// addresses.
pub fn has4_answers_membership()
    ensures { Has4AnswersMembership }
{
    laws::v4_network_reading_is_computed();
    laws::v4_text_is_computed();
    laws::membership_is_computed();
}

/// `has` replies `yes` exactly for the members of the network, and `no` exactly for the other
/// addresses, including those of the other family.
pub fn has_answers_membership()
    ensures { HasAnswersMembership }
{
    laws::ip_network_reading_is_computed();
    laws::ip_reading_is_computed();
    laws::ip_membership_is_computed();
}

/// `rel` compares the sets: whether they are the same, one is a proper subset of the other, or
/// neither is a subset of the other.
pub fn rel_answers_sets()
    ensures { RelatesSets }
{
    laws::ip_network_reading_is_computed();
    laws::ip_subnet_is_computed();
}
