//! Laws of look-ups: each has one result, which can be computed from the entries.
ghost use Rattle.std.specs.Prelude.{◌≡◌};
ghost use Rattle.ipnetwork_table.specs.Table.{found_by_pair};
ghost use Rattle.ipnetwork_table.specs.Laws.{BlocksOfAnyWidthThatMeet, AnswerExists, AnswerIsComputed, AnswerIsOne};

use crate::PrefixTable;
use ipnetwork_family::{CidrNetwork, laws};

/// Two blocks with the same prefix length that share an address are equal, for addresses of any
/// number of bits. So a table has at most one block of each prefix length that holds an address.
pub fn blocks_of_any_width_that_meet()
    ensures { BlocksOfAnyWidthThatMeet }
{}

/// For each table and each address, either there is a longest block that holds the address, or no
/// stored block holds it; and a look-up has only one result.
pub fn one_answer<V: Copy>()
    ensures exists { AnswerExists V }
    ensures one { AnswerIsOne V }
{}

/// The longest of the entries whose block holds an address is the result of looking up the address,
/// so the result can be computed from the entries.
pub fn answer_is_computed<V: Copy>()
    ensures { AnswerIsComputed V }
{
    laws::membership_is_computed();
}

/// `lookup` and the first part of `lookup_steps` return the same block, as its address and its
/// prefix length, and the same value.
pub fn lookups_agree<N: CidrNetwork, V: Copy>(
    table: &PrefixTable<N, V>,
    addr: N::Addr,
) -> (Option<(N, V)>, Option<(N, V)>)
    ensures { found_by_pair N.pair result.0 ≡ found_by_pair N.pair result.1 }
{
    one_answer::<V>();
    let (counted, _) = table.lookup_steps(addr);
    (table.lookup(addr), counted)
}
