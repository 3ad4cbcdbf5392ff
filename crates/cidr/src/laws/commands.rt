//! The laws of commands: what each line gets, and that there are no other commands.
ghost use Rattle.cidr.specs.Laws.Commands.{Read4Law, Read6Law, ReadLaw, EndsLaw, Has4Law, HasLaw, RelLaw, AddLaw, DropLaw, FindLaw, UnknownLaw, LongLaw};

use crate::laws::sets::rel_answers_sets;
use ipnetwork::laws;

/// `read4`, `read6`, `read` and `ends` reply according to the network that the text names, and
/// refuse a text that names none.
pub fn lines_about_one_network()
    ensures read4 { Read4Law }
    ensures read6 { Read6Law }
    ensures read { ReadLaw }
    ensures ends { EndsLaw }
{
    laws::suffix_is_refused();
    laws::v4_text_is_computed();
    laws::v6_text_is_computed();
    laws::v4_network_reading_is_computed();
    laws::v6_network_reading_is_computed();
    laws::ip_network_reading_is_computed();
    laws::ends();
}

/// `has4`, `has` and `rel` reply according to the sets of the networks that the texts name, and
/// refuse a text that names no network or no address.
pub fn lines_about_sets()
    ensures has4 { Has4Law }
    ensures has { HasLaw }
    ensures rel { RelLaw }
{
    laws::v4_text_is_computed();
    laws::ip_reading_is_computed();
    laws::v4_network_reading_is_computed();
    laws::ip_network_reading_is_computed();
    laws::membership_is_computed();
    laws::ip_membership_is_computed();
    rel_answers_sets();
}

/// `add`, `drop` and `find` use the routes for the network or address that the text names, and
/// refuse a text that names none.
pub fn lines_about_routes()
    ensures add { AddLaw }
    ensures drop { DropLaw }
    ensures find { FindLaw }
{
    laws::prefix_number_is_computed();
    laws::ip_reading_is_computed();
    laws::ip_network_reading_is_computed();
}

/// There are no commands except these ten, each with its number of words. Any other line gets
/// `unknown command`, and a line of more than 1,024 bytes gets `line too long`.
pub fn other_lines()
    ensures unknown { UnknownLaw }
    ensures long { LongLaw }
{}
