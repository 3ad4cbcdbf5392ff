//! A part of a line.
ghost use Rattle.std.specs.Prelude.{◌≡◌, None, Some, MatchOption};
ghost use Rattle.line_addresses.specs.Areas.{part_of};

use crate::area::Part;
use crate::place::{field_at_place, word_at_place};
use crate::value::value_after;

/// Returns this part of a line, or `None` if the line does not have it.
///
/// ```
/// let line = b"a,10.1.1.1";
/// let second = Place::Number(2);
/// assert_eq!(rt; part_of(&Part::Field { place: second, separator: b',' }, line), Some(b"10.1.1.1".as_slice()));
/// assert_eq!(rt; part_of(&Part::Word(second), line), None);
/// ```
#[inline(always)]
pub fn part_of<'a>(part: &Part<'_>, line: &'a [u8]) -> Option<&'a [u8]>
    ensures { MatchOption result (part_of part.now line.now ≡ None)
        (λ text. part_of part.now line.now ≡ Some text.now) }
{
    match part {
        Part::Line => Some(line),
        Part::Field { place, separator } => field_at_place(line, *place, *separator),
        Part::Word(place) => word_at_place(line, *place),
        Part::After(text) => value_after(line, text.bytes()),
    }
}
