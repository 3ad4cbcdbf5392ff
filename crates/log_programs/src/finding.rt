//! The address of a line.
ghost use Rattle.std.specs.Prelude.{◌≡◌};
ghost use Rattle.log_programs.specs.Finding.{found_in};

use ipnetwork::IpAddr;
use line_addresses::{Area, part_of, picked};

/// Returns the address in this area of a line, or the first of several, or `None` if there is none.
/// The line is given without its end. Does not allocate.
///
/// ```
/// use line_addresses::{Area, Part, Pick, Place};
/// use log_programs::finding::found_in;
///
/// let line = b"GET 192.0.2.7";
/// let second = Area { part: Part::Word(Place::Number(2)), pick: Pick::Whole };
/// assert_eq!(rt; found_in(&second, line), Some("192.0.2.7".parse()?));
/// let first = Area { part: Part::Line, pick: Pick::Number(1) };
/// assert_eq!(rt; found_in(&first, b"10.1.1.1 10.1.1.2"), Some("10.1.1.1".parse()?));
/// ```
#[inline(always)]
pub fn found_in(area: &Area<'_>, line: &[u8]) -> Option<IpAddr>
    ensures { result ≡ found_in area.now line.now }
{
    let Some(part) = part_of(&area.part, line) else {
        return None;
    };
    match picked(part, area.pick, false) {
        Some(found) => Some(found.address),
        None => None,
    }
}
