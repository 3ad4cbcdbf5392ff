//! Where to look for the addresses of a line, by the options that all programs for logs share.
ghost use Rattle.std.specs.Prelude.{◌≡◌};
ghost use Rattle.log_programs.specs.Areas.{area_of, is_in_a_field, nth_in, part_of, pick_of};

use crate::rows::{AFTER, ANYWHERE, FIELD, NTH, SEPARATOR, WORDS};
use line_addresses::{Area, Part, Pick, Place, Text, ordinal_in};
use options::given::{is_given, value_of};
use options::items::Item;
use options::values::byte_in;

/// Returns where to look for the addresses of a line, and which of those to use, by the options of
/// a command line.
///
/// ```
/// use line_addresses::{Part, Pick, Place};
/// use options::items::{Item, Text};
///
/// let area = log_programs::areas::area_of(&[Item::Flag(1)]);
/// assert!(rt; matches!(&area.part, Part::Word(Place::Number(1))));
/// assert_eq!(rt; area.pick, Pick::Whole);
/// let within = [Item::Flag(0), Item::Value(2, Text::new("8"))];
/// let area = log_programs::areas::area_of(&within);
/// assert!(rt; matches!(&area.part, Part::Field { place: Place::Number(8), .. }));
/// assert_eq!(rt; area.pick, Pick::Each);
/// let last = [Item::Value(4, Text::new("from ")), Item::Value(9, Text::new("last"))];
/// assert_eq!(rt; log_programs::areas::area_of(&last).pick, Pick::Last);
/// ```
pub fn area_of<'a>(items: &[Item<'a>]) -> Area<'a>
    ensures { result ≡ area_of items.now }
{
    Area {
        part: part_of(items),
        pick: pick_of(items),
    }
}

// Returns the part of a line to search: after a text, a word, a field, or the whole line.
fn part_of<'a>(items: &[Item<'a>]) -> Part<'a>
    ensures { result ≡ part_of items.now }
{
    if is_given(items, AFTER) {
        return Part::After(Text::new(value_of(items, AFTER).as_bytes()));
    }
    let place = Place::read(value_of(items, FIELD).as_bytes()).unwrap_or(Place::Number(1));
    if is_given(items, WORDS) {
        return Part::Word(place);
    }
    if !is_in_a_field(items) {
        return Part::Line;
    }
    let separator = byte_in(value_of(items, SEPARATOR)).unwrap_or(b' ');
    Part::Field { place, separator }
}

// Returns whether the part is a field, if neither `-w` nor `--after` is given.
fn is_in_a_field(items: &[Item<'_>]) -> bool
    ensures { result ≡ is_in_a_field items.now }
{
    is_given(items, FIELD)
        || is_given(items, SEPARATOR)
        || !(is_given(items, ANYWHERE) || is_given(items, NTH))
}

// Returns which addresses of the part to use.
fn pick_of(items: &[Item<'_>]) -> Pick
    ensures { result ≡ pick_of items.now }
{
    if is_given(items, NTH) {
        nth_in(value_of(items, NTH))
    } else if is_given(items, AFTER) {
        Pick::Number(1)
    } else if is_given(items, ANYWHERE) {
        Pick::Each
    } else {
        Pick::Whole
    }
}

// Returns the address that a value of `--nth` means.
fn nth_in(value: &str) -> Pick
    ensures { result ≡ nth_in value.now }
{
    if value == "last" {
        return Pick::Last;
    }
    Pick::Number(ordinal_in(value.as_bytes()).unwrap_or(1))
}
