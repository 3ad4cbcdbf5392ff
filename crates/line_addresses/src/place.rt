//! Which field or word of a line.
ghost use Rattle.std.specs.Prelude.{◌≡◌, None, Some, MatchOption};
ghost use Rattle.line_addresses.specs.Fields.{fields_of};
ghost use Rattle.line_addresses.specs.Places.{at_place, place_in, place_text};
ghost use Rattle.line_addresses.specs.Words.{words_of};

use crate::field::field_of;
use crate::from_end::{field_from_end, word_from_end};
use crate::numbers::ordinal_in;
use crate::word::word_of;
use arrayvec::ArrayString;
use ipnetwork_addr::decimal::push_number;

/// Which of the fields or words of a line.
///
/// ```
/// assert_eq!(rt; Place::read(b"7"), Some(Place::Number(7)));
/// assert_eq!(rt; part_of(&Part::Word(Place::FromEnd(1)), b"a b  c "), Some(b"c".as_slice()));
/// ```
#[derive(Clone, Copy, Debug, PartialEq, Eq)]
pub enum Place {
    /// The one with this number, from 1 on.
    Number(u32),
    /// The one with this number, from 1 on, counted from the end of the line.
    FromEnd(u32),
}

impl Place {
    /// Returns the place that a text names, or `None` if it names none. After `-` the number counts
    /// from the end; it must be one from 1 to 4,294,967,295.
    ///
    /// ```
    /// assert_eq!(rt; Place::read(b"07"), Some(Place::Number(7)));
    /// assert_eq!(rt; Place::read(b"-1"), Some(Place::FromEnd(1)));
    /// assert_eq!(rt; Place::read(b"-0"), None);
    /// ```
    pub fn read(text: &[u8]) -> Option<Place>
        ensures { result ≡ place_in text.now }
    {
        if let [b'-', number @ ..] = text {
            return match ordinal_in(number) {
                Some(number) => Some(Place::FromEnd(number)),
                None => None,
            };
        }
        match ordinal_in(text) {
            Some(number) => Some(Place::Number(number)),
            None => None,
        }
    }

    /// Returns the text of the place, which `read` reads.
    ///
    /// ```
    /// assert_eq!(rt; Place::Number(7).text().as_str(), "7");
    /// ```
    pub fn text(self) -> ArrayString<40>
        ensures { result.bytes ≡ place_text self }
    {
        let mut text = ArrayString::new();
        match self {
            Place::Number(number) => push_number(&mut text, u128::from(number)),
            Place::FromEnd(number) => {
                text.push('-');
                push_number(&mut text, u128::from(number));
            }
        }
        text
    }
}

/// Returns the field at this place of a line that is split at each separator, or `None` if the line
/// has fewer fields.
#[inline(always)]
pub(crate) fn field_at_place(line: &[u8], place: Place, separator: u8) -> Option<&[u8]>
    ensures { MatchOption result (at_place place (fields_of separator line.now) ≡ None)
        (λ field. at_place place (fields_of separator line.now) ≡ Some field.now) }
{
    match place {
        Place::Number(number) => field_of(line, number, separator),
        Place::FromEnd(number) => field_from_end(line, number, separator),
    }
}

/// Returns the word at this place of a line, or `None` if the line has fewer words.
#[inline(always)]
pub(crate) fn word_at_place(line: &[u8], place: Place) -> Option<&[u8]>
    ensures { MatchOption result (at_place place (words_of line.now) ≡ None)
        (λ word. at_place place (words_of line.now) ≡ Some word.now) }
{
    match place {
        Place::Number(number) => word_of(line, number),
        Place::FromEnd(number) => word_from_end(line, number),
    }
}
