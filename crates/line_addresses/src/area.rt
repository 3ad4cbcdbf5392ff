//! Where to look for the addresses of a line.
ghost use Rattle.std.specs.Prelude.{◌≡◌};

use crate::place::Place;
use std::marker::Model;

/// Where to look for the addresses of a line: in which part of it, and for which addresses there.
///
/// ```
/// let area = Area { part: Part::Word(Place::Number(3)), pick: Pick::Whole };
/// let line = b"Nov  3 10.1.1.1";
/// assert_eq!(rt; part_of(&area.part, line), Some(b"10.1.1.1".as_slice()));
/// ```
#[derive(Debug, Drop)]
pub struct Area<'a> {
    /// The part of the line.
    pub part: Part<'a>,
    /// Which addresses of that part.
    pub pick: Pick,
}

/// A part of a line.
///
/// ```
/// assert_eq!(rt; part_of(&Part::Word(Place::Number(2)), b"a 10.1.1.1"), Some(b"10.1.1.1".as_slice()));
/// ```
#[derive(Debug, Drop)]
pub enum Part<'a> {
    /// The whole line.
    Line,
    /// The field at this place. The line is split at each separator.
    Field {
        /// Which of the fields.
        place: Place,
        /// The byte that separates fields.
        separator: u8,
    },
    /// The word at this place. Words are separated by spaces and tabs.
    Word(Place),
    /// What follows a text, if an address follows directly.
    After(Text<'a>),
}

/// Which addresses of a part of a line are picked.
///
/// ```
/// let found = picked(b"10.1.1.1, 10.1.1.2", Pick::Last, false);
/// assert_eq!(rt; found.map(|found| found.address), Some("10.1.1.2".parse()?));
/// ```
#[derive(Clone, Copy, Debug, PartialEq, Eq)]
pub enum Pick {
    /// The whole part, if it is an address.
    Whole,
    /// All addresses anywhere in the part.
    Each,
    /// The address with this number in the part, from 1 on.
    Number(u32),
    /// The last address in the part.
    Last,
}

/// A text from a command line.
///
/// ```
/// assert_eq!(rt; Text::new(b"SRC=").bytes(), b"SRC=".as_slice());
/// ```
#[derive(Debug, Drop)]
pub struct Text<'a> {
    bytes: &'a [u8],
}

// Contracts see the text as its bytes.
impl<'a> Model for Text<'a> {
    ghost use Rattle.std.specs.Prelude.{ℕ, List};

    ghost Value = { List ℕ };

    ghost view = { λ text. text.bytes.now };
}

impl<'a> Text<'a> {
    /// Returns the text of these bytes.
    ///
    /// ```
    /// let text = Text::new(b"from ");
    /// assert_eq!(rt; following(b"refused from 10.1.1.1", text.bytes()), Some(b"10.1.1.1".as_slice()));
    /// ```
    pub fn new(bytes: &'a [u8]) -> Text<'a>
        ensures { result ≡ bytes.now }
    {
        Text { bytes }
    }

    /// Returns the bytes of the text.
    ///
    /// ```
    /// assert_eq!(rt; Text::new(b"SRC=").bytes(), b"SRC=".as_slice());
    /// ```
    pub fn bytes(&self) -> &[u8]
        ensures { result.now ≡ self.now }
    {
        self.bytes
    }
}
