//! What the words of a command line say, as a list of items.
ghost use Rattle.std.specs.Prelude.{◌≡◌};

use std::marker::Model;

/// A text from a command line.
///
/// ```
/// let text = options::items::Text::new("10.0.0.0/8");
/// assert_eq!(rt; text.as_str(), "10.0.0.0/8");
/// ```
#[derive(Debug, Drop)]
pub struct Text<'a> {
    text: &'a str,
}

// Contracts see the text as its bytes.
impl<'a> Model for Text<'a> {
    ghost use Rattle.std.specs.Prelude.{ℕ, List};

    ghost Value = { List ℕ };

    ghost view = { λ text. text.text.now };
}

impl<'a> Text<'a> {
    /// Creates a text from a string slice.
    ///
    /// ```
    /// assert!(rt; options::items::Text::new("").as_str().is_empty());
    /// ```
    pub fn new(text: &'a str) -> Text<'a>
        ensures { result ≡ text.now }
    {
        Text { text }
    }

    /// Returns the text as a string slice.
    ///
    /// ```
    /// assert_eq!(rt; options::items::Text::new("-").as_str(), "-");
    /// ```
    pub fn as_str(&self) -> &'a str
        ensures { result.now ≡ self.now }
    {
        self.text
    }
}

/// An item of a command line: an option, by the index of its row in the table, a FILE, or a word
/// that is no option.
///
/// ```
/// use options::items::{Item, Text};
///
/// let item = Item::Joined(2, Text::new("7"), Text::new("-k7"));
/// assert!(rt; matches!(item, Item::Joined(2, _, _)));
/// ```
#[derive(Debug, Drop)]
pub enum Item<'a> {
    /// An option without a value.
    Flag(usize),
    /// An option and its value, which is the next word, or follows the last of several letters.
    Value(usize, Text<'a>),
    /// An option and its value in one word: the row, the value and the whole word.
    Joined(usize, Text<'a>, Text<'a>),
    /// A FILE, by its name.
    File(Text<'a>),
    /// A word that begins with `-` but is no option.
    Unknown(Text<'a>),
    /// An option that lacks the value it takes.
    Lacks(usize),
}

/// Where a word is.
///
/// ```
/// use options::items::Mode;
///
/// assert!(rt; Mode::Value(2) != Mode::Free);
/// ```
#[derive(Clone, Copy, Debug, PartialEq, Eq)]
pub enum Mode {
    /// Where an option, a FILE or `--` may be.
    Free,
    /// Where the value of the option of this row is.
    Value(usize),
    /// After `--`, where only a FILE may be.
    Files,
}
