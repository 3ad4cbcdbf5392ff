//! The words of a command line.
ghost use Rattle.std.specs.Prelude.{◌≡◌};
ghost use Rattle.program.specs.Reported.{name_at};
ghost use Rattle.program.specs.Words.{is, is_only, count};

/// Whether the word is this text.
///
/// ```
/// let mut word = String::new(rt.alloc());
/// word.push_str("--help")?;
/// assert!(rt; program::command_line::is(&word, "--help"));
/// ```
pub fn is(word: &String, text: &str) -> bool
    ensures { result ≡ is text.now word.now }
{
    word.as_str() == text
}

/// Whether there is exactly one word, and it is this text.
pub(crate) fn is_only(words: &[String], text: &str) -> bool
    ensures { result ≡ is_only text.now words.now }
{
    words.len() == 1 && is(&words[0], text)
}

/// Returns how many of the words are this text.
///
/// ```
/// assert_eq!(rt; program::command_line::count_of(&[], "-"), 0);
/// ```
pub fn count_of(words: &[String], text: &str) -> usize
    ensures { result ≡ count text.now words.now }
{
    let mut count = 0;
    for word in words {
        if is(word, text) {
            count += 1;
        }
    }
    count
}

/// Returns the word at this index, or an empty text if there is no such word.
///
/// ```
/// assert_eq!(rt; program::command_line::text_at(&[], 0), "");
/// ```
pub fn text_at(words: &[String], place: usize) -> &str
    ensures { result.now ≡ name_at words.now place }
{
    if let Some(word) = words.get(place) {
        word.as_str()
    } else {
        ""
    }
}
