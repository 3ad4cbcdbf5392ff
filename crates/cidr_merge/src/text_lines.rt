//! The lines of a text.
ghost use Rattle.std.specs.Prelude.{◌≡◌, ◌∷◌, ◌<◌, ◌≤◌, [], length, IfSome, MatchOption};
ghost use Rattle.std.specs.Str.Lines.{lines, strip_carriage_return};

use byte_search::find_from;

/// An iterator over the lines of a text, without their line endings.
#[derive(Clone, Copy, Debug)]
pub(crate) struct TextLines<'a> {
    text: &'a [u8],
}

impl<'a> TextLines<'a> {
    /// Returns an iterator over the lines of this text.
    pub(crate) fn of(text: &'a [u8]) -> TextLines<'a>
        ensures { result.text.now ≡ text.now }
    {
        TextLines { text }
    }

    /// Returns the next line. A line ends at a line feed, or a carriage return and a line feed, or
    /// at the end of the text.
    pub(crate) fn next(&mut self) -> Option<&'a [u8]>
        ensures line { MatchOption result (lines self.old.text.now ≡ [])
            (λ line. lines self.old.text.now ≡ line.now ∷ lines self.new.text.now) }
        ensures within { length self.new.text.now ≤ length self.old.text.now }
        ensures less { IfSome result (λ line. length self.new.text.now
            < length self.old.text.now) }
    {
        let text = self.text;
        if text.is_empty() {
            return None;
        }
        match find_from(text, 0, b'\n') {
            Some(end) => {
                self.text = &text[end + 1..];
                Some(without_return(&text[..end]))
            }
            None => {
                self.text = &text[text.len()..];
                Some(text)
            }
        }
    }
}

// Returns a line that a line feed ended, without the one carriage return at its end, if any.
fn without_return(line: &[u8]) -> &[u8]
    ensures { result.now ≡ strip_carriage_return line.now }
{
    match line.split_last() {
        Some((byte, front)) if *byte == b'\r' => front,
        _ => line,
    }
}
