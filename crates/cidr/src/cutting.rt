//! The words of a line.
ghost use Rattle.std.specs.Prelude.{◌≤◌, length, drop, MatchOption};
ghost use Rattle.cidr.specs.Private.Words.{IsLastWord, IsCut};

use byte_search::find_from;

/// Returns the word of a line that begins at the position `from`, and the position of the next
/// word, after a blank. Returns `None` if the rest of the line is one word.
#[inline(always)]
pub(crate) fn cut_word(line: &[u8], from: usize) -> Option<(&[u8], usize)>
    requires { from ≤ length line.now }
    ensures { MatchOption result (IsLastWord (drop from line.now))
        (λ cut. IsCut line.now from cut.0.now cut.1) }
{
    match find_from(line, from, b' ') {
        None => None,
        Some(end) => Some((&line[from..end], end + 1)),
    }
}
