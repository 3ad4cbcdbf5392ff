//! The words of a line.
ghost use Rattle.std.specs.Prelude.{◌≡◌, ◌≤◌, ◌-◌, None, Some, MatchOption, length, slice_get};
ghost use Rattle.line_addresses.specs.Words.{words_of, is_blank};
ghost use Rattle.line_addresses.specs.Private.LineRuns.{IsWordEnd};

/// Returns the word with this number, from 1 on, of a line, or `None` if it has fewer words. Words
/// are separated by spaces and tabs. The number 0 counts as 1.
///
/// ```
/// assert_eq!(rt; word_of(b"Nov  3 10:00:00 host", 2), Some(b"3".as_slice()));
/// assert_eq!(rt; word_of(b"Nov  3 10:00:00 host", 5), None);
/// ```
pub fn word_of(line: &[u8], number: u32) -> Option<&[u8]>
    ensures { MatchOption result (slice_get (words_of line.now) (number - 1) ≡ None)
        (λ word. slice_get (words_of line.now) (number - 1) ≡ Some word.now) }
{
    let mut at = 0;
    let mut more = number.saturating_sub(1);
    'words: while at < line.len() {
        let end = word_end(line, at);
        if end == at {
            at += 1;
            continue 'words;
        }
        if more == 0 {
            return Some(&line[at..end]);
        }
        more -= 1;
        at = end;
    }
    None
}

// Returns the index after the non-blank bytes that begin at `start`.
#[inline(always)]
fn word_end(line: &[u8], start: usize) -> usize
    requires { start ≤ length line.now }
    ensures { IsWordEnd line.now start result }
{
    for at in start..line.len() {
        if is_blank(line[at]) {
            return at;
        }
    }
    line.len()
}

// Returns whether a byte is a space or a tab.
fn is_blank(byte: u8) -> bool
    ensures { result ≡ is_blank byte }
{
    byte == b' ' || byte == b'\t'
}
