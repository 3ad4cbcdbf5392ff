//! The comments of a list: lines, what is directly after a network, and values that begin as one.
ghost use Rattle.std.specs.Prelude.{◌≡◌, ◌≤◌, length};
ghost use Rattle.std.specs.Bool.{MatchBool};
ghost use Rattle.cidr_join.specs.Comments.{HasEntry, HasNoEntry, comment_len, comment_words, is_skipped};

use lists::{ByteKind, front_len, read_entry, without_comment};

/// Whether a text, without the blanks around it, is empty or begins with `#` or `;`.
pub(crate) fn is_skipped(text: &[u8]) -> bool
    ensures { result ≡ is_skipped text.now }
{
    match text.first() {
        Some(byte) => *byte == b'#' || *byte == b';',
        None => true,
    }
}

/// Returns the length of a text if it begins with `#` or `;`, and else 0.
pub(crate) fn comment_len(text: &[u8]) -> usize
    ensures len { result ≡ comment_len text.now }
    ensures within { result ≤ length text.now }
{
    match text.first() {
        Some(byte) if *byte == b'#' || *byte == b';' => text.len(),
        _ => 0,
    }
}

/// Whether a value begins as a comment does, and the first words of that comment are an entry.
pub(crate) fn has_entry(value: &[u8]) -> bool
    ensures { MatchBool result (HasEntry value.now) (HasNoEntry value.now) }
{
    is_skipped(value) && matches!(read_entry(comment_words(value)), Ok(Some(_)))
}

// Returns what follows the marks of comments and the blanks that a text begins with, up to the next
// mark.
fn comment_words(text: &[u8]) -> &[u8]
    ensures { result.now ≡ comment_words text.now }
{
    without_comment(&text[front_len::<BeforeWords>(text)..])
}

// A space, a tab, `#` or `;`.
struct BeforeWords;

impl ByteKind for BeforeWords {
    ghost use Rattle.lists.specs.Lines.{is_gap};

    ghost is_one = { is_gap };

    fn has(byte: u8) -> bool {
        byte == b' ' || byte == b'\t' || byte == b'#' || byte == b';'
    }
}
