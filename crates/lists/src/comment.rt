//! The comment of a line.
ghost use Rattle.std.specs.Prelude.{◌≡◌};
ghost use Rattle.lists.specs.Lines.{before_comment, comment_text};

use crate::cutting::before;
use crate::trimming::{Blank, ByteKind, front_len, trim};

/// Returns what comes before the first `#` or `;` of a line, or the whole line if it has neither.
///
/// ```
/// assert_eq!(rt; lists::without_comment(b"10.0.0.0/8 # private"), b"10.0.0.0/8 ".as_slice());
/// ```
pub fn without_comment(line: &[u8]) -> &[u8]
    ensures { result.now ≡ before_comment line.now }
{
    before(before(line, b'#'), b';')
}

/// Returns the first words of the comment of a line: what follows its marks and blanks, up to the
/// next mark, without the blanks around it.
pub(crate) fn comment_text(line: &[u8]) -> &[u8]
    ensures { result.now ≡ comment_text line.now }
{
    let comment = &line[without_comment(line).len()..];
    trim::<Blank>(without_comment(&comment[front_len::<Gap>(comment)..]))
}

/// Blanks, and the marks that begin a comment.
struct Gap;

impl ByteKind for Gap {
    ghost use Rattle.lists.specs.Lines.{is_gap};

    ghost is_one = { is_gap };

    fn has(byte: u8) -> bool {
        byte == b' ' || byte == b'\t' || byte == b'#' || byte == b';'
    }
}
