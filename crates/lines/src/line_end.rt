//! How a line ends, and where.
ghost use Rattle.std.specs.Prelude.{◌≡◌, ◌≤◌, ◌++◌, ◌∷◌, [], length, take};
ghost use Rattle.std.specs.Str.Lines.{strip_carriage_return};
ghost use Rattle.lines.specs.LineEnds.{end_bytes};
ghost use Rattle.lines.specs.Private.Cuts.{HasFeed};

/// How a line ended. The line ending is not part of the line.
///
/// ```
/// use lines::line_buffer::{LineBuffer, NextLine};
/// use lines::line_end::LineEnd;
/// use lines::watched::Watched;
///
/// let mut room = [0; 10];
/// let mut lines = LineBuffer::new(&mut room, 8);
/// assert_eq!(rt; lines.ask(&mut Watched::new(b"a\r\nb\n".as_slice())), Ok(5));
/// assert_eq!(rt; lines.next(), NextLine::Line(LineEnd::ReturnAndLineFeed));
/// assert_eq!(rt; lines.next(), NextLine::Line(LineEnd::LineFeed));
/// ```
#[derive(Clone, Copy, Debug, PartialEq, Eq)]
pub enum LineEnd {
    /// By a line feed with no carriage return before it.
    LineFeed,
    /// By a carriage return and a line feed.
    ReturnAndLineFeed,
    /// By the end of the input.
    EndOfInput,
}

/// Where a line ends: the number of bytes before its line feed, the number of these that belong to
/// the line, and how the line ended.
#[derive(Clone, Copy)]
pub(crate) struct Cut {
    pub(crate) before: usize,
    pub(crate) content: usize,
    pub(crate) end: LineEnd,
}

/// Returns the end of a line that has these bytes before its line feed.
pub(crate) fn cut_before(raw: &[u8]) -> Cut
    ensures before { result.before ≡ length raw.now }
    ensures content { take result.content raw.now ≡ strip_carriage_return raw.now }
    ensures within { result.content ≤ length raw.now }
    ensures bytes { raw.now ++ 10 ∷ [] ≡ strip_carriage_return raw.now ++ end_bytes result.end }
    ensures has_feed { HasFeed result.end }
{
    let before = raw.len();
    match raw.split_last() {
        Some((last, front)) if *last == b'\r' => Cut {
            before,
            content: front.len(),
            end: LineEnd::ReturnAndLineFeed,
        },
        _ => Cut {
            before,
            content: before,
            end: LineEnd::LineFeed,
        },
    }
}
