//! Prints a line.
ghost use Rattle.std.specs.Prelude.{◌≤◌, ◌++◌, ◌∷◌, [], length};
ghost use Rattle.lines.specs.Outputs.{Prints};
ghost use Rattle.cidr_join.specs.Joins.{mark_of, shown_of};
ghost use Rattle.program.specs.LogLines.{feed_behind};
ghost use Rattle.program.specs.Putting.{PutsOrFails};

use crate::found::Found;
use crate::join::Join;
use lines::fault::RunFault;
use lines::line_end::LineEnd;
use lines::output::Output;
use program::log_reader::put_feed;
use program::putting::put_both;
use std::io::Write;

/// Writes a line and, before or after it, what was found for its address: the value, the network,
/// or a minus sign for nothing. `line` is the line without its end, `whole` with it; a missing line
/// feed is added.
pub(crate) fn print_line<W: Write>(
    join: &Join<'_>,
    found: &Found<'_>,
    line: &[u8],
    whole: &[u8],
    end: LineEnd,
    output: &mut Output<'_, W>,
) -> Result<(), RunFault>
    requires { length line.now ≤ length whole.now }
    ensures { PutsOrFails result output.old output.new
        (shown_of join.now.last (mark_of found.now) line.now (whole.now ++ feed_behind end)) }
{
    match found {
        Found::Network(network) => {
            let text = network.canonical();
            let mark = text.as_str().as_bytes();
            print_with(line, whole, end, join.last, mark, output)
        }
        Found::Value(value) => print_with(line, whole, end, join.last, value.bytes(), output),
        Found::Nothing => print_with(line, whole, end, join.last, b"-", output),
    }
}

// Writes a line with the mark before it or, if `last`, after it.
fn print_with<W: Write>(
    line: &[u8],
    whole: &[u8],
    end: LineEnd,
    last: bool,
    mark: &[u8],
    output: &mut Output<'_, W>,
) -> Result<(), RunFault>
    requires { length line.now ≤ length whole.now }
    ensures { PutsOrFails result output.old output.new
        (shown_of last mark.now line.now (whole.now ++ feed_behind end)) }
{
    if !last {
        put_both(mark, b"\t", output)?;
        output.put(whole)?;
        return put_feed(end, output);
    }
    let tail = &whole[line.len()..];
    put_both(line, b"\t", output)?;
    put_both(mark, tail, output)?;
    put_feed(end, output)
}
