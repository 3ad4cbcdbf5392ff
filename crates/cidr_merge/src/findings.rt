//! The lines in which findings are printed.
ghost use Rattle.std.specs.Prelude.{◌≡◌, ◌++◌, ◌||◌, codes};
ghost use Rattle.program.specs.Escapes.{escaped};
ghost use Rattle.program.specs.Messages.{Reports};
ghost use Rattle.cidr_merge.specs.Findings.{place_text, refusal_text};
ghost use Rattle.cidr_merge.specs.Findings.{cut_text, host_bits_text, line_shown, separator};

use crate::help::PROGRAM;
use crate::numbered_lines::Line;
use lines::output::Output;
use lists::{LineFault, meant};
use program::escapes::tell_escaped;
use program::messages::{tell, tell_bytes, tell_number, tell_of};
use program::usage::tell_shown;
use std::io::Write;

/// Prints why a line is refused, and the line, unless it is too long.
pub(crate) fn tell_wrong<W: Write>(line: &Line<'_>, fault: LineFault, output: &mut Output<'_, W>)
    ensures { Reports output.old output.new
        (refusal_text line.now.name.now line.now.number fault line.now.text.now) }
{
    let text = line_shown(fault, line.text);
    let line = Line { text, ..*line };
    tell_line(
        &line,
        ": refused ",
        fault.text().as_bytes(),
        separator(text),
        output,
    );
}

/// Reports why a line is refused, as `tell_wrong` prints it, in the name of the program, and what
/// would do in its place.
pub(crate) fn tell_refused<E: Write>(
    line: &Line<'_>,
    fault: LineFault,
    errors: &mut Output<'_, E>,
) {
    let text = line_shown(fault, line.text);
    tell_of(PROGRAM, ": ", errors);
    tell_place(line.name, line.number, errors);
    tell_of(": refused ", fault.text(), errors);
    tell(separator(text), errors);
    tell_escaped(text, errors);
    tell_meant(fault, text, errors);
    tell("\n", errors);
}

// Reports the network that is probably meant, if that is clear.
fn tell_meant<E: Write>(fault: LineFault, text: &[u8], errors: &mut Output<'_, E>) {
    if let Some(network) = meant(fault, text) {
        tell(" (write ", errors);
        tell(network.canonical().as_str(), errors);
        tell(")", errors);
    }
}

/// Prints that the entry of a line has host bits, and the line.
pub(crate) fn tell_host_bits<W: Write>(line: &Line<'_>, output: &mut Output<'_, W>)
    ensures { Reports output.old output.new
        (host_bits_text line.now.name.now line.now.number line.now.text.now) }
{
    tell_line(line, ": host bits", b"", ": ", output);
}

/// Prints that no line feed ends the last line of a list, which may go on, and the line.
pub(crate) fn tell_cut<W: Write>(line: &Line<'_>, output: &mut Output<'_, W>)
    ensures { Reports output.old output.new
        (cut_text line.now.name.now line.now.number line.now.text.now) }
{
    tell_line(
        line,
        ": no line feed at the end",
        b"",
        ": may be cut off: ",
        output,
    );
}

/// Prints the place of a line, two texts about it (`what` and `about`), a separator, and the line,
/// escaped.
pub(crate) fn tell_line<W: Write>(
    line: &Line<'_>,
    what: &str,
    about: &[u8],
    separator: &str,
    output: &mut Output<'_, W>,
)
    ensures { Reports output.old output.new
        (place_text line.now.name.now line.now.number ++ what.now
        ++ about.now ++ separator.now ++ escaped line.now.text.now ++ codes "\n") }
{
    tell_place(line.name, line.number, output);
    tell(what, output);
    tell_bytes(about, output);
    tell(separator, output);
    tell_escaped(line.text, output);
    tell("\n", output);
}

/// Prints the place of a line: `FILE:LINE`, with the name as messages show it.
pub(crate) fn tell_place<W: Write>(name: &str, number: usize, output: &mut Output<'_, W>)
    ensures { Reports output.old output.new (place_text name.now number) }
{
    tell_shown(name.as_bytes(), output);
    tell(":", output);
    tell_number(number as u64, output);
}

/// Returns whether something was found in either of two places.
pub(crate) fn either(here: bool, there: bool) -> bool
    ensures { result ≡ (here || there) }
{
    here || there
}

// Returns the text to show of a refused line: the line, or nothing if it is too long.
fn line_shown(fault: LineFault, line: &[u8]) -> &[u8]
    ensures { result.now ≡ line_shown fault line.now }
{
    match fault {
        LineFault::Entry(_) => line,
        LineFault::Length => &line[..0],
    }
}

// Returns the text between a fault and the text of its line.
fn separator(line: &[u8]) -> &'static str
    ensures { result.now ≡ separator line.now }
{
    if line.is_empty() { "" } else { ": " }
}
