//! How a program ends: its exit status, and what it reports about its output.
ghost use Rattle.std.specs.Prelude.{◌≡◌, OnOk, OnErr, is_err};
ghost use Rattle.lines.specs.Outputs.{Writes, FailsIn};
ghost use Rattle.program.specs.Endings.{ending, status_of, EndsPrinting};

use crate::messages::{tell, tell_of};
use lines::fault::RunFault;
use lines::output::Output;
use std::io::{ErrorKind, Write};

/// The exit status of a program that could not do what it was asked to do.
///
/// ```
/// assert_eq!(rt; program::ending::FAILED, 2);
/// ```
pub const FAILED: u8 = 2;

/// Returns `status` if the output was written; otherwise reports `PROGRAM: write error`, with the
/// program's name, and returns 2.
///
/// ```
/// let mut slice = [0; 64];
/// let mut errors = lines::output::Output::new(Vec::new(rt.alloc()), &mut slice);
/// assert_eq!(rt; program::ending::end("sum", Ok(()), 1, &mut errors), 1);
/// let failed = Err(lines::fault::RunFault::Write);
/// assert_eq!(rt; program::ending::end("sum", failed, 1, &mut errors), 2);
/// ```
pub fn end<E: Write>(
    program: &str,
    written: Result<(), RunFault>,
    status: u8,
    errors: &mut Output<'_, E>,
) -> u8
    ensures { result ≡ status_of written status }
{
    if written.is_err() {
        tell_of(program, ": write error\n", errors);
        return FAILED;
    }
    status
}

/// Writes what waits in the output and then a text, and returns the exit status: 0, or 2 if a write
/// failed, which is reported as `PROGRAM: write error`, with the program's name.
///
/// ```
/// let (slice, error_slice) = (&mut [0; 64], &mut [0; 64]);
/// let mut output = lines::output::Output::new(Vec::new(rt.alloc()), slice);
/// let mut errors = lines::output::Output::new(Vec::new(rt.alloc()), error_slice);
/// assert_eq!(rt; program::ending::print_text("sum", "sum 1\n", &mut output, &mut errors), 0);
/// ```
pub fn print_text<W: Write, E: Write>(
    program: &str,
    text: &str,
    output: &mut Output<'_, W>,
    errors: &mut Output<'_, E>,
) -> u8
    ensures { EndsPrinting text.now (ending output.old output.new errors.old errors.new result) }
{
    let written = write_text(text, output);
    end(program, written, 0, errors)
}

// Writes what waits in the output, and then a text.
fn write_text<W: Write>(text: &str, output: &mut Output<'_, W>) -> Result<(), RunFault>
    ensures written { OnOk result (Writes output.old output.new text.now) }
    ensures cut { OnErr result (FailsIn output.old output.new text.now) }
    ensures failed { output.new.failed ≡ is_err result }
{
    output.put(text.as_bytes())?;
    output.finish()
}

/// Reports, in the name of a program, why a write to standard output failed, by the kind of the
/// system's error.
///
/// ```
/// use program::ending::tell_unwritten;
/// use std::io::ErrorKind;
///
/// let (mut slice, mut room) = ([0; 64], [0; 46]);
/// let mut errors = lines::output::Output::new(room.as_mut_slice(), &mut slice);
/// tell_unwritten("sum", ErrorKind::StorageFull, &mut errors);
/// assert_eq!(rt; errors.finish(), Ok(()));
/// drop(errors);
/// assert_eq!(rt; room, *b"sum: standard output: no space left on device\n");
/// ```
pub fn tell_unwritten<E: Write>(program: &str, kind: ErrorKind, errors: &mut Output<'_, E>) {
    tell_of(program, ": standard output", errors);
    tell(write_cause(kind), errors);
}

// Returns why a write failed, by the kind of the system's error.
fn write_cause(kind: ErrorKind) -> &'static str {
    match kind {
        ErrorKind::StorageFull => ": no space left on device\n",
        ErrorKind::FileTooLarge => ": file too large\n",
        _ => ": cannot write\n",
    }
}
