//! Why a log was not read to its end, and what is reported then.
ghost use Rattle.program.specs.LogFaults.{StopsBy};

use crate::messages::{tell, tell_head, tell_number, tell_of};
use lines::output::Output;
use std::io::Write;

/// Why a log was not read to its end.
#[derive(Clone, Copy, Debug, PartialEq, Eq)]
pub enum LogFault {
    /// A read failed.
    Read,
    /// A write failed.
    Write,
    /// A line without an address ended the run.
    Address,
    /// A line that is too long ended the run.
    Length,
    /// The log has more than 18,446,744,073,709,551,615 bytes.
    Endless,
}

/// Writes what waits in the output, and reports in the name of a program why the log of this name
/// was not read to its end, after this many of its lines.
///
/// If the fault is a failed write, or the write fails now, `PROGRAM: write error` is reported.
///
/// ```
/// use lines::output::Output;
/// use program::log_fault::{LogFault, stop};
///
/// let (mut slice, mut error_slice, mut room) = ([0; 8], [0; 64], [0; 29]);
/// let mut output = Output::new(Vec::new(rt.alloc()), &mut slice);
/// let mut errors = Output::new(room.as_mut_slice(), &mut error_slice);
/// stop("sum", "log", LogFault::Address, 6, &mut output, &mut errors);
/// assert_eq!(rt; errors.finish(), Ok(()));
/// drop(errors);
/// assert_eq!(rt; room.as_slice(), b"sum: log:7: refused address\n\0".as_slice());
/// ```
pub fn stop<W: Write, E: Write>(
    program: &str,
    name: &str,
    fault: LogFault,
    lines: u64,
    output: &mut Output<'_, W>,
    errors: &mut Output<'_, E>,
)
    ensures { StopsBy fault output.old output.new }
{
    match fault {
        LogFault::Write => tell_log_fault(program, name, LogFault::Write, lines, errors),
        _ => match output.hand_on() {
            Ok(()) => tell_log_fault(program, name, fault, lines, errors),
            Err(_) => tell_log_fault(program, name, LogFault::Write, lines, errors),
        },
    }
}

/// Reports in the name of a program why the log of this name was not read to its end, after this
/// many of its lines.
///
/// ```
/// use program::log_fault::{LogFault, tell_log_fault};
///
/// let (mut slice, mut room) = ([0; 64], [0; 28]);
/// let mut errors = lines::output::Output::new(room.as_mut_slice(), &mut slice);
/// tell_log_fault("sum", "log", LogFault::Length, 6, &mut errors);
/// assert_eq!(rt; errors.finish(), Ok(()));
/// drop(errors);
/// assert_eq!(rt; room.as_slice(), b"sum: log:7: refused length\n\0".as_slice());
/// ```
pub fn tell_log_fault<E: Write>(
    program: &str,
    name: &str,
    fault: LogFault,
    lines: u64,
    errors: &mut Output<'_, E>,
) {
    match fault {
        LogFault::Read => tell_fault_of(program, name, ": cannot read\n", errors),
        LogFault::Write => tell_of(program, ": write error\n", errors),
        LogFault::Address => tell_line(program, name, lines, "address", errors),
        LogFault::Length => tell_line(program, name, lines, "length", errors),
        LogFault::Endless => tell_fault_of(program, name, ": too long\n", errors),
    }
}

/// Reports, in the name of a program, a text about what has this name, which is shown as
/// messages show words.
///
/// ```
/// let mut slice = [0; 64];
/// let mut errors = lines::output::Output::new(Vec::new(rt.alloc()), &mut slice);
/// program::log_fault::tell_fault_of("sum", "log", ": cannot open\n", &mut errors);
/// assert_eq!(rt; errors.finish(), Ok(()));
/// ```
pub fn tell_fault_of<E: Write>(program: &str, name: &str, text: &str, errors: &mut Output<'_, E>) {
    tell_head(program, name, errors);
    tell(text, errors);
}

/// Reports, in the name of a program, that the line of a file after this many others is refused,
/// and the cause.
///
/// ```
/// let mut slice = [0; 64];
/// let mut errors = lines::output::Output::new(Vec::new(rt.alloc()), &mut slice);
/// program::log_fault::tell_line("sum", "log", 6, "address", &mut errors);
/// assert_eq!(rt; errors.finish(), Ok(()));
/// ```
pub fn tell_line<E: Write>(
    program: &str,
    name: &str,
    lines: u64,
    cause: &str,
    errors: &mut Output<'_, E>,
) {
    tell_head(program, name, errors);
    tell(":", errors);
    tell_number(lines.saturating_add(1), errors);
    tell(": refused ", errors);
    tell(cause, errors);
    tell("\n", errors);
}
