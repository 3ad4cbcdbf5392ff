//! Reports a command line that has a fault.
ghost use Rattle.std.specs.Prelude.{◌≡◌};

use crate::faults::{Fault, Subject};
use crate::items::Text;
use crate::table::Row;
use lines::output::Output;
use program::ending::FAILED;
use program::messages::{tell, tell_bytes};
use program::usage::tell_shown;
use std::io::Write;

/// Reports the fault of a command line and the usage, and returns the exit status 2.
///
/// The first line is `PROGRAM: PROBLEM`, `PROGRAM: WORD: PROBLEM`, `PROGRAM: OPTION: PROBLEM` or
/// `PROGRAM: OPTION: VALUE: PROBLEM`, by the subject of the fault. An empty word is shown as `''`,
/// and control characters are escaped. The usage follows.
///
/// ```
/// use options::faults::{Subject, about};
/// use options::refusing::refuse;
///
/// let mut slice = [0; 64];
/// let mut errors = lines::output::Output::new(Vec::new(rt.alloc()), &mut slice);
/// let fault = about(Subject::CommandLine, "no FILE");
/// assert_eq!(rt; refuse("sum", "usage: sum FILE\n", &[], &fault, &mut errors), 2);
/// ```
pub fn refuse<E: Write>(
    program: &str,
    usage: &str,
    rows: &[Row],
    fault: &Fault<'_>,
    errors: &mut Output<'_, E>,
) -> u8
    ensures { result ≡ 2 }
{
    tell(program, errors);
    tell(": ", errors);
    tell_subject(rows, &fault.subject, errors);
    tell(fault.problem.as_str(), errors);
    tell("\n", errors);
    tell(usage, errors);
    FAILED
}

// Writes the subject of a fault, as it is before the problem.
fn tell_subject<E: Write>(rows: &[Row], subject: &Subject<'_>, errors: &mut Output<'_, E>) {
    match subject {
        Subject::CommandLine => {}
        Subject::Word(word) => {
            tell_word(word, errors);
            tell(": ", errors);
        }
        Subject::Option(row) => {
            tell_option(rows, *row, errors);
            tell(": ", errors);
        }
        Subject::Value(row, value) => {
            tell_option(rows, *row, errors);
            tell(": ", errors);
            tell_word(value, errors);
            tell(": ", errors);
        }
    }
}

// Writes the option of a row: its letter after `-`, or its long name if it has no letter.
fn tell_option<E: Write>(rows: &[Row], row: usize, errors: &mut Output<'_, E>) {
    let Some(row) = rows.get(row) else {
        return;
    };
    match row.letter {
        Some(letter) => tell_bytes(&[b'-', letter], errors),
        None => tell(row.name, errors),
    }
}

// Writes a word as messages show it.
fn tell_word<E: Write>(word: &Text<'_>, errors: &mut Output<'_, E>) {
    let text = word.as_str();
    tell_shown(text.as_bytes(), errors);
}
