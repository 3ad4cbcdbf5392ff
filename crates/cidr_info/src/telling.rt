//! Reports wrong command lines, texts that name no network, and faults of standard input.
ghost use Rattle.std.specs.Prelude.{◌≡◌};

use crate::help::{PROGRAM, USAGE};
use crate::rows::{IN, NO_NETWORK};
use crate::said::Said;
use arrayvec::ArrayString;
use ipnetwork::{CidrFault, IpNetwork, cause};
use lines::output::Output;
use lists::{BytesFault, EntryFault, Excerpt, LineFault, encoding_of, meant};
use options::faults::{Fault, Subject, about};
use options::items::Text;
use options::refusing::refuse;
use options::table::Row;
use program::escapes::tell_escaped;
use program::log_fault::tell_fault_of;
use program::messages::{tell, tell_number, tell_of};
use program::usage::tell_shown;
use std::io::Write;

/// Reports the fault of a command line, and what would do in place of a wrong value of `--in`, with
/// the usage, and returns the exit status.
pub(crate) fn refuse_words<E: Write>(
    rows: &[Row],
    fault: &Fault<'_>,
    errors: &mut Output<'_, E>,
) -> u8
    ensures { result ≡ 2 }
{
    match &fault.subject {
        Subject::Value(IN, value) => {
            let value = value.as_str();
            let hint = hint_of(value.as_bytes());
            let mut problem = ArrayString::<PROBLEM_MAX>::new();
            let _ = problem.try_push_str(NO_NETWORK);
            let _ = problem.try_push_str(hint.as_str());
            let subject = Subject::Value(IN, Text::new(value));
            refuse(
                PROGRAM,
                USAGE,
                rows,
                &about(subject, problem.as_str()),
                errors,
            )
        }
        _ => refuse(PROGRAM, USAGE, rows, fault, errors),
    }
}

/// The greatest length of a hint: a network takes at most 49 bytes of it.
const HINT_MAX: usize = 64;

/// The greatest length of what is wrong with a value of `--in`.
const PROBLEM_MAX: usize = 96;

// Returns what would do in place of a text, for the end of a message: nothing if that is not clear.
fn hint_of(text: &[u8]) -> ArrayString<HINT_MAX> {
    let mut hint = ArrayString::new();
    if let Some(network) = meant_by(text) {
        let _ = hint.try_push_str(" (write ");
        let _ = hint.try_push_str(network.canonical().as_str());
        let _ = hint.try_push_str(")");
    }
    hint
}

// Returns the network that is probably meant by a text that names none.
fn meant_by(text: &[u8]) -> Option<IpNetwork> {
    match cause(text) {
        Some(CidrFault::Addr) => meant(LineFault::Entry(EntryFault::Address), text),
        _ => None,
    }
}

/// Reports each of these texts that names no network.
pub(crate) fn tell_refusals<E: Write>(all: &[Said<'_>], errors: &mut Output<'_, E>) {
    for said in all {
        if said.network().is_none() {
            tell_refusal(said, errors);
        }
    }
}

// Reports a text that names no network, and what would do in its place.
fn tell_refusal<E: Write>(said: &Said<'_>, errors: &mut Output<'_, E>) {
    tell_of(PROGRAM, ": ", errors);
    tell_place(said, errors);
    tell(": refused ", errors);
    tell(cause_word(said.text()), errors);
    if said.line() > 0 {
        tell_text(said.text(), errors);
    }
    tell(hint_of(said.text()).as_str(), errors);
    tell("\n", errors);
}

// Writes the beginning of the text of a line, unless it is empty.
fn tell_text<E: Write>(text: &[u8], errors: &mut Output<'_, E>) {
    if text.is_empty() {
        return;
    }
    let excerpt = Excerpt::of(text);
    tell(": ", errors);
    tell_escaped(excerpt.bytes(), errors);
    if excerpt.is_cut() {
        tell("..", errors);
    }
}

// Writes where a text is: the word, with control characters escaped, or `-` and the line
// number.
fn tell_place<E: Write>(said: &Said<'_>, errors: &mut Output<'_, E>) {
    let line = said.line();
    if line > 0 {
        tell("-:", errors);
        tell_number(line, errors);
    } else {
        tell_shown(said.text(), errors);
    }
}

// Returns the name of the encoding, if the text is not plain text, and else why it names no
// network.
fn cause_word(text: &[u8]) -> &'static str {
    match encoding_of(text) {
        Some(encoding) => encoding.text(),
        None => plain_word(text),
    }
}

// Returns why a plain text names no network, in one word.
fn plain_word(text: &[u8]) -> &'static str {
    match cause(text) {
        Some(CidrFault::Format) => "format",
        Some(CidrFault::Prefix) => "prefix",
        Some(CidrFault::Addr) => "address",
        // A text that names a network has no cause.
        None => "",
    }
}

/// Reports why standard input was not read.
pub(crate) fn tell_input_fault<E: Write>(fault: BytesFault, errors: &mut Output<'_, E>) {
    match fault {
        BytesFault::Open(cause) => tell_fault_of(PROGRAM, "-", cause.text(), errors),
        BytesFault::Read => tell_fault_of(PROGRAM, "-", ": cannot read\n", errors),
        BytesFault::Length => {
            tell_fault_of(PROGRAM, "-", ": more than 1,073,741,824 bytes\n", errors);
        }
        BytesFault::OutOfMemory => tell_of(PROGRAM, ": out of memory\n", errors),
    }
}
