//! Starts a program: sets up the devices of its run, and handles its arguments.
ghost use Rattle.std.specs.Prelude.{◌≡◌, None, Some, MatchOption, codes};
ghost use Rattle.program.specs.Runs.{text_asked};
ghost use Rattle.program.specs.Words.{begins_with, without_first};

use crate::arguments::{ArgumentsFault, arguments, is_stand_in};
use crate::command_line::{is, is_only};
use crate::ending::tell_unwritten;
use crate::progress::Progress;
use crate::standard_error::StandardError;
use crate::standard_output::StandardOutput;
use crate::system::System;
use crate::usage::{refuse_arguments, refuse_stand_ins};
use lines::output::Output;
use std::cell::Cell;
use std::io::ErrorKind;
use std::process::ExitCode;

/// The most bytes that wait to be written to standard output.
const WAITING_MAX: usize = 65536;

/// The most bytes that wait to be written to standard error.
const TOLD_MAX: usize = 1024;

/// The exit status that a shell shows for a program that the signal of a closed pipe ended.
const CLOSED: u8 = 141;

/// Runs a program on the words after its name, without a first `--quiet`, and returns its exit
/// status. A word that is not UTF-8 is reported instead, with the exit status 2.
///
/// If the arguments cannot be read, that is reported instead. If a write to standard output failed
/// because nobody reads its pipe any more, reports that still wait are dropped, and the exit status
/// is 141, which a shell shows for a program that such a write ended. If a write failed for any other
/// cause, that cause is reported at the end.
///
/// ```
/// let usage = "usage: sum FILE\n";
/// let _ = program::start::start(&rt, "sum", usage, |_words, _lists, _output, _errors| 0);
/// ```
pub fn start<F>(rt: &HostRuntime, program: &str, usage: &str, run: F) -> ExitCode
where
    F: FnOnce(
        &[String],
        &System<'_>,
        &mut Output<'_, StandardOutput<'_>>,
        &mut Output<'_, StandardError<'_>>,
    ) -> u8,
    requires { F.IsAlwaysCallable run }
{
    start_on_files(rt, program, usage, |_words| false, run)
}

/// Runs a program as `start` does, also on words that stand for others that are not UTF-8, those
/// for which `is_stand_in` is true, if `takes` returns true for the words. No file can be opened by
/// such a word, and messages show, escaped, the word that it stands for.
///
/// ```
/// let usage = "usage: sum FILE..\n";
/// let takes = |_words: &[String]| true;
/// let _ = program::start::start_on_files(&rt, "sum", usage, takes, |_words, _lists, _out, _errors| 0);
/// ```
pub fn start_on_files<G, F>(
    rt: &HostRuntime,
    program: &str,
    usage: &str,
    takes: G,
    run: F,
) -> ExitCode
where
    G: FnOnce(&[String]) -> bool,
    F: FnOnce(
        &[String],
        &System<'_>,
        &mut Output<'_, StandardOutput<'_>>,
        &mut Output<'_, StandardError<'_>>,
    ) -> u8,
    requires takes { G.IsAlwaysCallable takes }
    requires run { F.IsAlwaysCallable run }
{
    let words = arguments(rt);
    let progress = Progress::new(rt, is_quiet(&words));
    let mut waiting = [0u8; WAITING_MAX];
    let failure = Cell::new(None);
    let standard_output = StandardOutput::new(rt.stdout(), &progress, &failure);
    let mut output = Output::new(standard_output, &mut waiting);
    let mut told = [0u8; TOLD_MAX];
    let mut errors = Output::new(StandardError::new(rt.stderr(), &progress), &mut told);
    let status = match words {
        Ok(words) => {
            let system = System::with_progress(rt, &progress);
            let asked = without_quiet(words.as_slice());
            if !has_stand_in(asked) || takes(asked) {
                run(asked, &system, &mut output, &mut errors)
            } else {
                refuse_stand_ins(program, asked, usage, &mut errors)
            }
        }
        Err(fault) => refuse_arguments(fault, program, usage, &mut errors),
    };
    progress.clear();
    match failure.get() {
        Some(ErrorKind::BrokenPipe) => return ExitCode::from(CLOSED),
        Some(kind) => tell_unwritten(program, kind, &mut errors),
        None => {}
    }
    let _ = errors.finish();
    ExitCode::from(status)
}

// Whether one of the words stands for another that is not UTF-8.
fn has_stand_in(words: &[String]) -> bool {
    words.iter().any(|word| is_stand_in(word.as_str()))
}

// Whether no progress is shown: the first word is `--quiet`, or there is nothing to run since the
// arguments cannot be read.
fn is_quiet(words: &Result<Vec<String>, ArgumentsFault>) -> bool {
    match words {
        Ok(words) => begins_quiet(words.as_slice()),
        Err(_) => true,
    }
}

// Whether the first word is `--quiet`.
fn begins_quiet(words: &[String]) -> bool
    ensures { result ≡ begins_with (codes "--quiet") words.now }
{
    match words {
        [first, ..] => is(first, "--quiet"),
        [] => false,
    }
}

// Returns the words without a first `--quiet`.
fn without_quiet(words: &[String]) -> &[String]
    ensures { result.now ≡ without_first (codes "--quiet") words.now }
{
    match words {
        [first, rest @ ..] => { if is(first, "--quiet") { rest } else { words } }
        [] => words,
    }
}

/// Returns the text that the only word asks for: the help for `--help` or `-h`, the version for
/// `--version`, or `None` for any other words.
///
/// ```
/// assert_eq!(rt; program::start::text_asked("Adds.\n", "sum 1\n", &[]), None);
/// ```
pub fn text_asked<'a>(help: &'a str, version: &'a str, words: &[String]) -> Option<&'a str>
    ensures { let asked = text_asked help.now version.now words.now in
        MatchOption result (asked ≡ None) (λ text. asked ≡ Some text.now) }
{
    if is_only(words, "--help") || is_only(words, "-h") {
        Some(help)
    } else if is_only(words, "--version") {
        Some(version)
    } else {
        None
    }
}
