//! Filters the logs of a run in turn.
ghost use Rattle.std.specs.Prelude.{◌≡◌, ◌≤◌, [], false, ℕ, List, Some, length, map, is_ok, IfOk, IfErr, MatchOption};
ghost use Rattle.lines.specs.Watched.{device_of, has_failed};
ghost use Rattle.std.specs.String.{string_bytes};
ghost use Rattle.log_programs.specs.LogsInTurn.{Finishes, StopsLog, TakesLog};
ghost use Rattle.cidr_filter.specs.Logs.{FiltersLog, FiltersLogs, both, is_enough, nothing, status_by};

use crate::filter::{Filter, OutputMode, Verdict};
use crate::help::PROGRAM;
use crate::log::{Reached, Tally, filter_log};
use crate::naming::{label_of, put_count};
use line_addresses::Text;
use lines::output::Output;
use lines::watched::Watched;
use lists::{OpenFault, OpenLists, open_input, open_list};
use log_programs::telling::{
    Unaddressed, is_missed, tell_closed, tell_lacking, tell_seen, tell_unaddressed,
};
use log_programs::without_address::WithoutAddress;
use program::ending::{FAILED, end};
use program::log_fault::{LogFault, stop};
use program::log_reader::LogReader;
use std::io::Write;
use std::mem::replace;

/// The exit status if a line was selected.
const SELECTED: u8 = 0;

/// The exit status if none was.
const NONE_SELECTED: u8 = 1;

/// What a log, or logs, come to.
#[derive(Clone, Copy, Debug, PartialEq, Eq)]
pub struct Outcome {
    /// How many of its lines are selected.
    pub selected: u64,
    /// Whether it could not be opened, or a line of it is missed.
    pub missed: bool,
}

impl Outcome {
    // Returns what no logs come to.
    fn new() -> Outcome
        ensures { result ≡ nothing }
    {
        Outcome {
            selected: 0,
            missed: false,
        }
    }

    // Returns what logs and one more come to.
    fn with(self, one: Outcome) -> Outcome
        ensures { result ≡ both self one }
    {
        Outcome {
            selected: self.selected.saturating_add(one.selected),
            missed: self.missed || one.missed,
        }
    }

    // Returns whether no log more is opened after logs that come to this.
    fn is_enough(self, is_silent: bool) -> bool
        ensures { result ≡ is_enough is_silent self }
    {
        is_silent && self.selected > 0
    }

    // Returns the exit status.
    fn status(self, is_silent: bool) -> u8
        ensures { result ≡ status_by is_silent (Some self) }
    {
        if self.is_enough(is_silent) {
            SELECTED
        } else if self.missed {
            FAILED
        } else if self.selected > 0 {
            SELECTED
        } else {
            NONE_SELECTED
        }
    }
}

/// Filters the logs of these names in their order, and returns the exit status.
pub(crate) fn filter_logs<'a, L: OpenLists, W: Write, E: Write>(
    filter: &mut Filter<'a>,
    lists: &L,
    files: &'a [String],
    buffer: &mut [u8],
    output: &mut Output<'_, W>,
    errors: &mut Output<'_, E>,
) -> u8
    requires room { 1048578 ≤ length buffer.old }
    ensures { FiltersLogs filter.old (L.known lists.now) (map string_bytes files.now)
        output.old output.new result }
{
    let is_silent = filter.is_silent();
    let mut total = Outcome::new();
    let mut unaddressed = Unaddressed::new();
    for file in files {
        if total.is_enough(is_silent) {
            return finish(total.status(is_silent), output, errors);
        }
        let name = file.as_str();
        let Some(next) = filter_one(
            filter,
            lists,
            name,
            buffer,
            total,
            &mut unaddressed,
            output,
            errors,
        ) else {
            return FAILED;
        };
        total = next;
    }
    tell_left(filter, &unaddressed, errors);
    finish(total.status(is_silent), output, errors)
}

// Reports how many lines have no address, so that neither the run nor one with `-v` prints them,
// unless nothing is printed or `--bad` says what becomes of them.
fn tell_left<E: Write>(filter: &Filter<'_>, unaddressed: &Unaddressed, errors: &mut Output<'_, E>) {
    if filter.bad == WithoutAddress::Unsaid && filter.shows != OutputMode::Nothing {
        tell_unaddressed(PROGRAM, &filter.area, unaddressed, errors);
    }
}

// Writes what waits, and returns the exit status: this one, or 2 if a write failed, which is
// reported.
fn finish<W: Write, E: Write>(
    status: u8,
    output: &mut Output<'_, W>,
    errors: &mut Output<'_, E>,
) -> u8
    ensures { Finishes output.old output.new [] status result }
{
    let written = output.finish();
    end(PROGRAM, written, status, errors)
}

// Opens the log with this name. If lines or their addresses are printed, it refuses the file that
// they are written to.
fn open_log<L: OpenLists>(
    shows: OutputMode,
    lists: &L,
    name: &str,
) -> Result<Watched<L::List>, OpenFault>
    ensures bytes { IfOk result (λ list. (bytes : List ℕ)
        → (L.known lists.now).bytes_of name.now ≡ Some bytes
        → L.List.remaining (device_of list) ≡ Some bytes) }
    ensures opened { (L.known lists.now).may_open name.now (is_ok result) }
    ensures missed { IfErr result (λ fault. (L.known lists.now).may_miss name.now fault) }
    ensures failed { IfOk result (λ list. has_failed list ≡ false) }
{
    match shows {
        OutputMode::Lines | OutputMode::Addresses => open_input(lists, name),
        _ => open_list(lists, name),
    }
}

// Opens the log with this name and filters it, and returns what the logs up to it come to; those
// before it came to `total`. What is missed is reported, and lines without an address are counted.
// If a fault ends the run, that is reported and `None` is returned.
fn filter_one<'a, L: OpenLists, W: Write, E: Write>(
    filter: &mut Filter<'a>,
    lists: &L,
    name: &'a str,
    buffer: &mut [u8],
    total: Outcome,
    unaddressed: &mut Unaddressed,
    output: &mut Output<'_, W>,
    errors: &mut Output<'_, E>,
) -> Option<Outcome>
    requires { 1048578 ≤ length buffer.old }
    ensures logs { MatchOption result
        (StopsLog (FiltersLog filter.old (L.known lists.now)) (L.known lists.now) name.now
        output.old total output.new)
        (TakesLog (FiltersLog filter.old (L.known lists.now)) name.now
        output.old total output.new) }
    ensures filter { filter.new ≡ filter.old }
{
    let mut log = match open_log(filter.shows, lists, name) {
        Ok(log) => log,
        Err(cause) => {
            tell_closed(PROGRAM, name, cause, errors);
            return Some(total.with(Outcome {
                selected: 0,
                missed: true,
            }));
        }
    };
    let label = label_of(filter.named, name);
    let before = replace(&mut filter.name, Text::new(label));
    let mut tally = Tally::new();
    let mut lines = LogReader::new(buffer, filter.refuses(&Verdict::TooLong));
    let end = filter_log(filter, &mut lines, &mut log, output, &mut tally);
    filter.name = before;
    lists.close(name, log);
    let (selected, seen) = (tally.selected, tally.seen);
    tell_seen(PROGRAM, name, filter.bad, &seen, errors);
    match end {
        Ok(reached) => {
            if reached == Reached::End {
                unaddressed.add(&seen);
                tell_lacking(
                    PROGRAM,
                    &filter.area,
                    name,
                    seen.lines,
                    seen.is_addressed,
                    errors,
                );
            }
            if put_count(filter.counts(), filter.nul, label, selected, output).is_ok() {
                return Some(total.with(Outcome {
                    selected,
                    missed: is_missed(filter.bad, &seen),
                }));
            }
            stop(PROGRAM, name, LogFault::Write, seen.lines, output, errors);
            None
        }
        Err(fault) => {
            stop(PROGRAM, name, fault, seen.lines, output, errors);
            None
        }
    }
}
