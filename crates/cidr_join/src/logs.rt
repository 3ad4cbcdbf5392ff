//! Joins the logs of a run in turn.
ghost use Rattle.std.specs.Prelude.{◌≤◌, ◌||◌, Bool, length, map, MatchOption};
ghost use Rattle.std.specs.String.{string_bytes};
ghost use Rattle.log_programs.specs.LogsInTurn.{StopsLog, TakesLog};
ghost use Rattle.program.specs.Endings.{ending};
ghost use Rattle.cidr_join.specs.Joins.{shown_in};
ghost use Rattle.cidr_join.specs.Logs.{GivesOne};
ghost use Rattle.cidr_join.specs.Runs.{JoinsLogs};

use crate::help::PROGRAM;
use crate::join::Join;
use crate::log::join_log;
use crate::missing::{either, status};
use crate::telling::tell_unaddressed;
use lines::output::Output;
use lists::{OpenLists, open_input};
use log_programs::log_stats::LogStats;
use log_programs::telling::{is_missed, tell_closed, tell_seen};
use program::ending::{FAILED, end};
use program::log_fault::stop;
use std::io::Write;

/// Joins the logs with these names in turn, and returns the exit status. If one that was opened is
/// not joined to its end, the cause is reported, and no other is read. The reports about the lines
/// of each log are written after it.
pub(crate) fn join_logs<L: OpenLists, W: Write, E: Write>(
    join: &Join<'_>,
    lists: &L,
    files: &[String],
    buffer: &mut [u8],
    output: &mut Output<'_, W>,
    errors: &mut Output<'_, E>,
) -> u8
    requires { 1048578 ≤ length buffer.old }
    ensures { JoinsLogs join.now (L.known lists.now) (map string_bytes files.now)
        (ending output.old output.new errors.new errors.new result) }
{
    let mut missed = false;
    for file in files {
        let name = file.as_str();
        let Some(more) = join_one(join, lists, name, buffer, output, errors) else {
            return FAILED;
        };
        missed = either(missed, more);
    }
    let written = output.finish();
    end(PROGRAM, written, status(missed), errors)
}

// Opens the log with this name and joins its lines, and returns whether it could not be opened or
// a line is missed. If it was opened and is not joined to its end, the cause is reported, and
// `None` is returned.
fn join_one<L: OpenLists, W: Write, E: Write>(
    join: &Join<'_>,
    lists: &L,
    name: &str,
    buffer: &mut [u8],
    output: &mut Output<'_, W>,
    errors: &mut Output<'_, E>,
) -> Option<bool>
    requires { 1048578 ≤ length buffer.old }
    ensures { MatchOption result
        ((missed : Bool) → StopsLog (GivesOne shown_in join.now (L.known lists.now))
        (L.known lists.now) name.now output.old missed output.new)
        (λ more. (missed : Bool) → TakesLog (GivesOne shown_in join.now (L.known lists.now))
        name.now output.old missed output.new (missed || more)) }
{
    let mut log = match open_input(lists, name) {
        Ok(log) => log,
        Err(cause) => {
            tell_closed(PROGRAM, name, cause, errors);
            return Some(true);
        }
    };
    let mut seen = LogStats::new();
    let end = join_log(join, buffer, &mut log, output, &mut seen);
    lists.close(name, log);
    tell_seen(PROGRAM, name, join.bad, &seen, errors);
    match end {
        Ok(()) => {
            tell_unaddressed(join, name, &seen, errors);
            Some(is_missed(join.bad, &seen))
        }
        Err(fault) => {
            stop(PROGRAM, name, fault, seen.lines, output, errors);
            None
        }
    }
}
