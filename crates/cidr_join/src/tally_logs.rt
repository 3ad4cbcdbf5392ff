//! Counts what is found for the lines of the logs of a run, and prints the counts.
ghost use Rattle.std.specs.Prelude.{◌≡◌, ◌≤◌, ◌++◌, ◌⊎◌, ◌||◌, [], length, map, MatchOption, OnOk, OnErr, is_err};
ghost use Rattle.lines.specs.Outputs.{FailsIn, Writes};
ghost use Rattle.program.specs.Endings.{ending};
ghost use Rattle.std.specs.String.{string_bytes};
ghost use Rattle.cidr_join.specs.Tallies.{row_text, rows_text};
ghost use Rattle.cidr_join.specs.Runs.{EndsTally, RunsOut};
ghost use Rattle.cidr_join.specs.Private.Counting.{row_of};
ghost use Rattle.cidr_join.specs.Private.Numbering.{IsNumbering};
ghost use Rattle.cidr_join.specs.Private.TallyProgress.{CountsName, CountsNames, StopsCounting, StopsTally, TellsUncounted};
ghost use Rattle.program.specs.Putting.{PutsOrFails};

use crate::counts::Counts;
use crate::help::PROGRAM;
use crate::join::Join;
use crate::missing::{either, status};
use crate::tally::Row;
use crate::tally_log::tally_log;
use crate::telling::tell_unaddressed;
use crate::value_ids::ValueIds;
use lines::fault::RunFault;
use lines::output::Output;
use lists::{OpenLists, open_list};
use log_programs::log_stats::LogStats;
use log_programs::telling::{is_missed, tell_closed, tell_seen};
use log_programs::without_address::WithoutAddress;
use program::ending::{FAILED, end};
use program::log_fault::{LogFault, tell_log_fault};
use program::memory::refuse_memory;
use program::messages::{number_text, tell_of};
use program::putting::put_both;
use std::alloc::Global;
use std::io::Write;

/// Counts what is found for the lines of the logs with these names, prints the counts, and returns
/// the exit status.
pub(crate) fn tally_logs<L: OpenLists, W: Write, E: Write>(
    alloc: Global,
    join: &Join<'_>,
    lists: &L,
    buffer: &mut [u8],
    files: &[String],
    output: &mut Output<'_, W>,
    errors: &mut Output<'_, E>,
) -> u8
    requires { 1048578 ≤ length buffer.old }
    ensures { RunsOut (ending output.old output.new errors.new errors.new result)
        ⊎ EndsTally join.now (L.known lists.now) (map string_bytes files.now)
        (ending output.old output.new errors.new errors.new result) }
{
    let Ok(numbered) = ValueIds::of(alloc, &join.answers) else {
        return refuse_memory(PROGRAM, errors);
    };
    let founds = numbered.founds();
    let Ok(mut counts) = Counts::new(alloc, founds.len()) else {
        return refuse_memory(PROGRAM, errors);
    };
    let Some(missed) = tally_each(
        alloc,
        join,
        &numbered,
        lists,
        files,
        buffer,
        &mut counts,
        errors,
    ) else {
        return FAILED;
    };
    let Ok(rows) = counts.into_rows(alloc, founds, join.zeros) else {
        return refuse_memory(PROGRAM, errors);
    };
    let written = write_rows(rows.as_slice(), output);
    end(PROGRAM, written, status(missed), errors)
}

// Counts the lines of the logs with these names, and returns whether one could not be opened or a
// line is missed. If one that was opened is not read to its end, the cause is reported and `None`
// is returned. The reports about the lines of each log are written after it.
fn tally_each<L: OpenLists, E: Write>(
    alloc: Global,
    join: &Join<'_>,
    numbered: &ValueIds<'_>,
    lists: &L,
    files: &[String],
    buffer: &mut [u8],
    counts: &mut Counts,
    errors: &mut Output<'_, E>,
) -> Option<bool>
    requires room { 1048578 ≤ length buffer.old }
    requires numbered { IsNumbering join.now.answers numbered.now }
    ensures { MatchOption result
        (StopsTally join.now (L.known lists.now) (map string_bytes files.now) errors.new)
        (λ missed. CountsNames numbered.now.founds.items join.now (L.known lists.now)
        (map string_bytes files.now) [] missed counts.old counts.new) }
{
    let mut missed = false;
    for file in files {
        let name = file.as_str();
        let Some(more) = tally_one(alloc, join, numbered, lists, name, buffer, counts, errors)
        else {
            return None;
        };
        missed = either(missed, more);
    }
    Some(missed)
}

// Opens the log with this name and counts its lines, and returns whether it could not be opened or
// a line is missed, as `tally_each` does.
fn tally_one<L: OpenLists, E: Write>(
    alloc: Global,
    join: &Join<'_>,
    numbered: &ValueIds<'_>,
    lists: &L,
    name: &str,
    buffer: &mut [u8],
    counts: &mut Counts,
    errors: &mut Output<'_, E>,
) -> Option<bool>
    requires numbered { IsNumbering join.now.answers numbered.now }
    requires room { 1048578 ≤ length buffer.old }
    ensures { MatchOption result
        (StopsCounting join.now (L.known lists.now) name.now errors.new)
        (λ more. CountsName numbered.now.founds.items join.now (L.known lists.now) name.now more
        counts.old counts.new) }
{
    let mut log = match open_list(lists, name) {
        Ok(log) => log,
        Err(cause) => {
            tell_closed(PROGRAM, name, cause, errors);
            return Some(true);
        }
    };
    let mut seen = LogStats::new();
    let end = tally_log(alloc, join, numbered, buffer, &mut log, counts, &mut seen);
    lists.close(name, log);
    match end {
        Err(fault) => {
            tell_stop(join.bad, name, fault, &seen, errors);
            None
        }
        Ok(()) => {
            tell_seen(PROGRAM, name, join.bad, &seen, errors);
            tell_unaddressed(join, name, &seen, errors);
            Some(is_missed(join.bad, &seen))
        }
    }
}

// Reports why a log was not counted to its end, after the reports about the lines that were.
fn tell_stop<E: Write>(
    bad: WithoutAddress,
    name: &str,
    fault: LogFault,
    seen: &LogStats,
    errors: &mut Output<'_, E>,
)
    ensures { TellsUncounted fault errors.new }
{
    match fault {
        LogFault::Write => tell_of(PROGRAM, ": out of memory\n", errors),
        _ => {
            tell_seen(PROGRAM, name, bad, seen, errors);
            tell_log_fault(PROGRAM, name, fault, seen.lines, errors);
        }
    }
}

// Writes what waits, and then these rows.
fn write_rows<W: Write>(rows: &[Row], output: &mut Output<'_, W>) -> Result<(), RunFault>
    ensures ok { OnOk result (Writes output.old output.new (rows_text (map row_of rows.now))) }
    ensures failed { output.new.failed ≡ (output.old.failed || is_err result) }
    ensures beginning { OnErr result
        (FailsIn output.old output.new (rows_text (map row_of rows.now))) }
{
    put_rows(rows, output)?;
    output.finish()
}

// Writes rows.
fn put_rows<W: Write>(rows: &[Row], output: &mut Output<'_, W>) -> Result<(), RunFault>
    ensures { PutsOrFails result output.old output.new (rows_text (map row_of rows.now)) }
{
    for row in rows {
        put_row(row, output)?;
    }
    Ok(())
}

// Writes a count, a tab, its text and a line feed.
fn put_row<W: Write>(row: &Row, output: &mut Output<'_, W>) -> Result<(), RunFault>
    ensures { PutsOrFails result output.old output.new (row_text (row_of row.now)) }
{
    let count = number_text(row.0.0);
    put_four(
        count.as_str().as_bytes(),
        b"\t",
        row.1.as_slice(),
        b"\n",
        output,
    )
}

// Writes four texts.
fn put_four<W: Write>(
    first: &[u8],
    second: &[u8],
    third: &[u8],
    fourth: &[u8],
    output: &mut Output<'_, W>,
) -> Result<(), RunFault>
    ensures { PutsOrFails result output.old output.new
        ((first.now ++ second.now) ++ (third.now ++ fourth.now)) }
{
    put_both(first, second, output)?;
    put_both(third, fourth, output)
}
