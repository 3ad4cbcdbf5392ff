//! Joins the lines of a log to a list.
ghost use Rattle.std.specs.Prelude.{◌≤◌, ◌++◌, length, OnOk, IfErr};
ghost use Rattle.lines.specs.Watched.{device_of, has_failed};
ghost use Rattle.log_programs.specs.LogReads.{PrintsLog, StopsLine, TakesLine};
ghost use Rattle.log_programs.specs.LogStats.{nothing};
ghost use Rattle.program.specs.LogLines.{feed_behind};
ghost use Rattle.cidr_join.specs.Joins.{GivesLine, never, shown_in};

use crate::join::Join;
use crate::printing::print_line;
use lines::line_end::LineEnd;
use lines::output::Output;
use lines::watched::Watched;
use log_programs::log_stats::LogStats;
use program::log_fault::LogFault;
use program::log_reader::{LogReader, NextLogLine};
use std::io::{Read, Write};

/// Writes each line of a log with what is found for its address or network. The counts in `seen`
/// start anew.
///
/// What is printed for the lines that a read completes is written before the next read. After a
/// failed read nothing is written. If lines that are too long end the run, one does so even before
/// its end was read.
pub fn join_log<R: Read, W: Write>(
    join: &Join<'_>,
    buffer: &mut [u8],
    reader: &mut Watched<R>,
    output: &mut Output<'_, W>,
    seen: &mut LogStats,
) -> Result<(), LogFault>
    requires room { 1048578 ≤ length buffer.old }
    ensures { PrintsLog never (GivesLine shown_in join.now) nothing result
        (R.remaining (device_of reader.old)) (has_failed reader.new)
        output.old output.new seen.new }
{
    *seen = LogStats::new();
    let stops = join.bad.is_stopped();
    let mut log = LogReader::new(buffer, stops);
    'lines: loop {
        match log.next(reader, output) {
            Ok(NextLogLine::Line(end)) => {
                let line = log.line();
                let whole = log.whole_line();
                if let Err(fault) = join_line(join, line, whole, end, output, seen) {
                    return Err(fault);
                }
            }
            Ok(NextLogLine::TooLong) => {
                if stops {
                    return Err(LogFault::Length);
                }
                seen.add_long();
            }
            Ok(NextLogLine::End) => return Ok(()),
            Err(fault) => return Err(fault),
        }
    }
}

// Writes a line within the limit with what is found for its address or network, and counts it.
// `whole` is the line with its end.
fn join_line<W: Write>(
    join: &Join<'_>,
    line: &[u8],
    whole: &[u8],
    end: LineEnd,
    output: &mut Output<'_, W>,
    seen: &mut LogStats,
) -> Result<(), LogFault>
    requires whole { length line.now ≤ length whole.now }
    requires short { length line.now ≤ 1048576 }
    ensures ok { OnOk result (TakesLine (GivesLine shown_in join.now) line.now
        (whole.now ++ feed_behind end) output.old seen.old output.new seen.new) }
    ensures err { IfErr result (StopsLine (GivesLine shown_in join.now) line.now
        (whole.now ++ feed_behind end) output.old seen.old output.new) }
{
    let asked = join.network_in(line, seen.lines);
    if join.refuses(asked) {
        return Err(LogFault::Address);
    }
    seen.add(asked.is_some());
    if join.leaves_out(asked) {
        return Ok(());
    }
    let found = join.find(asked);
    match print_line(join, &found, line, whole, end, output) {
        Ok(()) => Ok(()),
        Err(_) => Err(LogFault::Write),
    }
}
