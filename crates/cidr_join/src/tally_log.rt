//! Counts what is found for the lines of a log.
ghost use Rattle.std.specs.Prelude.{◌≡◌, ◌&&◌, ◌≤◌, not, length, OnOk, IfErr};
ghost use Rattle.log_programs.specs.WithoutAddress.{is_dropped};
ghost use Rattle.lines.specs.Watched.{device_of, has_failed};
ghost use Rattle.cidr_join.specs.Private.Numbering.{IsNumbering};
ghost use Rattle.cidr_join.specs.Private.TallyProgress.{CountsAsked, CountsLine, CountsLog, LineNotCounted};

use crate::counts::Counts;
use crate::found::Found;
use crate::join::Join;
use crate::value_ids::ValueIds;
use ipnetwork::IpNetwork;
use lines::output::Output;
use lines::watched::Watched;
use log_programs::log_stats::LogStats;
use program::log_fault::LogFault;
use program::log_reader::{LogReader, NextLogLine};
use std::alloc::{AllocError, Global};
use std::io::Read;

/// Counts the lines of a log, and what is found for their addresses or networks. Only memory is
/// written to, so `LogFault::Write` says that memory ran out.
///
/// A line that is too long counts as one without an address. If such lines end the run, one does so
/// even before its end was read. The counts in `seen` start anew.
pub(crate) fn tally_log<R: Read>(
    alloc: Global,
    join: &Join<'_>,
    numbered: &ValueIds<'_>,
    buffer: &mut [u8],
    reader: &mut Watched<R>,
    counts: &mut Counts,
    seen: &mut LogStats,
) -> Result<(), LogFault>
    requires room { 1048578 ≤ length buffer.old }
    requires numbered { IsNumbering join.now.answers numbered.now }
    ensures { CountsLog numbered.now.founds.items result join.now
        (R.remaining (device_of reader.old)) (has_failed reader.new)
        counts.old counts.new seen.new }
{
    // Nothing is put into it, so nothing is written before a read.
    let mut slice = [0; 1];
    let mut nothing = Output::new(Vec::new(alloc), &mut slice);
    *seen = LogStats::new();
    let stops = join.bad.is_stopped();
    let mut log = LogReader::new(buffer, stops);
    'lines: loop {
        match log.next(reader, &mut nothing) {
            Ok(NextLogLine::Line(_)) => {
                let line = log.line();
                if let Err(fault) = count_line(alloc, join, numbered, line, counts, seen) {
                    return Err(fault);
                }
            }
            Ok(NextLogLine::TooLong) => {
                if stops {
                    return Err(LogFault::Length);
                }
                seen.add_long();
                if let Err(_) = count_asked(alloc, join, numbered, None, counts) {
                    return Err(LogFault::Write);
                }
            }
            Ok(NextLogLine::End) => return Ok(()),
            Err(fault) => return Err(fault),
        }
    }
}

// Counts a line within the limit, and what is found for its network.
fn count_line(
    alloc: Global,
    join: &Join<'_>,
    numbered: &ValueIds<'_>,
    line: &[u8],
    counts: &mut Counts,
    seen: &mut LogStats,
) -> Result<(), LogFault>
    requires numbered { IsNumbering join.now.answers numbered.now }
    requires short { length line.now ≤ 1048576 }
    ensures ok { OnOk result
        (CountsLine numbered.now.founds.items join.now line.now counts.old counts.new
        seen.old seen.new) }
    ensures err { IfErr result (LineNotCounted join.now line.now seen.old) }
{
    let asked = join.network_in(line, seen.lines);
    if join.refuses(asked) {
        return Err(LogFault::Address);
    }
    seen.add(asked.is_some());
    match count_asked(alloc, join, numbered, asked, counts) {
        Ok(()) => Ok(()),
        Err(_) => Err(LogFault::Write),
    }
}

// Counts what is found for a network, or for a line without one, unless such lines are left out.
fn count_asked(
    alloc: Global,
    join: &Join<'_>,
    numbered: &ValueIds<'_>,
    asked: Option<IpNetwork>,
    counts: &mut Counts,
) -> Result<(), AllocError>
    requires { IsNumbering join.now.answers numbered.now }
    ensures { OnOk result
        (CountsAsked numbered.now.founds.items join.now asked counts.old counts.new) }
{
    if is_left_out(join, asked.is_some()) {
        return Ok(());
    }
    if let Some(number) = numbered.number_of(asked, join.mapped) {
        counts.count_number(number);
        return Ok(());
    }
    match join.find(asked) {
        Found::Network(network) => {
            counts.count_text(alloc, network.canonical().as_str().as_bytes())
        }
        Found::Value(value) => counts.count_text(alloc, value.bytes()),
        Found::Nothing => counts.count_text(alloc, b"-"),
    }
}

// Returns whether a line is left out, by whether it has an address.
#[inline(always)]
fn is_left_out(join: &Join<'_>, is_addressed: bool) -> bool
    ensures { result ≡ (not is_addressed && is_dropped join.now.bad) }
{
    !is_addressed && join.bad.is_dropped()
}
