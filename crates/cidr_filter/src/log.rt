//! Filters the lines of a log.
ghost use Rattle.std.specs.Prelude.{◌≡◌, ◌++◌, [], ℕ, List, true, Option, OnOk, OnErr, IfOk, IfErr, IsTrue, IsOkUnless};
ghost use Rattle.lines.specs.Outputs.{Prints, FailsIn};
ghost use Rattle.lines.specs.Watched.{device_of, has_failed};
ghost use Rattle.log_programs.specs.LogReads.{PrintsLog};
ghost use Rattle.log_programs.specs.LogStats.{with_line};
ghost use Rattle.program.specs.LogLines.{feed_behind};
ghost use Rattle.program.specs.LogReaders.{HandsFirst};
ghost use Rattle.cidr_filter.specs.Filters.{FiltersLine, is_full, is_refused, is_selected, is_spent, counted, fresh};
ghost use Rattle.cidr_filter.specs.Private.Copying.{copied, PrintsAsRead};
ghost use Rattle.cidr_filter.specs.Private.Progress.{PassesLine, LineStops};

use crate::filter::{Filter, Verdict};
use crate::printing::{print_selected, prints_as_read};
use crate::recent::Recent;
use lines::line_end::LineEnd;
use lines::output::Output;
use lines::watched::Watched;
use log_programs::byte_order_mark::judged;
use log_programs::log_stats::LogStats;
use program::log_fault::LogFault;
use program::log_reader::{LogReader, NextLogLine};
use std::io::{Read, Write};

/// Where the filtering of a log ends without a fault.
#[derive(Clone, Copy, Debug, PartialEq, Eq)]
pub enum Reached {
    /// The end of the log.
    End,
    /// The last line that may be selected. Nothing is read after it.
    Last,
}

/// The number of selected lines, and the counts of the lines of a log.
#[derive(Clone, Copy, Debug, PartialEq, Eq)]
pub struct Tally {
    /// The number of selected lines.
    pub selected: u64,
    /// The counts of the lines of this log.
    pub seen: LogStats,
}

impl Tally {
    /// Returns the counts of no lines.
    pub(crate) fn new() -> Tally
        ensures { result ≡ fresh }
    {
        Tally {
            selected: 0,
            seen: LogStats::new(),
        }
    }

    // Counts a line with this verdict.
    fn add(&mut self, verdict: &Verdict, is_selected: bool)
        ensures { self.new ≡ counted self.old verdict.now is_selected }
    {
        match *verdict {
            Verdict::TooLong => self.seen.add_long(),
            Verdict::NoAddress => self.seen.add(false),
            Verdict::Inside(_) | Verdict::Outside => self.seen.add(true),
        }
        self.selected = self.selected.saturating_add(u64::from(is_selected));
    }
}

/// Filters the lines of a log, up to the last that may be selected, and writes or only counts the
/// selected ones. No line after that is asked for, so none is waited for.
///
/// What is printed for the lines that a read completes is written before the next read. After a
/// failed read nothing is written. If lines that are too long end the run, one does so even before
/// its end was read.
pub fn filter_log<R: Read, W: Write>(
    filter: &Filter,
    log: &mut LogReader<'_>,
    reader: &mut Watched<R>,
    output: &mut Output<'_, W>,
    tally: &mut Tally,
) -> Result<Reached, LogFault>
    // `log` has read nothing, and it hurries exactly if a line that is too long ends the run.
    requires unread { (remained : Option (List ℕ)) → HandsFirst log.old remained remained [] }
    requires hurries { log.old.hurries ≡ is_refused filter.now Verdict.TooLong }
    ensures { PrintsLog (is_full filter.now) (FiltersLine filter.now) tally.old result
        (R.remaining (device_of reader.old)) (has_failed reader.new)
        output.old output.new tally.new }
{
    let refuses_long_lines = filter.refuses(&Verdict::TooLong);
    let as_read = prints_as_read(filter);
    let mut recent = Recent::new(0);
    'lines: while !is_spent(filter.most, tally.selected) {
        match log.next(reader, output) {
            Ok(NextLogLine::Line(end)) => {
                let (line, whole) = (log.line(), log.whole_line());
                let is_copied = as_read && recent.are_many;
                filter_line(filter, line, whole, end, is_copied, output, tally)?;
                recent.note(tally.seen.lines, tally.selected);
            }
            Ok(NextLogLine::TooLong) => {
                if refuses_long_lines {
                    return Err(LogFault::Length);
                }
                tally.add(&Verdict::TooLong, false);
            }
            Ok(NextLogLine::End) => return Ok(Reached::End),
            Err(fault) => return Err(fault),
        }
    }
    match output.hand_on() {
        Ok(()) => Ok(Reached::Last),
        Err(_) => Err(LogFault::Write),
    }
}

// Returns whether no more lines may be selected.
#[inline(always)]
fn is_spent(most: Option<u64>, selected: u64) -> bool
    ensures { result ≡ is_spent most selected }
{
    match most {
        Some(most) => selected >= most,
        None => false,
    }
}

// Filters a line within the limit. `whole` is the line with its end. If `is_copied`, the line may
// be copied before it is known whether it is selected.
fn filter_line<W: Write>(
    filter: &Filter,
    line: &[u8],
    whole: &[u8],
    end: LineEnd,
    is_copied: bool,
    output: &mut Output<'_, W>,
    tally: &mut Tally,
) -> Result<(), LogFault>
    requires copied { IsTrue is_copied → PrintsAsRead filter.now }
    ensures ok { OnOk result (PassesLine filter.now line.now (whole.now ++ feed_behind end)
        output.old tally.old output.new tally.new) }
    ensures err { IfErr result (LineStops filter.now line.now (whole.now ++ feed_behind end)
        output.old tally.old output.new) }
{
    if is_copied && has_feed(end) {
        if let Some(is_selected) = filter.selects_by_address(line, tally.seen.lines) {
            return pass_line(is_selected, whole, output, tally);
        }
    }
    filter_judged(filter, line, whole, end, output, tally)
}

// Counts a line that has an address, and writes it as it was read if it is selected.
#[inline(always)]
fn pass_line<W: Write>(
    is_selected: bool,
    whole: &[u8],
    output: &mut Output<'_, W>,
    tally: &mut Tally,
) -> Result<(), LogFault>
    ensures ok { OnOk result (Prints output.old output.new (copied is_selected whole.now)) }
    ensures err { OnErr result (FailsIn output.old output.new (copied is_selected whole.now)) }
    ensures failed { OnErr result (IsTrue output.new.failed) }
    ensures fault { IsOkUnless result LogFault.Write }
    ensures tally { tally.new ≡ counted tally.old Verdict.Outside is_selected }
{
    tally.add(&Verdict::Outside, is_selected);
    match output.put_if(whole, is_selected) {
        Ok(()) => Ok(()),
        Err(_) => Err(LogFault::Write),
    }
}

// Returns whether a line with this end has a line feed, so that none is added to it.
#[inline(always)]
fn has_feed(end: LineEnd) -> bool
    ensures { IsTrue result → feed_behind end ≡ [] }
{
    match end {
        LineEnd::LineFeed | LineEnd::ReturnAndLineFeed => true,
        LineEnd::EndOfInput => false,
    }
}

// Filters a line within the limit, by the verdict on it.
fn filter_judged<W: Write>(
    filter: &Filter,
    line: &[u8],
    whole: &[u8],
    end: LineEnd,
    output: &mut Output<'_, W>,
    tally: &mut Tally,
) -> Result<(), LogFault>
    ensures ok { OnOk result (PassesLine filter.now line.now (whole.now ++ feed_behind end)
        output.old tally.old output.new tally.new) }
    ensures err { IfErr result (LineStops filter.now line.now (whole.now ++ feed_behind end)
        output.old tally.old output.new) }
{
    let before = tally.seen.lines;
    let verdict = filter.judge(line, before);
    if filter.refuses(&verdict) {
        return match verdict {
            Verdict::TooLong => Err(LogFault::Length),
            _ => Err(LogFault::Address),
        };
    }
    let is_selected = filter.selects(&verdict);
    tally.add(&verdict, is_selected);
    if !is_selected {
        return Ok(());
    }
    let part = judged(line, before);
    match print_selected(filter, tally.seen.lines, &verdict, part, whole, end, output) {
        Ok(()) => Ok(()),
        Err(_) => Err(LogFault::Write),
    }
}
