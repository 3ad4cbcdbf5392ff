//! Reads a list from a device or from a text.
ghost use Rattle.std.specs.Prelude.{◌≡◌, ◌&&◌, ◌||◌, ◌-◌, ◌^◌, nat_lt, ℕ, List, Some, IsTrue, OnOk, IfOk, IfErr, true, false};
ghost use Rattle.std.specs.Str.Lines.{lines};
ghost use Rattle.lines.specs.Beginnings.{asked};
ghost use Rattle.lines.specs.LineBuffers.{IsPending};
ghost use Rattle.lines.specs.Watched.{device_of, has_failed};
ghost use Rattle.lists.specs.Lists.{at_list, Takes, TakesLines};
ghost use Rattle.lists.specs.Private.Waiting.{TakesWhole, TellsEnd, TellsNone, ended_by_read};
ghost use Rattle.lists.specs.Stopped.{EndsWithFeed, StopsList, TakesBefore, fails_reading};

use crate::list_reader::ListReader;
use lines::fault::RunFault;
use lines::line_buffer::{LineBuffer, NextLine};
use lines::watched::Watched;
use std::io::Read;

/// The most bytes of a line, not counting its line end.
///
/// ```
/// let line = [b'#'].repeat(rt.alloc(), LINE_MAX + 1)?;
/// let mut lists = ListReader::new(rt.alloc(), Rules::lenient(), Refusals::new());
/// read_list(&mut lists, 1, &mut lines::watched::Watched::new(line.as_slice()))?;
/// assert_eq!(rt; lists.into_networks().2.kept()[0].fault, LineFault::Length);
/// ```
pub const LINE_MAX: usize = 1024;

/// The most bytes that are read and not yet taken.
const BUFFER_MAX: usize = 65536;

/// Why a list was not read to its end, or is refused.
///
/// ```
/// let rules = Rules { is_whole: true, ..Rules::lenient() };
/// let mut lists = ListReader::new(rt.alloc(), rules, Refusals::new());
/// let mut list = lines::watched::Watched::new(b"10.0.0.0/8\n192.0.2.0/2".as_slice());
/// assert_eq!(rt; lists::read_list(&mut lists, 1, &mut list), Err(lists::ListFault::Cut));
/// ```
#[derive(Clone, Copy, Debug, PartialEq, Eq)]
pub enum ListFault {
    /// A read failed, or there are more than 18,446,744,073,709,551,615 bytes.
    Run(RunFault),
    /// The list does not end with a line feed, so that it may have been cut, and such lists are
    /// refused (`Rules`).
    Cut,
}

/// Reads a list to its end, or until memory runs out. `list` is a number that the caller chooses,
/// by which refused lines name the list.
///
/// The error is `RunFault::Read` if a read failed: exactly the lines that were complete before it
/// were taken. It is `RunFault::InputTooLong` if there are more than 18,446,744,073,709,551,615
/// bytes. It is `ListFault::Cut` if the rules say that lists end with a line feed and this one does
/// not; its lines were taken. Memory is allocated only for what the list names, unless the device
/// allocates.
///
/// ```
/// let mut lists = ListReader::new(rt.alloc(), Rules::lenient(), Refusals::new());
/// let list = b"# private\n10.0.0.0/8\n10.0.0.0/33\n".as_slice();
/// read_list(&mut lists, 1, &mut lines::watched::Watched::new(list))?;
/// let (v4, _, refusals) = lists.into_networks();
/// assert_eq!(rt; v4.as_slice(), ["10.0.0.0/8".parse()?].as_slice());
/// assert_eq!(rt; refusals.kept()[0].line, 3);
/// ```
pub fn read_list<R: Read>(
    lists: &mut ListReader,
    list: usize,
    reader: &mut Watched<R>,
) -> Result<(), ListFault>
    ensures taken { OnOk result ((input : List ℕ) → R.remaining (device_of reader.old) ≡ Some input
        → TakesLines (at_list lists.old list) (lines input) lists.new) }
    ensures whole { OnOk result (lists.old.rules.is_whole ≡ true
        → lists.new.is_out_of_memory ≡ false
        → (input : List ℕ) → R.remaining (device_of reader.old) ≡ Some input
        → EndsWithFeed input) }
    ensures stopped { IfErr result (λ fault. StopsList (R.remaining (device_of reader.old))
        (R.remaining (device_of reader.new)) fault (at_list lists.old list) lists.new) }
    ensures failed { has_failed reader.new ≡ (has_failed reader.old || fails_reading result) }
{
    let wants_whole = lists.wants_whole_lists();
    match read_lines(lists, list, reader) {
        Ok(ends) if wants_whole && !ends => Err(ListFault::Cut),
        Ok(_) => Ok(()),
        Err(fault) => Err(ListFault::Run(fault)),
    }
}

// Reads a list to its end, or until memory runs out. Returns whether it ends with a line feed, and
// `true` if memory ran out before its end.
fn read_lines<R: Read>(
    lists: &mut ListReader,
    list: usize,
    reader: &mut Watched<R>,
) -> Result<bool, RunFault>
    ensures taken { OnOk result ((input : List ℕ) → R.remaining (device_of reader.old) ≡ Some input
        → TakesLines (at_list lists.old list) (lines input) lists.new) }
    ensures ends { IfOk result (λ ends. (input : List ℕ)
        → R.remaining (device_of reader.old) ≡ Some input
        → TellsEnd ends lists.new.is_out_of_memory input) }
    ensures stopped { IfErr result (λ fault. TakesBefore (R.remaining (device_of reader.old))
        (R.remaining (device_of reader.new)) fault (at_list lists.old list) lists.new) }
    ensures failed { has_failed reader.new ≡ (has_failed reader.old || ended_by_read result) }
{
    lists.begin(list);
    let mut slice = [0u8; BUFFER_MAX];
    let mut lines = LineBuffer::new(&mut slice, LINE_MAX);
    let mut room = u64::MAX;
    'reads: loop {
        let count = match lines.ask(reader) {
            Ok(count) => count,
            Err(_) => return Err(RunFault::Read),
        };
        if count as u64 > room {
            return Err(RunFault::InputTooLong);
        }
        room -= count as u64;
        let has_none = take_whole_lines(lists, &mut lines);
        if count == 0 {
            return Ok(ends_whole(has_none, room));
        }
        if lists.is_out_of_memory() {
            return Ok(true);
        }
    }
}

// Whether a list ends with a line feed, by whether nothing was pending at its end, and how many
// bytes it may have more.
fn ends_whole(has_none: bool, room: u64) -> bool
    ensures { result ≡ (has_none && nat_lt room (2 ^ 64 - 1)) }
{
    has_none && room < u64::MAX
}

// Takes the whole lines that are pending in the buffer. Returns whether there was none.
fn take_whole_lines(lists: &mut ListReader, lines: &mut LineBuffer<'_>) -> bool
    requires { lines.old.limit ≡ 1024 }
    ensures taken { (pending : List ℕ) → IsPending lines.old pending
        → TakesWhole lines.new lists.old lists.new pending }
    ensures none { lines.old.ended ≡ true → (pending : List ℕ) → IsPending lines.old pending
        → TellsNone result pending }
    ensures limit { lines.new.limit ≡ lines.old.limit }
    ensures ended { lines.new.ended ≡ lines.old.ended }
{
    let mut has_none = true;
    'lines: loop {
        match lines.next() {
            NextLine::Line(_) => lists.take_line(lines.line()),
            NextLine::TooLong => lists.refuse_long_line(),
            NextLine::Ask => return has_none,
            NextLine::End => return has_none,
        }
        has_none = false;
    }
}

// Reads a text to its end as a list, as `read_list` reads the bytes of a device. Refused lines name
// the text by the number `list`.
pub(crate) fn take_text(lists: &mut ListReader, list: usize, text: &str)
    ensures { TakesLines (at_list lists.old list) (lines text.now) lists.new }
{
    lists.begin(list);
    for line in text.lines() {
        read_line(lists, line.as_bytes());
    }
}

// Takes a line, or refuses it if it is too long.
fn read_line(lists: &mut ListReader, line: &[u8])
    ensures { Takes lists.old (asked 1024 line.now) lists.new }
{
    if line.len() > LINE_MAX {
        lists.refuse_long_line();
    } else {
        lists.take_line(line);
    }
}
