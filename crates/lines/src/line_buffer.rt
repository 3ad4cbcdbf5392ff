//! Splits the bytes that are read into a buffer into lines, in place.
ghost use Rattle.std.specs.Prelude.{◌≡◌, ◌+◌, ◌-◌, ◌<◌, ◌≤◌, ◌++◌, ◌==◌, ◌||◌, ◌↔◌, ℕ, List, [], length, take, drop, false, is_err, Err, IfOk, IsOkUnless, OnErr, IsTrue, MatchOption};
ghost use Rattle.std.specs.Io.KnownBytes.{Keeps};
ghost use Rattle.lines.specs.Watched.{device_of, has_failed};

use crate::fault::RunFault;
use crate::line_end::{Cut, LineEnd, cut_before};
use crate::watched::Watched;
use byte_search::find_far;
use std::io::Read;
use std::marker::Model;

/// What `LineBuffer::next` returns.
///
/// ```
/// use lines::line_buffer::{LineBuffer, NextLine};
/// use lines::watched::Watched;
///
/// let mut reader = Watched::new(b"too long\n".as_slice());
/// let mut room = [0; 10];
/// let mut lines = LineBuffer::new(&mut room, 7);
/// assert_eq!(rt; lines.next(), NextLine::Ask);
/// assert_eq!(rt; lines.ask(&mut reader), Ok(9));
/// assert_eq!(rt; lines.next(), NextLine::TooLong);
/// assert_eq!(rt; lines.ask(&mut reader), Ok(0));
/// assert_eq!(rt; lines.next(), NextLine::End);
/// ```
#[derive(Clone, Copy, Debug, PartialEq, Eq)]
pub enum NextLine {
    /// A line, which `line` lends, and how it ended.
    Line(LineEnd),
    /// A line that is longer than the limit. The whole line is skipped.
    TooLong,
    /// No complete line yet: more bytes must be read with `ask`.
    Ask,
    /// No line: the input has ended, and all of its lines were returned.
    End,
}

/// The greatest number of bytes that one read asks for. This keeps what is read and answered in the
/// processor's nearer caches.
const MOST_AT_ONCE: usize = 131_072;

/// The lines of the bytes that are read into a buffer, which the caller lends.
///
/// `next` returns one line at a time and calls no device. If it needs more bytes, it says so, and
/// `ask` makes one read. The caller thus decides what happens between two reads. A line is lent
/// from the buffer in place: none of its bytes is copied, and none is moved while its line feed is
/// in the buffer. `ask` moves the bytes of an incomplete line to the front of the buffer, unless
/// they are already there. No call allocates.
///
/// The lines, each with its line ending, make up what was read, except for the bytes that are still
/// pending. They are the lines of `str::lines` in std: a line ends with a line feed, and one
/// carriage return before it is dropped; what follows the last line feed is also a line, unless it
/// is empty.
///
/// ```
/// use lines::line_buffer::{LineBuffer, NextLine};
/// use lines::line_end::LineEnd;
/// use lines::watched::Watched;
///
/// let mut reader = Watched::new(b"10.0.0.0/8\n::1".as_slice());
/// let mut room = [0; 64];
/// let mut lines = LineBuffer::new(&mut room, 32);
/// assert_eq!(rt; lines.ask(&mut reader), Ok(14));
/// assert_eq!(rt; lines.next(), NextLine::Line(LineEnd::LineFeed));
/// assert_eq!(rt; lines.line(), b"10.0.0.0/8".as_slice());
/// assert_eq!(rt; lines.next(), NextLine::Ask);
/// ```
#[derive(Drop)]
pub struct LineBuffer<'b> {
    buffer: &'b mut [u8],
    limit: usize,
    // The line that was returned last.
    line_start: usize,
    line_end: usize,
    // The bytes that wait. There is no line feed among those before `searched`.
    start: usize,
    searched: usize,
    end: usize,
    dropped: bool,
    ended: bool,
}

impl<'b> Model for LineBuffer<'b> {
    ghost use Rattle.std.specs.Prelude.{◌+◌, ◌≤◌, length, take, drop};
    ghost use Rattle.byte_search.specs.Bytes.{IsAbsent};
    ghost use Rattle.lines.specs.LineBuffers.{Buffered};
    ghost use Rattle.lines.specs.Private.Cuts.{IsOrdered};

    ghost Value = { Buffered };

    ghost view = { λ b. record {
      bytes = b.buffer.now;
      start = b.start;
      end = b.end;
      limit = b.limit;
      dropped = b.dropped;
      ended = b.ended;
      line = drop b.line_start (take b.line_end b.buffer.now);
      whole = drop b.line_start (take b.start b.buffer.now);
    } };

    ghost invariant = { λ b. IsOrdered b.line_start b.line_end b.start b.searched b.end
        (length b.buffer.now)
        × (b.limit + 2 ≤ length b.buffer.now)
        × IsAbsent 10 (take b.end b.buffer.now) b.start b.searched };
}

impl<'b> LineBuffer<'b> {
    ghost use Rattle.lines.specs.LineBuffers.{waits, HasNoFeed, IsPending, Gives, IsLess, Receives, Settles};
    ghost use Rattle.lines.specs.Private.Cuts.{IsCut};

    /// Creates a buffer in which no bytes wait. A line of more than `limit` bytes, not counting its
    /// line ending, is too long.
    ///
    /// The buffer must be at least two bytes longer than the limit. The longer it is, the fewer
    /// reads are made. Its content is not read before it is written, and is unspecified afterwards.
    ///
    /// ```
    /// let mut room = [0; 10];
    /// let mut lines = lines::line_buffer::LineBuffer::new(&mut room, 8);
    /// assert_eq!(rt; lines.next(), lines::line_buffer::NextLine::Ask);
    /// ```
    pub fn new(buffer: &'b mut [u8], limit: usize) -> LineBuffer<'b>
        requires { limit + 2 ≤ length buffer.old }
        ensures holds { IsPending result [] }
        ensures empty { waits result ≡ [] }
        ensures ended { result.ended ≡ false }
        ensures limit { result.limit ≡ limit }
        ensures size { length result.bytes ≡ length buffer.old }
    {
        LineBuffer {
            buffer,
            limit,
            line_start: 0,
            line_end: 0,
            start: 0,
            searched: 0,
            end: 0,
            dropped: false,
            ended: false,
        }
    }

    /// Returns the line that `next` returned last, without its line ending. It is available until
    /// the next call of `ask`.
    ///
    /// ```
    /// let mut room = [0; 10];
    /// let mut lines = lines::line_buffer::LineBuffer::new(&mut room, 8);
    /// assert!(rt; lines.line().is_empty());
    /// ```
    pub fn line(&self) -> &[u8]
        ensures { result.now ≡ self.now.line }
    {
        &self.buffer[self.line_start..self.line_end]
    }

    /// Returns the line that `next` returned last, with its line ending. It is available until
    /// the next call of `ask`.
    ///
    /// ```
    /// use lines::watched::Watched;
    ///
    /// let mut room = [0; 10];
    /// let mut lines = lines::line_buffer::LineBuffer::new(&mut room, 8);
    /// assert_eq!(rt; lines.ask(&mut Watched::new(b"::1\r\n::2".as_slice())), Ok(8));
    /// let _ = lines.next();
    /// assert_eq!(rt; lines.whole_line(), b"::1\r\n".as_slice());
    /// ```
    pub fn whole_line(&self) -> &[u8]
        ensures { result.now ≡ self.now.whole }
    {
        &self.buffer[self.line_start..self.start]
    }

    /// Returns whether the pending line is too long however it continues: whether it has at least
    /// two bytes more than the limit, one of which may be a carriage return. No line feed may wait,
    /// as is the case after `next` returned `Ask`.
    ///
    /// ```
    /// use lines::watched::Watched;
    ///
    /// let mut room = [0; 10];
    /// let mut lines = lines::line_buffer::LineBuffer::new(&mut room, 2);
    /// assert_eq!(rt; lines.ask(&mut Watched::new(b"::1".as_slice())), Ok(3));
    /// assert!(rt; !lines.is_too_long());
    /// assert_eq!(rt; lines.ask(&mut Watched::new(b":2".as_slice())), Ok(2));
    /// assert!(rt; lines.is_too_long());
    /// ```
    pub fn is_too_long(&self) -> bool
        requires { HasNoFeed (waits self.now) }
        ensures { (pending : List ℕ) → IsPending self.now pending
            → (IsTrue result ↔ (self.now.limit + 1 < length pending)) }
    {
        self.dropped || self.end - self.start >= self.limit + 2
    }

    /// Advances to the next line, or says why there is none. No byte is moved or copied.
    ///
    /// ```
    /// use lines::line_buffer::NextLine;
    /// use lines::line_end::LineEnd;
    /// use lines::watched::Watched;
    ///
    /// let mut room = [0; 10];
    /// let mut lines = lines::line_buffer::LineBuffer::new(&mut room, 8);
    /// assert_eq!(rt; lines.next(), NextLine::Ask);
    /// assert_eq!(rt; lines.ask(&mut Watched::new(b"::1\n::2".as_slice())), Ok(7));
    /// assert_eq!(rt; lines.next(), NextLine::Line(LineEnd::LineFeed));
    /// assert_eq!(rt; lines.next(), NextLine::Ask);
    /// ```
    pub fn next(&mut self) -> NextLine
        ensures gives { (pending : List ℕ) → IsPending self.old pending
            → Gives self.new pending result }
        ensures less { IsLess self.old self.new result }
        ensures unmoved { self.new.bytes ≡ self.old.bytes }
        ensures limit { self.new.limit ≡ self.old.limit }
        ensures ended { self.new.ended ≡ self.old.ended }
    {
        let Some(cut) = self.first_cut() else {
            return self.next_unended();
        };
        self.line_start = self.start;
        self.line_end = self.start + cut.content;
        self.start += cut.before + 1;
        self.searched = self.start;
        if self.dropped {
            self.dropped = false;
            return NextLine::TooLong;
        }
        if cut.content > self.limit {
            return NextLine::TooLong;
        }
        NextLine::Line(cut.end)
    }

    // Returns the end of the first waiting line, if its line feed waits.
    fn first_cut(&self) -> Option<Cut>
        ensures { MatchOption result (HasNoFeed (waits self.now)) (IsCut (waits self.now)) }
    {
        let (start, searched, end) = (self.start, self.searched, self.end);
        let window = &self.buffer[..end];
        let at = find_far(window, searched, b'\n')?;
        Some(cut_before(&window[start..at]))
    }

    // Returns what comes next if no line feed waits.
    fn next_unended(&mut self) -> NextLine
        requires { HasNoFeed (waits self.old) }
        ensures gives { (pending : List ℕ) → IsPending self.old pending
            → Gives self.new pending result }
        ensures less { IsLess self.old self.new result }
        ensures unmoved { self.new.bytes ≡ self.old.bytes }
        ensures limit { self.new.limit ≡ self.old.limit }
        ensures ended { self.new.ended ≡ self.old.ended }
    {
        self.searched = self.end;
        if !self.ended {
            return NextLine::Ask;
        }
        self.line_start = self.start;
        self.line_end = self.end;
        let count = self.end - self.start;
        self.start = self.end;
        if self.dropped {
            self.dropped = false;
            return NextLine::TooLong;
        }
        if count > self.limit {
            return NextLine::TooLong;
        }
        if count == 0 {
            return NextLine::End;
        }
        NextLine::Line(LineEnd::EndOfInput)
    }

    /// Reads from the device, in one call, and returns the number of bytes read, which is 0 only at
    /// the end of the input. They are pending after those that were pending before. No line feed
    /// may wait, as is the case after `next` returned `Ask`.
    ///
    /// Returns `RunFault::Read` if a read failed, now or earlier; a device that had failed before
    /// is not called. The pending bytes do not change.
    ///
    /// ```
    /// use lines::watched::Watched;
    ///
    /// let mut reader = Watched::new(b"10.0.0.0/8".as_slice());
    /// let mut room = [0; 6];
    /// let mut lines = lines::line_buffer::LineBuffer::new(&mut room, 4);
    /// assert_eq!(rt; lines.ask(&mut reader), Ok(6));
    /// assert_eq!(rt; lines.ask(&mut reader), Ok(4));
    /// assert_eq!(rt; lines.ask(&mut reader), Ok(0));
    /// ```
    pub fn ask<R: Read>(&mut self, reader: &mut Watched<R>) -> Result<usize, RunFault>
        requires { HasNoFeed (waits self.old) }

        // What was read, and whether the input has ended.
        ensures read { IfOk result
            (Receives (R.remaining (device_of reader.old))
            (R.remaining (device_of reader.new)) self.old self.new) }
        ensures ended { IfOk result (λ count. self.new.ended ≡ (count == 0)) }

        // After a fault, nothing is lost.
        ensures err { OnErr result
            (Keeps (R.remaining (device_of reader.old)) (R.remaining (device_of reader.new))) }
        ensures kept { OnErr result ((pending : List ℕ) → IsPending self.old pending
            → IsPending self.new pending) }
        ensures kept_ended { OnErr result (self.new.ended ≡ self.old.ended) }
        ensures fault { IsOkUnless result RunFault.Read }
        ensures failed { has_failed reader.new ≡ (has_failed reader.old || is_err result) }
        ensures uncalled { IsTrue (has_failed reader.old)
            → (result ≡ Err RunFault.Read) × (device_of reader.new ≡ device_of reader.old) }

        // Where the waiting bytes are moved.
        ensures settles { IfOk result (λ count. Settles self.old self.new) }
        ensures limit { self.new.limit ≡ self.old.limit }
        ensures size { length self.new.bytes ≡ length self.old.bytes }
    {
        if reader.failed() {
            return Err(RunFault::Read);
        }
        self.make_room();
        let most = self.buffer.len().min(self.end.saturating_add(MOST_AT_ONCE));
        let Ok(count) = reader.device.read(&mut self.buffer[self.end..most]) else {
            return Err(RunFault::Read);
        };
        self.end += count;
        self.ended = count == 0;
        Ok(count)
    }

    // Moves the waiting bytes to the front of the buffer, which leaves room for at least one byte
    // after them. If they fill the whole buffer, they are dropped.
    fn make_room(&mut self)
        requires { HasNoFeed (waits self.old) }
        ensures holds { (pending : List ℕ) → IsPending self.old pending
            → IsPending self.new pending }
        ensures room { self.new.end < length self.new.bytes }
        ensures stays { self.old.start ≡ 0 → self.old.end < length self.old.bytes
            → self.new ≡ self.old }
        ensures front { self.new.start ≡ 0 }
        ensures limit { self.new.limit ≡ self.old.limit }
        ensures ended { self.new.ended ≡ self.old.ended }
        ensures size { length self.new.bytes ≡ length self.old.bytes }
    {
        if self.start == 0 {
            if self.end == self.buffer.len() {
                self.dropped = true;
                self.searched = 0;
                self.end = 0;
            }
            return;
        }
        self.line_start = 0;
        self.line_end = 0;
        move_to_front(self.buffer, self.start, self.end);
        self.searched -= self.start;
        self.end -= self.start;
        self.start = 0;
    }
}

// Moves the bytes from `start` up to `end` to the front of the buffer.
fn move_to_front(buffer: &mut [u8], start: usize, end: usize)
    requires order { start ≤ end }
    requires within { end ≤ length buffer.old }
    ensures length { length buffer.new ≡ length buffer.old }
    ensures front { take (end - start) buffer.new ≡ drop start (take end buffer.old) }
{
    buffer.copy_within(start..end, 0);
}
