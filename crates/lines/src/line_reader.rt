//! A device whose input is read line by line.
ghost use Rattle.std.specs.Prelude.{◌≡◌, ◌+◌, ◌<◌, ◌≤◌, ◌==◌, ◌||◌, ◌↔◌, ℕ, List, [], length, false, is_err, Err, IfOk, IsOkUnless, OnErr, IsTrue};
ghost use Rattle.std.specs.Io.KnownBytes.{Keeps};
ghost use Rattle.lines.specs.Watched.{device_of, has_failed};

use crate::fault::RunFault;
use crate::line_buffer::{LineBuffer, NextLine};
use crate::watched::Watched;
use std::io::Read;

/// A device, and a `LineBuffer` of the bytes read from it.
///
/// ```
/// use lines::line_buffer::NextLine;
/// use lines::line_end::LineEnd;
/// use lines::watched::Watched;
///
/// let reader = Watched::new(b"10.0.0.0/8\r\n".as_slice());
/// let mut room = [0; 64];
/// let mut lines = lines::line_reader::LineReader::new(reader, &mut room, 32);
/// assert_eq!(rt; lines.ask(), Ok(12));
/// assert_eq!(rt; lines.next(), NextLine::Line(LineEnd::ReturnAndLineFeed));
/// assert_eq!(rt; lines.line(), b"10.0.0.0/8".as_slice());
/// assert_eq!(rt; (lines.next(), lines.ask(), lines.next()), (NextLine::Ask, Ok(0), NextLine::End));
/// ```
#[derive(Drop)]
pub struct LineReader<'b, R> {
    source: Watched<R>,
    buffer: LineBuffer<'b>,
}

impl<'b, R: Read> LineReader<'b, R> {
    ghost use Rattle.lines.specs.LineBuffers.{waits, HasNoFeed, IsPending, Gives, IsLess, Receives, Settles};
    ghost use Rattle.lines.specs.LineReaders.{source_of, buffered};

    /// Creates a reader of the lines of a device, none of which is read yet. A line of more than
    /// `limit` bytes, not counting its line ending, is too long. The buffer must be at least two
    /// bytes longer than the limit.
    ///
    /// ```
    /// use lines::line_buffer::NextLine;
    /// use lines::line_reader::LineReader;
    /// use lines::watched::Watched;
    ///
    /// let mut room = [0; 64];
    /// let mut lines = LineReader::new(Watched::new(b"::1".as_slice()), &mut room, 32);
    /// assert_eq!(rt; lines.next(), NextLine::Ask);
    /// ```
    pub fn new(source: Watched<R>, buffer: &'b mut [u8], limit: usize) -> LineReader<'b, R>
        requires { limit + 2 ≤ length buffer.old }
        ensures source { source_of result ≡ source }
        ensures holds { IsPending (buffered result) [] }
        ensures empty { waits (buffered result) ≡ [] }
        ensures ended { (buffered result).ended ≡ false }
        ensures limit { (buffered result).limit ≡ limit }
        ensures size { length (buffered result).bytes ≡ length buffer.old }
    {
        LineReader {
            source,
            buffer: LineBuffer::new(buffer, limit),
        }
    }

    /// Returns the line that `next` returned last, without its line ending. It is available until
    /// the next call of `ask`.
    ///
    /// ```
    /// use lines::line_reader::LineReader;
    /// use lines::watched::Watched;
    ///
    /// let mut room = [0; 64];
    /// let mut lines = LineReader::new(Watched::new(b"::1\n".as_slice()), &mut room, 32);
    /// assert_eq!(rt; lines.ask(), Ok(4));
    /// let _ = lines.next();
    /// assert_eq!(rt; lines.line(), b"::1".as_slice());
    /// ```
    pub fn line(&self) -> &[u8]
        ensures { result.now ≡ (buffered self.now).line }
    {
        self.buffer.line()
    }

    /// Returns the line that `next` returned last, with its line ending. It is available until
    /// the next call of `ask`.
    ///
    /// ```
    /// use lines::line_reader::LineReader;
    /// use lines::watched::Watched;
    ///
    /// let mut room = [0; 64];
    /// let mut lines = LineReader::new(Watched::new(b"::1\n".as_slice()), &mut room, 32);
    /// assert_eq!(rt; lines.ask(), Ok(4));
    /// let _ = lines.next();
    /// assert_eq!(rt; lines.whole_line(), b"::1\n".as_slice());
    /// ```
    pub fn whole_line(&self) -> &[u8]
        ensures { result.now ≡ (buffered self.now).whole }
    {
        self.buffer.whole_line()
    }

    /// Returns whether the pending line is too long however it continues: whether it has at least
    /// two bytes more than the limit, one of which may be a carriage return. No line feed may wait,
    /// as is the case after `next` returned `Ask`.
    ///
    /// ```
    /// use lines::line_reader::LineReader;
    /// use lines::watched::Watched;
    ///
    /// let mut room = [0; 64];
    /// let mut lines = LineReader::new(Watched::new(b"::12".as_slice()), &mut room, 2);
    /// assert_eq!(rt; lines.ask(), Ok(4));
    /// assert!(rt; lines.is_too_long());
    /// ```
    pub fn is_too_long(&self) -> bool
        requires { HasNoFeed (waits (buffered self.now)) }
        ensures { (pending : List ℕ) → IsPending (buffered self.now) pending
            → (IsTrue result ↔ ((buffered self.now).limit + 1 < length pending)) }
    {
        self.buffer.is_too_long()
    }

    /// Advances to the next line, or says why there is none. The device is not called, and no byte
    /// is moved or copied.
    ///
    /// ```
    /// use lines::line_buffer::NextLine;
    /// use lines::line_reader::LineReader;
    /// use lines::watched::Watched;
    ///
    /// let mut room = [0; 64];
    /// let mut lines = LineReader::new(Watched::new(b"".as_slice()), &mut room, 32);
    /// assert_eq!(rt; lines.next(), NextLine::Ask);
    /// assert_eq!(rt; lines.ask(), Ok(0));
    /// assert_eq!(rt; lines.next(), NextLine::End);
    /// ```
    pub fn next(&mut self) -> NextLine
        ensures gives { (pending : List ℕ) → IsPending (buffered self.old) pending
            → Gives (buffered self.new) pending result }
        ensures less { IsLess (buffered self.old) (buffered self.new) result }
        ensures unmoved { (buffered self.new).bytes ≡ (buffered self.old).bytes }
        ensures uncalled { source_of self.new ≡ source_of self.old }
        ensures limit { (buffered self.new).limit ≡ (buffered self.old).limit }
        ensures ended { (buffered self.new).ended ≡ (buffered self.old).ended }
    {
        self.buffer.next()
    }

    /// Reads from the device, in one call, and returns the number of bytes read, which is 0 only at
    /// the end of the input. They are pending after those that were pending before. No line feed
    /// may wait, as is the case after `next` returned `Ask`.
    ///
    /// Returns `RunFault::Read` if a read failed, now or earlier; a device that had failed before
    /// is not called. The pending bytes do not change.
    ///
    /// ```
    /// use lines::line_reader::LineReader;
    /// use lines::watched::Watched;
    ///
    /// let mut room = [0; 6];
    /// let mut lines = LineReader::new(Watched::new(b"10.0.0.0/8".as_slice()), &mut room, 4);
    /// assert_eq!(rt; (lines.ask(), lines.ask(), lines.ask()), (Ok(6), Ok(4), Ok(0)));
    /// ```
    pub fn ask(&mut self) -> Result<usize, RunFault>
        requires { HasNoFeed (waits (buffered self.old)) }
        ensures read { IfOk result
            (Receives (R.remaining (device_of (source_of self.old)))
            (R.remaining (device_of (source_of self.new)))
            (buffered self.old) (buffered self.new)) }
        ensures ended { IfOk result (λ count. (buffered self.new).ended ≡ (count == 0)) }
        ensures err { OnErr result
            (Keeps (R.remaining (device_of (source_of self.old)))
            (R.remaining (device_of (source_of self.new)))) }
        ensures kept { OnErr result ((pending : List ℕ) → IsPending (buffered self.old) pending
            → IsPending (buffered self.new) pending) }
        ensures kept_ended { OnErr result ((buffered self.new).ended ≡ (buffered self.old).ended) }
        ensures fault { IsOkUnless result RunFault.Read }
        ensures failed { has_failed
            (source_of self.new) ≡ (has_failed (source_of self.old) || is_err result) }
        ensures uncalled { IsTrue (has_failed (source_of self.old))
            → (result ≡ Err RunFault.Read)
            × (device_of (source_of self.new) ≡ device_of (source_of self.old)) }
        ensures settles { IfOk result (λ count. Settles (buffered self.old) (buffered self.new)) }
        ensures limit { (buffered self.new).limit ≡ (buffered self.old).limit }
        ensures size { length (buffered self.new).bytes ≡ length (buffered self.old).bytes }
    {
        self.buffer.ask(&mut self.source)
    }

    /// Returns the device.
    ///
    /// ```
    /// use lines::line_reader::LineReader;
    /// use lines::watched::Watched;
    ///
    /// let mut room = [0; 64];
    /// let lines = LineReader::new(Watched::new(b"::1".as_slice()), &mut room, 32);
    /// assert_eq!(rt; lines.into_inner().into_inner(), b"::1".as_slice());
    /// ```
    pub fn into_inner(self) -> Watched<R>
        ensures { result ≡ source_of self.entry }
    {
        self.source
    }
}
