//! Gathers bytes before they are written.
ghost use Rattle.std.specs.Prelude.{◌≡◌, ◌||◌, if◌then◌else◌, [], false, is_err, OnOk, OnErr, IsOkUnless, IsTrue, IsFalse};
ghost use Rattle.std.specs.Io.KnownBytes.{Appends};
ghost use Rattle.lines.specs.Outputs.{Puts, Prints, FailsIn, AppendsBeginning};

use crate::buffer::Buffer;
use crate::fault::RunFault;
use crate::watched::device::Device;
use crate::writing::{hand_on, write_whole};
use std::io::Write;
use std::marker::Model;

/// A writer, and the bytes that wait to be written, in a slice that the caller lends.
///
/// Once a call of the writer has failed, the writer is not called again, and each call of `put`,
/// `put_if`, `hand_on` and `finish` returns `RunFault::Write`. No call allocates, unless the writer
/// does.
///
/// ```
/// let mut slice = [0; 64];
/// let mut output = lines::output::Output::new(Vec::new(rt.alloc()), &mut slice);
/// assert_eq!(rt; output.put(b"10.0.0.0/8\n"), Ok(()));
/// assert_eq!(rt; output.finish(), Ok(()));
/// ```
#[derive(Drop)]
pub struct Output<'a, W: Write> {
    writer: Device<W>,
    waiting: Buffer<'a>,
}

// A contract sees the writer, what it holds, the bytes that wait, and whether the writer failed.
impl<'a, W: Write> Model for Output<'a, W> {
    ghost use Rattle.lines.specs.Outputs.{Written};
    ghost use Rattle.lines.specs.Private.Device.{inner_of, failed_of};

    ghost Value = { Written W };

    ghost view = { λ o. record {
      writer = inner_of o.writer;
      holds = W.contents (inner_of o.writer);
      waits = o.waiting.items;
      failed = failed_of o.writer;
    } };
}

impl<'a, W: Write> Output<'a, W> {
    /// Creates an output to the writer, with no bytes waiting. No call of the writer counts as
    /// failed yet.
    ///
    /// ```
    /// let mut slice = [0; 64];
    /// let mut output = lines::output::Output::new(Vec::new(rt.alloc()), &mut slice);
    /// assert_eq!(rt; output.put(b"10.0.0.0/8\n"), Ok(()));
    /// ```
    pub fn new(writer: W, slice: &'a mut [u8]) -> Output<'a, W>
        ensures { result ≡ record {
          writer = writer;
          holds = W.contents writer;
          waits = [];
          failed = false;
        } }
    {
        Output {
            writer: Device::new(writer),
            waiting: Buffer::new(slice),
        }
    }

    /// Adds these bytes. If there is no room for them, the bytes that wait are written first; if
    /// the new bytes do not fit even then, they are written too.
    ///
    /// Returns `RunFault::Write` if a write failed, now or earlier. Then a beginning of the bytes
    /// that waited and of these bytes was written.
    ///
    /// ```
    /// let mut slice = [0; 8];
    /// let mut output = lines::output::Output::new([].as_mut_slice(), &mut slice);
    /// assert_eq!(rt; output.put(b"1.1.1.1\n"), Ok(()));
    /// assert_eq!(rt; output.put(b"\n"), Err(lines::fault::RunFault::Write));
    /// ```
    pub fn put(&mut self, bytes: &[u8]) -> Result<(), RunFault>
        ensures ok { OnOk result (Prints self.old self.new bytes.now) }
        ensures err { OnErr result (FailsIn self.old self.new bytes.now) }
        ensures works { OnOk result (IsFalse self.new.failed) }
        ensures failed { self.new.failed ≡ (self.old.failed || is_err result) }
        ensures stays { IsTrue self.old.failed → self.new ≡ self.old }
        ensures fault { IsOkUnless result RunFault.Write }
    {
        if self.writer.failed() {
            return Err(RunFault::Write);
        }
        if self.waiting.remaining() >= bytes.len() {
            self.waiting.push_bytes(bytes);
            return Ok(());
        }
        hand_on(&mut self.writer, &mut self.waiting)?;
        self.put_first(bytes)
    }

    /// Adds these bytes as `put` does if `is_put` is true, or adds none. If there is room for them,
    /// no branch depends on `is_put`, which is faster than a branch that the processor mispredicts.
    ///
    /// ```
    /// let mut slice = [0; 8];
    /// let mut room = [b'.'; 5];
    /// let mut output = lines::output::Output::new(room.as_mut_slice(), &mut slice);
    /// assert_eq!(rt; output.put_if(b"::1\n", true), Ok(()));
    /// assert_eq!(rt; output.put_if(b"::2\n", false), Ok(()));
    /// assert_eq!(rt; output.finish(), Ok(()));
    /// drop(output);
    /// assert_eq!(rt; room, *b"::1\n.");
    /// ```
    #[inline(always)]
    pub fn put_if(&mut self, bytes: &[u8], is_put: bool) -> Result<(), RunFault>
        ensures ok { OnOk result (Prints self.old self.new (if is_put then bytes.now else [])) }
        ensures err { OnErr result (FailsIn self.old self.new (if is_put then bytes.now else [])) }
        ensures works { OnOk result (IsFalse self.new.failed) }
        ensures failed { self.new.failed ≡ (self.old.failed || is_err result) }
        ensures fault { IsOkUnless result RunFault.Write }
    {
        if self.writer.failed() {
            return Err(RunFault::Write);
        }
        if self.waiting.remaining() >= bytes.len() {
            self.waiting.push_bytes_if(bytes, is_put);
            return Ok(());
        }
        if !is_put {
            return Ok(());
        }
        self.put(bytes)
    }

    // Adds bytes if none wait, to a writer that has not failed.
    fn put_first(&mut self, bytes: &[u8]) -> Result<(), RunFault>
        requires works { IsFalse self.old.failed }
        requires empty { self.old.waits ≡ [] }
        ensures ok { OnOk result (Puts self.old.holds [] self.new.holds self.new.waits bytes.now) }
        ensures err { OnErr result (AppendsBeginning self.old.holds self.new.holds bytes.now) }
        ensures works { OnOk result (IsFalse self.new.failed) }
        ensures failed { self.new.failed ≡ (self.old.failed || is_err result) }
        ensures fault { IsOkUnless result RunFault.Write }
    {
        if self.waiting.remaining() >= bytes.len() {
            self.waiting.push_bytes(bytes);
            return Ok(());
        }
        write_whole(&mut self.writer, bytes)
    }

    /// Writes the bytes that wait.
    ///
    /// Returns `RunFault::Write` if a write failed, now or earlier. Then a beginning of the bytes
    /// that waited was written.
    ///
    /// ```
    /// let mut slice = [0; 64];
    /// let mut output = lines::output::Output::new([].as_mut_slice(), &mut slice);
    /// assert_eq!(rt; output.hand_on(), Ok(()));
    /// assert_eq!(rt; output.put(b"\n"), Ok(()));
    /// assert_eq!(rt; output.hand_on(), Err(lines::fault::RunFault::Write));
    /// ```
    pub fn hand_on(&mut self) -> Result<(), RunFault>
        ensures ok { OnOk result (Appends self.old.holds self.new.holds self.old.waits) }
        ensures emptied { OnOk result (self.new.waits ≡ []) }
        ensures err { OnErr result (AppendsBeginning self.old.holds self.new.holds self.old.waits) }
        ensures works { OnOk result (IsFalse self.new.failed) }
        ensures failed { self.new.failed ≡ (self.old.failed || is_err result) }
        ensures stays { IsTrue self.old.failed → self.new ≡ self.old }
        ensures fault { IsOkUnless result RunFault.Write }
    {
        if self.writer.failed() {
            return Err(RunFault::Write);
        }
        hand_on(&mut self.writer, &mut self.waiting)
    }

    /// Writes the bytes that wait, and flushes the writer.
    ///
    /// Returns `RunFault::Write` if a write or the flush failed, now or earlier. Then a beginning
    /// of the bytes that waited was written.
    ///
    /// ```
    /// let mut slice = [0; 64];
    /// let mut room = [0; 2];
    /// let mut output = lines::output::Output::new(room.as_mut_slice(), &mut slice);
    /// assert_eq!(rt; output.put(b"ok"), Ok(()));
    /// assert_eq!(rt; output.finish(), Ok(()));
    /// ```
    pub fn finish(&mut self) -> Result<(), RunFault>
        ensures ok { OnOk result (Appends self.old.holds self.new.holds self.old.waits) }
        ensures emptied { OnOk result (self.new.waits ≡ []) }
        ensures err { OnErr result (AppendsBeginning self.old.holds self.new.holds self.old.waits) }
        ensures works { OnOk result (IsFalse self.new.failed) }
        ensures failed { self.new.failed ≡ (self.old.failed || is_err result) }
        ensures stays { IsTrue self.old.failed → self.new ≡ self.old }
        ensures fault { IsOkUnless result RunFault.Write }
    {
        self.hand_on()?;
        if self.writer.flush().is_err() {
            return Err(RunFault::Write);
        }
        Ok(())
    }
}
