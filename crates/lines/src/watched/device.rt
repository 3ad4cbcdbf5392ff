//! A device that is not called again after a call has failed.
ghost use Rattle.std.specs.Prelude.{◌≡◌, ◌||◌, false, is_err, IsFalse};
ghost use Rattle.std.specs.Io.{ReadsAtMost, WritesAtMost};
ghost use Rattle.std.specs.Io.KnownBytes.{Keeps, ReadConsumes, WriteAppends};

use std::io;
use std::io::{Read, Write};

/// A reader or a writer, and whether a call of it has failed.
///
/// `read`, `write` and `flush` require a device that has not failed, and the rest of the crate uses
/// only these. `try_read`, `try_write` and `try_flush`, which call a device even if it has failed,
/// are only for `Watched`.
#[derive(Drop)]
pub(crate) struct Device<D> {
    inner: D,
    failed: bool,
}

impl<D> Device<D> {
    ghost use Rattle.lines.specs.Private.Device.{inner_of, failed_of};

    pub(crate) fn new(inner: D) -> Device<D>
        ensures inner { inner_of result ≡ inner }
        ensures failed { failed_of result ≡ false }
    {
        Device {
            inner,
            failed: false,
        }
    }

    /// Returns whether a call of the device has failed.
    pub(crate) fn failed(&self) -> bool
        ensures { result ≡ failed_of self.now }
    {
        self.failed
    }

    pub(super) fn into_inner(self) -> D
        ensures { result ≡ inner_of self }
    {
        self.inner
    }
}

impl<D: Read> Device<D> {
    ghost use Rattle.lines.specs.Private.Device.{inner_of, failed_of};

    /// Reads from the device, in one call. The device must not have failed.
    pub(crate) fn read(&mut self, buf: &mut [u8]) -> io::Result<usize>
        requires { IsFalse (failed_of self.old) }
        ensures bound { ReadsAtMost result buf.new }
        ensures bytes { ReadConsumes (D.remaining (inner_of self.old))
            (D.remaining (inner_of self.new)) result buf.new }
        ensures failed { failed_of self.new ≡ (failed_of self.old || is_err result) }
    {
        self.try_read(buf)
    }

    pub(super) fn try_read(&mut self, buf: &mut [u8]) -> io::Result<usize>
        ensures bound { ReadsAtMost result buf.new }
        ensures bytes { ReadConsumes (D.remaining (inner_of self.old))
            (D.remaining (inner_of self.new)) result buf.new }
        ensures failed { failed_of self.new ≡ (failed_of self.old || is_err result) }
    {
        let result = self.inner.read(buf);
        if result.is_err() {
            self.failed = true;
        }
        result
    }
}

impl<D: Write> Device<D> {
    ghost use Rattle.lines.specs.Private.Device.{inner_of, failed_of};
    ghost use Rattle.lines.specs.Watched.{write_fails};

    /// Writes these bytes to the device, in one call. The device must not have failed.
    pub(crate) fn write(&mut self, buf: &[u8]) -> io::Result<usize>
        requires { IsFalse (failed_of self.old) }
        ensures bound { WritesAtMost result buf.now }
        ensures bytes { WriteAppends (D.contents (inner_of self.old))
            (D.contents (inner_of self.new)) result buf.now }
        ensures failed { failed_of self.new ≡ (failed_of self.old || write_fails result buf.now) }
    {
        self.try_write(buf)
    }

    /// Flushes the device, in one call. The device must not have failed.
    pub(crate) fn flush(&mut self) -> io::Result<()>
        requires { IsFalse (failed_of self.old) }
        ensures bytes { Keeps (D.contents (inner_of self.old)) (D.contents (inner_of self.new)) }
        ensures failed { failed_of self.new ≡ (failed_of self.old || is_err result) }
    {
        self.try_flush()
    }

    pub(super) fn try_write(&mut self, buf: &[u8]) -> io::Result<usize>
        ensures bound { WritesAtMost result buf.now }
        ensures bytes { WriteAppends (D.contents (inner_of self.old))
            (D.contents (inner_of self.new)) result buf.now }
        ensures failed { failed_of self.new ≡ (failed_of self.old || write_fails result buf.now) }
    {
        let result = self.inner.write(buf);
        if match result {
            Ok(count) => count == 0 && !buf.is_empty(),
            Err(_) => true,
        } {
            self.failed = true;
        }
        result
    }

    pub(super) fn try_flush(&mut self) -> io::Result<()>
        ensures bytes { Keeps (D.contents (inner_of self.old)) (D.contents (inner_of self.new)) }
        ensures failed { failed_of self.new ≡ (failed_of self.old || is_err result) }
    {
        let result = self.inner.flush();
        if result.is_err() {
            self.failed = true;
        }
        result
    }
}
