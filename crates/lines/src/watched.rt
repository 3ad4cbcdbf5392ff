//! A device that records whether a call of it failed.
ghost use Rattle.std.specs.Prelude.{◌≡◌, ◌||◌, false, is_err};
ghost use Rattle.std.specs.Io.{ReadsAtMost, WritesAtMost};
ghost use Rattle.std.specs.Io.KnownBytes.{Keeps, ReadConsumes, WriteAppends};

pub(crate) mod device;
mod whole;

use crate::watched::device::Device;
use std::io;
use std::io::{Read, Write};

/// A reader or a writer, and whether a call of it through this value has failed.
///
/// A read, a write or a flush fails if it returns an error, of any kind. A write also fails if it
/// is given bytes but takes none. Once a call has failed, `failed` stays true, but the device can
/// still be called.
///
/// ```
/// let mut room = [0; 1];
/// let mut writer = lines::watched::Watched::new(room.as_mut_slice());
/// assert_eq!(rt; (writer.write(b"ab")?, writer.failed()), (1, false));
/// assert_eq!(rt; (writer.write(b"b")?, writer.failed()), (0, true));
/// ```
#[derive(Drop)]
pub struct Watched<D> {
    pub(crate) device: Device<D>,
}

impl<D> Watched<D> {
    ghost use Rattle.lines.specs.Watched.{device_of, has_failed};

    /// Wraps a device. No call of it counts as failed yet.
    ///
    /// ```
    /// let reader = lines::watched::Watched::new(b"10.0.0.0/8".as_slice());
    /// assert!(rt; !reader.failed());
    /// ```
    pub fn new(device: D) -> Watched<D>
        ensures device { device_of result ≡ device }
        ensures failed { has_failed result ≡ false }
    {
        Watched {
            device: Device::new(device),
        }
    }

    /// Returns whether a call of the device has failed.
    ///
    /// ```
    /// let mut writer = lines::watched::Watched::new([].as_mut_slice());
    /// assert_eq!(rt; writer.write(b"a")?, 0);
    /// assert!(rt; writer.failed());
    /// ```
    pub fn failed(&self) -> bool
        ensures { result ≡ has_failed self.now }
    {
        self.device.failed()
    }

    /// Returns the device.
    ///
    /// ```
    /// let mut writer = lines::watched::Watched::new(Vec::new(rt.alloc()));
    /// writer.write(b"ok")?;
    /// assert_eq!(rt; writer.into_inner().as_slice(), b"ok".as_slice());
    /// ```
    pub fn into_inner(self) -> D
        ensures { result ≡ device_of self }
    {
        self.device.into_inner()
    }
}

impl<D: Read> Watched<D> {
    ghost use Rattle.lines.specs.Watched.{device_of, has_failed};

    /// Reads from the device, in one call, and returns its result.
    ///
    /// `Ok` contains the number of bytes that were put at the front of `buf`, which is 0 only at
    /// the end of the input or if `buf` is empty. The error is the device's. Does not allocate,
    /// unless the device does.
    ///
    /// ```
    /// let mut reader = lines::watched::Watched::new(b"abc".as_slice());
    /// let mut piece = [0; 2];
    /// assert_eq!(rt; reader.read(&mut piece)?, 2);
    /// assert_eq!(rt; piece, *b"ab");
    /// ```
    pub fn read(&mut self, buf: &mut [u8]) -> io::Result<usize>
        ensures bound { ReadsAtMost result buf.new }
        ensures bytes { ReadConsumes (D.remaining (device_of self.old))
            (D.remaining (device_of self.new)) result buf.new }
        ensures failed { has_failed self.new ≡ (has_failed self.old || is_err result) }
    {
        self.device.try_read(buf)
    }
}

impl<D: Write> Watched<D> {
    ghost use Rattle.lines.specs.Watched.{device_of, has_failed, write_fails};

    /// Writes these bytes to the device, in one call, and returns its result.
    ///
    /// `Ok` contains the number of bytes that the device took, from the front of `buf`. The error
    /// is the device's. Does not allocate, unless the device does.
    ///
    /// ```
    /// let mut room = [0; 2];
    /// let mut writer = lines::watched::Watched::new(room.as_mut_slice());
    /// assert_eq!(rt; writer.write(b"abc")?, 2);
    /// ```
    pub fn write(&mut self, buf: &[u8]) -> io::Result<usize>
        ensures bound { WritesAtMost result buf.now }
        ensures bytes { WriteAppends (D.contents (device_of self.old))
            (D.contents (device_of self.new)) result buf.now }
        ensures failed { has_failed self.new ≡ (has_failed self.old || write_fails result buf.now) }
    {
        self.device.try_write(buf)
    }

    /// Flushes the device, in one call, and returns its result. The error is the device's. Does not
    /// allocate, unless the device does.
    ///
    /// ```
    /// let mut writer = lines::watched::Watched::new(std::io::sink());
    /// assert!(rt; writer.flush().is_ok());
    /// assert!(rt; !writer.failed());
    /// ```
    pub fn flush(&mut self) -> io::Result<()>
        ensures bytes { Keeps (D.contents (device_of self.old)) (D.contents (device_of self.new)) }
        ensures failed { has_failed self.new ≡ (has_failed self.old || is_err result) }
    {
        self.device.try_flush()
    }
}
