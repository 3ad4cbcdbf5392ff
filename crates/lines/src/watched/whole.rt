//! Writes whole texts to a device, unless a call of it has failed.
ghost use Rattle.std.specs.Prelude.{◌≡◌, ◌||◌, is_err, Err, OnOk, OnErr, IsOkUnless, IsTrue};
ghost use Rattle.std.specs.Io.KnownBytes.{Appends, Keeps};
ghost use Rattle.lines.specs.Outputs.{AppendsBeginning};
ghost use Rattle.lines.specs.Watched.{device_of, has_failed};

use crate::fault::RunFault;
use crate::watched::Watched;
use crate::writing::write_whole;
use std::io::Write;

impl<D: Write> Watched<D> {
    /// Writes all of these bytes, in as many calls as the device needs.
    ///
    /// Returns `RunFault::Write` if a write failed, now or earlier. Then a beginning of the bytes
    /// was written, and a device that had failed before was not called. Does not allocate, unless
    /// the device does.
    ///
    /// ```
    /// let mut room = [0; 4];
    /// let mut writer = lines::watched::Watched::new(room.as_mut_slice());
    /// assert_eq!(rt; writer.write_whole(b"::1"), Ok(()));
    /// assert_eq!(rt; writer.write_whole(b"::2"), Err(lines::fault::RunFault::Write));
    /// ```
    pub fn write_whole(&mut self, bytes: &[u8]) -> Result<(), RunFault>
        ensures ok { OnOk result
            (Appends (D.contents (device_of self.old))
            (D.contents (device_of self.new)) bytes.now) }
        ensures err { OnErr result
            (AppendsBeginning (D.contents (device_of self.old))
            (D.contents (device_of self.new)) bytes.now) }
        ensures failed { has_failed self.new ≡ (has_failed self.old || is_err result) }
        ensures fault { IsOkUnless result RunFault.Write }
        ensures uncalled { IsTrue (has_failed self.old)
            → (result ≡ Err RunFault.Write) × (device_of self.new ≡ device_of self.old) }
    {
        if self.device.failed() {
            return Err(RunFault::Write);
        }
        write_whole(&mut self.device, bytes)
    }

    /// Flushes the device, in one call.
    ///
    /// Returns `RunFault::Write` if the flush failed, or a call before it. A device that had failed
    /// before is not called. Does not allocate, unless the device does.
    ///
    /// ```
    /// let mut writer = lines::watched::Watched::new(std::io::sink());
    /// assert_eq!(rt; writer.finish(), Ok(()));
    /// ```
    pub fn finish(&mut self) -> Result<(), RunFault>
        ensures bytes { Keeps (D.contents (device_of self.old)) (D.contents (device_of self.new)) }
        ensures failed { has_failed self.new ≡ (has_failed self.old || is_err result) }
        ensures fault { IsOkUnless result RunFault.Write }
        ensures uncalled { IsTrue (has_failed self.old)
            → (result ≡ Err RunFault.Write) × (device_of self.new ≡ device_of self.old) }
    {
        if self.device.failed() || self.device.flush().is_err() {
            return Err(RunFault::Write);
        }
        Ok(())
    }
}
