//! Writes bytes to a device that has not failed.
ghost use Rattle.std.specs.Prelude.{◌≡◌, ◌||◌, [], is_err, OnOk, OnErr, IsOkUnless, IsFalse};
ghost use Rattle.std.specs.Io.KnownBytes.{Appends};
ghost use Rattle.lines.specs.Outputs.{AppendsBeginning};
ghost use Rattle.lines.specs.Private.Device.{inner_of, failed_of};

use crate::buffer::Buffer;
use crate::fault::RunFault;
use crate::watched::device::Device;
use std::io::Write;

/// Writes the bytes that wait, and removes them from the buffer.
pub(crate) fn hand_on<W: Write>(
    writer: &mut Device<W>,
    waiting: &mut Buffer<'_>,
) -> Result<(), RunFault>
    requires works { IsFalse (failed_of writer.old) }
    ensures ok { OnOk result
        (Appends (W.contents (inner_of writer.old))
        (W.contents (inner_of writer.new)) waiting.old.items) }
    ensures emptied { OnOk result (waiting.new.items ≡ []) }
    ensures err { OnErr result
        (AppendsBeginning (W.contents (inner_of writer.old)) (W.contents (inner_of writer.new))
        waiting.old.items) }
    ensures watched { failed_of writer.new ≡ (failed_of writer.old || is_err result) }
    ensures fault { IsOkUnless result RunFault.Write }
{
    write_whole(writer, waiting.as_slice())?;
    waiting.clear();
    Ok(())
}

/// Writes all of these bytes, however many the device takes at a time.
pub(crate) fn write_whole<W: Write>(writer: &mut Device<W>, bytes: &[u8]) -> Result<(), RunFault>
    requires { IsFalse (failed_of writer.old) }
    ensures ok { OnOk result
        (Appends (W.contents (inner_of writer.old)) (W.contents (inner_of writer.new)) bytes.now) }
    ensures err { OnErr result
        (AppendsBeginning (W.contents (inner_of writer.old)) (W.contents (inner_of writer.new))
        bytes.now) }
    ensures watched { failed_of writer.new ≡ (failed_of writer.old || is_err result) }
    ensures fault { IsOkUnless result RunFault.Write }
{
    let mut at = 0;
    while at < bytes.len() {
        let count = match writer.write(&bytes[at..]) {
            Ok(count) => count,
            Err(_) => return Err(RunFault::Write),
        };
        if count == 0 {
            return Err(RunFault::Write);
        }
        at += count;
    }
    Ok(())
}
