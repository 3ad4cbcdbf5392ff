//! Reads all bytes of a list.
ghost use Rattle.std.specs.Prelude.{◌≤◌, length, IfOk, IfErr};
ghost use Rattle.lines.specs.Watched.{device_of, has_failed};
ghost use Rattle.lists.specs.Bytes.{IsAllOf, BytesStop};
ghost use Rattle.lists.specs.Private.Bytes.{ReadsAll, StopsReading};

use crate::open_lists::OpenLists;
use crate::opening::{OpenFault, open_list};
use lines::watched::Watched;
use std::alloc::Global;
use std::io::Read;

/// The number of bytes that are read at once.
const CHUNK_LEN: usize = 65536;

/// Why the bytes of a list were not read to the end.
///
/// ```
/// use lists::{BytesFault, OpenFault};
///
/// assert!(rt; BytesFault::Open(OpenFault::Other) != BytesFault::Read);
/// ```
#[derive(Clone, Copy, Debug, PartialEq, Eq)]
pub enum BytesFault {
    /// The list cannot be opened, for this cause.
    Open(OpenFault),
    /// A read failed.
    Read,
    /// The list has more bytes than were allowed.
    Length,
    /// Memory ran out.
    OutOfMemory,
}

/// Opens the list of this name, reads all of its bytes, and closes it.
///
/// An error is returned if the list cannot be opened, a read fails, the list has more than `max`
/// bytes, or memory runs out.
///
/// ```
/// use lists::{BytesFault, OpenFault};
///
/// let system = program::system::System::new(&rt);
/// let fault = BytesFault::Open(OpenFault::Missing);
/// let read = lists::read_bytes(rt.alloc(), &system, "no such file", 1024);
/// assert_eq!(rt; read.err(), Some(fault));
/// ```
pub fn read_bytes<L: OpenLists>(
    alloc: Global,
    lists: &L,
    name: &str,
    max: usize,
) -> Result<Vec<u8>, BytesFault>
    ensures ok { IfOk result (λ bytes. IsAllOf (L.known lists.now) name.now bytes.items) }
    ensures bound { IfOk result (λ bytes. length bytes.items ≤ max) }
    ensures err { IfErr result (BytesStop (L.known lists.now) name.now max) }
{
    let mut list = match open_list(lists, name) {
        Ok(list) => list,
        Err(cause) => return Err(BytesFault::Open(cause)),
    };
    let bytes = read_all(alloc, &mut list, max);
    lists.close(name, list);
    bytes
}

// Reads all bytes that a device has left, at most `max`.
fn read_all<R: Read>(
    alloc: Global,
    reader: &mut Watched<R>,
    max: usize,
) -> Result<Vec<u8>, BytesFault>
    ensures ok { IfOk result (λ bytes. ReadsAll (R.remaining (device_of reader.old))
        (R.remaining (device_of reader.new)) bytes.items) }
    ensures bound { IfOk result (λ bytes. length bytes.items ≤ max) }
    ensures err { IfErr result (StopsReading (R.remaining (device_of reader.old))
        (R.remaining (device_of reader.new)) (has_failed reader.new) max) }
{
    let mut bytes = Vec::new(alloc);
    let mut chunk = [0u8; CHUNK_LEN];
    let mut room = max;
    'reads: loop {
        let Ok(count) = reader.read(&mut chunk) else {
            return Err(BytesFault::Read);
        };
        if count == 0 {
            return Ok(bytes);
        }
        if count > room {
            return Err(BytesFault::Length);
        }
        room -= count;
        if bytes.extend_from_slice(&chunk[..count]).is_err() {
            return Err(BytesFault::OutOfMemory);
        }
    }
}
