//! Reads a list by its name.
ghost use Rattle.std.specs.Prelude.{◌≡◌, false, OnOk, IfErr};
ghost use Rattle.std.specs.Str.Lines.{lines};
ghost use Rattle.lists.specs.Lists.{at_list, TakesLines};
ghost use Rattle.lists.specs.Private.Readings.{end_of};
ghost use Rattle.lists.specs.Reading.{ReadsList, StopsAt, StopsAtText};

use crate::encoding::Encoding;
use crate::list_reader::ListReader;
use crate::open_lists::OpenLists;
use crate::opening::{OpenFault, open_list};
use crate::read::{ListFault, read_list, take_text};

/// Why lists were not read to the end.
///
/// ```
/// let fault = lists::ReadFault::Open(1, lists::OpenFault::Missing);
/// assert!(rt; fault != lists::ReadFault::Read(1));
/// ```
#[derive(Clone, Copy, Debug, PartialEq, Eq)]
pub enum ReadFault {
    /// The list that the word at this index names cannot be opened, for this cause.
    Open(usize, OpenFault),
    /// The list that the word at this index names cannot be read to its end.
    Read(usize),
    /// The document that the word at this index names has more than 1,073,741,824 bytes.
    Length(usize),
    /// The document that the word at this index names is neither JSON nor lines of JSON, or has more
    /// than 127 levels: the index of the word, the line, and what the document is if it is not plain
    /// text.
    NotJson(usize, u64, Option<Encoding>),
    /// The list that the word at this index names does not end with a line feed, so that it may have
    /// been cut, and such lists are refused (`Rules`).
    Cut(usize),
    /// The document that the word at this index names has no member of a name of a field, the one at
    /// the second index among these names.
    NoField(usize, usize),
    /// Memory ran out.
    OutOfMemory,
}

/// Opens the list of this name, which is the word at the index `place`, reads it to its end, and
/// closes it.
///
/// An error is returned if the list cannot be opened, a read fails, the list has more than
/// 18,446,744,073,709,551,615 bytes, memory runs out, or the rules say that lists end with a line
/// feed and this one does not. Even then the refused lines are added to the earlier ones.
///
/// ```
/// use lists::{OpenFault, ReadFault, read_named};
///
/// let system = program::system::System::new(&rt);
/// let mut reader = lists::ListReader::new(rt.alloc(), lists::Rules::lenient(), lists::Refusals::new());
/// let fault = ReadFault::Open(1, OpenFault::Missing);
/// assert_eq!(rt; read_named(&system, "no such file", 1, &mut reader), Err(fault));
/// ```
pub fn read_named<L: OpenLists>(
    lists: &L,
    name: &str,
    place: usize,
    reader: &mut ListReader,
) -> Result<(), ReadFault>
    ensures read { OnOk result
        (ReadsList (L.known lists.now) place name.now reader.old reader.new) }
    ensures memory { OnOk result (reader.new.is_out_of_memory ≡ false) }
    ensures stopped { IfErr result
        (λ fault. StopsAt (L.known lists.now) place name.now reader.old fault reader.new.refused) }
{
    let mut list = match open_list(lists, name) {
        Ok(list) => list,
        Err(cause) => return Err(ReadFault::Open(place, cause)),
    };
    let read = read_list(reader, place, &mut list);
    lists.close(name, list);
    end_of(read, place, reader.is_out_of_memory())
}

/// Reads a text, which is the word at the index `place`, to its end as a list.
///
/// The only error is that memory ran out.
///
/// ```
/// let mut reader = lists::ListReader::new(rt.alloc(), lists::Rules::lenient(), lists::Refusals::new());
/// assert_eq!(rt; lists::read_text("10.0.0.0/8", 1, &mut reader), Ok(()));
/// let (v4, _, _) = reader.into_networks();
/// assert_eq!(rt; v4.len(), 1);
/// ```
pub fn read_text(text: &str, place: usize, reader: &mut ListReader) -> Result<(), ReadFault>
    ensures read { OnOk result (TakesLines (at_list reader.old place) (lines text.now) reader.new) }
    ensures memory { OnOk result (reader.new.is_out_of_memory ≡ false) }
    ensures stopped { IfErr result
        (λ fault. StopsAtText place text.now reader.old fault reader.new.refused) }
{
    take_text(reader, place, text);
    if reader.is_out_of_memory() {
        return Err(ReadFault::OutOfMemory);
    }
    Ok(())
}

// Returns the result of reading the list at this index, by how its lines were taken and whether
// memory ran out.
fn end_of(
    read: Result<(), ListFault>,
    place: usize,
    is_out_of_memory: bool,
) -> Result<(), ReadFault>
    ensures { result ≡ end_of read place is_out_of_memory }
{
    if is_out_of_memory {
        return Err(ReadFault::OutOfMemory);
    }
    match read {
        Ok(()) => Ok(()),
        Err(ListFault::Cut) => Err(ReadFault::Cut(place)),
        Err(_) => Err(ReadFault::Read(place)),
    }
}
