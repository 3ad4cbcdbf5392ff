//! Laws of the entries: which keys a table has, what an insertion and a removal change, and the
//! order of the entries.
ghost use Rattle.ipnetwork_table.specs.Laws.{EmptyHasNoHostBits, InsertAddsNoHostBits, RemoveAddsNoHostBits, InsertSetsOne, RemoveTakesOne, ListedIsStored, StoredIsListed, EntriesAscend, WiderBlocksFirst};

use ipnetwork_family::laws;

/// No key of a table has host bits: the empty table has no keys, and neither inserting the block of a network nor
/// removing a network adds a key with host bits.
pub fn keys_without_host_bits<V: Copy>()
    ensures empty { EmptyHasNoHostBits V }
    ensures insert { InsertAddsNoHostBits V }
    ensures remove { RemoveAddsNoHostBits V }
{
    laws::blocks();
}

/// An insertion changes the value of one network, and a removal takes out one network; all other
/// networks keep their values.
pub fn one_key_changes<V: Copy>()
    ensures insert { InsertSetsOne V }
    ensures remove { RemoveTakesOne V }
{}

/// The entries of a table are its blocks with their values, in the order of networks, and no block
/// lies in one that comes after it.
pub fn listing<V: Copy>()
    ensures stored { ListedIsStored V }
    ensures listed { StoredIsListed V }
    ensures ascending { EntriesAscend V }
    ensures wider_first { WiderBlocksFirst V }
{}
