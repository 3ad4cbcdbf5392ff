//! What a look-up finds in each range.
ghost use Rattle.std.specs.Prelude.{◌≡◌, ◌<◌, IfOk, length, map, get_or};
ghost use Rattle.ipnetwork_table.specs.Table.{by_pair};
ghost use Rattle.ipnetwork_index.specs.Private.Answers.{IsMadeOf};
ghost use Rattle.ipnetwork_index.specs.Private.Partitions.{IsPartition};
ghost use Rattle.ipnetwork_index.specs.Private.Sweeps.{AreAnswersOf, AreListed, HasEntries};

use crate::indexed_network::IndexedNetwork;
use crate::sweep::answers_by_sweep;
use ipnetwork_table::{PrefixTable, laws};
use std::alloc::{AllocError, Global};

// Takes the place of a prefix length if no block holds the addresses of the range.
pub(crate) const NO_BLOCK: u8 = 255;

/// What a look-up finds in each range, without the address of the block, which is computed from the
/// address that is looked up. Empty if the table is empty.
#[derive(Drop)]
pub(crate) struct Answers<V: Copy> {
    // The prefix length of the block that holds the addresses of each range.
    pub(crate) prefixes: Vec<u8>,
    // The value of that block, or any value if there is no block.
    pub(crate) values: Vec<V>,
}

impl<V: Copy> Answers<V> {
    /// The answer for this address, which lies in the range at this place.
    pub(crate) fn of<N: IndexedNetwork>(&self, place: usize, addr: N::Addr) -> Option<(N, V)>
        requires { length self.now.prefixes.items ≡ length self.now.values.items }
        ensures { IsMadeOf N.pair N.WIDTH self.now.prefixes.items self.now.values.items place
            (N.number addr) result }
    {
        if place >= self.values.len() {
            return None;
        }
        let (prefix, value) = self.read(place);
        let block = N::block_at(addr, prefix.min(N::WIDTH));
        if prefix == NO_BLOCK {
            return None;
        }
        Some((block, value))
    }

    // The prefix length and the value at this place. Not inlined, so that the value is read before
    // it is known whether there is a block: otherwise a branch would depend on that, unpredictable
    // for random addresses.
    #[inline(never)]
    fn read(&self, place: usize) -> (u8, V)
        requires prefix { place < length self.now.prefixes.items }
        requires value { place < length self.now.values.items }
        ensures prefix { result.0 ≡ get_or self.now.prefixes.items place 255 }
        ensures value { get_or self.now.values.items place result.1 ≡ result.1 }
    {
        (self.prefixes[place], self.values[place])
    }
}

/// What a table with these entries finds for the last address of each range.
pub(crate) fn answers_of<N: IndexedNetwork, V: Copy>(
    alloc: Global,
    entries: &[(N, V)],
    lasts: &[N::Addr],
) -> Result<Answers<V>, AllocError>
    requires listed { AreListed N.WIDTH (by_pair N.pair entries.now) }
    requires partition { IsPartition N.WIDTH (map N.number lasts.now) }
    ensures { IfOk result (λ answers. AreAnswersOf N.WIDTH (by_pair N.pair entries.now)
        (map N.number lasts.now) answers.prefixes.items answers.values.items) }
{
    laws::listing::<V>();
    if entries.is_empty() {
        return Ok(Answers {
            prefixes: Vec::new(alloc),
            values: Vec::new(alloc),
        });
    }
    answers_by_sweep(alloc, entries, lasts)
}

/// The entries of the table, in order.
pub(crate) fn entries_of<N: IndexedNetwork, V: Copy>(
    alloc: Global,
    table: &PrefixTable<N, V>,
) -> Result<Vec<(N, V)>, AllocError>
    ensures { IfOk result
        (λ entries. HasEntries N.WIDTH table.now (by_pair N.pair entries.items)) }
{
    let mut entries = Vec::with_capacity(alloc, table.len())?;
    let mut left = table.iter();
    'listing: while let Some(entry) = left.next() {
        entries.push(entry)?;
    }
    Ok(entries)
}
