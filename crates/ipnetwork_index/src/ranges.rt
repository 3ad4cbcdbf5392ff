//! The ranges in which an index finds the longest block.
ghost use Rattle.std.specs.Prelude.{IfOk};
ghost use Rattle.ipnetwork_table.specs.Table.{Finds, by_pair};
ghost use Rattle.ipnetwork_index.specs.Turns.{CutByBlocks};
ghost use Rattle.ipnetwork_index.specs.Private.Sweeps.{HasEntries};

use crate::answers::{Answers, answers_of};
use crate::edges::ranges_of;
use crate::indexed_network::IndexedNetwork;
use crate::places::Places;
use ipnetwork_table::laws;
use std::alloc::{AllocError, Global};

/// The ranges that a table's blocks cut the addresses into, with what a look-up finds in each.
#[derive(Drop)]
pub(crate) struct Ranges<N: IndexedNetwork, V: Copy> {
    // The addresses, cut where a block begins or ends.
    pub(crate) places: Places<N>,
    // The longest block that holds the addresses of each range.
    pub(crate) answers: Answers<V>,
}

impl<N: IndexedNetwork, V: Copy> Ranges<N, V> {
    ghost use Rattle.std.specs.FinMap.{FinMap};
    ghost use Rattle.ipnetwork_family.specs.Network.{network_cmp};
    ghost use Rattle.ipnetwork_index.specs.Private.Ranges.{IsIndexed, IsIndexedForSome, IsIndexedForAll};

    /// The ranges of a table with these entries.
    pub(crate) fn of(alloc: Global, entries: &[(N, V)]) -> Result<Self, AllocError>
        requires { (t : FinMap network_cmp V)
            × HasEntries N.WIDTH t (by_pair N.pair entries.now) }
        ensures { IfOk result
            (λ ranges. IsIndexedForAll N.WIDTH (by_pair N.pair entries.now)
            ranges.places.partition ranges.places.halves ranges.answers) }
    {
        laws::listing::<V>();
        let lasts = ranges_of(alloc, entries)?;
        let answers = answers_of(alloc, entries, lasts.as_slice())?;
        let places = Places::new(alloc, lasts.as_slice())?;
        Ok(Ranges { places, answers })
    }

    /// The number of ranges.
    pub(crate) fn len(&self) -> usize
        requires { IsIndexedForSome N.WIDTH self.now.places.partition self.now.places.halves
            self.now.answers }
        ensures { (t : FinMap network_cmp V) → IsIndexed N.WIDTH t self.now.places.partition
            self.now.places.halves self.now.answers → CutByBlocks N.WIDTH t result }
    {
        self.places.len()
    }

    /// The longest block that holds the address, with its value.
    #[inline(always)]
    pub(crate) fn lookup(&self, addr: N::Addr) -> Option<(N, V)>
        requires { IsIndexedForSome N.WIDTH self.now.places.partition self.now.places.halves
            self.now.answers }
        ensures { (t : FinMap network_cmp V) → IsIndexed N.WIDTH t self.now.places.partition
            self.now.places.halves self.now.answers
            → Finds N.pair N.WIDTH t (N.number addr) result }
    {
        let place = self.places.place_of(addr);
        self.answers.of(place, addr)
    }
}
