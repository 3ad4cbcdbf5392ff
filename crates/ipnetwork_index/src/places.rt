//! The places of a table's ranges in an index of routes.
ghost use Rattle.std.specs.Prelude.{◌≡◌, ℕ, ◌^◌, ◌<◌, ◌≤◌, IfOk, IsTrue, List, length, map};
ghost use Rattle.ipnetwork_index.specs.Private.LowHalves.{ArePlacesOf, HavePlaces};
ghost use Rattle.ipnetwork_index.specs.Private.Partitions.{IsPartition, LiesAt};

use crate::indexed_network::IndexedNetwork;
use crate::low_halves::LowHalves;
use crate::partition::Partition;
use crate::starts::{low_shift, route_bits};
use std::alloc::{AllocError, Global};

/// The ranges, as a partition or, if there are many that are spread out, by the low halves of their
/// last numbers, which take half the memory and one read of eight numbers.
#[derive(Drop)]
pub(crate) struct Places<N: IndexedNetwork> {
    // The addresses cut into ranges, unless low halves represent these.
    pub(crate) partition: Option<Partition<N>>,
    pub(crate) halves: LowHalves,
}

impl<N: IndexedNetwork> Places<N> {
    /// The ranges with these last addresses.
    pub(crate) fn new(alloc: Global, lasts: &[N::Addr]) -> Result<Self, AllocError>
        requires { IsPartition N.WIDTH (map N.number lasts.now) }
        ensures { IfOk result (λ places. ArePlacesOf N.WIDTH places.partition
            places.halves.lows.items places.halves.starts.items places.halves.shift
            places.halves.words.items (map N.number lasts.now)) }
    {
        let shift = low_shift(lasts.len());
        let are_many = are_many_and_spread::<N>(lasts);
        if are_many {
            let words = words_of::<N>(alloc, lasts)?;
            let halves = LowHalves::of(alloc, words.as_slice(), shift)?;
            return Ok(Places {
                partition: None,
                halves,
            });
        }
        let partition = Partition::new(alloc, lasts, route_bits(lasts.len()))?;
        Ok(Places {
            partition: Some(partition),
            halves: LowHalves::none(alloc),
        })
    }

    /// The number of ranges.
    pub(crate) fn len(&self) -> usize
        requires { HavePlaces N.WIDTH self.now.partition self.now.halves.lows.items
            self.now.halves.starts.items self.now.halves.shift self.now.halves.words.items }
        ensures { (lasts : List ℕ) → ArePlacesOf N.WIDTH self.now.partition
            self.now.halves.lows.items self.now.halves.starts.items self.now.halves.shift
            self.now.halves.words.items lasts → result ≡ length lasts }
    {
        match &self.partition {
            Some(partition) => partition.len(),
            None => self.halves.len(),
        }
    }

    /// The place of the range that the address lies in.
    #[inline(always)]
    pub(crate) fn place_of(&self, addr: N::Addr) -> usize
        requires { HavePlaces N.WIDTH self.now.partition self.now.halves.lows.items
            self.now.halves.starts.items self.now.halves.shift self.now.halves.words.items }
        ensures { (lasts : List ℕ) → ArePlacesOf N.WIDTH self.now.partition
            self.now.halves.lows.items self.now.halves.starts.items self.now.halves.shift
            self.now.halves.words.items lasts → LiesAt lasts (N.number addr) result }
    {
        match &self.partition {
            Some(partition) => partition.place_of(N::number_of(addr)),
            None => self.halves.place_of(N::low_word(N::number_of(addr))),
        }
    }
}

// Whether there are enough ranges for low halves to be worth it, and the ranges without a 64th of
// them at either end extend over a fourth of all numbers: otherwise most of them could lie in one
// part. Only numbers of at most 32 bits have low halves.
fn are_many_and_spread<N: IndexedNetwork>(lasts: &[N::Addr]) -> bool
    ensures short { IsTrue result → N.WIDTH ≤ 32 }
    ensures few { IsTrue result → length lasts.now < 2 ^ 32 }
{
    if N::WIDTH > 32 {
        return false;
    }
    if lasts.len() < 1 << 16 || lasts.len() > u32::MAX as usize {
        return false;
    }
    let few = lasts.len() / 64;
    let first = N::low_word(N::number_of(lasts[few]));
    let last = N::low_word(N::number_of(lasts[lasts.len() - 1 - few]));
    last.saturating_sub(first) >= 1 << 30
}

// The numbers of the addresses, which have at most 32 bits.
fn words_of<N: IndexedNetwork>(alloc: Global, addresses: &[N::Addr]) -> Result<Vec<u32>, AllocError>
    requires { N.WIDTH ≤ 32 }
    ensures { IfOk result (λ words. words.items ≡ map N.number addresses.now) }
{
    let mut words = Vec::with_capacity(alloc, addresses.len())?;
    for address in addresses {
        words.push(N::low_word(N::number_of(*address)))?;
    }
    Ok(words)
}
