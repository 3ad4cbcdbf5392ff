//! All addresses of a family, cut into ranges.
ghost use Rattle.std.specs.Prelude.{◌≡◌, ◌^◌, ◌<◌, ◌≤◌, IfOk, length, map};
ghost use Rattle.ipnetwork_index.specs.Searches.{AreStarts};
ghost use Rattle.ipnetwork_index.specs.Private.Partitions.{IsPartition, LiesAt};
ghost use Rattle.ipnetwork_index.specs.Private.Padded.{unpadded, IsPadded, Pads};

use crate::halves::{all_end, are_worth_it, highs_of, place_by_halves};
use crate::indexed_network::IndexedNetwork;
use crate::key::Key;
use crate::search::place_of;
use crate::starts::{span_of, write_starts};
use std::alloc::{AllocError, Global};
use std::marker::Model;

/// The addresses of a family, cut into ranges.
#[derive(Drop)]
pub(crate) struct Partition<N: IndexedNetwork> {
    // The last number of each range, and three more times that of the last range.
    lasts: Vec<N::Number>,
    // For each part of the numbers or of the high halves from a base on, how many ranges end before
    // it. The counts do not decrease.
    starts: Vec<u32>,
    base: N::Number,
    // Each part has 2 ^ shift numbers or high halves.
    shift: u32,
    // Whether the high halves are searched first; these are then those of the last numbers. If each
    // last number is the greatest with its high half, the high halves determine the place.
    by_halves: bool,
    highs: Vec<N::High>,
    high_base: N::High,
    highs_tell: bool,
}

// A contract sees the last numbers of the ranges, in ascending order.
impl<N: IndexedNetwork> Model for Partition<N> {
    ghost use Rattle.std.specs.Prelude.{ℕ, List, map};
    ghost use Rattle.ipnetwork_index.specs.Private.Padded.{unpadded, IsSearched};

    ghost Value = { List ℕ };

    ghost view = { λ p. unpadded (map N.Number.value p.lasts.items) };

    ghost invariant = { λ p. IsSearched N.WIDTH N.high N.Number.BITS N.High.BITS
        (map N.Number.value p.lasts.items) p.starts.items (N.Number.value p.base) p.shift
        p.by_halves (map N.High.value p.highs.items) (N.High.value p.high_base) p.highs_tell };
}

impl<N: IndexedNetwork> Partition<N> {
    /// The ranges with these last addresses, searched in 2^`bits` parts.
    pub(crate) fn new(alloc: Global, addresses: &[N::Addr], bits: u32) -> Result<Self, AllocError>
        requires parts { bits ≤ 20 }
        requires partition { IsPartition N.WIDTH (map N.number addresses.now) }
        ensures { IfOk result (λ partition. partition ≡ map N.number addresses.now) }
    {
        let lasts = padded::<N>(numbers_of::<N>(alloc, addresses)?)?;
        Self::of_padded(alloc, lasts, bits)
    }

    // The ranges with these last numbers, searched by high halves if enough of these differ.
    fn of_padded(alloc: Global, lasts: Vec<N::Number>, bits: u32) -> Result<Self, AllocError>
        requires parts { bits ≤ 20 }
        requires padded { IsPadded N.WIDTH (map N.Number.value lasts.items) }
        ensures { IfOk result (λ partition. partition ≡ unpadded (map N.Number.value lasts.items)) }
    {
        if N::has_halves() {
            let highs = highs_of::<N>(alloc, lasts.as_slice())?;
            if are_worth_it::<N::High>(highs.as_slice()) {
                return Self::of_halves(alloc, lasts, highs, bits);
            }
        }
        Self::of_wholes(alloc, lasts, bits)
    }

    // The ranges with these last numbers, searched by whole numbers.
    fn of_wholes(alloc: Global, lasts: Vec<N::Number>, bits: u32) -> Result<Self, AllocError>
        requires parts { bits ≤ 20 }
        requires padded { IsPadded N.WIDTH (map N.Number.value lasts.items) }
        ensures { IfOk result (λ partition. partition ≡ unpadded (map N.Number.value lasts.items)) }
    {
        let (base, shift) = span_of::<N::Number>(lasts.as_slice(), bits);
        let starts = starts_of::<N::Number>(alloc, lasts.as_slice(), base, shift, 1 << bits)?;
        Ok(Partition {
            lasts,
            starts,
            base,
            shift,
            by_halves: false,
            highs: Vec::new(alloc),
            high_base: N::high_of(base),
            highs_tell: false,
        })
    }

    // The ranges with these last numbers, searched first by these high halves.
    fn of_halves(
        alloc: Global,
        lasts: Vec<N::Number>,
        highs: Vec<N::High>,
        bits: u32,
    ) -> Result<Self, AllocError>
        requires parts { bits ≤ 20 }
        requires padded { IsPadded N.WIDTH (map N.Number.value lasts.items) }
        requires halves { map N.High.value highs.items
            ≡ map N.high (map N.Number.value lasts.items) }
        ensures { IfOk result (λ partition. partition ≡ unpadded (map N.Number.value lasts.items)) }
    {
        let (high_base, shift) = span_of::<N::High>(highs.as_slice(), bits);
        let starts = starts_of::<N::High>(alloc, highs.as_slice(), high_base, shift, 1 << bits)?;
        let highs_tell = all_end::<N>(lasts.as_slice());
        let base = lasts[0];
        Ok(Partition {
            lasts,
            starts,
            base,
            shift,
            by_halves: true,
            highs,
            high_base,
            highs_tell,
        })
    }

    /// The number of ranges.
    pub(crate) fn len(&self) -> usize
        ensures { result ≡ length self.now }
    {
        self.lasts.len() - 3
    }

    /// The place of the range that the number lies in.
    pub(crate) fn place_of(&self, number: N::Number) -> usize
        requires { N.Number.value number < 2 ^ N.WIDTH }
        ensures { LiesAt self.now (N.Number.value number) result }
    {
        let lasts = self.lasts.as_slice();
        // A single range has all numbers.
        if lasts.len() == 4 {
            return 0;
        }
        let starts = self.starts.as_slice();
        let by_halves = self.by_halves;
        if by_halves {
            let highs = self.highs.as_slice();
            return place_by_halves::<N>(
                lasts,
                highs,
                starts,
                self.high_base,
                self.shift,
                self.highs_tell,
                number,
            );
        }
        place_of::<N::Number>(lasts, starts, self.base, self.shift, number)
    }
}

// The numbers of the addresses, with room for three more.
fn numbers_of<N: IndexedNetwork>(
    alloc: Global,
    addresses: &[N::Addr],
) -> Result<Vec<N::Number>, AllocError>
    ensures { IfOk result
        (λ numbers. map N.Number.value numbers.items ≡ map N.number addresses.now) }
{
    let mut numbers = Vec::with_capacity(alloc, addresses.len().saturating_add(3))?;
    for address in addresses {
        numbers.push(N::number_of(*address))?;
    }
    Ok(numbers)
}

// The last numbers of ranges, and three more times the last of them.
fn padded<N: IndexedNetwork>(mut lasts: Vec<N::Number>) -> Result<Vec<N::Number>, AllocError>
    requires { IsPartition N.WIDTH (map N.Number.value lasts.items) }
    ensures { IfOk result (λ padded. Pads N.WIDTH (map N.Number.value lasts.items)
        (map N.Number.value padded.items)) }
{
    let greatest = N::greatest();
    lasts.push(greatest)?;
    lasts.push(greatest)?;
    lasts.push(greatest)?;
    Ok(lasts)
}

// Where the search for the numbers of each of `count` parts begins.
fn starts_of<K: Key>(
    alloc: Global,
    keys: &[K],
    base: K,
    shift: u32,
    count: usize,
) -> Result<Vec<u32>, AllocError>
    requires some { 1 ≤ count }
    requires narrow { shift < K.BITS }
    ensures { IfOk result
        (λ starts. AreStarts (map K.value keys.now) starts.items (K.value base) shift) }
{
    let mut starts = vec![in alloc; 0u32; count]?;
    write_starts::<K>(keys, base, shift, starts.as_mut_slice());
    Ok(starts)
}
