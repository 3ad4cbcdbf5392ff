//! Numbers of 32 bits, represented by the part that they lie in and by their low halves.
ghost use Rattle.std.specs.Prelude.{◌≡◌, ℕ, ◌+◌, ◌^◌, ◌<◌, ◌≤◌, IfOk, List, length};
ghost use Rattle.ipnetwork_index.specs.Private.LowHalves.{AreAscending, AreBefore, AreFirsts, AreKnownBy, AreLowHalves, AreLowHalvesOf, AreLows, AreRising, IsFirstFrom, IsFirstOf, IsRunOfLess, ReachAll};
ghost use Rattle.ipnetwork_index.specs.Private.Partitions.{LiesAt};

use crate::block_ends::{block_ends, place_by_word};
use std::alloc::{AllocError, Global};
use std::simd::prelude::*;

/// Ascending numbers of which only the last 16 bits are kept: the part that a number lies in gives
/// the others. A number is searched for among those of its part.
#[derive(Drop)]
pub(crate) struct LowHalves {
    // The last 16 bits of each number, and eight more elements, so that eight can always be read.
    pub(crate) lows: Vec<u16>,
    // For each part, how many of the numbers lie before it, and finally how many there are.
    pub(crate) starts: Vec<u32>,
    // Each part has 2 ^ shift numbers, at most 2 ^ 16.
    pub(crate) shift: u32,
    // What `block_ends` writes, for the numbers as the last ones of ranges: the places of most
    // addresses, if there are many.
    pub(crate) words: Vec<u64>,
}

impl LowHalves {
    /// The low halves of no numbers.
    pub(crate) fn none(alloc: Global) -> Self {
        LowHalves {
            lows: Vec::new(alloc),
            starts: Vec::new(alloc),
            shift: 0,
            words: Vec::new(alloc),
        }
    }

    /// The low halves of these numbers.
    pub(crate) fn of(alloc: Global, numbers: &[u32], shift: u32) -> Result<Self, AllocError>
        requires narrow { shift ≤ 16 }
        requires few { length numbers.now < 2 ^ 32 }
        requires ascending { AreAscending numbers.now }
        ensures { IfOk result (λ halves.
            AreKnownBy numbers.now halves.lows.items halves.starts.items halves.shift
            halves.words.items) }
    {
        let starts = starts_of(alloc, numbers, shift)?;
        let lows = lows_of(alloc, numbers)?;
        let words = block_ends(alloc, numbers)?;
        Ok(LowHalves {
            lows,
            starts,
            shift,
            words,
        })
    }

    /// The place of the first of the numbers that is not less than this one: that which a word
    /// gives, if there is one.
    #[inline(always)]
    pub(crate) fn place_of(&self, number: u32) -> usize
        requires { AreLowHalves self.now.lows.items self.now.starts.items self.now.shift
            self.now.words.items }
        ensures { (w : ℕ) (numbers : List ℕ)
            → AreLowHalvesOf w self.now.lows.items self.now.starts.items self.now.shift
            self.now.words.items numbers
            → number < 2 ^ w → LiesAt numbers number result }
    {
        let part = (number >> 13) as usize;
        let words = self.words.as_slice();
        if part < words.len() {
            let word = words[part];
            if word != 0 {
                return place_by_word(word, number / 256 % 32);
            }
        }
        self.place_by_lows(number)
    }

    // `place_of`, among the low halves. Not inlined, since in a caller's loop the lesser of two
    // numbers would be found by a branch.
    #[inline(never)]
    fn place_by_lows(&self, number: u32) -> usize
        requires { AreLowHalves self.now.lows.items self.now.starts.items self.now.shift
            self.now.words.items }
        ensures { (w : ℕ) (numbers : List ℕ)
            → AreLowHalvesOf w self.now.lows.items self.now.starts.items self.now.shift
            self.now.words.items numbers
            → number < 2 ^ w → LiesAt numbers number result }
    {
        let part = (number >> self.shift) as usize;
        let low = (number % 65536) as u16;
        let lows = self.lows.as_slice();
        let start = self.starts[part] as usize;
        let end = self.starts[part + 1] as usize;
        let less = less_of_eight(lows, start, low).min(end - start);
        if less == 8 {
            return first_from(lows, start + 8, end, low);
        }
        start + less
    }

    /// The number of numbers.
    pub(crate) fn len(&self) -> usize
        requires { AreLowHalves self.now.lows.items self.now.starts.items self.now.shift
            self.now.words.items }
        ensures { result + 8 ≡ length self.now.lows.items }
    {
        self.lows.len() - 8
    }
}

// How many of the eight from this place on come before the first that is not less than `low`.
#[inline(always)]
fn less_of_eight(lows: &[u16], at: usize, low: u16) -> usize
    requires { at + 8 ≤ length lows.now }
    ensures { IsRunOfLess lows.now at low result }
{
    let eight = u16x8::from_slice(&lows[at..]);
    let marks = eight.simd_ge(u16x8::splat(low)).to_bitmask();
    // The ninth mark means that no branch depends on whether there is one among the eight.
    let ended = marks + 256;
    ended.trailing_zeros() as usize
}

// The place of the first of these that is not less than `low`, or `end`. Not inlined, to keep a
// search that ends within the first eight short.
#[inline(never)]
fn first_from(lows: &[u16], from: usize, end: usize, low: u16) -> usize
    requires ordered { from ≤ end }
    requires within { end ≤ length lows.now }
    requires rising { AreRising lows.now from end }
    ensures { IsFirstFrom lows.now from end low result }
{
    let mut at = from;
    let mut to = end;
    while at < to {
        let middle = at + (to - at) / 2;
        if lows[middle] < low {
            at = middle + 1;
        } else {
            to = middle;
        }
    }
    at
}

// The last 16 bits of the numbers, and eight more elements.
fn lows_of(alloc: Global, numbers: &[u32]) -> Result<Vec<u16>, AllocError>
    requires { length numbers.now < 2 ^ 32 }
    ensures { IfOk result (λ lows. AreLows numbers.now lows.items) }
{
    let mut lows = vec![in alloc; 0u16; numbers.len() + 8]?;
    write_lows(numbers, lows.as_mut_slice());
    Ok(lows)
}

fn write_lows(numbers: &[u32], lows: &mut [u16])
    requires { length lows.old ≡ length numbers.now + 8 }
    ensures { AreLows numbers.now lows.new }
{
    for place in 0..numbers.len() {
        lows[place] = (numbers[place] % 65536) as u16;
    }
}

// For each part, how many of the numbers lie before it, and finally how many there are.
fn starts_of(alloc: Global, numbers: &[u32], shift: u32) -> Result<Vec<u32>, AllocError>
    requires narrow { shift ≤ 16 }
    requires few { length numbers.now < 2 ^ 32 }
    requires ascending { AreAscending numbers.now }
    ensures reach { IfOk result (λ starts. ReachAll starts.items shift) }
    ensures firsts { IfOk result (λ starts. AreFirsts numbers.now starts.items shift) }
{
    let mut starts = vec![in alloc; 0u32; (u32::MAX >> shift) as usize + 2]?;
    write_starts(numbers, shift, starts.as_mut_slice());
    Ok(starts)
}

fn write_starts(numbers: &[u32], shift: u32, starts: &mut [u32])
    requires narrow { shift ≤ 16 }
    requires few { length numbers.now < 2 ^ 32 }
    requires ascending { AreAscending numbers.now }
    ensures size { length starts.new ≡ length starts.old }
    ensures firsts { AreFirsts numbers.now starts.new shift }
{
    let mut at = 0;
    for part in 0..starts.len() {
        at = first_of(numbers, at, part, shift);
        starts[part] = at as u32;
    }
}

// How many of the numbers lie before the part, given that those before `from` do.
pub(crate) fn first_of(numbers: &[u32], from: usize, part: usize, shift: u32) -> usize
    requires narrow { shift ≤ 16 }
    requires within { from ≤ length numbers.now }
    requires before { AreBefore numbers.now shift part from }
    requires ascending { AreAscending numbers.now }
    ensures { IsFirstOf numbers.now shift part result }
{
    let mut at = from;
    while at < numbers.len() && ((numbers[at] >> shift) as usize) < part {
        at += 1;
    }
    at
}
