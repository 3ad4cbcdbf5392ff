//! The places of ranges that end where blocks of 256 numbers do, as most ranges of routes do.
ghost use Rattle.std.specs.Prelude.{◌≡◌, ◌≢◌, ◌^◌, ◌<◌, ◌≤◌, IfOk, length};
ghost use Rattle.ipnetwork_index.specs.Private.BlockEnds.{AreTelling, IsTold, place_told};
ghost use Rattle.ipnetwork_index.specs.Private.LowHalves.{AreAscending, AreBefore};

use crate::low_halves::first_of;
use std::alloc::{AllocError, Global};

/// The words of all parts, if there are at least 2^19 ranges with these last numbers, for fewer of
/// which they gain little. A part has 2^13 numbers, in 32 blocks. Its word gives the places of its
/// numbers by one read, without their low halves: the high half has the place of the range with the
/// first of them, and the low half a bit for each block with which a range ends. It is 0, and gives
/// no place, if a range ends within a block.
///
/// Without words, look-ups of 900,000 routes took 1.6 times as long, also in parts half as large;
/// and 1.3 times with the low half, prefix length and value of each range in 8 bytes. With words
/// and the latter two in 8 bytes they took 0.87 of the time, but 4.6 megabytes more, over 20 in
/// all.
pub(crate) fn block_ends(alloc: Global, lasts: &[u32]) -> Result<Vec<u64>, AllocError>
    requires few { length lasts.now < 2 ^ 32 }
    requires ascending { AreAscending lasts.now }
    ensures { IfOk result (λ words. AreTelling lasts.now words.items) }
{
    if lasts.len() < 1 << 19 {
        return Ok(Vec::new(alloc));
    }
    let mut words = vec![in alloc; 0u64; 1 << 19]?;
    write_words(lasts, words.as_mut_slice());
    Ok(words)
}

/// The place that the word of a part gives for the numbers of this block of the part.
#[inline(always)]
pub(crate) fn place_by_word(word: u64, block: u32) -> usize
    requires { block < 32 }
    ensures { result ≡ place_told word block }
{
    let before = (word % (1u64 << block)).count_ones() as usize;
    (word >> 32) as usize + before
}

fn write_words(lasts: &[u32], words: &mut [u64])
    requires parts { length words.old ≤ 2 ^ 19 }
    requires few { length lasts.now < 2 ^ 32 }
    requires ascending { AreAscending lasts.now }
    ensures size { length words.new ≡ length words.old }
    ensures telling { AreTelling lasts.now words.new }
{
    let mut at = 0;
    for part in 0..words.len() {
        at = first_of(lasts, at, part, 13);
        words[part] = word_of(lasts, at, part as u32);
    }
}

// The word of the part, before which the ranges before `start` end. It is also 0 if the ranges end
// with the part.
fn word_of(lasts: &[u32], start: usize, part: u32) -> u64
    requires parts { part < 2 ^ 19 }
    requires few { length lasts.now < 2 ^ 32 }
    requires within { start ≤ length lasts.now }
    requires before { AreBefore lasts.now 13 part start }
    ensures { result ≢ 0 → IsTold lasts.now part result }
{
    let mut ends = 0u64;
    let mut next = 0u32;
    let mut at = start;
    while at < lasts.len() && lasts[at] >> 13 <= part {
        let block = lasts[at] >> 8;
        if block < part * 32 + next || lasts[at] % 256 < 255 {
            return 0;
        }
        ends += 1u64 << (block % 32);
        next = block % 32 + 1;
        at += 1;
    }
    if at == lasts.len() {
        return 0;
    }
    ((start as u64) << 32) + ends
}
