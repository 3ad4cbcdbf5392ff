//! Where the search for a number begins.
ghost use Rattle.std.specs.Prelude.{◌*◌, ◌/◌, ◌^◌, ◌<◌, ◌≤◌, length, map};
ghost use Rattle.ipnetwork_index.specs.NumberParts.{HasParts};
ghost use Rattle.ipnetwork_index.specs.Searches.{IsStart, AreStarts};

use crate::key::Key;

/// The number of parts of an index with this many ranges, as a power of two: two to four for each
/// range, one to two from 2^14 ranges on, and at most 2^20.
///
/// ```
/// assert_eq!(rt; part_bits(1000), 11);
/// ```
pub fn part_bits(ranges: usize) -> u32
    ensures most { result ≤ 20 }
    ensures few { 1 ≤ ranges → ranges < 2 ^ 14 → HasParts (2 * ranges) (4 * ranges) result }
    ensures many { 2 ^ 14 ≤ ranges → HasParts ranges (2 * ranges) result }
{
    let bits = usize::BITS - ranges.leading_zeros();
    if bits < 15 {
        return bits + 1;
    }
    bits.min(20)
}

// `part_bits` for the index of a table, which is kept small if it has many ranges: from 2^16 ranges
// on, it has one part for one or two of them.
pub(crate) fn route_bits(ranges: usize) -> u32
    ensures most { result ≤ 20 }
    ensures few { 1 ≤ ranges → ranges < 2 ^ 16 → HasParts (2 * ranges) (4 * ranges) result }
    ensures many { 2 ^ 16 ≤ ranges → HasParts (ranges / 2) ranges result }
{
    if ranges < 16_384 {
        part_bits(ranges)
    } else if ranges < 65_536 {
        part_bits(2 * ranges)
    } else {
        part_bits(ranges / 2)
    }
}

// The size of the parts, as a power of two, if ranges of 32-bit numbers are represented by low
// halves: on average, a part has fewer than eight ranges if there are fewer than 2^23, and at least
// two from 2^17 on.
pub(crate) fn low_shift(ranges: usize) -> u32
    ensures least { 12 ≤ result }
    ensures most { result ≤ 16 }
    ensures two { 2 ^ 17 ≤ ranges → 2 * 2 ^ 32 ≤ 2 ^ result * ranges }
    ensures eight { ranges < 2 ^ 23 → 2 ^ result * ranges < 8 * 2 ^ 32 }
{
    let bits = usize::BITS - ranges.leading_zeros();
    35u32.saturating_sub(bits).max(12).min(16)
}

// The first number of 2^`bits` parts, and their size as a power of two. They extend from the first
// key to that of the last range but one, which skips the leading bits that all of these share; or,
// if that makes the parts much smaller, over the keys in the middle, without a 64th at either end.
// The contract leaves both open: other values would cost time but change no result.
pub(crate) fn span_of<K: Key>(keys: &[K], bits: u32) -> (K, u32)
    requires { 4 ≤ length keys.now }
    ensures { result.1 < K.BITS }
{
    let last = keys.len() - 4;
    let end = last.saturating_sub(1);
    let few = last / 64;
    let whole = keys[end].part_size(keys[0], bits);
    let middle = keys[end - few].part_size(keys[few], bits);
    if middle.saturating_add(2) <= whole {
        return (keys[few], middle);
    }
    (keys[0], whole)
}

/// Writes, for each part of the numbers from `base` on, the place where the search for a number of
/// the part may begin: how many of the keys are less than each of these numbers, or fewer if that
/// is 2^32 or more. Each part has 2^`shift` numbers; `shift` must be less than the number of bits
/// of a key. There are as many parts as elements of `starts`, at least one; the last part also has
/// the numbers after it, and the first one those before it.
///
/// ```
/// let mut starts = [0, 0, 0];
/// write_starts(&[9u32, 20, u32::MAX, u32::MAX, u32::MAX, u32::MAX], 9, 4, &mut starts);
/// assert_eq!(rt; starts, [0, 2, 2]);
/// ```
pub fn write_starts<K: Key>(keys: &[K], base: K, shift: u32, starts: &mut [u32])
    requires some { 1 ≤ length starts.old }
    requires narrow { shift < K.BITS }
    ensures { AreStarts (map K.value keys.now) starts.new (K.value base) shift }
{
    let mut at = 0;
    for part in 0..starts.len() {
        at = start_of::<K>(keys, at, base, shift, part);
        starts[part] = at.min(u32::MAX as usize) as u32;
    }
}

// How many keys are less than each number of the part, given that those before `from` are.
fn start_of<K: Key>(keys: &[K], from: usize, base: K, shift: u32, part: usize) -> usize
    requires narrow { shift < K.BITS }
    requires before { IsStart (map K.value keys.now) (K.value base) shift part from }
    ensures { IsStart (map K.value keys.now) (K.value base) shift part result }
{
    let mut at = from;
    while at < keys.len() && keys[at].part_of(base, shift, usize::MAX) < part {
        at += 1;
    }
    at
}
