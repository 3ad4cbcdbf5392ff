//! The place of a number among ascending numbers.
ghost use Rattle.std.specs.Prelude.{◌<◌, ◌≤◌, length, map};
ghost use Rattle.ipnetwork_index.specs.Searches.{Ascends, IsSearchable, IsWithin, IsPlaceOf};
ghost use Rattle.ipnetwork_index.specs.Private.Steps.{HasComeTo, IsBetween};

use crate::key::Key;
use crate::simd_step::below_of_four;

/// The place of the first key that is not less than `key`. The keys must ascend, and none of the
/// last four may be less than `key`. For each part of 2^`shift` numbers from `base` on, `starts`
/// has a place where the search may begin, as `write_starts` writes it.
///
/// The search reads the four keys from there on. Only if all of them are less than `key` does it
/// continue within the part, in steps that shrink: if n keys lie in the part, it reads some
/// 2 log2(n) of them.
///
/// ```
/// let keys = [9u32, 20, u32::MAX, u32::MAX, u32::MAX, u32::MAX];
/// let mut starts = [0, 0, 0, 0];
/// write_starts(&keys, 9, 2, &mut starts);
/// assert_eq!(rt; starts, [0, 1, 1, 2]);
/// assert_eq!(rt; place_of(&keys, &starts, 9, 2, 20), 1);
/// assert_eq!(rt; place_of(&keys, &starts, 9, 2, 21), 2);
/// ```
#[inline(always)]
pub fn place_of<K: Key>(keys: &[K], starts: &[u32], base: K, shift: u32, key: K) -> usize
    requires narrow { shift < K.BITS }
    requires searched { IsSearchable (map K.value keys.now) starts.now (K.value base) shift }
    requires within { IsWithin (map K.value keys.now) (K.value key) }
    ensures { IsPlaceOf (map K.value keys.now) (K.value key) result }
{
    let part = key.part_of(base, shift, starts.len() - 1);
    place_from_start::<K>(keys, starts, part, starts[part] as usize, key)
}

// `place_of`, given the place where the search in the part begins.
#[inline(always)]
fn place_from_start<K: Key>(keys: &[K], starts: &[u32], part: usize, start: usize, key: K) -> usize
    requires part { part < length starts.now }
    requires come { HasComeTo (map K.value keys.now) (K.value key) start }
    ensures { IsPlaceOf (map K.value keys.now) (K.value key) result }
{
    let below = below_of_four::<K>(keys, start, 0, key);
    if below == 4 {
        return place_in_part::<K>(keys, starts, part, start + 4, key);
    }
    start + below
}

// `place_of`, from a place in the part on. It searches up to the start of the next part if the key
// there is not less than `key`, which is the case if the starts are those of the keys. Not inlined,
// to keep a search that ends within the first four keys short.
#[inline(never)]
fn place_in_part<K: Key>(keys: &[K], starts: &[u32], part: usize, from: usize, key: K) -> usize
    requires part { part < length starts.now }
    requires come { HasComeTo (map K.value keys.now) (K.value key) from }
    ensures { IsPlaceOf (map K.value keys.now) (K.value key) result }
{
    let end = end_of_part(starts, part, from, keys.len() - 4);
    if keys[end].is_less(key) {
        return place_beyond::<K>(keys, from, key);
    }
    narrowed::<K>(keys, from, end, key)
}

// Where the next part begins, or the last place if there is no next part; limited to `from` at
// least and `last` at most.
fn end_of_part(starts: &[u32], part: usize, from: usize, last: usize) -> usize
    requires part { part < length starts.now }
    requires ordered { from ≤ last }
    ensures least { from ≤ result }
    ensures most { result ≤ last }
{
    if part + 1 == starts.len() {
        return last;
    }
    (starts[part + 1] as usize).max(from).min(last)
}

// The place of `key`, which is `from` or after it.
pub(crate) fn place_from<K: Key>(keys: &[K], from: usize, key: K) -> usize
    requires { HasComeTo (map K.value keys.now) (K.value key) from }
    ensures { IsPlaceOf (map K.value keys.now) (K.value key) result }
{
    let below = below_of_four::<K>(keys, from, 0, key);
    if below < 4 {
        return from + below;
    }
    place_beyond::<K>(keys, from + 4, key)
}

// `place_from`, in more than one step.
#[inline(never)]
fn place_beyond<K: Key>(keys: &[K], from: usize, key: K) -> usize
    requires { HasComeTo (map K.value keys.now) (K.value key) from }
    ensures { IsPlaceOf (map K.value keys.now) (K.value key) result }
{
    let reach = reached::<K>(keys, from, key);
    narrowed::<K>(keys, reach.0, reach.1, key)
}

// Two places that the place of `key` lies between, found from `from` on in steps that grow.
fn reached<K: Key>(keys: &[K], from: usize, key: K) -> (usize, usize)
    requires { HasComeTo (map K.value keys.now) (K.value key) from }
    ensures { IsBetween (map K.value keys.now) (K.value key) result.0 result.1 }
{
    let last = keys.len() - 4;
    let mut at = from;
    let mut step = 3usize;
    'reaching: loop {
        let end = at + step.min(last - at);
        if !keys[end].is_less(key) {
            return (at, end);
        }
        at = end + 1;
        step = step.saturating_mul(4);
    }
}

// The place of `key`, which lies between these two. Each round leaves a fifth of the places, or up
// to two more. The number of rounds does not depend on the keys, so a processor can predict it.
fn narrowed<K: Key>(keys: &[K], from: usize, to: usize, key: K) -> usize
    requires ascending { Ascends (map K.value keys.now) }
    requires between { IsBetween (map K.value keys.now) (K.value key) from to }
    ensures { IsPlaceOf (map K.value keys.now) (K.value key) result }
{
    let mut at = from;
    let mut left = to - from;
    'narrowing: while left > 4 {
        let step = (left - 4) / 5;
        at += below_of_four::<K>(keys, at, step, key) * (step + 1);
        left -= 4 * (step + 1);
    }
    at + below_of_four::<K>(keys, at, 0, key)
}
