//! The search for a number, first by its high half.
ghost use Rattle.std.specs.Prelude.{◌≡◌, ◌^◌, ◌<◌, IfOk, IsTrue, map};
ghost use Rattle.ipnetwork_index.specs.Searches.{IsPlaceOf};
ghost use Rattle.ipnetwork_index.specs.Private.Halved.{AllAreLast, IsHalved};
ghost use Rattle.ipnetwork_index.specs.Private.Padded.{IsPadded};

use crate::indexed_network::IndexedNetwork;
use crate::key::Key;
use crate::search::{place_from, place_of};
use std::alloc::{AllocError, Global};

// The place of the first number that is not less than this one: searched for among the high halves
// and then, unless these determine the place, from there on among the whole numbers.
//
// Other forms took, for 900,000 routes: 1.1 times as long if eight high halves are compared before
// the branch, and 1.2 times if only 32 bits of each are kept; but 0.76 of the time with the start
// of a part and 32 bits of up to 15 high halves in one line of 64 bytes, and 0.87 with the prefix
// length and the value of a range in 8 bytes.
pub(crate) fn place_by_halves<N: IndexedNetwork>(
    lasts: &[N::Number],
    highs: &[N::High],
    starts: &[u32],
    base: N::High,
    shift: u32,
    tell: bool,
    number: N::Number,
) -> usize
    requires padded { IsPadded N.WIDTH (map N.Number.value lasts.now) }
    requires halved { IsHalved N.high N.High.BITS (map N.Number.value lasts.now)
        (map N.High.value highs.now) starts.now (N.High.value base) shift tell }
    requires small { N.Number.value number < 2 ^ N.WIDTH }
    ensures { IsPlaceOf (map N.Number.value lasts.now) (N.Number.value number) result }
{
    let high = N::high_of(number);
    let at = place_of::<N::High>(highs, starts, base, shift, high);
    if tell {
        return at;
    }
    place_from::<N::Number>(lasts, at, number)
}

// The high halves of the numbers.
pub(crate) fn highs_of<N: IndexedNetwork>(
    alloc: Global,
    lasts: &[N::Number],
) -> Result<Vec<N::High>, AllocError>
    ensures { IfOk result
        (λ highs. map N.High.value highs.items ≡ map N.high (map N.Number.value lasts.now)) }
{
    let mut highs = Vec::with_capacity(alloc, lasts.len())?;
    for last in lasts {
        highs.push(N::high_of(*last))?;
    }
    Ok(highs)
}

// Whether enough of the high halves differ from the one before: every fourth or more. The contract
// leaves the result open: another would cost time but change no look-up.
pub(crate) fn are_worth_it<K: Key>(highs: &[K]) -> bool {
    let mut differ = 0usize;
    for place in 1..highs.len() {
        if highs[place - 1].is_less(highs[place]) {
            differ = differ.saturating_add(1);
        }
    }
    differ.saturating_mul(4) >= highs.len()
}

// Whether each number is known to be the greatest with its high half.
pub(crate) fn all_end<N: IndexedNetwork>(lasts: &[N::Number]) -> bool
    ensures { IsTrue result → AllAreLast N.high (map N.Number.value lasts.now) }
{
    for last in lasts {
        let ends = N::ends_high(*last);
        if !ends {
            return false;
        }
    }
    true
}
