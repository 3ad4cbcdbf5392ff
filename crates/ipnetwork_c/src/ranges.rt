//! Searches ranges in the caller's memory for the longest block with an address: one search,
//! however the blocks are nested.
ghost use Rattle.std.specs.Prelude.{◌≡◌, ◌↔◌, ◌<◌, IsTrue};
ghost use Rattle.ipnetwork_c.specs.Ranges.{PlaceQuery, RangeQuery, no_place, place_before};
ghost use Rattle.ipnetwork_c.specs.Numbers.{no_member};
ghost use Rattle.ipnetwork_c.specs.Outcomes.{IsFault, Unless, Writes};

use crate::fault::{NO_MEMBER, OK};
use crate::range_making::NO_PLACE;
use crate::search_hint::SearchHint;
use crate::upper_bound::{guess_by_three, upper_bound_at_once, upper_bound_by_halves};
use ipnetwork_blocks::AddressSpace;

/// Returns the place of the last range that begins at or before an address, by an index of the
/// ranges, or by none; `NO_PLACE` if there is no such range.
#[inline(always)]
pub(crate) fn place_of<N: AddressSpace, H: SearchHint<N>>(
    address: &H::Octets,
    ranges: &[H],
    places: &[usize],
    index: &[u32],
) -> usize
    ensures { PlaceQuery H.held ranges.now places.now (H.meant address.now) result }
{
    let number = H::number_in(address);
    let guess = guess_by_three::<N, H>(ranges, index, number);
    place_by_guess::<N, H>(ranges, places, index, number, guess)
}

/// Puts that place in `place`, unless it is `NO_PLACE`.
#[inline(always)]
pub(crate) fn find<N: AddressSpace, H: SearchHint<N>>(
    address: &H::Octets,
    ranges: &[H],
    places: &[usize],
    index: &[u32],
    place: &mut usize,
) -> u32
    ensures { RangeQuery H.held ranges.now places.now (H.meant address.now) place.old place.new
        result }
{
    let number = H::number_in(address);
    let guess = guess_by_three::<N, H>(ranges, index, number);
    place_near::<N, H>(ranges, places, index, number, guess, place)
}

/// The same for the number of an address, with a guess of how many ranges begin at or before it.
#[inline(always)]
pub(crate) fn place_near<N: AddressSpace, H: SearchHint<N>>(
    ranges: &[H],
    places: &[usize],
    index: &[u32],
    number: H::Number,
    guess: usize,
    place: &mut usize,
) -> u32
    ensures { RangeQuery H.held ranges.now places.now (H.value number) place.old place.new result }
{
    put_found(
        place_by_guess::<N, H>(ranges, places, index, number, guess),
        place,
    )
}

// Returns the place of the last range that begins at or before the number, with a guess of how many
// ranges do.
#[inline(always)]
fn place_by_guess<N: AddressSpace, H: SearchHint<N>>(
    ranges: &[H],
    places: &[usize],
    index: &[u32],
    number: H::Number,
    guess: usize,
) -> usize
    ensures { PlaceQuery H.held ranges.now places.now (H.value number) result }
{
    match upper_bound_at_once::<N, H>(ranges, number, guess) {
        Some(count) => found_before(places, count),
        None => place_by_halves::<N, H>(ranges, places, index, number),
    }
}

// The same if the guess is wrong. It is a separate function so that its cost does not fall on right
// guesses.
#[inline(never)]
fn place_by_halves<N: AddressSpace, H: SearchHint<N>>(
    ranges: &[H],
    places: &[usize],
    index: &[u32],
    number: H::Number,
) -> usize
    ensures { PlaceQuery H.held ranges.now places.now (H.value number) result }
{
    let count = upper_bound_by_halves::<N, H>(ranges, index, number);
    found_before(places, count)
}

// Returns the place of the last of the first `count` ranges, or `NO_PLACE`.
#[inline(always)]
fn found_before(places: &[usize], count: usize) -> usize
    ensures { result ≡ place_before places.now count }
{
    let row = count.wrapping_sub(1);
    if row >= places.len() {
        return NO_PLACE;
    }
    places[row]
}

// Puts the place that was found, unless it is `NO_PLACE`.
#[inline(always)]
fn put_found(found: usize, place: &mut usize) -> u32
    ensures { Unless (IsFault no_member (found ≡ no_place))
        (Writes (λ put. (put < no_place) × (put ≡ found))) place.old place.new result }
{
    let mut beside = 0;
    put_or_pass(found != NO_PLACE, found, place, &mut beside)
}

// Puts the number in `place` if one was found, and otherwise in `beside`, with one store, so that
// no branch depends on the address. Not inlined: a compiler that sees that nothing reads `beside`
// skips that store with a branch, which is often mispredicted. The two reads at the end compile to
// nothing: they show the proof which of the two references is `place`.
#[inline(never)]
fn put_or_pass(is_found: bool, number: usize, place: &mut usize, beside: &mut usize) -> u32
    requires { IsTrue is_found ↔ (number < no_place) }
    ensures { Unless (IsFault no_member (number ≡ no_place))
        (Writes (λ put. (put < no_place) × (put ≡ number))) place.old place.new result }
{
    let (target, other) = in_order(is_found, place, beside);
    *target = number;
    if is_found {
        let _put = *target;
        return OK;
    }
    let _kept = *other;
    NO_MEMBER
}

// Returns both references, in this order if `is_in_order`, else reversed.
#[inline(always)]
fn in_order<'a>(
    is_in_order: bool,
    first: &'a mut usize,
    second: &'a mut usize,
) -> (&'a mut usize, &'a mut usize)
    ensures kept { IsTrue is_in_order → (result.0.ghost_name ≡ first.entry.ghost_name)
        × (result.1.ghost_name ≡ second.entry.ghost_name) }
    ensures turned { ¬ IsTrue is_in_order → (result.0.ghost_name ≡ second.entry.ghost_name)
        × (result.1.ghost_name ≡ first.entry.ghost_name) × (result.1.now ≡ first.old) }
{
    if is_in_order {
        (first, second)
    } else {
        (second, first)
    }
}
