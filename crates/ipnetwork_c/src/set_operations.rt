//! The union, intersection and difference of two sets, as lists in the caller's memory.
ghost use Rattle.std.specs.Prelude.{IsTrue, map};
ghost use Rattle.ipnetwork_sets.specs.Sets.{HoldSet};
ghost use Rattle.ipnetwork_c.specs.Sets.{SetOperation};
ghost use Rattle.ipnetwork_c.specs.Private.Kept.{SurelyFits, kept_by};
ghost use Rattle.ipnetwork_c.specs.Private.Writing.{PutsSet};

use crate::fault::{NO_SET, OK, PREFIX, SHORT_BUFFER};
use crate::listed::{Listed, all_fit};
use crate::writing::{put_blocks, to_usize};
use ipnetwork_blocks::AddressSpace;
use ipnetwork_sets::{Difference, Intersection, Union, is_address_set, laws};

/// An operation on two sets.
#[derive(Clone, Copy)]
pub(crate) enum Operation {
    /// The addresses in at least one of the two sets.
    Union,
    /// The addresses in both sets.
    Intersection,
    /// The addresses in the first set and not in the second.
    Difference,
}

/// Puts the blocks of an operation's result at the front of `blocks`, and their number in `count`.
pub(crate) fn operate<N: AddressSpace, H: Listed<N>>(
    operation: Operation,
    first: &[H],
    second: &[H],
    blocks: &mut [H],
    count: &mut usize,
) -> u32
    ensures { SetOperation N.WIDTH H.held (kept_by operation N.WIDTH) first.now second.now
        (blocks.old, count.old) (blocks.new, count.new) result }
{
    if !all_fit::<N, H>(first) || !all_fit::<N, H>(second) {
        return PREFIX;
    }
    if !is_address_set::<N, H>(first) || !is_address_set::<N, H>(second) {
        return NO_SET;
    }
    if surely_fits(operation, first.len(), second.len(), blocks.len()) {
        laws::shortest();
        let put = put_kept::<N, H>(operation, first, second, blocks);
        *count = to_usize(put);
        return OK;
    }
    let wanted = put_kept::<N, H>(operation, first, second, &mut []);
    *count = to_usize(wanted);
    if wanted > blocks.len() as u128 {
        return SHORT_BUFFER;
    }
    put_kept::<N, H>(operation, first, second, blocks);
    OK
}

// Returns whether a list of `room` structs is known to have room for what the operation keeps of
// sets of these numbers of blocks. If so, nothing is counted first, which would take as long as
// putting the blocks.
fn surely_fits(operation: Operation, first: usize, second: usize, room: usize) -> bool
    ensures { IsTrue result → SurelyFits operation first second room }
{
    match operation {
        Operation::Difference => false,
        Operation::Union => first <= room && second <= room - first,
        Operation::Intersection => first <= room && second <= room - first,
    }
}

// Puts the blocks of the addresses that the operation keeps at the front of the list, as far as
// there is room. Returns how many there are, at most 2^128 - 1.
fn put_kept<N: AddressSpace, H: Listed<N>>(
    operation: Operation,
    first: &[H],
    second: &[H],
    list: &mut [H],
) -> u128
    requires first { HoldSet N.WIDTH H.holds H.held first.now }
    requires second { HoldSet N.WIDTH H.holds H.held second.now }
    ensures { PutsSet N.WIDTH H.held
        (kept_by operation N.WIDTH (map H.held first.now)
        (map H.held second.now)) list.old list.new result }
{
    match operation {
        Operation::Union => { put_blocks::<N, H, Union<'_, N, H>>(Union::of(first, second), list) }
        Operation::Intersection => {
            put_blocks::<N, H, Intersection<'_, N, H>>(Intersection::of(first, second), list)
        }
        Operation::Difference => {
            put_blocks::<N, H, Difference<'_, N, H>>(Difference::of(first, second), list)
        }
    }
}
