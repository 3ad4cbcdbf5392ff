//! Places for blocks of several lengths, none of which overlap.
ghost use Rattle.std.specs.Prelude.{◌≡◌, ◌+◌, ◌<◌, ℕ, IfOk, List, OnOk, length, map};
ghost use Rattle.ipnetwork_family.specs.Network.{Network};
ghost use Rattle.ipnetwork_sets.specs.Sets.{InFirstAlone};
ghost use Rattle.allotting.specs.Places.{ArePlaces};
ghost use Rattle.allotting.specs.Private.Placing.{HasLeft, IsFilling, IsPlacing, InPoolAlone};

use crate::free::{FreeBlocks, free_blocks};
use ipnetwork_blocks::{AddressSpace, laws};
use ipnetwork_sets::AddressSet;
use std::alloc::{AllocError, Global};

/// The places of blocks of these prefix lengths in the pool, all at once, in the order of the
/// lengths. No two overlap, and none has an address that is used.
///
/// Blocks of shorter prefixes are placed first, and of one length those that come earlier in the
/// list. Each is the first that is free, as of [`free_blocks`](crate::free_blocks), of what those
/// before it leave; `None` if they leave none, as for a prefix length above `WIDTH`.
///
/// Goes over both sets for each different length of the list, and not for each place.
/// `AllocError`: out of memory.
///
/// ```
/// let pool = AddressSet::from_networks(vec![in rt.alloc(); "10.0.0.0/24".parse::<Ipv4Network>()?]?);
/// let used = AddressSet::from_networks(vec![in rt.alloc(); "10.0.0.0/26".parse()?]?);
/// let places = places(rt.alloc(), pool, &used, &[27, 25])?;
/// let wanted = [Some("10.0.0.64/27".parse()?), Some("10.0.0.128/25".parse()?)];
/// assert_eq!(rt; places.as_slice(), wanted.as_slice());
/// ```
pub fn places<N: AddressSpace>(
    alloc: Global,
    mut pool: AddressSet<N>,
    used: &AddressSet<N>,
    lengths: &[u8],
) -> Result<Vec<Option<N>>, AllocError>
    ensures { IfOk result (λ places. ArePlaces N.pair N.WIDTH
        (InFirstAlone N.WIDTH pool used.now) lengths.now places.items) }
{
    let mut places = empty_places(alloc, lengths.len())?;
    let mut prefix = 0u16;
    while prefix < 256 {
        place_length(
            alloc,
            &mut pool,
            used,
            lengths,
            prefix as u8,
            places.as_mut_slice(),
        )?;
        prefix += 1;
    }
    Ok(places)
}

// This many places without a block.
fn empty_places<N: AddressSpace>(alloc: Global, count: usize) -> Result<Vec<Option<N>>, AllocError>
    ensures { IfOk result (λ places. length places.items ≡ count) }
{
    let mut places = Vec::new(alloc);
    while places.len() < count {
        places.push(None)?;
    }
    Ok(places)
}

// Takes the places of blocks of this prefix length from the pool.
fn place_length<N: AddressSpace>(
    alloc: Global,
    pool: &mut AddressSet<N>,
    used: &AddressSet<N>,
    lengths: &[u8],
    prefix: u8,
    places: &mut [Option<N>],
) -> Result<(), AllocError>
    requires { length places.old ≡ length lengths.now }
    ensures placed { OnOk result ((first : List Network)
        → IsPlacing N.pair N.WIDTH first used.now (InFirstAlone N.WIDTH pool.old used.now)
        lengths.now places.old prefix 0
        → IsPlacing N.pair N.WIDTH first used.now (InFirstAlone N.WIDTH pool.new used.now)
        lengths.now places.new prefix (length lengths.now)) }
    ensures kept { length places.new ≡ length places.old }
{
    let taken = fill_places(alloc, pool, used, lengths, prefix, places)?;
    remove_all(alloc, pool, taken)?;
    Ok(())
}

// Fills the places of blocks of this prefix length, and returns these blocks.
fn fill_places<N: AddressSpace>(
    alloc: Global,
    pool: &AddressSet<N>,
    used: &AddressSet<N>,
    lengths: &[u8],
    prefix: u8,
    places: &mut [Option<N>],
) -> Result<Vec<N>, AllocError>
    requires { length places.old ≡ length lengths.now }
    ensures placed { IfOk result (λ taken. (first : List Network)
        → IsPlacing N.pair N.WIDTH first used.now (InFirstAlone N.WIDTH pool.now used.now)
        lengths.now places.old prefix 0
        → IsPlacing N.pair N.WIDTH first used.now
        (InPoolAlone N.WIDTH pool.now used.now (map N.pair taken.items))
        lengths.now places.new prefix (length lengths.now)) }
    ensures kept { length places.new ≡ length places.old }
{
    let mut blocks = free_blocks(pool, used, prefix);
    let mut taken = Vec::new(alloc);
    let mut at = 0;
    while at < lengths.len() {
        fill_place(&mut blocks, lengths, prefix, places, &mut taken, at)?;
        at += 1;
    }
    Ok(taken)
}

// Fills the place at this index with the next of the free blocks of this prefix length, if its
// block is to have this length, and adds it to those that were taken.
fn fill_place<N: AddressSpace>(
    blocks: &mut FreeBlocks<'_, N>,
    lengths: &[u8],
    prefix: u8,
    places: &mut [Option<N>],
    taken: &mut Vec<N>,
    at: usize,
) -> Result<(), AllocError>
    requires at { at < length lengths.now }
    requires places { length places.old ≡ length lengths.now }
    ensures filled { OnOk result ((first pool used : List Network)
        → IsFilling N.pair N.WIDTH first pool used (map N.pair taken.old.items) blocks.old
        lengths.now places.old prefix at
        → IsFilling N.pair N.WIDTH first pool used (map N.pair taken.new.items) blocks.new
        lengths.now places.new prefix (at + 1)) }
    ensures kept { length places.new ≡ length places.old }
{
    if lengths[at] != prefix {
        return Ok(());
    }
    let Some(block) = blocks.next() else {
        places[at] = None;
        return Ok(());
    };
    places[at] = Some(block);
    taken.push(block)?;
    Ok(())
}

// Removes these blocks from the pool.
fn remove_all<N: AddressSpace>(
    alloc: Global,
    pool: &mut AddressSet<N>,
    taken: Vec<N>,
) -> Result<(), AllocError>
    ensures { OnOk result
        (HasLeft N.WIDTH pool.old (map N.pair taken.items) pool.new) }
{
    laws::same_union();
    ipnetwork_sets::laws::shortest();
    if taken.is_empty() {
        return Ok(());
    }
    let taken = AddressSet::from_networks(taken);
    let left = pool.difference(&taken).into_set(Vec::new(alloc))?;
    *pool = left;
    Ok(())
}
