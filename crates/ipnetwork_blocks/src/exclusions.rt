//! The addresses of a network that are not in another.
ghost use Rattle.std.specs.Prelude.{◌≡◌, ◌-◌, [], ◌∷◌, length};
ghost use Rattle.std.specs.Iterator.{YieldsFirstBy, item_count};
ghost use Rattle.ipnetwork_family.specs.Network.{Subnet, Overlap, block_of};
ghost use Rattle.ipnetwork_blocks.specs.LeastList.{IsLeastList};
ghost use Rattle.ipnetwork_blocks.specs.Exclusion.{InDifference};
ghost use Rattle.ipnetwork_blocks.specs.Private.Sides.{Before, Behind};

use crate::address_space::AddressSpace;
use crate::range_blocks::RangeBlocks;
use std::alloc::AllocError;
use std::marker::Model;

/// An iterator over the least list of blocks for the addresses of a network that are not in
/// another, in ascending order.
///
/// ```
/// let network: Ipv4Network = "192.0.2.0/24".parse()?;
/// let blocks: Exclusion<Ipv4Network> = exclude(network, "192.0.2.128/26".parse()?);
/// assert!(rt; blocks.eq(["192.0.2.0/25".parse()?, "192.0.2.192/26".parse()?]));
/// ```
#[derive(Drop)]
#[derive_where(Debug; N, N::Addr)]
pub struct Exclusion<N: AddressSpace> {
    below: RangeBlocks<N>,
    above: RangeBlocks<N>,
}

// A contract sees an iterator as the list of the blocks still to come.
impl<N: AddressSpace> Model for Exclusion<N> {
    ghost use Rattle.std.specs.Prelude.{List, ◌++◌};
    ghost use Rattle.ipnetwork_family.specs.Network.{Network};

    ghost Value = { List Network };

    ghost view = { λ e. e.below ++ e.above };
}

/// Returns the blocks of the addresses of `network` that are not in `inner`: as few as possible, in
/// ascending order. The host bits of both are ignored.
///
/// If `inner` contains all of `network`, there are no blocks. If they share no address, the only
/// block is that of `network`. Otherwise `inner` lies within `network`, and there is one block for
/// each bit by which its prefix length is longer.
///
/// ```
/// let network: Ipv4Network = "10.0.0.0/30".parse()?;
/// let mut blocks = exclude(network, "10.0.0.1/32".parse()?);
/// assert_eq!(rt; blocks.next(), Some("10.0.0.0/32".parse()?));
/// assert_eq!(rt; blocks.next(), Some("10.0.0.2/31".parse()?));
/// ```
pub fn exclude<N: AddressSpace>(network: N, inner: N) -> Exclusion<N>
    ensures blocks { IsLeastList N.WIDTH
        (InDifference N.WIDTH (N.pair network) (N.pair inner)) result }
    ensures none { Subnet N.WIDTH (N.pair network) (N.pair inner) → result ≡ [] }
    ensures all { ¬ (Overlap N.WIDTH (N.pair network) (N.pair inner))
        → result ≡ block_of N.WIDTH (N.pair network) ∷ [] }
    ensures some { Subnet N.WIDTH (N.pair inner) (N.pair network)
        → length result ≡ (N.pair inner).prefix - (N.pair network).prefix }
{
    // The contracts of these calls say that both are valid networks of `WIDTH` bits.
    let _ = network.ip();
    let _ = inner.ip();
    let first = network.network();
    let last = network.broadcast();
    if !network.overlaps(inner) {
        return Exclusion {
            below: RangeBlocks::none(first),
            above: RangeBlocks::between_or_none(first, last),
        };
    }
    Exclusion {
        below: blocks_before(first, inner),
        above: blocks_behind(inner, last),
    }
}

// Returns the blocks of the addresses from `first` to the last one before the network.
fn blocks_before<N: AddressSpace>(first: N::Addr, network: N) -> RangeBlocks<N>
    ensures { IsLeastList N.WIDTH (Before N.WIDTH (N.number first) (N.pair network)) result }
{
    match N::previous_address(network.network()) {
        Some(last) => RangeBlocks::between_or_none(first, last),
        None => RangeBlocks::none(first),
    }
}

// Returns the blocks of the addresses from the first one after the network to `last`.
fn blocks_behind<N: AddressSpace>(network: N, last: N::Addr) -> RangeBlocks<N>
    ensures { IsLeastList N.WIDTH (Behind N.WIDTH (N.pair network) (N.number last)) result }
{
    match N::next_address(network.broadcast()) {
        Some(next) => RangeBlocks::between_or_none(next, last),
        None => RangeBlocks::none(last),
    }
}

impl<N: AddressSpace> Iterator for Exclusion<N> {
    type Item = N;

    ghost next_gives = { YieldsFirstBy N.pair (λ left. left) };

    ghost remaining = { item_count (λ left. left) };

    fn next(&mut self) -> Option<N> {
        if let Some(block) = self.below.next() {
            return Some(block);
        }
        self.above.next()
    }
}

impl<N: AddressSpace> Clone for Exclusion<N> {
    ghost is_clone = { λ left copy. copy ≡ left };

    ghost is_infallible = { λ _. Unit {0} };

    fn clone(&self) -> Result<Self, AllocError> {
        Ok(Exclusion {
            below: self.below.clone()?,
            above: self.above.clone()?,
        })
    }
}
