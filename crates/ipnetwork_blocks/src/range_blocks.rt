//! The blocks of a range of addresses.
ghost use Rattle.std.specs.Prelude.{◌≡◌, ◌+◌, ◌-◌, ◌*◌, ◌^◌, ◌<◌, ◌≤◌, ◌↔◌, IsTrue, length, MatchOption, IfSome, []};
ghost use Rattle.std.specs.Iterator.{YieldsFirstBy, item_count};
ghost use Rattle.ipnetwork_family.specs.Network.{low, high};
ghost use Rattle.ipnetwork_blocks.specs.LeastList.{IsMaximalIn, IsLeastList};
ghost use Rattle.ipnetwork_blocks.specs.Ranges.{FromTo};

use crate::address_space::AddressSpace;
use std::alloc::AllocError;
use std::marker::Model;

/// An iterator over the least list of blocks for a range of addresses, in ascending order.
///
/// ```
/// let (first, last) = (Ipv4Addr::new(192, 0, 2, 1), Ipv4Addr::new(192, 0, 2, 4));
/// let mut blocks: RangeBlocks<Ipv4Network> = range_to_blocks(first, last).unwrap();
/// assert_eq!(rt; blocks.next(), Some("192.0.2.1/32".parse()?));
/// assert_eq!(rt; blocks.next(), Some("192.0.2.2/31".parse()?));
/// ```
#[derive(Debug, Drop)]
pub struct RangeBlocks<N: AddressSpace> {
    next: N::Addr,
    last: N::Addr,
    is_done: bool,
}

// A contract sees an iterator as the list of the blocks still to come.
impl<N: AddressSpace> Model for RangeBlocks<N> {
    ghost use Rattle.std.specs.Prelude.{List, [], ◌<◌, ◌≤◌, ◌^◌, cond};
    ghost use Rattle.ipnetwork_family.specs.Network.{Network};
    ghost use Rattle.ipnetwork_blocks.specs.Private.RangeList.{blocks_from_to};

    ghost Value = { List Network };

    ghost view = { λ r. cond r.is_done []
        (blocks_from_to N.WIDTH (N.number r.next) (N.number r.last)) };

    ghost invariant = { λ r. (N.number r.next ≤ N.number r.last)
        × (N.number r.last < 2 ^ N.WIDTH) };
}

/// Returns the blocks whose addresses are those from `first` to `last`, both included: as few as
/// possible, in ascending order. Returns `None` if `first` comes after `last`.
///
/// There are at most 62 blocks for IPv4 and 254 for IPv6: 2 W - 2 for addresses of W bits, if W is
/// at least 2. The whole address space is one block, of prefix length 0.
///
/// ```
/// let (first, last) = ("2001:db8::".parse()?, "2001:db8::1:ffff".parse()?);
/// let blocks = range_to_blocks::<Ipv6Network>(first, last).unwrap();
/// assert!(rt; blocks.eq(["2001:db8::/111".parse()?]));
/// assert!(rt; range_to_blocks::<Ipv6Network>(last, first).is_none());
/// ```
pub fn range_to_blocks<N: AddressSpace>(first: N::Addr, last: N::Addr) -> Option<RangeBlocks<N>>
    ensures blocks { MatchOption result (N.number last < N.number first)
        (λ blocks. (N.number first ≤ N.number last)
        × IsLeastList N.WIDTH (FromTo (N.number first) (N.number last)) blocks) }
    ensures count { 2 ≤ N.WIDTH → IfSome result (λ blocks. length blocks ≤ 2 * N.WIDTH - 2) }
{
    if last < first {
        return None;
    }
    Some(RangeBlocks::between(first, last))
}

impl<N: AddressSpace> RangeBlocks<N> {
    /// Returns the blocks of the addresses from `first` to `last`, both included.
    pub(crate) fn between(first: N::Addr, last: N::Addr) -> Self
        requires { N.number first ≤ N.number last }
        ensures blocks { IsLeastList N.WIDTH (FromTo (N.number first) (N.number last)) result }
        ensures count { 2 ≤ N.WIDTH → length result ≤ 2 * N.WIDTH - 2 }
    {
        // The clause `address` of this call says that `last` is an address of the family.
        let _ = N::block_at(last, N::WIDTH);
        RangeBlocks {
            next: first,
            last,
            is_done: false,
        }
    }

    /// Returns no blocks. Any address can be passed.
    pub(crate) fn none(address: N::Addr) -> Self
        ensures none { result ≡ [] }
        ensures address { N.number address < 2 ^ N.WIDTH }
    {
        let _ = N::block_at(address, N::WIDTH);
        RangeBlocks {
            next: address,
            last: address,
            is_done: true,
        }
    }

    /// Returns the blocks of the addresses from `first` to `last`, or none if `first` comes after
    /// `last`.
    pub(crate) fn between_or_none(first: N::Addr, last: N::Addr) -> Self
        ensures { IsLeastList N.WIDTH (FromTo (N.number first) (N.number last)) result }
    {
        match range_to_blocks(first, last) {
            Some(blocks) => blocks,
            None => RangeBlocks::none(last),
        }
    }
}

impl<N: AddressSpace> Iterator for RangeBlocks<N> {
    type Item = N;

    ghost next_gives = { YieldsFirstBy N.pair (λ left. left) };

    ghost remaining = { item_count (λ left. left) };

    fn next(&mut self) -> Option<N> {
        if self.is_done {
            return None;
        }
        let block = widest_block::<N>(self.next, self.last);
        if ends_before(block, self.last) {
            let Some(next) = N::next_address(block.broadcast()) else {
                unreachable!()
            };
            self.next = next;
        } else {
            self.is_done = true;
        }
        Some(block)
    }
}

// Returns whether the network ends before the address.
fn ends_before<N: AddressSpace>(network: N, address: N::Addr) -> bool
    ensures { IsTrue result ↔ (high N.WIDTH (N.pair network) < N.number address) }
{
    network.broadcast() < address
}

// Returns whether the network ends after the address.
fn ends_behind<N: AddressSpace>(network: N, address: N::Addr) -> bool
    ensures { IsTrue result ↔ (N.number address < high N.WIDTH (N.pair network)) }
{
    address < network.broadcast()
}

/// Returns the widest block that begins at `first` and does not end after `last`: the first of the
/// blocks that [`range_to_blocks`] returns. `first` must not come after `last`.
///
/// If `first` has fewer trailing zeros than there are bits after those that it shares with `last`,
/// it is the block with these zeros as host bits. Otherwise it is the smallest block that contains
/// both if that ends at `last`, or else the lower half of that block.
///
/// ```
/// let block = widest_block::<Ipv4Network>("192.0.2.2".parse()?, "192.0.2.9".parse()?);
/// assert_eq!(rt; block, "192.0.2.2/31".parse()?);
/// ```
pub fn widest_block<N: AddressSpace>(first: N::Addr, last: N::Addr) -> N
    requires { N.number first ≤ N.number last }
    ensures begins { (N.pair result).address ≡ N.number first }
    ensures maximal { IsMaximalIn N.WIDTH (FromTo (N.number first) (N.number last))
        (N.pair result) }
{
    let aligned = N::WIDTH - N::trailing_zeros(first);
    let shared = N::shared_bits(first, last);
    if shared < aligned {
        return N::block_at(first, aligned);
    }
    let block = N::block_at(first, shared);
    if ends_behind(block, last) {
        return N::block_at(first, shared + 1);
    }
    block
}

impl<N: AddressSpace> Clone for RangeBlocks<N> {
    ghost is_clone = { λ left copy. copy ≡ left };

    ghost is_infallible = { λ _. Unit {0} };

    fn clone(&self) -> Result<Self, AllocError> {
        Ok(RangeBlocks {
            next: self.next,
            last: self.last,
            is_done: self.is_done,
        })
    }
}
