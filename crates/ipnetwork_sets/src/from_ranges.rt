//! Sets made from ranges of addresses.
ghost use Rattle.std.specs.Prelude.{◌≡◌, ◌+◌, ◌<◌, ◌≤◌, ◌^◌, IfOk, OnErr, List, length, map, take, vec_capacity, vec_len};
ghost use Rattle.ipnetwork_family.specs.Network.{Network};
ghost use Rattle.ipnetwork_blocks.specs.LeastList.{IsLeastList};
ghost use Rattle.ipnetwork_blocks.specs.Ranges.{FromTo};
ghost use Rattle.ipnetwork_sets.specs.RangeLists.{InRanges, AreBlocksOf};
ghost use Rattle.ipnetwork_sets.specs.Sets.{AddsLeastList, AddsFirstOfLeastList};

use crate::address_set::AddressSet;
use ipnetwork_blocks::{AddressSpace, laws, range_to_blocks};
use std::alloc::AllocError;

impl<N: AddressSpace> AddressSet<N> {
    /// The set of the addresses of the ranges, each given by its first and its last address. The
    /// ranges may be in any order and overlap. A range whose first address comes after its last has
    /// no addresses. The blocks are stored in `memory`, whose contents are dropped first.
    /// `AllocError` means that it had to grow and memory ran out.
    ///
    /// ```
    /// let ranges = [(Ipv4Addr::new(192, 0, 2, 0), Ipv4Addr::new(192, 0, 2, 127))];
    /// let set = AddressSet::<Ipv4Network>::from_ranges(&ranges, Vec::new(rt.alloc()))?;
    /// assert_eq!(rt; set.blocks()[0].canonical().as_str(), "192.0.2.0/25");
    /// ```
    pub fn from_ranges(
        ranges: &[(N::Addr, N::Addr)],
        mut memory: Vec<N>,
    ) -> Result<Self, AllocError>
        ensures set { IfOk result
            (λ set. IsLeastList N.WIDTH
            (InRanges (map (λ r. (N.number r.0, N.number r.1)) ranges.now)) set) }
        ensures room { (blocks : List Network)
            → AreBlocksOf N.WIDTH (map (λ r. (N.number r.0, N.number r.1)) ranges.now) blocks
            → OnErr result (vec_capacity memory < length blocks) }
    {
        laws::ranges_are_shortest();
        memory.clear();
        for range in ranges {
            push_range(&mut memory, range.0, range.1)?;
        }
        Ok(AddressSet::from_networks(memory))
    }
}

/// Appends to the networks the fewest blocks that have exactly the addresses from `first` to
/// `last`, both included; none if `first` comes after `last`. The networks already in the list are
/// unchanged. `AllocError` means that the list had to grow and memory ran out; the first of the
/// blocks may have been appended. The capacity never shrinks.
///
/// ```
/// let mut networks = Vec::<Ipv4Network>::new(rt.alloc());
/// push_range(&mut networks, Ipv4Addr::new(192, 0, 2, 1), Ipv4Addr::new(192, 0, 2, 3))?;
/// assert_eq!(rt; networks.len(), 2);
/// ```
pub fn push_range<N: AddressSpace>(
    networks: &mut Vec<N>,
    first: N::Addr,
    last: N::Addr,
) -> Result<(), AllocError>
    ensures address { N.number last < 2 ^ N.WIDTH }
    ensures added { IfOk result
        (λ _. AddsLeastList N.WIDTH (FromTo (N.number first) (N.number last))
        (map N.pair networks.old.items) (map N.pair networks.new.items)) }
    ensures front { take (length networks.old.items) networks.new.items ≡ networks.old.items }
    ensures part { AddsFirstOfLeastList N.WIDTH (FromTo (N.number first) (N.number last))
        (map N.pair networks.old.items) (map N.pair networks.new.items) }
    ensures capacity { vec_capacity networks.old ≤ vec_capacity networks.new }
    ensures room { (blocks : List Network)
        → IsLeastList N.WIDTH (FromTo (N.number first) (N.number last)) blocks
        → OnErr result (vec_capacity networks.old < vec_len networks.old + length blocks) }
{
    // The clause `address` of this call says that `last` is an address of the family.
    let _ = N::block(last, N::WIDTH);
    let Some(mut blocks) = range_to_blocks::<N>(first, last) else {
        return Ok(());
    };
    while let Some(block) = blocks.next() {
        networks.push(block)?;
    }
    Ok(())
}
