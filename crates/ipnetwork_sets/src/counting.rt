//! The number of addresses in a set.
ghost use Rattle.std.specs.Prelude.{◌≡◌, ◌≤◌, map};
ghost use Rattle.ipnetwork_blocks.specs.Aggregate.{InUnion};
ghost use Rattle.ipnetwork_sets.specs.Counts.{count_number, HasCount, total};
ghost use Rattle.ipnetwork_sets.specs.Private.Totals.{capped};

use crate::address_count::AddressCount;
use crate::address_set::AddressSet;
use crate::address_slice::AddressSlice;
use ipnetwork_blocks::{AddressSpace, laws};

impl<N: AddressSpace> AddressSet<N> {
    /// The number of addresses in the set. Goes over the blocks once.
    ///
    /// ```
    /// let set = AddressSet::from_networks(vec![in rt.alloc(); "192.0.2.0/25".parse::<Ipv4Network>()?]?);
    /// assert_eq!(rt; set.address_count(), AddressCount::from(128));
    /// ```
    pub fn address_count(&self) -> AddressCount
        ensures { N.WIDTH ≤ 128 → HasCount (InUnion N.WIDTH self.now) (count_number result) }
    {
        self.as_slice().address_count()
    }
}

impl<'a, N: AddressSpace> AddressSlice<'a, N> {
    /// The number of addresses in the set. Goes over the blocks once.
    ///
    /// ```
    /// let list: [Ipv4Network; 1] = ["192.0.2.0/25".parse()?];
    /// assert_eq!(rt; AddressSlice::from_blocks(&list).unwrap().address_count(), AddressCount::from(128));
    /// ```
    pub fn address_count(&self) -> AddressCount
        ensures { N.WIDTH ≤ 128 → HasCount (InUnion N.WIDTH self.now) (count_number result) }
    {
        laws::one_block();
        count_blocks(self.blocks())
    }
}

// The sum of the sizes of the networks, or 2^128 if it is greater.
fn count_blocks<N: AddressSpace>(blocks: &[N]) -> AddressCount
    ensures { count_number result ≡ capped (total N.WIDTH (map N.pair blocks.now)) }
{
    let mut count = AddressCount::ZERO;
    for block in blocks {
        count = count.add_block(*block);
    }
    count
}
