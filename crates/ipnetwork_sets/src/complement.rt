//! The addresses that are not in a set.
ghost use Rattle.ipnetwork_blocks.specs.LeastList.{IsLeastList};
ghost use Rattle.ipnetwork_sets.specs.Sets.{InComplement};

use crate::address_set::AddressSet;
use crate::address_slice::AddressSlice;
use crate::difference::Difference;
use ipnetwork_blocks::AddressSpace;

impl<N: AddressSpace> AddressSet<N> {
    /// The blocks of all addresses of the family that are not in the set, in ascending order. Goes
    /// over the list once, as the iterator advances.
    ///
    /// ```
    /// let set = AddressSet::from_networks(vec![in rt.alloc(); "0.0.0.0/1".parse::<Ipv4Network>()?]?);
    /// assert_eq!(rt; set.complement().next(), Some("128.0.0.0/1".parse()?));
    /// ```
    pub fn complement(&self) -> Difference<'_, N>
        ensures { IsLeastList N.WIDTH (InComplement N.WIDTH self.now) result }
    {
        self.as_slice().complement()
    }
}

impl<'a, N: AddressSpace> AddressSlice<'a, N> {
    /// The blocks of all addresses of the family that are not in the set, in ascending order. Goes
    /// over the list once, as the iterator advances.
    ///
    /// ```
    /// let list: [Ipv4Network; 1] = ["0.0.0.0/1".parse()?];
    /// assert!(rt; AddressSlice::from_blocks(&list).unwrap().complement().eq(["128.0.0.0/1".parse()?]));
    /// ```
    pub fn complement(&self) -> Difference<'a, N>
        ensures { IsLeastList N.WIDTH (InComplement N.WIDTH self.now) result }
    {
        self.free_in(N::whole())
    }
}
