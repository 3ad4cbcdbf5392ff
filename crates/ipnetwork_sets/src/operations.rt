//! The operations on sets.
ghost use Rattle.std.specs.Prelude.{◌≡◌, ◌↔◌, ◌<◌, IsTrue, IfOk, OnErr, List, length, vec_capacity};
ghost use Rattle.ipnetwork_family.specs.Network.{Network};
ghost use Rattle.ipnetwork_blocks.specs.LeastList.{IsLeastList};
ghost use Rattle.ipnetwork_sets.specs.Sets.{InBoth, InFirstAlone, InNetworkAlone, InEither, IsWithin, AreDisjoint};

use crate::address_set::AddressSet;
use crate::common::Intersection;
use crate::difference::Difference;
use crate::union::Union;
use ipnetwork_blocks::AddressSpace;
use std::alloc::AllocError;

impl<N: AddressSpace> AddressSet<N> {
    /// The blocks of the addresses that are in both sets, in ascending order. Goes over both lists
    /// once, as the iterator advances.
    ///
    /// ```
    /// let set = AddressSet::from_networks(vec![in rt.alloc(); "192.0.2.0/25".parse::<Ipv4Network>()?]?);
    /// let other = AddressSet::from_networks(vec![in rt.alloc(); "192.0.2.0/26".parse()?]?);
    /// assert_eq!(rt; set.intersection(&other).next(), Some("192.0.2.0/26".parse()?));
    /// ```
    pub fn intersection<'a>(&'a self, other: &'a AddressSet<N>) -> Intersection<'a, N>
        ensures { IsLeastList N.WIDTH (InBoth N.WIDTH self.now other.now) result }
    {
        Intersection::of(self.blocks(), other.blocks())
    }

    /// The blocks of the addresses that are in this set and not in the other, in ascending order.
    /// Goes over both lists once, as the iterator advances.
    ///
    /// ```
    /// let set = AddressSet::from_networks(vec![in rt.alloc(); "192.0.2.0/25".parse::<Ipv4Network>()?]?);
    /// let other = AddressSet::from_networks(vec![in rt.alloc(); "192.0.2.0/26".parse()?]?);
    /// assert_eq!(rt; set.difference(&other).next(), Some("192.0.2.64/26".parse()?));
    /// ```
    pub fn difference<'a>(&'a self, other: &'a AddressSet<N>) -> Difference<'a, N>
        ensures { IsLeastList N.WIDTH (InFirstAlone N.WIDTH self.now other.now) result }
    {
        Difference::of(self.blocks(), other.blocks())
    }

    /// The blocks of the addresses that are in the network and not in the set, in ascending order:
    /// the free part of the network. Host bits are ignored. Goes over the list once, as the
    /// iterator advances.
    ///
    /// For the network of prefix length 0, these are the blocks of all addresses that are not in
    /// the set.
    ///
    /// ```
    /// let set = AddressSet::from_networks(vec![in rt.alloc(); "192.0.2.0/25".parse::<Ipv4Network>()?]?);
    /// assert_eq!(rt; set.free_in("192.0.2.0/24".parse()?).next(), Some("192.0.2.128/25".parse()?));
    /// ```
    pub fn free_in(&self, network: N) -> Difference<'_, N>
        ensures { IsLeastList N.WIDTH (InNetworkAlone N.WIDTH (N.pair network) self.now) result }
    {
        Difference::within(network, self.blocks())
    }

    /// The blocks of the addresses that are in one of the two sets or in both, in ascending order.
    /// Goes over both lists once, as the iterator advances.
    ///
    /// ```
    /// let set = AddressSet::from_networks(vec![in rt.alloc(); "192.0.2.0/25".parse::<Ipv4Network>()?]?);
    /// let other = AddressSet::from_networks(vec![in rt.alloc(); "192.0.2.128/25".parse()?]?);
    /// assert_eq!(rt; set.union_blocks(&other).next(), Some("192.0.2.0/24".parse()?));
    /// ```
    pub fn union_blocks<'a>(&'a self, other: &'a AddressSet<N>) -> Union<'a, N>
        ensures { IsLeastList N.WIDTH (InEither N.WIDTH self.now other.now) result }
    {
        Union::of(self.blocks(), other.blocks())
    }

    /// The set of the addresses that are in one of the two sets or in both. Goes over both lists
    /// once. The blocks are stored in `memory`, whose contents are dropped first. `AllocError`
    /// means that it had to grow and memory ran out.
    ///
    /// ```
    /// let set = AddressSet::from_networks(vec![in rt.alloc(); "192.0.2.0/25".parse::<Ipv4Network>()?]?);
    /// let other = AddressSet::from_networks(vec![in rt.alloc(); "192.0.2.128/25".parse()?]?);
    /// assert!(rt; set.union(&other, Vec::new(rt.alloc()))?.covers("192.0.2.0/24".parse()?));
    /// ```
    pub fn union(&self, other: &AddressSet<N>, memory: Vec<N>) -> Result<Self, AllocError>
        ensures set { IfOk result
            (λ set. IsLeastList N.WIDTH (InEither N.WIDTH self.now other.now) set) }
        ensures room { (blocks : List Network)
            → IsLeastList N.WIDTH (InEither N.WIDTH self.now other.now) blocks
            → OnErr result (vec_capacity memory < length blocks) }
    {
        self.union_blocks(other).into_set(memory)
    }

    /// Whether each address of this set is in the other. Goes over both lists at most once.
    ///
    /// ```
    /// let set = AddressSet::from_networks(vec![in rt.alloc(); "192.0.2.0/25".parse::<Ipv4Network>()?]?);
    /// let other = AddressSet::from_networks(vec![in rt.alloc(); "192.0.2.0/26".parse()?]?);
    /// assert!(rt; other.is_subset_of(&set));
    /// assert!(rt; !set.is_subset_of(&other));
    /// ```
    pub fn is_subset_of(&self, other: &AddressSet<N>) -> bool
        ensures { IsTrue result ↔ IsWithin N.WIDTH self.now other.now }
    {
        self.as_slice().is_subset_of(&other.as_slice())
    }

    /// Whether no address is in both sets. Goes over both lists at most once.
    ///
    /// ```
    /// let set = AddressSet::from_networks(vec![in rt.alloc(); "192.0.2.0/25".parse::<Ipv4Network>()?]?);
    /// let other = AddressSet::from_networks(vec![in rt.alloc(); "192.0.2.128/25".parse()?]?);
    /// assert!(rt; set.is_disjoint_from(&other));
    /// ```
    pub fn is_disjoint_from(&self, other: &AddressSet<N>) -> bool
        ensures { IsTrue result ↔ AreDisjoint N.WIDTH self.now other.now }
    {
        self.as_slice().is_disjoint_from(&other.as_slice())
    }
}
