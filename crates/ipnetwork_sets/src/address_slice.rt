//! A set of addresses over a borrowed list of its blocks.
ghost use Rattle.std.specs.Prelude.{◌≡◌, ◌≤◌, ◌↔◌, IsTrue, MatchOption, map, []};
ghost use Rattle.ipnetwork_blocks.specs.LeastList.{IsLeastList};
ghost use Rattle.ipnetwork_blocks.specs.Aggregate.{InUnion, LiesInUnion};
ghost use Rattle.ipnetwork_sets.specs.Sets.{IsAddressSet, MeetsUnion, InBoth, InFirstAlone, InNetworkAlone, InEither, IsWithin, AreDisjoint};

use crate::address_set::AddressSet;
use crate::check::is_address_set;
use crate::common::Intersection;
use crate::difference::Difference;
use crate::search;
use crate::union::Union;
use ipnetwork_blocks::AddressSpace;
use std::marker::Model;

/// A set of addresses of one family over a borrowed list of its maximal blocks, in ascending order.
/// It has the queries of an `AddressSet`, for a list that is stored elsewhere, such as in a table
/// or an array.
///
/// ```
/// let blocks: [Ipv4Network; 2] = ["10.0.0.0/8".parse()?, "192.0.2.0/24".parse()?];
/// let set = AddressSlice::from_blocks(&blocks).unwrap();
/// assert!(rt; set.contains(Ipv4Addr::new(192, 0, 2, 1)));
/// ```
#[derive(Debug, Drop)]
pub struct AddressSlice<'a, N: AddressSpace> {
    blocks: &'a [N],
}

// A contract sees a set as the list of its blocks.
impl<'a, N: AddressSpace> Model for AddressSlice<'a, N> {
    ghost use Rattle.std.specs.Prelude.{List, map};
    ghost use Rattle.ipnetwork_family.specs.Network.{Network};
    ghost use Rattle.ipnetwork_sets.specs.Sets.{IsAddressSet};

    ghost Value = { List Network };

    ghost view = { λ s. map N.pair s.blocks.now };

    ghost invariant = { λ s. IsAddressSet N.WIDTH (map N.pair s.blocks.now) };
}

impl<'a, N: AddressSpace> AddressSlice<'a, N> {
    /// The set with these blocks, if they are maximal in it, have no host bits and are in ascending
    /// order; `None` if not. Goes over the list once.
    ///
    /// ```
    /// let halves: [Ipv4Network; 2] = ["192.0.2.0/25".parse()?, "192.0.2.128/25".parse()?];
    /// assert!(rt; AddressSlice::from_blocks(&halves).is_none());
    /// ```
    pub fn from_blocks(blocks: &'a [N]) -> Option<Self>
        ensures { MatchOption result
            (¬ (IsAddressSet N.WIDTH (map N.pair blocks.now)))
            (λ set. IsAddressSet N.WIDTH (map N.pair blocks.now) × (set ≡ map N.pair blocks.now)) }
    {
        if is_address_set::<N, N>(blocks) {
            return Some(AddressSlice { blocks });
        }
        None
    }

    // The set with these blocks.
    pub(crate) fn of_blocks(blocks: &'a [N]) -> Self
        requires { IsAddressSet N.WIDTH (map N.pair blocks.now) }
        ensures { result ≡ map N.pair blocks.now }
    {
        AddressSlice { blocks }
    }

    /// The blocks, in ascending order.
    ///
    /// ```
    /// let list: [Ipv4Network; 1] = ["192.0.2.0/24".parse()?];
    /// assert_eq!(rt; AddressSlice::from_blocks(&list).unwrap().blocks(), list.as_slice());
    /// ```
    pub fn blocks(&self) -> &'a [N]
        ensures blocks { map N.pair result.now ≡ self.now }
        ensures set { IsAddressSet N.WIDTH self.now }
    {
        self.blocks
    }

    /// Whether the set has no addresses.
    ///
    /// ```
    /// assert!(rt; AddressSlice::<Ipv4Network>::from_blocks(&[]).unwrap().is_empty());
    /// ```
    pub fn is_empty(&self) -> bool
        ensures { IsTrue result ↔ (self.now ≡ []) }
    {
        self.blocks.is_empty()
    }

    /// Whether the address is in the set. Takes one binary search over the blocks.
    ///
    /// ```
    /// let list: [Ipv4Network; 1] = ["192.0.2.0/25".parse()?];
    /// let set = AddressSlice::from_blocks(&list).unwrap();
    /// assert!(rt; !set.contains(Ipv4Addr::new(192, 0, 2, 128)));
    /// ```
    pub fn contains(&self, addr: N::Addr) -> bool
        ensures { IsTrue result ↔ InUnion N.WIDTH self.now (N.number addr) }
    {
        search::contains(self.blocks, addr)
    }

    /// Whether each address of the network is in the set. Host bits are ignored. Takes one binary
    /// search over the blocks.
    ///
    /// ```
    /// let list: [Ipv4Network; 1] = ["192.0.2.0/25".parse()?];
    /// let set = AddressSlice::from_blocks(&list).unwrap();
    /// assert!(rt; set.covers("192.0.2.64/26".parse()?));
    /// ```
    pub fn covers(&self, network: N) -> bool
        ensures { IsTrue result ↔ LiesInUnion N.WIDTH (N.pair network) self.now }
    {
        search::covers(self.blocks, network)
    }

    /// Whether some address of the network is in the set. Host bits are ignored. Takes one binary
    /// search over the blocks.
    ///
    /// ```
    /// let list: [Ipv4Network; 1] = ["192.0.2.0/25".parse()?];
    /// let set = AddressSlice::from_blocks(&list).unwrap();
    /// assert!(rt; set.overlaps("192.0.2.0/24".parse()?));
    /// ```
    pub fn overlaps(&self, network: N) -> bool
        ensures { IsTrue result ↔ MeetsUnion N.WIDTH (N.pair network) self.now }
    {
        search::overlaps(self.blocks, network)
    }

    /// The blocks of the addresses that are in both sets, in ascending order. Goes over both lists
    /// once, as the iterator advances.
    ///
    /// ```
    /// let list: [Ipv4Network; 1] = ["192.0.2.0/25".parse()?];
    /// let others: [Ipv4Network; 1] = ["192.0.2.0/26".parse()?];
    /// let common = AddressSlice::from_blocks(&list).unwrap().intersection(&AddressSlice::from_blocks(&others).unwrap());
    /// assert!(rt; common.eq(others));
    /// ```
    pub fn intersection(&self, other: &AddressSlice<'a, N>) -> Intersection<'a, N>
        ensures { IsLeastList N.WIDTH (InBoth N.WIDTH self.now other.now) result }
    {
        Intersection::of(self.blocks(), other.blocks())
    }

    /// The blocks of the addresses that are in this set and not in the other, in ascending order.
    /// Goes over both lists once, as the iterator advances.
    ///
    /// ```
    /// let list: [Ipv4Network; 1] = ["192.0.2.0/25".parse()?];
    /// let others: [Ipv4Network; 1] = ["192.0.2.0/26".parse()?];
    /// let left = AddressSlice::from_blocks(&list).unwrap().difference(&AddressSlice::from_blocks(&others).unwrap());
    /// assert!(rt; left.eq(["192.0.2.64/26".parse()?]));
    /// ```
    pub fn difference(&self, other: &AddressSlice<'a, N>) -> Difference<'a, N>
        ensures { IsLeastList N.WIDTH (InFirstAlone N.WIDTH self.now other.now) result }
    {
        Difference::of(self.blocks(), other.blocks())
    }

    /// The blocks of the addresses that are in the network and not in the set, in ascending order:
    /// the free part of the network. Host bits are ignored. Goes over the list once, as the
    /// iterator advances.
    ///
    /// ```
    /// let list: [Ipv4Network; 1] = ["192.0.2.0/25".parse()?];
    /// let mut free = AddressSlice::from_blocks(&list).unwrap().free_in("192.0.2.0/24".parse()?);
    /// assert_eq!(rt; free.next(), Some("192.0.2.128/25".parse()?));
    /// ```
    pub fn free_in(&self, network: N) -> Difference<'a, N>
        ensures { IsLeastList N.WIDTH (InNetworkAlone N.WIDTH (N.pair network) self.now) result }
    {
        Difference::within(network, self.blocks())
    }

    /// The blocks of the addresses that are in one of the two sets or in both, in ascending order.
    /// Goes over both lists once, as the iterator advances.
    ///
    /// ```
    /// let list: [Ipv4Network; 1] = ["192.0.2.0/25".parse()?];
    /// let others: [Ipv4Network; 1] = ["192.0.2.128/25".parse()?];
    /// let both = AddressSlice::from_blocks(&list).unwrap().union_blocks(&AddressSlice::from_blocks(&others).unwrap());
    /// assert!(rt; both.eq(["192.0.2.0/24".parse()?]));
    /// ```
    pub fn union_blocks(&self, other: &AddressSlice<'a, N>) -> Union<'a, N>
        ensures { IsLeastList N.WIDTH (InEither N.WIDTH self.now other.now) result }
    {
        Union::of(self.blocks(), other.blocks())
    }

    /// Whether each address of this set is in the other. Goes over both lists at most once.
    ///
    /// ```
    /// let list: [Ipv4Network; 1] = ["192.0.2.0/25".parse()?];
    /// let others: [Ipv4Network; 1] = ["192.0.2.0/26".parse()?];
    /// let (wide, narrow) = (AddressSlice::from_blocks(&list).unwrap(), AddressSlice::from_blocks(&others).unwrap());
    /// assert!(rt; narrow.is_subset_of(&wide) && !wide.is_subset_of(&narrow));
    /// ```
    pub fn is_subset_of(&self, other: &AddressSlice<'a, N>) -> bool
        ensures { IsTrue result ↔ IsWithin N.WIDTH self.now other.now }
    {
        let mut left = self.difference(other);
        left.next().is_none()
    }

    /// Whether no address is in both sets. Goes over both lists at most once.
    ///
    /// ```
    /// let list: [Ipv4Network; 1] = ["192.0.2.0/25".parse()?];
    /// let others: [Ipv4Network; 1] = ["192.0.2.128/25".parse()?];
    /// let set = AddressSlice::from_blocks(&list).unwrap();
    /// assert!(rt; set.is_disjoint_from(&AddressSlice::from_blocks(&others).unwrap()));
    /// ```
    pub fn is_disjoint_from(&self, other: &AddressSlice<'a, N>) -> bool
        ensures { IsTrue result ↔ AreDisjoint N.WIDTH self.now other.now }
    {
        let mut common = self.intersection(other);
        common.next().is_none()
    }
}

impl<N: AddressSpace> AddressSet<N> {
    /// The same set, as a slice that borrows the list of this one.
    ///
    /// ```
    /// let set = AddressSet::from_networks(vec![in rt.alloc(); "192.0.2.0/25".parse::<Ipv4Network>()?]?);
    /// assert!(rt; set.as_slice().contains(Ipv4Addr::new(192, 0, 2, 127)));
    /// ```
    pub fn as_slice(&self) -> AddressSlice<'_, N>
        ensures { result ≡ self.now }
    {
        AddressSlice::of_blocks(self.blocks())
    }
}
