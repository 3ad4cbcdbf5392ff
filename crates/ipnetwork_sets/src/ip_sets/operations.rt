//! The operations on sets.
ghost use Rattle.std.specs.Prelude.{◌↔◌, IsTrue, IfOk, OnErr, List, vec_capacity};
ghost use Rattle.ipnetwork.specs.declared.ip_network.IpNetwork.{IpNetwork};
ghost use Rattle.ipnetwork_sets.specs.IpSets.{IsIpLeastList, InIpBoth, InIpFirstAlone, InIpComplement, InIpEither, IsIpWithin, AreIpDisjoint, HasTooLittleRoom};

use crate::ip_sets::blocks::IpBlocks;
use crate::ip_sets::ip_address_set::IpAddressSet;
use crate::{Difference, Intersection, Union};
use ipnetwork::{Ipv4Network, Ipv6Network};
use std::alloc::AllocError;

// The iterators that the operations return.
type Common<'a> = IpBlocks<Intersection<'a, Ipv4Network>, Intersection<'a, Ipv6Network>>;

type Remainder<'a> = IpBlocks<Difference<'a, Ipv4Network>, Difference<'a, Ipv6Network>>;

type Either<'a> = IpBlocks<Union<'a, Ipv4Network>, Union<'a, Ipv6Network>>;

impl IpAddressSet {
    /// The blocks of the addresses that are in both sets. Goes over the lists of both once, as the
    /// iterator advances.
    ///
    /// ```
    /// let v4 = vec![in rt.alloc(); "192.0.2.0/25".parse::<Ipv4Network>()?]?;
    /// let set = IpAddressSet::from_lists(v4, Vec::new(rt.alloc()));
    /// let v4 = vec![in rt.alloc(); "192.0.2.0/26".parse::<Ipv4Network>()?]?;
    /// let other = IpAddressSet::from_lists(v4, Vec::new(rt.alloc()));
    /// assert_eq!(rt; set.intersection(&other).next(), Some("192.0.2.0/26".parse()?));
    /// ```
    pub fn intersection<'a>(&'a self, other: &'a IpAddressSet) -> Common<'a>
        ensures { IsIpLeastList (InIpBoth self.now other.now) result }
    {
        IpBlocks::of(
            self.v4().intersection(other.v4()),
            self.v6().intersection(other.v6()),
        )
    }

    /// The blocks of the addresses that are in this set and not in the other. Goes over the lists
    /// of both once, as the iterator advances.
    ///
    /// ```
    /// let v4 = vec![in rt.alloc(); "192.0.2.0/25".parse::<Ipv4Network>()?]?;
    /// let set = IpAddressSet::from_lists(v4, Vec::new(rt.alloc()));
    /// let v4 = vec![in rt.alloc(); "192.0.2.0/26".parse::<Ipv4Network>()?]?;
    /// let other = IpAddressSet::from_lists(v4, Vec::new(rt.alloc()));
    /// assert_eq!(rt; set.difference(&other).next(), Some("192.0.2.64/26".parse()?));
    /// ```
    pub fn difference<'a>(&'a self, other: &'a IpAddressSet) -> Remainder<'a>
        ensures { IsIpLeastList (InIpFirstAlone self.now other.now) result }
    {
        IpBlocks::of(
            self.v4().difference(other.v4()),
            self.v6().difference(other.v6()),
        )
    }

    /// The blocks of all addresses of either family that are not in the set. Goes over both its
    /// lists once, as the iterator advances.
    ///
    /// ```
    /// let v4 = vec![in rt.alloc(); "0.0.0.0/1".parse::<Ipv4Network>()?]?;
    /// let set = IpAddressSet::from_lists(v4, Vec::new(rt.alloc()));
    /// assert!(rt; set.complement().eq(["128.0.0.0/1".parse()?, "::/0".parse()?]));
    /// ```
    pub fn complement(&self) -> Remainder<'_>
        ensures { IsIpLeastList (InIpComplement self.now) result }
    {
        IpBlocks::of(self.v4().complement(), self.v6().complement())
    }

    /// The blocks of the addresses that are in one of the two sets or in both. Goes over the lists
    /// of both once, as the iterator advances.
    ///
    /// ```
    /// let v4 = vec![in rt.alloc(); "192.0.2.0/25".parse::<Ipv4Network>()?]?;
    /// let set = IpAddressSet::from_lists(v4, Vec::new(rt.alloc()));
    /// let v4 = vec![in rt.alloc(); "192.0.2.128/25".parse::<Ipv4Network>()?]?;
    /// let other = IpAddressSet::from_lists(v4, Vec::new(rt.alloc()));
    /// assert_eq!(rt; set.union_blocks(&other).next(), Some("192.0.2.0/24".parse()?));
    /// ```
    pub fn union_blocks<'a>(&'a self, other: &'a IpAddressSet) -> Either<'a>
        ensures { IsIpLeastList (InIpEither self.now other.now) result }
    {
        IpBlocks::of(
            self.v4().union_blocks(other.v4()),
            self.v6().union_blocks(other.v6()),
        )
    }

    /// The set of the addresses that are in one of the two sets or in both. Goes over the lists of
    /// both once. The blocks of the families are stored in `v4_memory` and `v6_memory`, whose
    /// contents are dropped first. `AllocError` means that one of them had to grow and memory ran
    /// out.
    ///
    /// ```
    /// let v4 = vec![in rt.alloc(); "192.0.2.0/25".parse::<Ipv4Network>()?]?;
    /// let set = IpAddressSet::from_lists(v4, Vec::new(rt.alloc()));
    /// let v6 = vec![in rt.alloc(); "::1/128".parse::<Ipv6Network>()?]?;
    /// let other = IpAddressSet::from_lists(Vec::new(rt.alloc()), v6);
    /// let union = set.union(&other, Vec::new(rt.alloc()), Vec::new(rt.alloc()))?;
    /// assert!(rt; union.iter().eq(["192.0.2.0/25".parse()?, "::1/128".parse()?]));
    /// ```
    pub fn union(
        &self,
        other: &IpAddressSet,
        v4_memory: Vec<Ipv4Network>,
        v6_memory: Vec<Ipv6Network>,
    ) -> Result<Self, AllocError>
        ensures set { IfOk result (λ set. IsIpLeastList (InIpEither self.now other.now) set) }
        ensures room { (blocks : List IpNetwork)
            → IsIpLeastList (InIpEither self.now other.now) blocks
            → OnErr result (HasTooLittleRoom (vec_capacity v4_memory)
            (vec_capacity v6_memory) blocks) }
    {
        self.union_blocks(other).into_set(v4_memory, v6_memory)
    }

    /// Whether each address of this set is in the other. Goes over the lists of both at most once.
    ///
    /// ```
    /// let v4 = vec![in rt.alloc(); "192.0.2.0/25".parse::<Ipv4Network>()?]?;
    /// let set = IpAddressSet::from_lists(v4, Vec::new(rt.alloc()));
    /// let v4 = vec![in rt.alloc(); "192.0.2.0/26".parse::<Ipv4Network>()?]?;
    /// let other = IpAddressSet::from_lists(v4, Vec::new(rt.alloc()));
    /// assert!(rt; other.is_subset_of(&set));
    /// assert!(rt; !set.is_subset_of(&other));
    /// ```
    pub fn is_subset_of(&self, other: &IpAddressSet) -> bool
        ensures { IsTrue result ↔ IsIpWithin self.now other.now }
    {
        self.v4().is_subset_of(other.v4()) && self.v6().is_subset_of(other.v6())
    }

    /// Whether no address is in both sets. Goes over the lists of both at most once.
    ///
    /// ```
    /// let v4 = vec![in rt.alloc(); "0.0.0.0/0".parse::<Ipv4Network>()?]?;
    /// let set = IpAddressSet::from_lists(v4, Vec::new(rt.alloc()));
    /// let v6 = vec![in rt.alloc(); "::/0".parse::<Ipv6Network>()?]?;
    /// let other = IpAddressSet::from_lists(Vec::new(rt.alloc()), v6);
    /// assert!(rt; set.is_disjoint_from(&other));
    /// ```
    pub fn is_disjoint_from(&self, other: &IpAddressSet) -> bool
        ensures { IsTrue result ↔ AreIpDisjoint self.now other.now }
    {
        self.v4().is_disjoint_from(other.v4()) && self.v6().is_disjoint_from(other.v6())
    }
}
