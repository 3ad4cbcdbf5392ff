//! Sets made from iterators over blocks, in lists that the caller provides.
ghost use Rattle.std.specs.Prelude.{◌≡◌, IfOk, OnErr, vec_capacity};
ghost use Rattle.ipnetwork_sets.specs.IpSets.{HasTooLittleRoom};

use crate::ip_sets::blocks::IpBlocks;
use crate::ip_sets::ip_address_set::IpAddressSet;
use crate::{SetBlocks, collected};
use ipnetwork::{Ipv4Network, Ipv6Network};
use std::alloc::AllocError;

impl IpAddressSet {
    /// A set with the same addresses. The blocks of the families are stored in `v4_memory` and
    /// `v6_memory`, whose contents are dropped first. `AllocError` means that one of them had to
    /// grow and memory ran out.
    ///
    /// ```
    /// let v4 = vec![in rt.alloc(); "192.0.2.0/25".parse::<Ipv4Network>()?]?;
    /// let set = IpAddressSet::from_lists(v4, Vec::new(rt.alloc()));
    /// assert!(rt; set.copied(Vec::new(rt.alloc()), Vec::new(rt.alloc()))? == set);
    /// ```
    pub fn copied(
        &self,
        v4_memory: Vec<Ipv4Network>,
        v6_memory: Vec<Ipv6Network>,
    ) -> Result<Self, AllocError>
        ensures set { IfOk result (λ set. set ≡ self.now) }
        ensures room { OnErr result
            (HasTooLittleRoom (vec_capacity v4_memory) (vec_capacity v6_memory) self.now) }
    {
        self.iter().into_set(v4_memory, v6_memory)
    }
}

impl<V4: SetBlocks<Ipv4Network>, V6: SetBlocks<Ipv6Network>> IpBlocks<V4, V6> {
    /// The set of the remaining blocks. The blocks of the families are stored in `v4_memory` and
    /// `v6_memory`, whose contents are dropped first. `AllocError` means that one of them had to
    /// grow and memory ran out.
    ///
    /// ```
    /// let v4 = vec![in rt.alloc(); "192.0.2.0/25".parse::<Ipv4Network>()?]?;
    /// let set = IpAddressSet::from_lists(v4, Vec::new(rt.alloc()));
    /// let blocks = set.iter();
    /// assert!(rt; blocks.into_set(Vec::new(rt.alloc()), Vec::new(rt.alloc()))? == set);
    /// let common = set.intersection(&set).into_set(Vec::new(rt.alloc()), Vec::new(rt.alloc()))?;
    /// assert!(rt; common == set);
    /// let rest = set.difference(&set).into_set(Vec::new(rt.alloc()), Vec::new(rt.alloc()))?;
    /// assert!(rt; rest.is_empty());
    /// let both = set.union_blocks(&set).into_set(Vec::new(rt.alloc()), Vec::new(rt.alloc()))?;
    /// assert!(rt; both == set);
    /// ```
    pub fn into_set(
        self,
        v4_memory: Vec<Ipv4Network>,
        v6_memory: Vec<Ipv6Network>,
    ) -> Result<IpAddressSet, AllocError>
        ensures set { IfOk result (λ set. set ≡ self) }
        ensures room { OnErr result
            (HasTooLittleRoom (vec_capacity v4_memory) (vec_capacity v6_memory) self) }
    {
        let v4 = collected(self.v4, v4_memory)?;
        let v6 = collected(self.v6, v6_memory)?;
        Ok(IpAddressSet::from_parts(v4, v6))
    }
}
