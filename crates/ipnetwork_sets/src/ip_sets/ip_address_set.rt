//! The type of a set of addresses of either family.
ghost use Rattle.std.specs.Prelude.{◌≡◌, ◌↔◌, ◌+◌, ◌<◌, ◌≤◌, ◌⊎◌, ◌++◌, ◌∷◌, [], length, IsTrue, IfOk, OnOk, OnErr, vec_capacity, vec_len};
ghost use Rattle.std.specs.List.{filter_map};
ghost use Rattle.ipnetwork_blocks.specs.AggregateIp.{as_v4, as_v6, IsIpAggregate};
ghost use Rattle.ipnetwork_blocks.specs.AggregateIpLaws.{InIpUnion, LiesInIpUnion};
ghost use Rattle.ipnetwork_sets.specs.Sets.{IsAddressSet};
ghost use Rattle.ipnetwork_sets.specs.IpSets.{v4_then_v6, IsIpAddressSet, InIpEither, InIpFirstAlone, MeetsIpUnion, HasTooLittleRoom, ChangesTo};

use crate::ip_sets::blocks::IpBlocks;
use crate::{AddressSet, Blocks};
use ipnetwork::{IpAddr, IpNetwork, Ipv4Network, Ipv6Network};
use std::alloc::AllocError;
use std::marker::Model;

/// A set of addresses of either family: the maximal blocks of its IPv4 addresses, in ascending
/// order, followed by those of its IPv6 addresses. Each set has one such list, and no list of
/// networks with the same addresses is shorter. An IPv4-mapped IPv6 address is an IPv6 address, not
/// an IPv4 address.
///
/// ```
/// let networks = ["2001:db8::/32".parse::<IpNetwork>()?, "192.0.2.0/25".parse()?, "192.0.2.128/25".parse()?];
/// let set = IpAddressSet::from_networks(&networks, Vec::new(rt.alloc()), Vec::new(rt.alloc()))?;
/// assert!(rt; set.iter().eq(["192.0.2.0/24".parse()?, "2001:db8::/32".parse()?]));
/// ```
#[derive(Debug, Drop)]
pub struct IpAddressSet {
    v4: AddressSet<Ipv4Network>,
    v6: AddressSet<Ipv6Network>,
}

// A contract sees a set as the list of its blocks, those of IPv4 first.
impl Model for IpAddressSet {
    ghost use Rattle.std.specs.Prelude.{List};
    ghost use Rattle.ipnetwork.specs.declared.ip_network.IpNetwork.{IpNetwork};
    ghost use Rattle.ipnetwork_sets.specs.Sets.{IsAddressSet};
    ghost use Rattle.ipnetwork_sets.specs.IpSets.{v4_then_v6};

    ghost Value = { List IpNetwork };

    ghost view = { λ s. v4_then_v6 s.v4 s.v6 };

    ghost invariant = { λ s. IsAddressSet 32 s.v4 × IsAddressSet 128 s.v6 };
}

impl IpAddressSet {
    /// The set of the addresses of networks of either family, which may have host bits and be in
    /// any order. The networks of the families are stored in `v4_memory` and `v6_memory`, whose
    /// contents are dropped first. `AllocError` means that one of them had to grow and memory ran
    /// out.
    ///
    /// Sorts each family and goes over it once.
    ///
    /// ```
    /// let networks = ["::1/128".parse::<IpNetwork>()?, "10.1.2.3/8".parse()?];
    /// let set = IpAddressSet::from_networks(&networks, Vec::new(rt.alloc()), Vec::new(rt.alloc()))?;
    /// assert!(rt; set.iter().eq(["10.0.0.0/8".parse()?, "::1/128".parse()?]));
    /// ```
    pub fn from_networks(
        networks: &[IpNetwork],
        mut v4_memory: Vec<Ipv4Network>,
        mut v6_memory: Vec<Ipv6Network>,
    ) -> Result<Self, AllocError>
        ensures set { IfOk result (λ set. IsIpAggregate networks.now set) }
        ensures room { OnErr result
            (HasTooLittleRoom (vec_capacity v4_memory) (vec_capacity v6_memory) networks.now) }
    {
        v4_memory.clear();
        v6_memory.clear();
        for network in networks {
            push_network(&mut v4_memory, &mut v6_memory, *network)?;
        }
        Ok(IpAddressSet::from_lists(v4_memory, v6_memory))
    }

    /// The set of the addresses of the networks of both lists, which may have host bits and be in
    /// any order.
    ///
    /// Sorts each list in place and goes over it once. `into_parts`, and `into_blocks` of each
    /// part, return the lists.
    ///
    /// ```
    /// let v4 = vec![in rt.alloc(); "192.0.2.0/25".parse::<Ipv4Network>()?, "192.0.2.128/25".parse()?]?;
    /// let set = IpAddressSet::from_lists(v4, vec![in rt.alloc(); "::1/64".parse::<Ipv6Network>()?]?);
    /// assert!(rt; set.iter().eq(["192.0.2.0/24".parse()?, "::/64".parse()?]));
    /// ```
    pub fn from_lists(v4: Vec<Ipv4Network>, v6: Vec<Ipv6Network>) -> Self
        ensures { IsIpAggregate (v4_then_v6 v4.items v6.items) result }
    {
        IpAddressSet::from_parts(AddressSet::from_networks(v4), AddressSet::from_networks(v6))
    }

    /// The set of the addresses of both sets.
    ///
    /// ```
    /// let v4 = AddressSet::from_networks(vec![in rt.alloc(); "192.0.2.0/24".parse::<Ipv4Network>()?]?);
    /// let v6 = AddressSet::from_networks(Vec::<Ipv6Network>::new(rt.alloc()));
    /// assert!(rt; IpAddressSet::from_parts(v4, v6).iter().eq(["192.0.2.0/24".parse()?]));
    /// ```
    pub fn from_parts(v4: AddressSet<Ipv4Network>, v6: AddressSet<Ipv6Network>) -> Self
        ensures { result ≡ v4_then_v6 v4 v6 }
    {
        // The clauses of these calls say that the lists are those of sets.
        let _ = v4.blocks();
        let _ = v6.blocks();
        IpAddressSet { v4, v6 }
    }

    /// The set of the IPv4 addresses, and that of the IPv6 addresses.
    ///
    /// ```
    /// let v4 = vec![in rt.alloc(); "192.0.2.0/24".parse::<Ipv4Network>()?]?;
    /// let (v4, v6) = IpAddressSet::from_lists(v4, Vec::new(rt.alloc())).into_parts();
    /// assert_eq!(rt; v4.blocks(), ["192.0.2.0/24".parse()?].as_slice());
    /// assert!(rt; v6.is_empty());
    /// ```
    pub fn into_parts(self) -> (AddressSet<Ipv4Network>, AddressSet<Ipv6Network>)
        ensures { self ≡ v4_then_v6 result.0 result.1 }
    {
        (self.v4, self.v6)
    }

    /// The set of the IPv4 addresses.
    ///
    /// ```
    /// let v4 = vec![in rt.alloc(); "192.0.2.0/24".parse::<Ipv4Network>()?]?;
    /// let set = IpAddressSet::from_lists(v4, Vec::new(rt.alloc()));
    /// let range = (Ipv4Addr::new(192, 0, 2, 0), Ipv4Addr::new(192, 0, 2, 255));
    /// assert!(rt; set.v4().ranges().eq([range]));
    /// ```
    pub fn v4(&self) -> &AddressSet<Ipv4Network>
        ensures blocks { result.now ≡ filter_map as_v4 self.now }
        ensures set { IsAddressSet 32 result.now }
    {
        &self.v4
    }

    /// The set of the IPv6 addresses.
    ///
    /// ```
    /// let v6 = vec![in rt.alloc(); "::ffff:192.0.2.0/120".parse::<Ipv6Network>()?]?;
    /// let set = IpAddressSet::from_lists(Vec::new(rt.alloc()), v6);
    /// assert_eq!(rt; set.v6().address_count(), ipnetwork_sets::AddressCount::from(256));
    /// ```
    pub fn v6(&self) -> &AddressSet<Ipv6Network>
        ensures blocks { result.now ≡ filter_map as_v6 self.now }
        ensures set { IsAddressSet 128 result.now }
    {
        &self.v6
    }

    /// An iterator over the IPv4 blocks, followed by the IPv6 blocks, each in ascending order.
    ///
    /// ```
    /// let v6 = vec![in rt.alloc(); "::1/128".parse::<Ipv6Network>()?]?;
    /// let set = IpAddressSet::from_lists(vec![in rt.alloc(); "192.0.2.0/24".parse::<Ipv4Network>()?]?, v6);
    /// assert!(rt; set.iter().eq(["192.0.2.0/24".parse()?, "::1/128".parse()?]));
    /// ```
    pub fn iter(&self) -> IpBlocks<Blocks<'_, Ipv4Network>, Blocks<'_, Ipv6Network>>
        ensures blocks { result ≡ self.now }
        ensures set { IsIpAddressSet self.now }
    {
        IpBlocks::of(self.v4.iter(), self.v6.iter())
    }

    /// Adds the addresses of the network to the set, in the list of its family, and returns whether
    /// any of them is new. Host bits are ignored. The list grows by at most one block. `AllocError`
    /// means that it had to grow and memory ran out; the set is then unchanged.
    ///
    /// ```
    /// let v4 = vec![in rt.alloc(); "192.0.2.0/25".parse::<Ipv4Network>()?]?;
    /// let mut set = IpAddressSet::from_lists(v4, Vec::new(rt.alloc()));
    /// assert!(rt; set.insert("192.0.2.128/25".parse()?)?);
    /// assert!(rt; set.insert("2001:db8::/32".parse()?)?);
    /// assert!(rt; set.iter().eq(["192.0.2.0/24".parse()?, "2001:db8::/32".parse()?]));
    /// ```
    pub fn insert(&mut self, network: IpNetwork) -> Result<bool, AllocError>
        ensures { ChangesTo (InIpEither self.old (network ∷ []))
            (¬ (LiesInIpUnion network self.old)) self.old self.new result }
    {
        match network {
            IpNetwork::V4(network) => self.v4.insert(network),
            IpNetwork::V6(network) => self.v6.insert(network),
        }
    }

    /// Removes the addresses of the network from the set, in the list of its family, and returns
    /// whether any of them was in it. Host bits are ignored. A block that has other addresses too
    /// is split. `AllocError` means that the list had to grow and memory ran out; the set is then
    /// unchanged.
    ///
    /// ```
    /// let v4 = vec![in rt.alloc(); "192.0.2.0/24".parse::<Ipv4Network>()?]?;
    /// let mut set = IpAddressSet::from_lists(v4, vec![in rt.alloc(); "::1/128".parse::<Ipv6Network>()?]?);
    /// assert!(rt; set.remove("192.0.2.0/25".parse()?)?);
    /// assert!(rt; !set.remove("2001:db8::/32".parse()?)?);
    /// assert!(rt; set.iter().eq(["192.0.2.128/25".parse()?, "::1/128".parse()?]));
    /// ```
    pub fn remove(&mut self, network: IpNetwork) -> Result<bool, AllocError>
        ensures { ChangesTo (InIpFirstAlone self.old (network ∷ []))
            (MeetsIpUnion network self.old) self.old self.new result }
    {
        match network {
            IpNetwork::V4(network) => self.v4.remove(network),
            IpNetwork::V6(network) => self.v6.remove(network),
        }
    }

    /// Whether the set has no addresses.
    ///
    /// ```
    /// assert!(rt; IpAddressSet::from_lists(Vec::new(rt.alloc()), Vec::new(rt.alloc())).is_empty());
    /// ```
    pub fn is_empty(&self) -> bool
        ensures { IsTrue result ↔ (self.now ≡ []) }
    {
        self.v4().is_empty() && self.v6().is_empty()
    }

    /// Whether the address is in the set. Takes one binary search over the blocks of its family.
    ///
    /// ```
    /// let v4 = vec![in rt.alloc(); "192.0.2.0/24".parse::<Ipv4Network>()?]?;
    /// let set = IpAddressSet::from_lists(v4, Vec::new(rt.alloc()));
    /// assert!(rt; set.contains("192.0.2.9".parse()?));
    /// assert!(rt; !set.contains("::ffff:192.0.2.9".parse()?));
    /// ```
    pub fn contains(&self, addr: IpAddr) -> bool
        ensures { IsTrue result ↔ InIpUnion self.now addr }
    {
        match addr {
            IpAddr::V4(addr) => self.v4().contains(addr),
            IpAddr::V6(addr) => self.v6().contains(addr),
        }
    }

    /// Whether each address of the network is in the set. Host bits are ignored. Takes one binary
    /// search over the blocks of its family.
    ///
    /// ```
    /// let v6 = vec![in rt.alloc(); "2001:db8::/33".parse::<Ipv6Network>()?]?;
    /// let set = IpAddressSet::from_lists(Vec::new(rt.alloc()), v6);
    /// assert!(rt; set.covers("2001:db8:7fff::/48".parse()?));
    /// assert!(rt; !set.covers("2001:db8::/32".parse()?));
    /// ```
    pub fn covers(&self, network: IpNetwork) -> bool
        ensures { IsTrue result ↔ LiesInIpUnion network self.now }
    {
        match network {
            IpNetwork::V4(network) => self.v4().covers(network),
            IpNetwork::V6(network) => self.v6().covers(network),
        }
    }

    /// Whether some address of the network is in the set. Host bits are ignored. Takes one binary
    /// search over the blocks of its family.
    ///
    /// ```
    /// let v4 = vec![in rt.alloc(); "192.0.2.0/25".parse::<Ipv4Network>()?]?;
    /// let set = IpAddressSet::from_lists(v4, Vec::new(rt.alloc()));
    /// assert!(rt; set.overlaps("192.0.2.0/24".parse()?));
    /// assert!(rt; !set.overlaps("::/0".parse()?));
    /// ```
    pub fn overlaps(&self, network: IpNetwork) -> bool
        ensures { IsTrue result ↔ MeetsIpUnion network self.now }
    {
        match network {
            IpNetwork::V4(network) => self.v4().overlaps(network),
            IpNetwork::V6(network) => self.v6().overlaps(network),
        }
    }
}

// Appends the network to the list of its family.
fn push_network(
    v4: &mut Vec<Ipv4Network>,
    v6: &mut Vec<Ipv6Network>,
    network: IpNetwork,
) -> Result<(), AllocError>
    ensures v4 { OnOk result (v4.new.items ≡ v4.old.items ++ filter_map as_v4 (network ∷ [])) }
    ensures v6 { OnOk result (v6.new.items ≡ v6.old.items ++ filter_map as_v6 (network ∷ [])) }
    ensures v4_capacity { vec_capacity v4.old ≤ vec_capacity v4.new }
    ensures v6_capacity { vec_capacity v6.old ≤ vec_capacity v6.new }
    ensures room { OnErr result
        ((vec_capacity v4.old < vec_len v4.old + length (filter_map as_v4 (network ∷ [])))
        ⊎ (vec_capacity v6.old < vec_len v6.old + length (filter_map as_v6 (network ∷ [])))) }
{
    match network {
        IpNetwork::V4(network) => v4.push(network)?,
        IpNetwork::V6(network) => v6.push(network)?,
    }
    Ok(())
}
