//! The type of a set of addresses.
ghost use Rattle.std.specs.Prelude.{◌≡◌, ◌↔◌, ◌<◌, ◌++◌, ◌∷◌, [], IsTrue, IfOk, OnOk, OnErr, MatchResult, List, length, map};
ghost use Rattle.ipnetwork_family.specs.Network.{Network};
ghost use Rattle.ipnetwork_blocks.specs.Aggregate.{InUnion, LiesInUnion, IsAggregate};
ghost use Rattle.ipnetwork_blocks.specs.LeastList.{IsLeastList};
ghost use Rattle.ipnetwork_sets.specs.Sets.{IsAddressSet, MeetsUnion, InEither, InFirstAlone};

use crate::check::is_address_set;
use crate::{changes, search};
use ipnetwork_blocks::{AddressSpace, aggregate_vec, laws};
use std::alloc::AllocError;
use std::marker::Model;

/// A set of addresses of one family: the maximal blocks of the set, in ascending order. Each set
/// has one such list, and no list of networks with the same addresses is shorter.
///
/// ```
/// let networks = vec![in rt.alloc(); "2001:db8:8000::/33".parse::<Ipv6Network>()?, "2001:db8::/33".parse()?]?;
/// let set = AddressSet::from_networks(networks);
/// assert_eq!(rt; set.blocks(), ["2001:db8::/32".parse()?].as_slice());
/// ```
#[derive(Debug, Drop)]
pub struct AddressSet<N: AddressSpace> {
    blocks: Vec<N>,
}

// A contract sees a set as the list of its blocks.
impl<N: AddressSpace> Model for AddressSet<N> {
    ghost use Rattle.std.specs.Prelude.{List, map};
    ghost use Rattle.ipnetwork_family.specs.Network.{Network};
    ghost use Rattle.ipnetwork_sets.specs.Sets.{IsAddressSet};

    ghost Value = { List Network };

    ghost view = { λ s. map N.pair s.blocks.items };

    ghost invariant = { λ s. IsAddressSet N.WIDTH (map N.pair s.blocks.items) };
}

impl<N: AddressSpace> AddressSet<N> {
    /// The set of the addresses of the networks, which may have host bits and be in any order.
    ///
    /// Sorts the networks in place and goes over them once. `into_blocks` returns the list.
    ///
    /// ```
    /// let networks = vec![in rt.alloc(); "192.0.2.0/25".parse::<Ipv4Network>()?, "192.0.2.128/25".parse()?]?;
    /// let set = AddressSet::from_networks(networks);
    /// assert_eq!(rt; set.blocks()[0].canonical().as_str(), "192.0.2.0/24");
    /// ```
    pub fn from_networks(mut networks: Vec<N>) -> Self
        ensures { IsAggregate N.WIDTH (map N.pair networks.items) result }
    {
        laws::same_union();
        aggregate_vec(&mut networks);
        AddressSet { blocks: networks }
    }

    /// The set with these blocks, if they are maximal in it, have no host bits and are in ascending
    /// order. If not, the list is returned as the error; `from_networks` accepts any list.
    ///
    /// Goes over the list once. `into_blocks` returns it.
    ///
    /// ```
    /// let halves = vec![in rt.alloc(); "192.0.2.0/25".parse::<Ipv4Network>()?, "192.0.2.128/25".parse()?]?;
    /// assert!(rt; AddressSet::from_blocks(halves).is_err());
    /// ```
    pub fn from_blocks(blocks: Vec<N>) -> Result<Self, Vec<N>>
        ensures { MatchResult result
            (λ set. IsAddressSet N.WIDTH (map N.pair blocks.items)
            × (set ≡ map N.pair blocks.items))
            (λ back. ¬ (IsAddressSet N.WIDTH (map N.pair blocks.items)) × (back ≡ blocks)) }
    {
        if is_address_set::<N, N>(blocks.as_slice()) {
            Ok(AddressSet { blocks })
        } else {
            Err(blocks)
        }
    }

    // The set with these blocks.
    pub(crate) fn of_blocks(blocks: Vec<N>) -> Self
        requires { IsAddressSet N.WIDTH (map N.pair blocks.items) }
        ensures { result ≡ map N.pair blocks.items }
    {
        AddressSet { blocks }
    }

    /// The blocks, in ascending order.
    ///
    /// ```
    /// let networks = vec![in rt.alloc(); "192.0.2.0/25".parse::<Ipv4Network>()?, "192.0.2.128/25".parse()?]?;
    /// let set = AddressSet::from_networks(networks);
    /// assert_eq!(rt; set.blocks().len(), 1);
    /// ```
    pub fn blocks(&self) -> &[N]
        ensures blocks { map N.pair result.now ≡ self.now }
        ensures set { IsAddressSet N.WIDTH self.now }
    {
        self.blocks.as_slice()
    }

    /// The set's own list of blocks, in ascending order. It can serve as the memory for another
    /// set, such as a union.
    ///
    /// ```
    /// let halves = ["192.0.2.0/25".parse::<Ipv4Network>()?, "192.0.2.128/25".parse()?];
    /// let networks = Vec::from_array(rt.alloc(), halves)?;
    /// let blocks = AddressSet::from_networks(networks).into_blocks();
    /// assert_eq!(rt; blocks.as_slice(), ["192.0.2.0/24".parse()?].as_slice());
    /// ```
    pub fn into_blocks(self) -> Vec<N>
        ensures blocks { map N.pair result.items ≡ self }
        ensures set { IsAddressSet N.WIDTH self }
    {
        let AddressSet { blocks } = self;
        blocks
    }

    /// Adds the addresses of the network to the set, in place, and returns whether any of them is
    /// new. Host bits are ignored. One block replaces the blocks within the network and those that
    /// form a larger block with it, so the list grows by at most one block. `AllocError` means that
    /// it had to grow and memory ran out; the set is then unchanged.
    ///
    /// Takes a few binary searches, at most one step for each bit of the prefix length, and one
    /// move of the blocks after the network. So 400,000 single calls, for networks in no order, take
    /// 15 seconds, and `insert_all` 0.05.
    ///
    /// ```
    /// let mut set = AddressSet::from_networks(vec![in rt.alloc(); "192.0.2.0/25".parse::<Ipv4Network>()?]?);
    /// assert!(rt; set.insert("192.0.2.128/25".parse()?)?);
    /// assert_eq!(rt; set.blocks(), ["192.0.2.0/24".parse()?].as_slice());
    /// assert!(rt; !set.insert("192.0.2.64/26".parse()?)?);
    /// ```
    pub fn insert(&mut self, network: N) -> Result<bool, AllocError>
        ensures set { OnOk result (IsLeastList N.WIDTH
            (InEither N.WIDTH self.old (N.pair network ∷ [])) self.new) }
        ensures added { IfOk result
            (λ added. IsTrue added ↔ ¬ (LiesInUnion N.WIDTH (N.pair network) self.old)) }
        ensures room { (blocks : List Network)
            → IsLeastList N.WIDTH (InEither N.WIDTH self.old (N.pair network ∷ [])) blocks
            → OnErr result (length self.old < length blocks) }
        ensures unchanged { OnErr result (self.new ≡ self.old) }
        ensures blocks { IsAddressSet N.WIDTH self.new }
    {
        changes::insert(&mut self.blocks, network)
    }

    /// Adds the addresses of all the networks to the set, in place. Host bits are ignored.
    /// `AllocError` means that the list had to grow and memory ran out; the set is then unchanged.
    ///
    /// Appends the networks to the list, sorts it and goes over it once.
    ///
    /// ```
    /// let mut set = AddressSet::from_networks(vec![in rt.alloc(); "192.0.2.0/25".parse::<Ipv4Network>()?]?);
    /// set.insert_all(&["192.0.3.0/24".parse()?, "192.0.2.128/25".parse()?])?;
    /// assert_eq!(rt; set.blocks(), ["192.0.2.0/23".parse()?].as_slice());
    /// ```
    pub fn insert_all(&mut self, networks: &[N]) -> Result<(), AllocError>
        ensures set { OnOk result
            (IsAggregate N.WIDTH (self.old ++ map N.pair networks.now) self.new) }
        ensures room { OnErr result (0 < length networks.now) }
        ensures unchanged { OnErr result (self.new ≡ self.old) }
        ensures blocks { IsAddressSet N.WIDTH self.new }
    {
        changes::insert_all(&mut self.blocks, networks)
    }

    /// Removes the addresses of the network from the set, in place, and returns whether any of them
    /// was in it. Host bits are ignored. A block that has other addresses too is split into one
    /// block for each bit by which its prefix length is shorter than the network's: at most
    /// `WIDTH`. `AllocError` means that the list had to grow and memory ran out; the set is then
    /// unchanged.
    ///
    /// Takes a few binary searches, one step for each block of a split, and one move of the blocks
    /// after the network.
    ///
    /// ```
    /// let mut set = AddressSet::from_networks(vec![in rt.alloc(); "192.0.2.0/24".parse::<Ipv4Network>()?]?);
    /// assert!(rt; set.remove("192.0.2.64/26".parse()?)?);
    /// assert_eq!(rt; set.blocks(), ["192.0.2.0/26".parse()?, "192.0.2.128/25".parse()?].as_slice());
    /// assert!(rt; !set.remove("192.0.2.64/27".parse()?)?);
    /// ```
    pub fn remove(&mut self, network: N) -> Result<bool, AllocError>
        ensures set { OnOk result (IsLeastList N.WIDTH
            (InFirstAlone N.WIDTH self.old (N.pair network ∷ [])) self.new) }
        ensures removed { IfOk result
            (λ removed. IsTrue removed ↔ MeetsUnion N.WIDTH (N.pair network) self.old) }
        ensures room { (blocks : List Network)
            → IsLeastList N.WIDTH (InFirstAlone N.WIDTH self.old (N.pair network ∷ [])) blocks
            → OnErr result (length self.old < length blocks) }
        ensures unchanged { OnErr result (self.new ≡ self.old) }
        ensures blocks { IsAddressSet N.WIDTH self.new }
    {
        changes::remove(&mut self.blocks, network)
    }

    /// Whether the set has no addresses.
    ///
    /// ```
    /// let set = AddressSet::<Ipv4Network>::from_networks(Vec::new(rt.alloc()));
    /// assert!(rt; set.is_empty());
    /// ```
    pub fn is_empty(&self) -> bool
        ensures { IsTrue result ↔ (self.now ≡ []) }
    {
        self.blocks.is_empty()
    }

    /// Whether the address is in the set. Takes one binary search over the blocks.
    ///
    /// ```
    /// let set = AddressSet::from_networks(vec![in rt.alloc(); "192.0.2.0/25".parse::<Ipv4Network>()?]?);
    /// assert!(rt; set.contains(Ipv4Addr::new(192, 0, 2, 127)));
    /// assert!(rt; !set.contains(Ipv4Addr::new(192, 0, 2, 128)));
    /// ```
    pub fn contains(&self, addr: N::Addr) -> bool
        ensures { IsTrue result ↔ InUnion N.WIDTH self.now (N.number addr) }
    {
        search::contains(self.blocks.as_slice(), addr)
    }

    /// Whether each address of the network is in the set. Host bits are ignored. Takes one binary
    /// search over the blocks.
    ///
    /// ```
    /// let set = AddressSet::from_networks(vec![in rt.alloc(); "192.0.2.0/25".parse::<Ipv4Network>()?]?);
    /// assert!(rt; set.covers("192.0.2.64/26".parse()?));
    /// assert!(rt; !set.covers("192.0.2.0/24".parse()?));
    /// ```
    pub fn covers(&self, network: N) -> bool
        ensures { IsTrue result ↔ LiesInUnion N.WIDTH (N.pair network) self.now }
    {
        search::covers(self.blocks.as_slice(), network)
    }

    /// Whether some address of the network is in the set. Host bits are ignored. Takes one binary
    /// search over the blocks.
    ///
    /// ```
    /// let set = AddressSet::from_networks(vec![in rt.alloc(); "192.0.2.0/25".parse::<Ipv4Network>()?]?);
    /// assert!(rt; set.overlaps("192.0.2.0/24".parse()?));
    /// assert!(rt; !set.overlaps("192.0.2.128/25".parse()?));
    /// ```
    pub fn overlaps(&self, network: N) -> bool
        ensures { IsTrue result ↔ MeetsUnion N.WIDTH (N.pair network) self.now }
    {
        search::overlaps(self.blocks.as_slice(), network)
    }
}
