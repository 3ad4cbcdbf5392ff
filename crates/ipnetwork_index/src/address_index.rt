//! The index of a set of addresses.
ghost use Rattle.std.specs.Prelude.{◌≡◌, ◌↔◌, IfOk, IsTrue, length, map};
ghost use Rattle.ipnetwork_blocks.specs.Aggregate.{InUnion, IsAggregate};
ghost use Rattle.ipnetwork_index.specs.Columns.{AreTold};
ghost use Rattle.ipnetwork_index.specs.Turns.{CutInto};

use crate::cuts::{closed, cuts_of};
use crate::indexed_network::IndexedNetwork;
use crate::partition::Partition;
use crate::starts::part_bits;
use ipnetwork_sets::AddressSet;
use std::alloc::{AllocError, Global};
use std::marker::Model;

/// A set of addresses of one family that is searched for addresses and does not change.
///
/// ```
/// let networks = ["10.0.0.0/8".parse::<Ipv4Network>()?, "192.0.2.0/24".parse()?];
/// let set = AddressSet::from_networks(Vec::from_array(rt.alloc(), networks)?);
/// let index = AddressIndex::from_set(rt.alloc(), &set)?;
/// assert!(rt; index.contains(Ipv4Addr::new(10, 1, 2, 3)));
/// assert!(rt; !index.contains(Ipv4Addr::new(192, 0, 3, 0)));
/// ```
#[derive(Drop)]
pub struct AddressIndex<N: IndexedNetwork> {
    // The addresses, cut where the set begins or ends.
    partition: Partition<N>,
    // Whether the first range is in the set. Of two neighbours, exactly one is.
    first_is_in: bool,
}

// A contract sees an index as the list of the blocks of the set.
impl<N: IndexedNetwork> Model for AddressIndex<N> {
    ghost use Rattle.std.specs.Prelude.{List};
    ghost use Rattle.ipnetwork_family.specs.Network.{Network};
    ghost use Rattle.ipnetwork_sets.specs.Private.LeastBlocks.{least_blocks};
    ghost use Rattle.ipnetwork_index.specs.Private.Partitions.{IsPartition, is_inside};

    ghost Value = { List Network };

    ghost view = { λ i. least_blocks N.WIDTH (is_inside i.first_is_in i.partition) };

    ghost invariant = { λ i. IsPartition N.WIDTH i.partition };
}

impl<N: IndexedNetwork> AddressIndex<N> {
    /// The index of a set. Goes over its blocks once. `AllocError` when out of memory.
    ///
    /// ```
    /// let networks = vec![in rt.alloc(); "2001:db8::/32".parse::<Ipv6Network>()?]?;
    /// let set = AddressSet::from_networks(networks);
    /// let index = AddressIndex::from_set(rt.alloc(), &set)?;
    /// assert!(rt; index.contains("2001:db8::1".parse()?));
    /// ```
    pub fn from_set(alloc: Global, set: &AddressSet<N>) -> Result<Self, AllocError>
        ensures { IfOk result (λ index. index ≡ set.now) }
    {
        // The clause `set` of this call says that these are the blocks of a set.
        let _ = set.blocks();
        let cuts = cuts_of(alloc, set)?;
        let first_is_in = set.contains(N::whole().network());
        let lasts = closed::<N>(cuts)?;
        let bits = part_bits(lasts.len());
        let partition = Partition::new(alloc, lasts.as_slice(), bits)?;
        Ok(AddressIndex {
            partition,
            first_is_in,
        })
    }

    /// The index of the addresses of networks, which may have host bits and be in any order. Sorts
    /// them in place. `AllocError` when out of memory.
    ///
    /// ```
    /// let networks = vec![in rt.alloc(); "192.0.2.9/25".parse::<Ipv4Network>()?]?;
    /// let index = AddressIndex::from_networks(rt.alloc(), networks)?;
    /// assert!(rt; index.contains(Ipv4Addr::new(192, 0, 2, 127)));
    /// ```
    pub fn from_networks(alloc: Global, networks: Vec<N>) -> Result<Self, AllocError>
        ensures { IfOk result (λ index. IsAggregate N.WIDTH (map N.pair networks.items) index) }
    {
        let set = AddressSet::from_networks(networks);
        let index = AddressIndex::from_set(alloc, &set)?;
        Ok(index)
    }

    /// Whether the address is in the set. Takes a few reads if the blocks are spread out, and
    /// otherwise about as many as a binary search.
    ///
    /// ```
    /// let networks = vec![in rt.alloc(); "192.0.2.0/25".parse::<Ipv4Network>()?]?;
    /// let set = AddressSet::from_networks(networks);
    /// let index = AddressIndex::from_set(rt.alloc(), &set)?;
    /// assert!(rt; index.contains(Ipv4Addr::new(192, 0, 2, 127)));
    /// assert!(rt; !index.contains(Ipv4Addr::new(192, 0, 2, 128)));
    /// ```
    pub fn contains(&self, addr: N::Addr) -> bool
        ensures { IsTrue result ↔ InUnion N.WIDTH self.now (N.number addr) }
    {
        let odd = self.partition.place_of(N::number_of(addr)) % 2 == 1;
        odd != self.first_is_in
    }

    /// Writes whether each address is in the set to the same place in `answers`. There must be as
    /// many answers as addresses.
    ///
    /// ```
    /// let networks = vec![in rt.alloc(); "192.0.2.0/25".parse::<Ipv4Network>()?]?;
    /// let set = AddressSet::from_networks(networks);
    /// let index = AddressIndex::from_set(rt.alloc(), &set)?;
    /// let mut answers = [false, true];
    /// let addrs = [Ipv4Addr::new(192, 0, 2, 127), Ipv4Addr::new(192, 0, 2, 128)];
    /// index.contains_each(&addrs, &mut answers);
    /// assert_eq!(rt; answers, [true, false]);
    /// ```
    pub fn contains_each(&self, addrs: &[N::Addr], answers: &mut [bool])
        requires { length answers.old ≡ length addrs.now }
        ensures { AreTold N.WIDTH self.now (map N.number addrs.now) answers.new }
    {
        for place in 0..addrs.len() {
            answers[place] = self.contains(addrs[place]);
        }
    }

    /// The number of ranges that the set cuts the addresses into: each lies entirely inside or
    /// entirely outside the set. There are at most one more than twice as many ranges as blocks. The
    /// index has the last number of each range, of 4 bytes for IPv4 and 16 for IPv6, for IPv6
    /// possibly its high half again, of 8, and places of 4 bytes: two to four for each range, or one
    /// to two from 2^14 ranges on (`part_bits`), but no more than 2^20.
    ///
    /// ```
    /// let networks = vec![in rt.alloc(); "192.0.2.0/25".parse::<Ipv4Network>()?]?;
    /// let set = AddressSet::from_networks(networks);
    /// assert_eq!(rt; AddressIndex::from_set(rt.alloc(), &set)?.range_count(), 3);
    /// ```
    pub fn range_count(&self) -> usize
        ensures { CutInto N.WIDTH (InUnion N.WIDTH self.now) result }
    {
        self.partition.len()
    }
}
