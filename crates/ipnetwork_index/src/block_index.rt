//! The index of the blocks of a list.
ghost use Rattle.std.specs.Prelude.{IfOk, map};
ghost use Rattle.ipnetwork_table.specs.Table.{HasOnlyBlocks, Finds};
ghost use Rattle.ipnetwork_index.specs.Entries.{HasBlocksOf, HasValue};

use crate::indexed_network::IndexedNetwork;
use crate::listing::entries_of_list;
use crate::ranges::Ranges;
use ipnetwork_table::laws;
use std::alloc::{AllocError, Global};
use std::marker::Model;

/// The blocks of a list of networks, which is searched for the longest block of addresses and does
/// not change: a `RouteIndex` that is made without a table.
///
/// ```
/// let networks = ["10.1.9.32/16".parse::<Ipv4Network>()?, "10.0.0.0/8".parse()?];
/// let index = BlockIndex::from_networks(rt.alloc(), &networks, 2)?;
/// assert_eq!(rt; index.lookup(Ipv4Addr::new(10, 1, 9, 32)), Some(("10.1.0.0/16".parse()?, 2)));
/// ```
#[derive(Drop)]
pub struct BlockIndex<N: IndexedNetwork, V: Copy> {
    // The blocks in order, each once.
    entries: Vec<(N, V)>,
    ranges: Ranges<N, V>,
}

// A contract sees the finite map from the blocks to values.
impl<N: IndexedNetwork, V: Copy> Model for BlockIndex<N, V> {
    ghost use Rattle.std.specs.FinMap as finite_map;
    ghost use Rattle.ipnetwork_family.specs.Network.{network_cmp};
    ghost use Rattle.ipnetwork_table.specs.Table.{network_code};
    ghost use Rattle.ipnetwork_index.specs.Private.Ranges.{IsIndexed, table_with};

    ghost Value = { finite_map.FinMap network_cmp V };

    ghost coded = { finite_map.code network_code V.code };

    ghost view = { λ i. table_with N.pair i.entries.items };

    ghost invariant = { λ i. IsIndexed N.WIDTH (table_with N.pair i.entries.items)
        i.ranges.places.partition i.ranges.places.halves i.ranges.answers };
}

impl<N: IndexedNetwork, V: Copy> BlockIndex<N, V> {
    /// The index of the blocks of networks, which may have host bits and be in any order; each
    /// block gets this value. Sorts the blocks, and where they begin and end. `AllocError` when out
    /// of memory.
    ///
    /// ```
    /// let networks = ["2001:db8::1/32".parse::<Ipv6Network>()?];
    /// let index = BlockIndex::from_networks(rt.alloc(), &networks, ())?;
    /// assert_eq!(rt; index.lookup("2001:db9::".parse()?), None);
    /// ```
    pub fn from_networks(alloc: Global, networks: &[N], value: V) -> Result<Self, AllocError>
        ensures blocks { IfOk result
            (λ index. HasBlocksOf N.WIDTH (map N.pair networks.now) index) }
        ensures value { IfOk result (λ index. HasValue value index) }
    {
        laws::listing::<V>();
        let entries = entries_of_list(alloc, networks, value)?;
        let ranges = Ranges::of(alloc, entries.as_slice())?;
        Ok(BlockIndex { entries, ranges })
    }

    /// The block with the greatest prefix length that holds the address, and the value; `None` if
    /// no block holds the address.
    ///
    /// ```
    /// let networks = ["10.0.0.0/8".parse::<Ipv4Network>()?];
    /// let index = BlockIndex::from_networks(rt.alloc(), &networks, 2)?;
    /// assert_eq!(rt; index.lookup(Ipv4Addr::new(10, 1, 9, 32)), Some(("10.0.0.0/8".parse()?, 2)));
    /// assert_eq!(rt; index.lookup(Ipv4Addr::new(11, 0, 0, 0)), None);
    /// ```
    pub fn lookup(&self, addr: N::Addr) -> Option<(N, V)>
        ensures answer { Finds N.pair N.WIDTH self.now (N.number addr) result }
        ensures blocks { HasOnlyBlocks N.WIDTH self.now }
    {
        self.ranges.lookup(addr)
    }
}
