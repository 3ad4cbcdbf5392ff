//! The index of a table.
ghost use Rattle.std.specs.Prelude.{◌≡◌, IfOk, length, map};
ghost use Rattle.ipnetwork_table.specs.Table.{HasOnlyBlocks, Finds, by_pair};
ghost use Rattle.ipnetwork_index.specs.Columns.{AreFound};
ghost use Rattle.ipnetwork_index.specs.Entries.{HasLastValues};
ghost use Rattle.ipnetwork_index.specs.Turns.{CutByBlocks};

use crate::answers::entries_of;
use crate::entries::table_of;
use crate::indexed_network::IndexedNetwork;
use crate::ranges::Ranges;
use ipnetwork_table::PrefixTable;
use std::alloc::{AllocError, Global};
use std::marker::Model;

/// A table that is searched for the longest block of addresses and does not change: the index takes
/// it over, and `into_table` returns it. The results are copied, so a look-up does not read the
/// table.
///
/// ```
/// let mut table = PrefixTable::new(rt.alloc());
/// table.insert("10.0.0.0/8".parse::<Ipv4Network>()?, 2)?;
/// table.insert("10.1.0.0/16".parse()?, 3)?;
/// let index = RouteIndex::from_table(rt.alloc(), table)?;
/// assert_eq!(rt; index.lookup(Ipv4Addr::new(10, 1, 9, 32)), Some(("10.1.0.0/16".parse()?, 3)));
/// ```
#[derive(Drop)]
pub struct RouteIndex<N: IndexedNetwork, V: Copy> {
    table: PrefixTable<N, V>,
    ranges: Ranges<N, V>,
}

// A contract sees the finite map of the table.
impl<N: IndexedNetwork, V: Copy> Model for RouteIndex<N, V> {
    ghost use Rattle.std.specs.FinMap as finite_map;
    ghost use Rattle.ipnetwork_family.specs.Network.{network_cmp};
    ghost use Rattle.ipnetwork_table.specs.Table.{network_code};
    ghost use Rattle.ipnetwork_index.specs.Private.Ranges.{IsIndexed};

    ghost Value = { finite_map.FinMap network_cmp V };

    ghost coded = { finite_map.code network_code V.code };

    ghost view = { λ i. i.table };

    ghost invariant = { λ i. IsIndexed N.WIDTH i.table i.ranges.places.partition
        i.ranges.places.halves i.ranges.answers };
}

impl<N: IndexedNetwork, V: Copy> RouteIndex<N, V> {
    /// The index of a table. Sorts the places where its blocks begin and end, and goes over the
    /// blocks and the ranges between them in order. At most one block of each prefix length is open
    /// at once, so the open blocks need no allocation. If memory runs out, the result is
    /// `AllocError` and the table is dropped.
    ///
    /// ```
    /// let mut table = PrefixTable::new(rt.alloc());
    /// table.insert("2001:db8::/32".parse::<Ipv6Network>()?, 2)?;
    /// let index = RouteIndex::from_table(rt.alloc(), table)?;
    /// assert_eq!(rt; index.lookup("2001:db9::".parse()?), None);
    /// ```
    pub fn from_table(alloc: Global, table: PrefixTable<N, V>) -> Result<Self, AllocError>
        ensures { IfOk result (λ index. index ≡ table) }
    {
        let entries = entries_of(alloc, &table)?;
        let ranges = Ranges::of(alloc, entries.as_slice())?;
        Ok(RouteIndex { table, ranges })
    }

    /// The index of networks with values, which may have host bits and be in any order: that of a
    /// table of their blocks. Of several with the same block, the last one counts. `AllocError`
    /// when out of memory.
    ///
    /// ```
    /// let entries = [("10.0.0.0/8".parse::<Ipv4Network>()?, 2), ("10.1.9.32/16".parse()?, 3)];
    /// let index = RouteIndex::from_entries(rt.alloc(), &entries)?;
    /// assert_eq!(rt; index.lookup(Ipv4Addr::new(10, 1, 2, 3)), Some(("10.1.0.0/16".parse()?, 3)));
    /// ```
    pub fn from_entries(alloc: Global, entries: &[(N, V)]) -> Result<Self, AllocError>
        ensures { IfOk result
            (λ index. HasLastValues N.WIDTH (by_pair N.pair entries.now) index) }
    {
        let table = table_of(alloc, entries)?;
        let index = RouteIndex::from_table(alloc, table)?;
        Ok(index)
    }

    /// The stored block with the greatest prefix length that holds the address, and its value;
    /// `None` if no stored block holds the address. Takes a few reads if the blocks are spread out,
    /// and otherwise about as many as a binary search.
    ///
    /// ```
    /// let mut table = PrefixTable::new(rt.alloc());
    /// table.insert("10.0.0.0/8".parse::<Ipv4Network>()?, 2)?;
    /// let index = RouteIndex::from_table(rt.alloc(), table)?;
    /// assert_eq!(rt; index.lookup(Ipv4Addr::new(10, 1, 9, 32)), Some(("10.0.0.0/8".parse()?, 2)));
    /// assert_eq!(rt; index.lookup(Ipv4Addr::new(11, 0, 0, 0)), None);
    /// ```
    pub fn lookup(&self, addr: N::Addr) -> Option<(N, V)>
        ensures answer { Finds N.pair N.WIDTH self.now (N.number addr) result }
        ensures blocks { HasOnlyBlocks N.WIDTH self.now }
    {
        self.ranges.lookup(addr)
    }

    /// Writes what a look-up of each address finds to the same place in `answers`. There must be as
    /// many answers as addresses.
    ///
    /// ```
    /// let mut table = PrefixTable::new(rt.alloc());
    /// table.insert("10.0.0.0/8".parse::<Ipv4Network>()?, 2)?;
    /// let index = RouteIndex::from_table(rt.alloc(), table)?;
    /// let mut answers = [None, None];
    /// let addrs = [Ipv4Addr::new(10, 1, 9, 32), Ipv4Addr::new(11, 0, 0, 0)];
    /// index.lookup_each(&addrs, &mut answers);
    /// assert_eq!(rt; answers, [Some(("10.0.0.0/8".parse()?, 2)), None]);
    /// ```
    pub fn lookup_each(&self, addrs: &[N::Addr], answers: &mut [Option<(N, V)>])
        requires { length answers.old ≡ length addrs.now }
        ensures { AreFound N.pair N.WIDTH self.now (map N.number addrs.now) answers.new }
    {
        for place in 0..addrs.len() {
            answers[place] = self.lookup(addrs[place]);
        }
    }

    /// The table, for what an index cannot be asked.
    ///
    /// ```
    /// let mut table = PrefixTable::new(rt.alloc());
    /// table.insert("10.0.0.0/8".parse::<Ipv4Network>()?, 2)?;
    /// let index = RouteIndex::from_table(rt.alloc(), table)?;
    /// assert_eq!(rt; index.table().len(), 1);
    /// ```
    pub fn table(&self) -> &PrefixTable<N, V>
        ensures { result.now ≡ self.now }
    {
        &self.table
    }

    /// Returns the table, so that it can be changed. The rest of the index is dropped.
    ///
    /// ```
    /// let table = PrefixTable::<Ipv4Network, u8>::new(rt.alloc());
    /// let index = RouteIndex::from_table(rt.alloc(), table)?;
    /// assert!(rt; index.into_table().is_empty());
    /// ```
    pub fn into_table(self) -> PrefixTable<N, V>
        ensures { result ≡ self }
    {
        self.table
    }

    /// The number of ranges that the table's blocks cut the addresses into: a look-up finds the
    /// same for all addresses of a range. There are at most one more than twice as many ranges as
    /// blocks. In addition to the last numbers of the ranges, as in an `AddressIndex`, the index
    /// has the table, and a byte and a value for each range. It has two to four places of 4 bytes
    /// for each range, or at most one from 2^16 ranges on, but no more than 2^20. From 2^16 IPv4
    /// ranges on, if all but a 32nd of them extend over a fourth of the addresses, it has 2 bytes
    /// instead of 4 for each range, and one place for one or more ranges, on average for fewer than
    /// eight unless there are 2^23 or more, but no more than 2^20 + 1 places. From 2^19 such ranges
    /// on, it also has 2^19 words of 8 bytes.
    ///
    /// ```
    /// let mut table = PrefixTable::new(rt.alloc());
    /// table.insert("10.0.0.0/8".parse::<Ipv4Network>()?, 2)?;
    /// assert_eq!(rt; RouteIndex::from_table(rt.alloc(), table)?.range_count(), 3);
    /// ```
    pub fn range_count(&self) -> usize
        ensures { CutByBlocks N.WIDTH self.now result }
    {
        self.ranges.len()
    }
}
