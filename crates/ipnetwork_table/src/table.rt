//! A table of values by block.
ghost use Rattle.std.specs.Prelude.{◌≡◌, ◌+◌, ◌≤◌, OnOk, OnErr, IfOk, None, MatchOption, ◌↔◌, IsTrue, IsSome};
ghost use Rattle.std.specs.FinMap as map;
ghost use Rattle.ipnetwork_family.specs.Network.{HostBitsAreZero, block_of};
ghost use Rattle.ipnetwork_table.specs.Table.{HasOnlyBlocks, Finds, by_pair};

mod values;

use crate::counts::{count_one_less, count_one_more};
use crate::entries::Entries;
use crate::lookups::{longest_holding, longest_in_turn};
use ipnetwork_family::{CidrNetwork, laws};
use std::alloc::{AllocError, Global};
use std::fmt;
use std::fmt::{Debug, Formatter, Write};
use std::marker::Model;
pub(crate) use values::{Searches, Values};

/// Values by block, and look-ups of the longest block that holds an address (RFC 4632, section
/// 5.1). All networks of a table are of one family.
///
/// A network given as a key represents its block: its host bits are cleared. Only `insert`
/// allocates.
///
/// ```
/// let mut table = PrefixTable::new(rt.alloc());
/// table.insert("10.0.0.0/8".parse::<Ipv4Network>()?, 2)?;
/// table.insert("10.1.0.0/16".parse()?, 3)?;
/// assert_eq!(rt; table.lookup(Ipv4Addr::new(10, 1, 9, 32)), Some(("10.1.0.0/16".parse()?, 3)));
/// ```
#[derive(Drop)]
pub struct PrefixTable<N: CidrNetwork, V: Copy> {
    values: Values<N, V>,
    // `used[p]` is the number of stored blocks with prefix length p.
    used: [usize; 256],
}

// A contract sees the finite map from networks, as pairs of numbers, to values.
impl<N: CidrNetwork, V: Copy> Model for PrefixTable<N, V> {
    ghost use Rattle.std.specs.FinMap as map;
    ghost use Rattle.ipnetwork_family.specs.Network.{network_cmp};
    ghost use Rattle.ipnetwork_table.specs.Table.{network_code, HasOnlyBlocks};
    ghost use Rattle.ipnetwork_table.specs.Private.Lengths.{CountsLengths};

    ghost Value = { map.FinMap network_cmp V };

    ghost coded = { map.code network_code V.code };

    ghost view = { λ t. t.values };

    ghost invariant = { λ t. HasOnlyBlocks N.WIDTH t.values × CountsLengths t.values t.used };
}

// The block of a network.
fn key_of<N: CidrNetwork>(net: N) -> N
    ensures block { N.pair result ≡ block_of N.WIDTH (N.pair net) }
    ensures no_host_bits { HostBitsAreZero N.WIDTH (N.pair result) }
{
    laws::blocks();
    let Some(block) = N::block(net.ip(), net.prefix()) else {
        unreachable!()
    };
    block
}

// Ends a count of searches, of which there are no more than this.
fn end_within(searches: Searches, most: u32)
    requires { searches ≤ most }
{
    let _ = searches.end();
}

// From the clause `blocks`, a proof in another crate knows that each key is a network without host
// bits: it cannot see the private fields.
impl<N: CidrNetwork, V: Copy> PrefixTable<N, V> {
    /// The empty table.
    ///
    /// ```
    /// let table = PrefixTable::<Ipv4Network, u32>::new(rt.alloc());
    /// assert!(rt; table.is_empty());
    /// ```
    pub fn new(alloc: Global) -> Self
        ensures { result ≡ map.empty }
    {
        PrefixTable {
            values: Values::new(alloc),
            used: [0; 256],
        }
    }

    /// The number of blocks that have a value.
    ///
    /// ```
    /// let mut table = PrefixTable::new(rt.alloc());
    /// table.insert("10.0.0.0/8".parse::<Ipv4Network>()?, 2)?;
    /// assert_eq!(rt; table.len(), 1);
    /// ```
    pub fn len(&self) -> usize
        ensures count { result ≡ map.len self.now }
        ensures blocks { HasOnlyBlocks N.WIDTH self.now }
    {
        self.values.len()
    }

    /// Whether no block has a value.
    ///
    /// ```
    /// let mut table = PrefixTable::new(rt.alloc());
    /// table.insert("10.0.0.0/8".parse::<Ipv4Network>()?, 2)?;
    /// assert!(rt; !table.is_empty());
    /// ```
    pub fn is_empty(&self) -> bool
        ensures { IsTrue result ↔ (map.len self.now ≡ 0) }
    {
        self.len() == 0
    }

    /// The value of the block of `net`; `None` if the block has none.
    ///
    /// ```
    /// let mut table = PrefixTable::new(rt.alloc());
    /// table.insert("10.0.0.0/8".parse::<Ipv4Network>()?, 2)?;
    /// assert_eq!(rt; table.get("10.1.9.32/8".parse()?), Some(2));
    /// assert_eq!(rt; table.get("10.0.0.0/9".parse()?), None);
    /// ```
    pub fn get(&self, net: N) -> Option<V>
        ensures value { result ≡ map.get self.now (block_of N.WIDTH (N.pair net)) }
        ensures blocks { HasOnlyBlocks N.WIDTH self.now }
    {
        let mut searches = Searches::none();
        let value = self.values.probe(&mut searches, key_of(net));
        end_within(searches, 1);
        value
    }

    /// Whether the block of `net` has a value.
    ///
    /// ```
    /// let mut table = PrefixTable::new(rt.alloc());
    /// table.insert("10.0.0.0/8".parse::<Ipv4Network>()?, 2)?;
    /// assert!(rt; table.contains_key("10.1.9.32/8".parse()?));
    /// ```
    pub fn contains_key(&self, net: N) -> bool
        ensures { IsTrue result ↔ IsSome (map.get self.now (block_of N.WIDTH (N.pair net))) }
    {
        self.get(net).is_some()
    }

    /// The blocks and their values, in the order of networks: a block comes before the smaller ones
    /// that lie in it.
    ///
    /// ```
    /// let mut table = PrefixTable::new(rt.alloc());
    /// table.insert("10.0.0.0/8".parse::<Ipv4Network>()?, 2)?;
    /// assert_eq!(rt; table.iter().next(), Some(("10.0.0.0/8".parse()?, 2)));
    /// ```
    pub fn iter(&self) -> Entries<'_, N, V>
        ensures entries { by_pair N.pair result ≡ map.entries self.now }
        ensures blocks { HasOnlyBlocks N.WIDTH self.now }
    {
        self.values.entries()
    }

    /// Removes all blocks and frees the memory.
    ///
    /// ```
    /// let mut table = PrefixTable::new(rt.alloc());
    /// table.insert("10.0.0.0/8".parse::<Ipv4Network>()?, 2)?;
    /// table.clear();
    /// assert_eq!(rt; table.len(), 0);
    /// ```
    pub fn clear(&mut self)
        ensures { self.new ≡ map.empty }
    {
        self.values.clear();
        self.used = [0; 256];
    }

    /// Sets the value of the block of `net`, and returns the previous value, or `None` if it had
    /// none.
    ///
    /// Allocates only for a new block. If memory runs out, the result is an error and the table is unchanged.
    ///
    /// ```
    /// let mut table = PrefixTable::new(rt.alloc());
    /// table.insert("10.0.0.0/8".parse::<Ipv4Network>()?, 2)?;
    /// assert_eq!(rt; table.insert("10.1.9.32/8".parse()?, 7)?, Some(2));
    /// ```
    pub fn insert(&mut self, net: N, value: V) -> Result<Option<V>, AllocError>
        ensures old { IfOk result (λ old. old ≡ map.get self.old (block_of N.WIDTH (N.pair net))) }
        ensures set { OnOk result
            (self.new ≡ map.insert self.old (block_of N.WIDTH (N.pair net)) value) }
        ensures absent { OnErr result (map.get self.old (block_of N.WIDTH (N.pair net)) ≡ None) }
        ensures unchanged { OnErr result (self.new ≡ self.old) }
    {
        self.insert_block(key_of(net), value)
    }

    // Inserts the block. A new block is counted with those of its prefix length.
    fn insert_block(&mut self, block: N, value: V) -> Result<Option<V>, AllocError>
        requires { HostBitsAreZero N.WIDTH (N.pair block) }
        ensures old { IfOk result (λ old. old ≡ map.get self.old (N.pair block)) }
        ensures set { OnOk result (self.new ≡ map.insert self.old (N.pair block) value) }
        ensures absent { OnErr result (map.get self.old (N.pair block) ≡ None) }
        ensures unchanged { OnErr result (self.new ≡ self.old) }
    {
        let old = self.values.insert(block, value)?;
        if old.is_some() {
            return Ok(old);
        }
        let prefix = block.prefix();
        let has_room = self.used[prefix as usize] < self.values.len();
        prove!(has_room);
        count_one_more(&mut self.used, prefix);
        Ok(None)
    }

    /// Removes the block of `net`, and returns its value, or `None` if it had none.
    ///
    /// ```
    /// let mut table = PrefixTable::new(rt.alloc());
    /// table.insert("10.0.0.0/8".parse::<Ipv4Network>()?, 2)?;
    /// assert_eq!(rt; table.remove("10.1.9.32/8".parse()?), Some(2));
    /// assert_eq!(rt; table.remove("10.1.9.32/8".parse()?), None);
    /// ```
    pub fn remove(&mut self, net: N) -> Option<V>
        ensures old { result ≡ map.get self.old (block_of N.WIDTH (N.pair net)) }
        ensures removed { self.new ≡ map.remove self.old (block_of N.WIDTH (N.pair net)) }
    {
        self.remove_block(key_of(net))
    }

    fn remove_block(&mut self, block: N) -> Option<V>
        ensures old { result ≡ map.get self.old (N.pair block) }
        ensures removed { self.new ≡ map.remove self.old (N.pair block) }
    {
        let old = self.values.remove(block)?;
        count_one_less(&mut self.used, block.prefix());
        Some(old)
    }

    /// The stored block with the greatest prefix length that holds the address, and its value;
    /// `None` if no stored block holds the address.
    ///
    /// ```
    /// let mut table = PrefixTable::new(rt.alloc());
    /// table.insert("10.0.0.0/8".parse::<Ipv4Network>()?, 2)?;
    /// assert_eq!(rt; table.lookup(Ipv4Addr::new(10, 1, 9, 32)), Some(("10.0.0.0/8".parse()?, 2)));
    /// assert_eq!(rt; table.lookup(Ipv4Addr::new(11, 0, 0, 0)), None);
    /// ```
    pub fn lookup(&self, addr: N::Addr) -> Option<(N, V)>
        ensures answer { Finds N.pair N.WIDTH self.now (N.number addr) result }
        ensures blocks { HasOnlyBlocks N.WIDTH self.now }
    {
        let mut searches = Searches::none();
        let found = longest_holding(&self.values, &self.used, &mut searches, addr);
        end_within(searches, u32::from(N::WIDTH) + 1);
        found
    }

    /// What `lookup` returns, and the number of look-ups in the map needed to try the block of each
    /// prefix length in turn, from `WIDTH` down: `WIDTH + 1` minus the prefix length of the block
    /// that is found, or `WIDTH + 1` if none is found.
    ///
    /// This call is for tests and proofs: `lookup` finds the same in fewer steps.
    ///
    /// ```
    /// let mut table = PrefixTable::new(rt.alloc());
    /// table.insert("10.0.0.0/8".parse::<Ipv4Network>()?, 2)?;
    /// let (found, steps) = table.lookup_steps(Ipv4Addr::new(10, 1, 9, 32));
    /// assert_eq!(rt; found, Some(("10.0.0.0/8".parse()?, 2)));
    /// assert_eq!(rt; steps, 25);
    /// ```
    pub fn lookup_steps(&self, addr: N::Addr) -> (Option<(N, V)>, u32)
        ensures answer { Finds N.pair N.WIDTH self.now (N.number addr) result.0 }
        ensures steps { MatchOption result.0 (result.1 ≡ N.WIDTH + 1)
            (λ found. result.1 + (N.pair found.0).prefix ≡ N.WIDTH + 1) }
    {
        let mut searches = Searches::none();
        let found = longest_in_turn(&self.values, &mut searches, addr);
        (found, searches.end())
    }
}

impl<'a, N: CidrNetwork, V: Copy> IntoIterator for &'a PrefixTable<N, V> {
    type Item = (N, V);

    type IntoIter = Entries<'a, N, V>;

    ghost into_iter_gives = { λ table left. by_pair N.pair left ≡ map.entries table.now };

    fn into_iter(self) -> Entries<'a, N, V> {
        self.iter()
    }
}

impl<N: CidrNetwork + Debug, V: Copy + Debug> Debug for PrefixTable<N, V> {
    /// Prints the blocks and their values, in order. The text is unspecified.
    fn fmt<W: Write>(&self, f: &mut Formatter<W>) -> fmt::Result {
        let mut out = f.debug_map();
        for (network, value) in self {
            out.entry(&network, &value);
        }
        out.finish()
    }
}
