//! The ordered map that holds the values of a table, and the searches that are made in it.
ghost use Rattle.std.specs.Prelude.{◌≡◌, ℕ, ◌+◌, ◌<◌, ◌^◌, OnOk, OnErr, IfOk, IfSome, None, MatchOption};
ghost use Rattle.std.specs.FinMap as map;
ghost use Rattle.ipnetwork_table.specs.Table.{by_pair};
ghost use Rattle.ipnetwork_table.specs.Private.Nearest.{IsLastUpTo, NoneUpTo};

use crate::entries::Entries;
use ipnetwork_family::CidrNetwork;
use std::alloc::{AllocError, Global};
use std::collections::BTreeMap;
use std::marker::Model;

/// How many searches were made in a map. Only a table begins such a count and sees its number, only
/// `Values` adds to it, and it can be neither copied nor dropped.
pub(crate) struct Searches {
    number: u32,
}

// In contracts, searches are their number.
impl Model for Searches {
    ghost Value = { ℕ };

    ghost view = { λ s. s.number };

    ghost inverse = { λ n. record { number = n } };
}

impl Searches {
    /// No search yet.
    pub(super) fn none() -> Searches
        ensures { result ≡ 0 }
    {
        Searches { number: 0 }
    }

    /// Ends the count.
    pub(super) fn end(self) -> u32
        ensures { result ≡ self }
    {
        let Searches { number } = self;
        number
    }
}

/// Values by network. Each search for a key that changes nothing adds one to the count that it is
/// given.
#[derive(Drop)]
pub(crate) struct Values<N: CidrNetwork, V: Copy> {
    tree: BTreeMap<N, V>,
}

// A contract sees the finite map from networks, as pairs of numbers, to values.
impl<N: CidrNetwork, V: Copy> Model for Values<N, V> {
    ghost use Rattle.std.specs.FinMap as map;
    ghost use Rattle.ipnetwork_family.specs.Network.{network_cmp};
    ghost use Rattle.ipnetwork_table.specs.Table.{network_code, by_pair};

    ghost Value = { map.FinMap network_cmp V };

    ghost coded = { map.code network_code V.code };

    ghost view = { λ s. map.from_entries (by_pair N.pair s.tree.entries) };
}

impl<N: CidrNetwork, V: Copy> Values<N, V> {
    pub(crate) fn new(alloc: Global) -> Self
        ensures { result ≡ map.empty }
    {
        Values {
            tree: BTreeMap::new(alloc),
        }
    }

    pub(crate) fn len(&self) -> usize
        ensures { result ≡ map.len self.now }
    {
        self.tree.len()
    }

    /// The value of one network, if any: one search.
    pub(crate) fn probe(&self, searches: &mut Searches, key: N) -> Option<V>
        requires { searches.old + 1 < 2 ^ 32 }
        ensures found { result ≡ map.get self.now (N.pair key) }
        ensures counted { searches.new ≡ searches.old + 1 }
    {
        searches.number += 1;
        self.tree.get(&key).copied()
    }

    /// The last network that does not come after `end`, and its value: one search.
    pub(crate) fn last_up_to(&self, searches: &mut Searches, end: N) -> Option<(N, V)>
        requires { searches.old + 1 < 2 ^ 32 }
        ensures network { MatchOption result (NoneUpTo self.now (N.pair end))
            (λ last. IsLastUpTo self.now (N.pair end) (N.pair last.0)) }
        ensures value { IfSome result (λ last. map.get self.now (N.pair last.0) ≡ Some last.1) }
        ensures counted { searches.new ≡ searches.old + 1 }
    {
        searches.number += 1;
        let (last, value) = self.tree.range(..=end).next_back()?;
        Some((*last, *value))
    }

    /// Sets the value of a network and returns its previous value. The only error is out of memory,
    /// which is possible only for a new network.
    pub(crate) fn insert(&mut self, key: N, value: V) -> Result<Option<V>, AllocError>
        ensures old { IfOk result (λ old. old ≡ map.get self.old (N.pair key)) }
        ensures set { OnOk result (self.new ≡ map.insert self.old (N.pair key) value) }
        ensures absent { OnErr result (map.get self.old (N.pair key) ≡ None) }
        ensures unchanged { OnErr result (self.new ≡ self.old) }
    {
        Ok(self.tree.insert(key, value)?)
    }

    /// Removes all networks and frees the memory.
    pub(crate) fn clear(&mut self)
        ensures { self.new ≡ map.empty }
    {
        self.tree.clear();
    }

    /// All networks and their values, in order. This is not a search for a key, so it counts
    /// nothing.
    pub(crate) fn entries(&self) -> Entries<'_, N, V>
        ensures { by_pair N.pair result ≡ map.entries self.now }
    {
        Entries::new(self.tree.iter())
    }

    /// Removes a network and returns its value, if any.
    pub(crate) fn remove(&mut self, key: N) -> Option<V>
        ensures old { result ≡ map.get self.old (N.pair key) }
        ensures removed { self.new ≡ map.remove self.old (N.pair key) }
    {
        self.tree.remove(&key)
    }
}
