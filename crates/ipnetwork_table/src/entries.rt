//! The entries of a table, in order.
ghost use Rattle.std.specs.Prelude.{◌≡◌};
ghost use Rattle.std.specs.Iterator.{YieldsFirst, item_count};

use ipnetwork_family::CidrNetwork;
use std::alloc::AllocError;
use std::collections::btree_map::Iter;
use std::marker::Model;

/// An iterator over the blocks of a table, each with its value, in the order of networks.
///
/// ```
/// let mut table = PrefixTable::new(rt.alloc());
/// table.insert("10.1.0.0/16".parse::<Ipv4Network>()?, 3)?;
/// table.insert("10.0.0.0/8".parse()?, 2)?;
/// let mut entries = table.iter();
/// assert_eq!(rt; entries.next(), Some(("10.0.0.0/8".parse()?, 2)));
/// assert_eq!(rt; entries.next(), Some(("10.1.0.0/16".parse()?, 3)));
/// ```
#[derive(Drop)]
pub struct Entries<'a, N: CidrNetwork, V: Copy> {
    left: Iter<'a, N, V>,
}

// A contract sees an iterator as the list of the remaining entries.
impl<'a, N: CidrNetwork, V: Copy> Model for Entries<'a, N, V> {
    ghost use Rattle.std.specs.Prelude.{List};

    ghost Value = { List (N × V) };

    ghost view = { λ e. e.left };
}

impl<'a, N: CidrNetwork, V: Copy> Entries<'a, N, V> {
    pub(crate) fn new(left: Iter<'a, N, V>) -> Self
        ensures { result ≡ left.entry }
    {
        Entries { left }
    }
}

impl<'a, N: CidrNetwork, V: Copy> Iterator for Entries<'a, N, V> {
    type Item = (N, V);

    ghost next_gives = { YieldsFirst (λ left. left) };

    ghost remaining = { item_count (λ left. left) };

    fn next(&mut self) -> Option<(N, V)> {
        let (network, value) = self.left.next()?;
        Some((*network, *value))
    }
}

impl<'a, N: CidrNetwork, V: Copy> Clone for Entries<'a, N, V> {
    ghost is_clone = { λ left copy. copy ≡ left };

    ghost is_infallible = { λ _. Unit {0} };

    fn clone(&self) -> Result<Self, AllocError> {
        Ok(Entries {
            left: self.left.clone()?,
        })
    }
}
