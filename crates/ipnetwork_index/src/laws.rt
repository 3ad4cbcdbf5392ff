//! The law of indexes.
ghost use Rattle.std.specs.Prelude.{◌≡◌, ◌↔◌, IsTrue};
ghost use Rattle.ipnetwork_blocks.specs.Aggregate.{InUnion};

use crate::address_index::AddressIndex;
use crate::indexed_network::IndexedNetwork;
use ipnetwork_sets::AddressSet;

/// A set and its index say the same of an address.
pub fn set_and_index_agree<N: IndexedNetwork>(
    set: &AddressSet<N>,
    index: &AddressIndex<N>,
    addr: N::Addr,
) -> (bool, bool)
    requires { index.now ≡ set.now }
    ensures agree { result.0 ≡ result.1 }
    ensures answer { IsTrue result.0 ↔ InUnion N.WIDTH set.now (N.number addr) }
{
    (set.contains(addr), index.contains(addr))
}
