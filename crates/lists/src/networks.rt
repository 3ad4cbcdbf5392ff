//! Networks of one family, in the order in which they were read.
ghost use Rattle.std.specs.Prelude.{◌≡◌, ◌++◌, ◌∷◌, ◌<◌, ◌≤◌, ◌^◌, [], map, OnOk};
ghost use Rattle.lists.specs.Added.{AddsBlocks};

use ipnetwork_blocks::{AddressSpace, range_to_blocks};
use std::alloc::{AllocError, Global};
use std::marker::Model;

/// Networks of one family, in the order in which they were read.
#[derive(Debug, Drop)]
pub(crate) struct Networks<N: AddressSpace> {
    networks: Vec<N>,
}

// Contracts see the list of the networks.
impl<N: AddressSpace> Model for Networks<N> {
    ghost use Rattle.std.specs.Prelude.{List, map};
    ghost use Rattle.ipnetwork_family.specs.Network.{Network};

    ghost Value = { List Network };

    ghost view = { λ n. map N.pair n.networks.items };
}

impl<N: AddressSpace> Networks<N> {
    /// Creates an empty list of networks.
    pub(crate) fn new(alloc: Global) -> Networks<N>
        ensures { result ≡ [] }
    {
        Networks {
            networks: Vec::new(alloc),
        }
    }

    /// Appends a network.
    pub(crate) fn push(&mut self, network: N) -> Result<(), AllocError>
        ensures { OnOk result (self.new ≡ self.old ++ N.pair network ∷ []) }
    {
        self.networks.push(network)?;
        Ok(())
    }

    /// Appends the fewest blocks that have the addresses from `first` to `last`.
    pub(crate) fn push_range(&mut self, first: N::Addr, last: N::Addr) -> Result<(), AllocError>
        requires { N.number first ≤ N.number last }
        ensures pushed { OnOk result
            (AddsBlocks N.WIDTH (N.number first) (N.number last) self.old self.new) }
        ensures address { N.number last < 2 ^ N.WIDTH }
    {
        // The clause `address` of this call says that `last` is an address of the family.
        let _ = N::block(last, N::WIDTH);
        let Some(mut blocks) = range_to_blocks::<N>(first, last) else {
            unreachable!()
        };
        while let Some(block) = blocks.next() {
            self.push(block)?;
        }
        Ok(())
    }

    /// Returns the networks, in their order.
    pub(crate) fn into_vec(self) -> Vec<N>
        ensures { map N.pair result.items ≡ self }
    {
        self.networks
    }
}
