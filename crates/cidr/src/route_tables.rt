//! The routes that a run keeps.
ghost use Rattle.std.specs.Prelude.{◌≡◌, None, OnErr, IfOk};
ghost use Rattle.cidr.specs.Finding.{IsFound};
ghost use Rattle.cidr.specs.Private.Routes.{routes_of};
ghost use Rattle.cidr.specs.Routes.{no_routes, number_at, with_number, without};

use ipnetwork::{IpAddr, IpNetwork, Ipv4Network, Ipv6Network};
use ipnetwork_table::PrefixTable;
use std::alloc::{AllocError, Global};

/// The numbers of blocks, in a table for each family.
#[derive(Drop)]
pub(crate) struct RouteTables {
    v4: PrefixTable<Ipv4Network, u32>,
    v6: PrefixTable<Ipv6Network, u32>,
}

impl RouteTables {
    /// Creates tables without routes. Does not allocate.
    pub(crate) fn new(alloc: Global) -> RouteTables
        ensures { routes_of result ≡ no_routes }
    {
        RouteTables {
            v4: PrefixTable::new(alloc),
            v6: PrefixTable::new(alloc),
        }
    }

    /// Gives the block of a network a number, and returns the number that it had.
    ///
    /// Allocates only for a new block. If memory runs out, the routes do not change.
    pub(crate) fn insert(
        &mut self,
        network: IpNetwork,
        number: u32,
    ) -> Result<Option<u32>, AllocError>
        ensures ok { IfOk result (λ old. (old ≡ number_at (routes_of self.old) network)
            × (routes_of self.new ≡ with_number (routes_of self.old) network number)) }
        ensures err { OnErr result ((number_at (routes_of self.old) network ≡ None)
            × (routes_of self.new ≡ routes_of self.old)) }
    {
        match network {
            IpNetwork::V4(network) => Ok(self.v4.insert(network, number)?),
            IpNetwork::V6(network) => Ok(self.v6.insert(network, number)?),
        }
    }

    /// Removes the block of a network, and returns the number that it had.
    pub(crate) fn remove(&mut self, network: IpNetwork) -> Option<u32>
        ensures old { result ≡ number_at (routes_of self.old) network }
        ensures removed { routes_of self.new ≡ without (routes_of self.old) network }
    {
        match network {
            IpNetwork::V4(network) => self.v4.remove(network),
            IpNetwork::V6(network) => self.v6.remove(network),
        }
    }

    /// Returns the longest block of the address's family that contains the address, with its
    /// number.
    pub(crate) fn find(&self, address: IpAddr) -> Option<(IpNetwork, u32)>
        ensures { IsFound (routes_of self.now) address result }
    {
        match address {
            IpAddr::V4(address) => {
                let (block, number) = self.v4.lookup(address)?;
                Some((IpNetwork::V4(block), number))
            }
            IpAddr::V6(address) => {
                let (block, number) = self.v6.lookup(address)?;
                Some((IpNetwork::V6(block), number))
            }
        }
    }
}
