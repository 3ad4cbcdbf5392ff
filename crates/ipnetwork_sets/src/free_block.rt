//! The first free block of a prefix length.
ghost use Rattle.std.specs.Prelude.{MatchOption};
ghost use Rattle.ipnetwork_sets.specs.FreeBlocks.{NoBlockIsFree, IsFirstFree};

use crate::address_set::AddressSet;
use ipnetwork_blocks::{AddressSpace, laws};

impl<N: AddressSpace> AddressSet<N> {
    /// The first block of this prefix length within the network that has no address of the set;
    /// `None` if there is none, as for a prefix length that is shorter than the network's or
    /// greater than `WIDTH`. Host bits of the network are ignored. Goes over the free part of the
    /// network up to that block.
    ///
    /// ```
    /// let set = AddressSet::from_networks(vec![in rt.alloc(); "192.0.2.0/25".parse::<Ipv4Network>()?]?);
    /// let free = set.first_free("192.0.2.0/24".parse()?, 28);
    /// assert_eq!(rt; free, Some("192.0.2.128/28".parse()?));
    /// ```
    pub fn first_free(&self, network: N, prefix: u8) -> Option<N>
        ensures { MatchOption result (NoBlockIsFree N.WIDTH (N.pair network) self.now prefix)
            (λ block. IsFirstFree N.WIDTH (N.pair network) self.now prefix (N.pair block)) }
    {
        laws::one_block();
        let mut free = self.free_in(network);
        while let Some(piece) = free.next() {
            if piece.prefix() <= prefix {
                return N::block(piece.ip(), prefix);
            }
        }
        None
    }
}
