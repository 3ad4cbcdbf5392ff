//! The block before a block.
ghost use Rattle.std.specs.Prelude.{◌≡◌, ◌<◌, MatchOption};
ghost use Rattle.ipnetwork_family.specs.Network.{HostBitsAreZero, low};
ghost use Rattle.ipnetwork_blocks.specs.PrecedingBlock.{preceding_block};

use crate::address_space::AddressSpace;

/// Returns the block of the same prefix length that ends just before the lowest address of the
/// network, or `None` if that address is the first of the family.
///
/// ```
/// let network: Ipv4Network = "192.0.3.0/25".parse()?;
/// assert_eq!(rt; preceding(network), Some("192.0.2.128/25".parse()?));
/// ```
pub fn preceding<N: AddressSpace>(network: N) -> Option<N>
    ensures { MatchOption result (low N.WIDTH (N.pair network) ≡ 0)
        (λ n. (0 < low N.WIDTH (N.pair network))
        × (N.pair n ≡ preceding_block N.WIDTH (N.pair network))
        × HostBitsAreZero N.WIDTH (N.pair n)) }
{
    match N::previous_address(network.network()) {
        Some(previous) => Some(N::block_at(previous, network.prefix())),
        None => None,
    }
}
