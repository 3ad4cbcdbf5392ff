//! The block after a block.
ghost use Rattle.std.specs.Prelude.{◌≡◌, ◌+◌, ◌^◌, ◌<◌, MatchOption};
ghost use Rattle.ipnetwork_family.specs.Network.{HostBitsAreZero, high};
ghost use Rattle.ipnetwork_blocks.specs.FollowingBlock.{following_block};

use crate::address_space::AddressSpace;

/// Returns the block of the same prefix length that begins just after the highest address of the
/// network, or `None` if that address is the last of the family.
///
/// ```
/// let network: Ipv4Network = "192.0.2.128/25".parse()?;
/// assert_eq!(rt; following(network), Some("192.0.3.0/25".parse()?));
/// ```
pub fn following<N: AddressSpace>(network: N) -> Option<N>
    ensures { MatchOption result (high N.WIDTH (N.pair network) + 1 ≡ 2 ^ N.WIDTH)
        (λ n. (high N.WIDTH (N.pair network) + 1 < 2 ^ N.WIDTH)
        × (N.pair n ≡ following_block N.WIDTH (N.pair network))
        × HostBitsAreZero N.WIDTH (N.pair n)) }
{
    match N::next_address(network.broadcast()) {
        Some(next) => Some(N::block_at(next, network.prefix())),
        None => None,
    }
}
