//! The block of a network, the blocks that contain it, and the other half of its parent.
ghost use Rattle.std.specs.Prelude.{◌≡◌, ◌<◌, ◌≤◌, MatchOption};
ghost use Rattle.ipnetwork_family.specs.Network.{IsNetwork, HostBitsAreZero, block_of};
ghost use Rattle.ipnetwork_blocks.specs.Supernets.{IsAround, IsSibling};

use ipnetwork_family::CidrNetwork;

/// Returns the network without host bits that has the same members and the same prefix length.
///
/// ```
/// let network: Ipv4Network = "192.0.2.129/25".parse()?;
/// assert_eq!(rt; block(network).canonical().as_str(), "192.0.2.128/25");
/// ```
pub fn block<N: CidrNetwork>(network: N) -> N
    ensures made { N.pair result ≡ block_of N.WIDTH (N.pair network) }
    ensures no_host_bits { HostBitsAreZero N.WIDTH (N.pair result) }
    ensures network { IsNetwork N.WIDTH (N.pair result) }
{
    let Some(block) = N::block(network.ip(), network.prefix()) else {
        unreachable!()
    };
    block
}

/// Returns the block of this prefix length that contains the network. It has no host bits. At the
/// network's own prefix length, it is the network's `block`. Returns `None` if `prefix` is longer
/// than the network's prefix length.
///
/// ```
/// let network: Ipv4Network = "192.0.2.129/25".parse()?;
/// assert_eq!(rt; supernet(network, 24), Some("192.0.2.0/24".parse()?));
/// assert_eq!(rt; supernet(network, 26), None);
/// ```
pub fn supernet<N: CidrNetwork>(network: N, prefix: u8) -> Option<N>
    ensures { MatchOption result ((N.pair network).prefix < prefix)
        (λ wide. (prefix ≤ (N.pair network).prefix)
        × IsAround N.WIDTH (N.pair network) prefix (N.pair wide)) }
{
    if prefix > network.prefix() {
        return None;
    }
    N::block(network.ip(), prefix)
}

/// Returns the other half of the block that is one bit shorter: a block of the same prefix length,
/// without host bits. Returns `None` at prefix length 0, because there is no wider block.
///
/// ```
/// let network: Ipv4Network = "192.0.2.128/25".parse()?;
/// assert_eq!(rt; sibling(network), Some("192.0.2.0/25".parse()?));
/// ```
pub fn sibling<N: CidrNetwork>(network: N) -> Option<N>
    ensures { MatchOption result ((N.pair network).prefix ≡ 0)
        (λ other. (0 < (N.pair network).prefix)
        × IsSibling N.WIDTH (N.pair network) (N.pair other)) }
{
    let prefix = network.prefix();
    if prefix == 0 {
        return None;
    }
    let Some(parent) = N::block(network.ip(), prefix - 1) else {
        unreachable!()
    };
    let end = parent.broadcast();
    if network.broadcast() != end {
        return N::block(end, prefix);
    }
    N::block(parent.network(), prefix)
}
