//! The block that two blocks are joined into, and what else is in it.
ghost use Rattle.std.specs.Prelude.{◌≡◌, ◌+◌, ◌≤◌, ◌∷◌, []};
ghost use Rattle.ipnetwork_family.specs.Network.{block_size};
ghost use Rattle.ipnetwork_blocks.specs.Spanning.{IsSpanning};
ghost use Rattle.reducing.specs.Joining.{joined, others};

use ipnetwork_blocks::AddressSpace;

/// The smallest block that contains both networks.
///
/// ```
/// let joined = joined::<Ipv4Network>("10.0.1.0/24".parse()?, "10.0.2.128/25".parse()?);
/// assert_eq!(rt; joined, "10.0.0.0/22".parse()?);
/// ```
pub fn joined<N: AddressSpace>(first: N, second: N) -> N
    ensures joined { N.pair result ≡ joined N.WIDTH (N.pair first) (N.pair second) }
    ensures smallest { IsSpanning N.WIDTH (N.pair first ∷ N.pair second ∷ []) (N.pair result) }
{
    N::block_at(first.network(), joined_prefix(first, second))
}

/// The number of addresses of the smallest block around two networks that are in neither of them.
/// The two share no address.
///
/// ```
/// let others = others::<Ipv4Network>("10.0.1.0/24".parse()?, "10.0.2.128/25".parse()?);
/// assert_eq!(rt; others, 1024 - 256 - 128);
/// ```
#[tactic(auto, unfolding(crate::specs::Joining::others))]
pub fn others<N: AddressSpace>(first: N, second: N) -> u128
    ensures { result ≡ others N.WIDTH (N.pair first) (N.pair second) }
{
    let all = last_offset::<N>(joined_prefix(first, second));
    let beside_first = all.saturating_sub(last_offset::<N>(first.prefix()));
    beside_first
        .saturating_sub(last_offset::<N>(second.prefix()))
        .saturating_sub(1)
}

// The prefix length of the smallest block that contains both networks.
fn joined_prefix<N: AddressSpace>(first: N, second: N) -> u8
    ensures joined { result ≡ (joined N.WIDTH (N.pair first) (N.pair second)).prefix }
    ensures within { result ≤ N.WIDTH }
    ensures smallest { IsSpanning N.WIDTH (N.pair first ∷ N.pair second ∷ [])
        (joined N.WIDTH (N.pair first) (N.pair second)) }
{
    let shared = N::shared_bits(first.network(), second.network());
    shared.min(first.prefix()).min(second.prefix())
}

// The offset of the last address in a block of this prefix length.
fn last_offset<N: AddressSpace>(prefix: u8) -> u128
    requires { prefix ≤ N.WIDTH }
    ensures { result + 1 ≡ block_size N.WIDTH prefix }
{
    let host_bits = N::WIDTH - prefix;
    if host_bits == 0 {
        0
    } else {
        u128::MAX >> (128 - host_bits)
    }
}
