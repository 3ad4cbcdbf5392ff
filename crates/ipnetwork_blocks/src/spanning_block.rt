//! The smallest block that contains a list of networks.
ghost use Rattle.std.specs.Prelude.{◌≡◌, ◌∷◌, [], map, MatchOption};
ghost use Rattle.ipnetwork_blocks.specs.Spanning.{IsSpanning};

use crate::address_space::AddressSpace;
use crate::supernets::block;

/// Returns the smallest block that contains all of the networks: it lies in every other network
/// that contains them all. Returns `None` if there are no networks.
///
/// ```
/// let networks: [Ipv4Network; 2] = ["10.0.1.0/24".parse()?, "10.0.2.128/25".parse()?];
/// assert_eq!(rt; spanning(&networks), Some("10.0.0.0/22".parse()?));
/// ```
pub fn spanning<N: AddressSpace>(networks: &[N]) -> Option<N>
    ensures { MatchOption result (networks.now ≡ [])
        (λ around. IsSpanning N.WIDTH (map N.pair networks.now) (N.pair around)) }
{
    if networks.is_empty() {
        return None;
    }
    let mut around = block(networks[0]);
    for network in networks {
        around = around_both(around, *network);
    }
    Some(around)
}

// Returns the smallest block that contains both networks.
fn around_both<N: AddressSpace>(first: N, second: N) -> N
    ensures { IsSpanning N.WIDTH (N.pair first ∷ N.pair second ∷ []) (N.pair result) }
{
    let begin = first.network();
    let shared = N::shared_bits(begin, second.network());
    let prefix = shared.min(first.prefix()).min(second.prefix());
    N::block_at(begin, prefix)
}
