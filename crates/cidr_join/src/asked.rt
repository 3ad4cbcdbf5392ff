//! What was found in a line, as a network.
ghost use Rattle.std.specs.Prelude.{◌≡◌, ◌≤◌, length};
ghost use Rattle.line_addresses.specs.Found.{spelled_at};
ghost use Rattle.cidr_join.specs.Asked.{named_network, network_of};

use ipnetwork::IpNetwork;
use ipnetwork::laws::ip_network_reading_is_computed;
use line_addresses::Found;

/// What was found in a line, as a network: that which its text names, if `networks`, or that of its
/// one address.
#[inline(always)]
pub(crate) fn network_of(part: &[u8], found: &Found, networks: bool) -> Option<IpNetwork>
    requires ordered { found.now.start ≤ found.now.end }
    requires within { found.now.end ≤ length part.now }
    ensures { result ≡ network_of networks (spelled_at part.now found.now) }
{
    if networks {
        named_network(&part[found.start..found.end])
    } else {
        Some(IpNetwork::from(found.address))
    }
}

// Returns the network that a text names.
fn named_network(text: &[u8]) -> Option<IpNetwork>
    ensures { result ≡ named_network text.now }
{
    ip_network_reading_is_computed();
    match IpNetwork::read_bytes(text) {
        Ok(network) => Some(network),
        Err(_) => None,
    }
}
