//! The network that is looked up for a network of a line.
ghost use Rattle.std.specs.Prelude.{◌≡◌};
ghost use Rattle.log_programs.specs.Unmapping.{asked_network, unmapped_network};

use ipnetwork::{IpAddr, IpNetwork};

/// Returns the network that is looked up: if `mapped`, a network whose addresses are all
/// IPv4-mapped counts as the network of their IPv4 addresses. Any other network is returned
/// unchanged.
///
/// ```
/// use ipnetwork::IpNetwork;
/// use log_programs::unmapping::asked_network;
///
/// let mapped = IpNetwork::read_bytes(b"::ffff:10.0.0.0/104").unwrap();
/// let network = IpNetwork::read_bytes(b"10.0.0.0/8").unwrap();
/// assert_eq!(rt; asked_network(true, mapped), network);
/// assert_eq!(rt; asked_network(false, mapped), mapped);
/// ```
#[inline(always)]
pub fn asked_network(mapped: bool, network: IpNetwork) -> IpNetwork
    ensures { result ≡ asked_network mapped network }
{
    if mapped {
        unmapped_network(network)
    } else {
        network
    }
}

// Returns the IPv4 network of a network whose addresses are all IPv4-mapped, or any other
// unchanged.
fn unmapped_network(network: IpNetwork) -> IpNetwork
    ensures { result ≡ unmapped_network network }
{
    let prefix = network.prefix();
    if prefix < 96 {
        return network;
    }
    match network.ip().to_canonical() {
        IpAddr::V4(address) => {
            IpNetwork::new(IpAddr::V4(address), prefix - 96).unwrap_or(network)
        }
        IpAddr::V6(_) => network,
    }
}
