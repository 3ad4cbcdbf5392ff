//! Code that is generic over both families: whether one of some networks contains an address.

ghost use Rattle.std.specs.Prelude.{◌↔◌, Any, IsTrue};
ghost use Rattle.ipnetwork_family.specs.Network.{Member};

use ipnetwork::{CidrNetwork, Ipv4Addr, Ipv4Network, Ipv6Addr, Ipv6Network};
use std::io;

/// Returns whether one of these networks contains the address.
fn admits<N: CidrNetwork>(allowed: &[N], client: N::Addr) -> bool
    ensures { IsTrue result ↔ Any (λ n. Member N.WIDTH (N.pair n) (N.number client)) allowed.now }
{
    allowed.iter().any(|network| network.contains(client))
}

pub fn run(rt: &HostRuntime) -> io::Result<()> {
    let private = [
        Ipv4Network::from(Ipv4Addr::new(192, 0, 2, 7)),
        Ipv4Network::block(Ipv4Addr::new(10, 1, 9, 32), 8).unwrap_or(Ipv4Network::from(
            Ipv4Addr::from(0u32),
        )),
    ];
    println!(rt; "{}", admits(&private, Ipv4Addr::new(10, 200, 0, 1)))?;
    let local = [Ipv6Network::from(Ipv6Addr::from(1u128))];
    println!(rt; "{}", admits(&local, Ipv6Addr::from(2u128)))
}
