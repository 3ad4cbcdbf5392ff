//! An allow list: which networks contain a client's address, and which entries are invalid.
#![tactic(auto)]

use ipnetwork::{CidrFault, Ipv4Addr, Ipv4Network};
use std::io;

fn main(rt: HostRuntime) -> io::Result<()> {
    let client = Ipv4Addr::new(10, 1, 9, 32);
    let allowed = [
        "10.0.0.0/8",
        "192.0.2.0/255.255.255.0",
        "10.1.9.32/33",
        "10/8",
        "10.1.0.0//16",
    ];
    for text in allowed {
        match text.parse::<Ipv4Network>() {
            Ok(network) if network.contains(client) => println!(rt; "{network} allows {client}")?,
            Ok(network) => println!(rt; "{network} does not allow {client}")?,
            Err(CidrFault::Format) => println!(rt; "{text}: more than one slash")?,
            Err(CidrFault::Addr) => println!(rt; "{text}: no IPv4 address before the slash")?,
            Err(CidrFault::Prefix) => println!(rt; "{text}: no prefix length after the slash")?,
        }
    }
    Ok(())
}
