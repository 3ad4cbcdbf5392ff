//! A summary of networks: the shortest list of blocks with the same addresses.

use ipnetwork::Ipv4Network;
use ipnetwork_blocks::aggregate_vec;
use std::io;

pub fn run(rt: &HostRuntime) -> io::Result<()> {
    let mut networks = Vec::new(rt.alloc());
    for text in [
        "192.0.2.64/26",
        "198.51.100.0/24",
        "192.0.2.9/32",
        "192.0.2.0/26",
        "192.0.2.200/25",
    ] {
        if let Ok(network) = text.parse::<Ipv4Network>() {
            networks.push(network)?;
        }
    }
    aggregate_vec(&mut networks);
    for block in networks.iter() {
        println!(rt; "{block}")?;
    }
    Ok(())
}
