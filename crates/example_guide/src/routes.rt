//! A routing table: an address is routed by the longest block that contains it.

use ipnetwork::{Ipv4Addr, Ipv4Network};
use ipnetwork_table::PrefixTable;
use std::io;

pub fn run(rt: &HostRuntime) -> io::Result<()> {
    let mut routes = PrefixTable::new(rt.alloc());
    for (text, port) in [("0.0.0.0/0", 1u8), ("10.1.9.32/16", 3), ("10.0.0.0/8", 2)] {
        if let Ok(network) = text.parse::<Ipv4Network>() {
            routes.insert(network, port)?;
        }
    }
    for (block, port) in &routes {
        println!(rt; "{block} to port {port}")?;
    }
    for client in [Ipv4Addr::new(10, 1, 2, 3), Ipv4Addr::new(192, 0, 2, 7)] {
        match routes.lookup(client) {
            Some((block, port)) => println!(rt; "{client} goes by {block} to port {port}")?,
            None => println!(rt; "{client} goes nowhere")?,
        }
    }
    Ok(())
}
