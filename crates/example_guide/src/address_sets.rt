//! Which addresses are admitted: those in an allow list and not in a deny list.

use ipnetwork::{Ipv4Addr, Ipv4Network};
use ipnetwork_sets::AddressSet;
use std::alloc::{AllocError, Global};
use std::io;

pub fn run(rt: &HostRuntime) -> io::Result<()> {
    let allowed = set_of(
        rt.alloc(),
        &["198.51.100.0/25", "192.0.2.0/24", "198.51.100.128/25"],
    )?;
    let denied = set_of(rt.alloc(), &["192.0.2.64/26", "198.51.100.255"])?;
    let admitted = allowed.difference(&denied).into_set(Vec::new(rt.alloc()))?;
    for text in ["192.0.2.63", "192.0.2.64", "198.51.100.254"] {
        if let Ok(addr) = text.parse::<Ipv4Addr>() {
            let word = if admitted.contains(addr) {
                "admitted"
            } else {
                "refused"
            };
            println!(rt; "{addr} {word}")?;
        }
    }
    for range in admitted.ranges() {
        println!(rt; "{}-{}", range.0, range.1)?;
    }
    println!(rt; "{} addresses", admitted.address_count())?;
    Ok(())
}

// The set of the networks that these texts name.
fn set_of(alloc: Global, texts: &[&str]) -> Result<AddressSet<Ipv4Network>, AllocError> {
    let mut networks = Vec::new(alloc);
    for text in texts {
        if let Ok(network) = text.parse::<Ipv4Network>() {
            networks.push(network)?;
        }
    }
    Ok(AddressSet::from_networks(networks))
}
