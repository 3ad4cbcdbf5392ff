//! IPv4 and IPv6 networks in CIDR notation: reading and printing them, and questions about their
//! sets of addresses.
//!
//! Only calls that take an allocator allocate.
//!
//! This crate re-exports at its root the crates `ipnetwork_addr`, for addresses, and
//! `ipnetwork_family`, for networks of one family.
#![tactic(auto)]

mod error;
mod ip_iter;
mod ip_mask;
mod ip_network;
mod json;
pub mod laws;
mod refusal;
mod size;

pub use error::WrongFamily;
pub use ip_iter::IpNetworkIterator;
pub use ip_mask::ip_mask_to_prefix;
pub use ip_network::IpNetwork;
pub use ipnetwork_addr::{
    ADDRESS_TEXT_CAPACITY, AddrParseError, IpAddr, Ipv4Addr, Ipv6Addr, decimal,
};
pub use ipnetwork_family::{
    Address, CidrFault, CidrNetwork, IpNetworkError, Ipv4Network, Ipv4NetworkIterator, Ipv6Network,
    Ipv6NetworkIterator, JsonFault, NETWORK_TEXT_CAPACITY, Network, NetworkIterator,
    NetworkSizeError, ipv4_mask_to_prefix, ipv6_mask_to_prefix, parse,
};
pub use refusal::cause;
pub use size::NetworkSize;
