//! Networks of one family in CIDR notation (RFC 4632, section 3.1): parsing, printing, and queries
//! about the set of addresses that a network represents.
//!
//! Only calls that take an allocator allocate. A text is any slice of bytes.
#![tactic(auto)]

mod address;
mod cidr_network;
mod error;
mod ipv4;
mod ipv6;
mod iter;
mod json;
pub mod laws;
mod mask_table;
mod network;
pub mod parse;
mod segments;

pub use address::Address;
pub use cidr_network::CidrNetwork;
pub use error::{CidrFault, IpNetworkError, NetworkSizeError};
use ipnetwork_addr::{Ipv4Addr, Ipv6Addr};
pub use ipv4::ipv4_mask_to_prefix;
pub use ipv6::ipv6_mask_to_prefix;
pub use iter::NetworkIterator;
pub use json::JsonFault;
pub use network::Network;

/// An IPv4 network.
///
/// ```
/// let network: Ipv4Network = "10.1.9.32/255.0.0.0".parse()?;
/// assert_eq!(rt; network.canonical().as_str(), "10.1.9.32/8");
/// ```
pub type Ipv4Network = Network<Ipv4Addr>;

/// An IPv6 network.
///
/// ```
/// let network: Ipv6Network = "2001:DB8::1/064".parse()?;
/// assert_eq!(rt; network.canonical().as_str(), "2001:db8::1/64");
/// ```
pub type Ipv6Network = Network<Ipv6Addr>;

/// An iterator over the members of an IPv4 network, in ascending order.
///
/// ```
/// let members: Ipv4NetworkIterator = "192.0.2.0/24".parse::<Ipv4Network>()?.iter();
/// assert_eq!(rt; members.count(), 256);
/// ```
pub type Ipv4NetworkIterator = NetworkIterator<Ipv4Addr>;

/// An iterator over the members of an IPv6 network, in ascending order.
///
/// ```
/// let members: Ipv6NetworkIterator = "2001:db8::/120".parse::<Ipv6Network>()?.iter();
/// assert_eq!(rt; members.count(), 256);
/// ```
pub type Ipv6NetworkIterator = NetworkIterator<Ipv6Addr>;

/// The length in bytes of the longest printed network, one of IPv6.
///
/// ```
/// let longest: Ipv6Network = "ffff:ffff:ffff:ffff:ffff:ffff:ffff:ffff/128".parse()?;
/// assert_eq!(rt; longest.canonical().as_str().len(), NETWORK_TEXT_CAPACITY);
/// ```
pub const NETWORK_TEXT_CAPACITY: usize = 43;
