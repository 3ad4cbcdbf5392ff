//! Blocks of IP addresses, for networks of either family: the blocks within a network, the blocks
//! that contain it, its hosts, and the least lists of blocks for a list of networks, a range or an
//! exclusion.
//!
//! Nothing in this crate allocates.
#![tactic(auto)]

mod address_space;
mod aggregate;
mod aggregate_ip;
mod exclusions;
mod following_block;
mod held_network;
mod hosts;
pub mod laws;
mod numbered_subnet;
mod preceding_block;
mod range_blocks;
mod spanning_block;
mod subnet_iterator;
mod supernets;

pub use address_space::AddressSpace;
pub use aggregate::{aggregate_held, aggregate_in_place, aggregate_vec};
pub use aggregate_ip::{aggregate_ip_in_place, aggregate_ip_vec};
pub use exclusions::{Exclusion, exclude};
pub use following_block::following;
pub use held_network::HoldsNetwork;
pub use hosts::{Ipv4HostIterator, ipv4_hosts, ipv6_hosts};
pub use numbered_subnet::subnet_at;
pub use preceding_block::preceding;
pub use range_blocks::{RangeBlocks, range_to_blocks, widest_block};
pub use spanning_block::spanning;
pub use subnet_iterator::{SubnetIterator, subnets};
pub use supernets::{block, sibling, supernet};
