//! Sets of addresses of either family, each made of one set per family.

mod blocks;
mod collecting;
mod counting;
mod equality;
mod ip_address_set;
mod operations;

pub use blocks::IpBlocks;
pub use ip_address_set::IpAddressSet;
