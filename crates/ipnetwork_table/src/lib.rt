//! Routing tables: maps from blocks of IP addresses to values, searched by longest prefix (RFC
//! 4632, section 5.1), for networks of either family.
//!
//! Only `insert` allocates.
#![tactic(auto)]

mod common_bits;
mod counts;
mod entries;
pub mod laws;
mod lookups;
mod table;

pub use entries::Entries;
pub use table::PrefixTable;
