//! An independent check of the definitions of IP addresses.
//!
//! std's addresses are proved against a grammar that was written independently. Here the
//! definitions of `ipnetwork_addr` are checked against it: the laws state that both name the same
//! addresses and print the same texts, and that both readers agree on every text. No other crate
//! uses this one.
//!
//! Both sides take the text of a decimal number, the definition of a numeral and its value from
//! std. An error in these would not be noticed here.
//!
//! Nothing here allocates.
#![tactic(auto)]

mod ipv4;
mod ipv6;
pub mod laws;

pub use ipv4::{agree_v4, read_v4};
pub use ipv6::{agree_v6, read_v6};
