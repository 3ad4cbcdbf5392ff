//! Indexes for repeated look-ups: of addresses in a set that does not change, and of the longest
//! block of an address in a table that does not change. A look-up takes a few reads in a row if the
//! networks are spread out, and otherwise about as many as a binary search.
//!
//! Only the calls that make an index allocate. `place_of`, the search of most indexes, and
//! `write_starts`, which writes where that search begins, work on slices, in any memory.
#![tactic(auto)]

mod address_index;
mod answers;
mod block_ends;
mod block_index;
mod cuts;
mod edges;
mod entries;
mod halves;
mod indexed_network;
mod key;
pub mod laws;
mod listing;
mod low_halves;
mod partition;
mod places;
mod ranges;
mod route_index;
mod search;
mod simd_step;
mod starts;
mod sweep;

pub use address_index::AddressIndex;
pub use block_index::BlockIndex;
pub use indexed_network::IndexedNetwork;
pub use key::Key;
pub use route_index::RouteIndex;
pub use search::place_of;
pub use starts::{part_bits, write_starts};
