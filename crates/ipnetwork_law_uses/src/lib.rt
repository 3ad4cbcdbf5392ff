//! Uses of the laws of the libraries. Each function calls a law, and its contract is what follows
//! from it: for addresses, networks, sets and tables of both widths, or of either family.
//!
//! Nothing calls these functions, and no crate depends on this one. `tests/laws` empties each clause
//! of each law in turn, and checks that a use of it is then not proved.
//! Where a check would prove a use without its law, the proof is written out and cites the law.
#![tactic(auto)]

mod address_sets;
mod address_texts;
mod addresses;
mod either_texts;
mod every_network;
mod network_texts;
mod networks;
mod of_either_family;
mod orders;
mod sets_of_networks;
mod tables;
