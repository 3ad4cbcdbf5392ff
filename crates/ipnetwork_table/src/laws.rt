//! The laws of tables: each function's contract is a law. The functions that take nothing do
//! nothing; the proof of a function that calls one may use its law.

mod entries;
mod lookups;

pub use entries::{keys_without_host_bits, listing, one_key_changes};
pub use lookups::{answer_is_computed, blocks_of_any_width_that_meet, lookups_agree, one_answer};
