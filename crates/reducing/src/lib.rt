//! Lists of at most a given number of blocks that have all the addresses of a set, and few others.
#![tactic(auto)]

mod joining;
mod reduction;
mod span;
mod tree;
mod tree_list;

pub use joining::{joined, others};
pub use reduction::{Reduced, reduce};
