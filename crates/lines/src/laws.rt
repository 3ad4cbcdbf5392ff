//! The laws of faults: each function's contract is a law.

mod faults;
mod uses;

pub use faults::{fault_clone, fault_equality};
