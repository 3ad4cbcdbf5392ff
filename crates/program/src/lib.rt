//! What the programs that read lists share: their arguments, the files that they open, the lines of
//! logs, and what they report on standard error.
#![tactic(auto)]

pub mod arguments;
pub mod command_line;
pub mod ending;
pub mod escapes;
pub mod log_fault;
pub mod log_reader;
pub mod memory;
pub mod messages;
pub mod progress;
pub mod putting;
pub mod standard_error;
pub mod standard_output;
pub mod start;
pub mod system;
pub mod telling;
pub mod usage;
