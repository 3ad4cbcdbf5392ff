//! Reads lines and gathers output, over devices that are not called again after a call has failed.
//!
//! [`line_buffer::LineBuffer`] splits what is read into lines, in place, in a slice that the caller
//! lends. [`line_reader::LineReader`] combines one with its reader. [`output::Output`] gathers what
//! is to be written in such a slice. [`watched::Watched`] records whether a call of its device
//! failed. Nothing in this crate allocates.
#![tactic(auto)]

pub mod buffer;
pub mod fault;
pub mod laws;
pub mod line_buffer;
pub mod line_end;
pub mod line_reader;
pub mod output;
pub mod watched;
mod writing;
