//! Prints the addresses, masks, numbers and reverse names of networks.
#![tactic(auto)]

mod field;
mod help;
mod number_texts;
mod printing;
mod rows;
mod run;
mod said;
mod said_words;
mod telling;
mod value;
mod zone;

use crate::help::{PROGRAM, USAGE};
use crate::run::run;
use program::start::start;
use std::process::ExitCode;

fn main(rt: HostRuntime) -> ExitCode {
    start(&rt, PROGRAM, USAGE, |words, lists, output, errors| {
        run(rt.alloc(), words, lists, output, errors)
    })
}
