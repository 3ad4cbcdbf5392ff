//! Merges lists of networks: prints the result of an operation on them as the shortest list.
#![tactic(auto)]

mod addresses;
mod bounds;
mod checking;
mod command_line;
mod context;
mod counts;
mod cutting;
mod dashes;
mod elements;
mod entry_match;
mod exporting;
mod exports;
mod families;
mod faults;
mod field_names;
mod find;
mod findings;
mod free;
mod free_task;
mod held_back;
mod help;
mod hosts;
mod inspecting;
mod merge_join;
mod named_lists;
mod numbered_lines;
mod overlapping;
mod placed;
mod placing;
mod printing;
mod query;
mod reading;
mod reduce;
mod repeating;
mod rows;
mod run;
mod searching;
mod set_names;
mod shapes;
mod share;
mod side_parts;
mod sought;
mod sought_places;
mod spelling;
mod split;
mod sweep;
mod tasks;
mod text_lines;
mod texts;
mod usage;

use crate::help::{PROGRAM, USAGE};
use crate::run::run;
use program::start::start;
use std::process::ExitCode;

fn main(rt: HostRuntime) -> ExitCode {
    start(&rt, PROGRAM, USAGE, |words, lists, output, errors| {
        run(rt.alloc(), words, lists, output, errors)
    })
}
