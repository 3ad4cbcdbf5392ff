//! What follows from the contracts of a run and of the commands. Each function's contract is a law.

mod commands;
mod outputs;
mod routes;
mod runs;
mod sets;
mod uses;

pub use commands::{lines_about_one_network, lines_about_routes, lines_about_sets, other_lines};
pub use outputs::{output_without_refusals, plain_lines_ask_nothing, split_at_line_ends};
pub use routes::{a_run_begins_with_no_routes, routes_by_sets};
pub use runs::{after_a_read_fault, after_a_write_fault, after_ok, after_too_long_an_input};
pub use sets::{has_answers_membership, has4_answers_membership, rel_answers_sets};
