//! A run of the program.
ghost use Rattle.std.specs.Prelude.{◌≡◌, ◌≤◌, ℕ, List, [], length, if◌then◌else◌};
ghost use Rattle.std.specs.Prelude.{OnOk, IfErr, is_err};
ghost use Rattle.program.specs.Endings.{ending};
ghost use Rattle.cidr_merge.specs.Answers.{IsAnswer};
ghost use Rattle.cidr_merge.specs.Private.Printing.{WritesOrFails};
ghost use Rattle.cidr_merge.specs.Private.Words.{IsCommandWithin};
ghost use Rattle.cidr_merge.specs.Endings.{EndsAs, EndsBy, EndsCommand};
ghost use Rattle.cidr_merge.specs.Reading.{ReadsSides};
ghost use Rattle.cidr_merge.specs.Runs.{answer_status, EndsAnswering, EndsMerging};
ghost use Rattle.cidr_merge.specs.Stopping.{StopsInSides};

use crate::command_line::{Command, Operation, Request, command_of};
use crate::context::Context;
use crate::find::find;
use crate::free::free;
use crate::held_back::is_held_back;
use crate::help::{HELP, PROGRAM, USAGE, VERSION};
use crate::inspecting::inspect;
use crate::printing::{Merging, print};
use crate::reading::{Sets, read_side, refuse_lists};
use crate::reduce::reduce;
use crate::rows::table;
use crate::shapes::rules_of;
use crate::spelling::{is_short, spelled_out};
use crate::split::split;
use lines::fault::RunFault;
use lines::output::Output;
use lists::{OpenLists, ReadFault, Refusals};
use options::refusing::refuse;
use options::table::Row;
use program::ending::{FAILED, end, print_text};
use program::memory::refuse_memory;
use program::start::text_asked;
use program::telling::{InLists, tell_refusals};
use std::alloc::Global;
use std::io::Write;

/// Does what the words after the program's name ask for, and returns the exit status.
pub(crate) fn run<L: OpenLists, W: Write, E: Write>(
    alloc: Global,
    words: &[String],
    lists: &L,
    output: &mut Output<'_, W>,
    errors: &mut Output<'_, E>,
) -> u8
    ensures { EndsAs HELP.now VERSION.now (L.known lists.now) words.now
        (ending output.old output.new errors.old errors.new result) }
{
    if let Some(text) = text_asked(HELP, VERSION, words) {
        return print_text(PROGRAM, text, output, errors);
    }
    if !is_short(words) {
        return ask(alloc, words, lists, output, errors);
    }
    match spelled_out(alloc, words) {
        Ok(words) => ask(alloc, words.as_slice(), lists, output, errors),
        Err(_) => refuse_memory(PROGRAM, errors),
    }
}

// Does what the words ask for, none of which is left out, and returns the exit status.
fn ask<L: OpenLists, W: Write, E: Write>(
    alloc: Global,
    words: &[String],
    lists: &L,
    output: &mut Output<'_, W>,
    errors: &mut Output<'_, E>,
) -> u8
    ensures { EndsBy (L.known lists.now) words.now
        (ending output.old output.new errors.old errors.new result) }
{
    let table = table();
    match command_of(alloc, &table, words) {
        Ok(Ok(asked)) => {
            let names = asked.names.as_slice();
            let context = Context {
                alloc,
                names,
                lists,
                sets: &asked.sets,
            };
            obey(asked.command, table.rows, &context, output, errors)
        }
        Ok(Err(fault)) => refuse(PROGRAM, USAGE, table.rows, &fault, errors),
        Err(_) => refuse_memory(PROGRAM, errors),
    }
}

// Runs a command, and returns the exit status.
fn obey<L: OpenLists, W: Write, E: Write>(
    command: Command,
    rows: &[Row],
    context: &Context<'_, L>,
    output: &mut Output<'_, W>,
    errors: &mut Output<'_, E>,
) -> u8
    requires { IsCommandWithin (length context.now.names.now) command }
    ensures { EndsCommand (L.known context.now.lists.now) context.now.names.now
        context.now.sets.now command output.old output.new result }
{
    match command {
        Command::Merge(request) => merge(request, context, output, errors),
        Command::Split(request) => split(request, context, output, errors),
        Command::Reduce(request) => reduce(request, context, output, errors),
        Command::Inspect(inspection, rules) => {
            inspect(inspection, rules, context, output, errors)
        }
        Command::Find(middle, from, rules) => {
            find(middle, from, rules, rows, context, output, errors)
        }
        Command::Free(request) => free(request, context, output, errors),
    }
}

// Reads the lists of both sides, prints the result of the operation, and returns the exit status.
fn merge<L: OpenLists, W: Write, E: Write>(
    request: Request,
    context: &Context<'_, L>,
    output: &mut Output<'_, W>,
    errors: &mut Output<'_, E>,
) -> u8
    requires { request.middle ≤ length context.now.names.now }
    ensures { EndsMerging (L.known context.now.lists.now) context.now.names.now
        context.now.sets.now request output.old output.new result }
{
    let (first, second, refusals, read) = read_sides(request, context);
    let form = rules_of(request.shape).form;
    tell_refusals(PROGRAM, context.names, &InLists, form, &refusals, errors);
    match read {
        Ok(()) => {
            let merging = Merging {
                request,
                sets: context.sets,
                first: &first,
                second: &second,
            };
            answer(&merging, !refusals.is_empty(), output, errors)
        }
        Err(fault) => refuse_lists(context, fault, errors),
    }
}

/// Reads the lists of both sides. The lists of the second side are read only if those of the first
/// were read to their ends.
pub(crate) fn read_sides<L: OpenLists>(
    request: Request,
    context: &Context<'_, L>,
) -> (Sets, Sets, Refusals, Result<(), ReadFault>)
    requires { request.middle ≤ length context.now.names.now }
    ensures read { OnOk result.3 (ReadsSides (L.known context.now.lists.now)
        context.now.sets.now.fields context.now.sets.now.only context.now.names.now request
        result.0 result.1 result.2) }
    ensures stopped { IfErr result.3 (StopsInSides (L.known context.now.lists.now)
        context.now.sets.now.fields context.now.sets.now.only context.now.names.now request) }
{
    let shape = request.shape;
    let none = Refusals::new();
    let middle = request.middle;
    let (first, refusals, read) = read_side(context, shape, &context.names[..middle], 0, none);
    let others = lists_behind(&read, &context.names[middle..]);
    let (second, refusals, end) = read_side(context, shape, others, middle, refusals);
    match read {
        Ok(()) => (first, second, refusals, end),
        Err(fault) => (first, second, refusals, Err(fault)),
    }
}

// Returns the lists of the second side to read: none if those of the first could not be read.
fn lists_behind<'a>(read: &Result<(), ReadFault>, names: &'a [String]) -> &'a [String]
    ensures { result.now ≡ (if is_err read.now then [] else names.now) }
{
    if read.is_err() { &[] } else { names }
}

/// Prints the result of the operation, unless lines were refused that are not to be skipped, or it
/// is held back, and returns the exit status.
pub(crate) fn answer<W: Write, E: Write>(
    merging: &Merging<'_>,
    skips: bool,
    output: &mut Output<'_, W>,
    errors: &mut Output<'_, E>,
) -> u8
    ensures { let m = merging.now in EndsAnswering m.sets.now m.request skips
        m.first.now m.second.now output.old output.new result }
{
    let request = merging.request;
    if skips && !request.skips_bad {
        return FAILED;
    }
    if is_held_back(merging, errors) {
        return FAILED;
    }
    let status = status(request.operation, skips, merging.first, merging.second);
    let written = write_answer(merging, output);
    end(PROGRAM, written, status, errors)
}

// Writes the result of the operation.
fn write_answer<W: Write>(merging: &Merging<'_>, output: &mut Output<'_, W>) -> Result<(), RunFault>
    ensures { let m = merging.now in (text : List ℕ)
        × IsAnswer m.sets.now m.request.operation m.request.form m.first.now m.second.now text
        × WritesOrFails result output.old output.new text }
{
    print(merging, output)?;
    output.finish()
}

/// The exit status if the result was written and nothing below applies.
const ANSWERED: u8 = 0;

/// The exit status of `differ` if the sides are not equal.
const UNEQUAL: u8 = 1;

/// The exit status if the result was written and lines were skipped.
const SKIPPED: u8 = 3;

// Returns the exit status after the result was written.
fn status(operation: Operation, skips: bool, first: &Sets, second: &Sets) -> u8
    ensures { result ≡ answer_status operation skips first.now second.now }
{
    if skips {
        return SKIPPED;
    }
    match operation {
        Operation::Differ if !(first.v4 == second.v4 && first.v6 == second.v6) => UNEQUAL,
        _ => ANSWERED,
    }
}
