//! The run that the program makes.
ghost use Rattle.std.specs.Prelude.{◌≡◌, [], map};
ghost use Rattle.std.specs.String.{string_bytes};
ghost use Rattle.options.specs.Given.{inputs_of};
ghost use Rattle.program.specs.Endings.{ending};
ghost use Rattle.cidr_filter.specs.Runs.{EndsRequest, EndsAs, filter_of, family_of, is_stopped_by, most_of, up_to_one, shows_of, is_named};

use crate::filter::{Family, Filter, OutputMode};
use crate::help::{HELP, PROGRAM, USAGE, VERSION};
use crate::logs::filter_logs;
use crate::matcher::Matcher;
use crate::reading::{question_of, read_listed, rules_of};
use crate::rows::{
    BAD, COUNTS, INVERTS, MOST, NAMED, NAMES, NUL, NUMBERED, ONLY, ONLY_V4, ONLY_V6, QUIET,
    SKIPS_BAD, UNNAMED, table,
};
use crate::telling::{InOptions, names_of};
use line_addresses::Text;
use lines::output::Output;
use lists::{OpenLists, Refusals};
use log_programs::areas::area_of;
use log_programs::rows::MAPPED;
use log_programs::without_address::bad_in;
use options::asking::{About, asked};
use options::given::{inputs_of, is_given, value_of};
use options::items::Item;
use options::values::number_in;
use program::ending::FAILED;
use program::log_reader::BUFFER_LEN;
use program::memory::refuse_memory;
use program::telling::{tell_fault, tell_refusals};
use std::alloc::Global;
use std::io::Write;

/// Does what the words after the program's name ask for, and returns the exit status.
pub(crate) fn run<L: OpenLists, W: Write, E: Write>(
    alloc: Global,
    words: &[String],
    lists: &L,
    output: &mut Output<'_, W>,
    errors: &mut Output<'_, E>,
) -> u8
    ensures { EndsAs PROGRAM.now HELP.now VERSION.now (L.known lists.now) words.now
        (ending output.old output.new errors.old errors.new result) }
{
    let about = About {
        program: PROGRAM,
        help: HELP,
        version: VERSION,
        usage: USAGE,
    };
    match asked(alloc, &about, &table(), words, output, errors) {
        Ok(items) => filter(alloc, items.as_slice(), lists, output, errors),
        Err(status) => status,
    }
}

// Does what is asked for.
fn filter<L: OpenLists, W: Write, E: Write>(
    alloc: Global,
    items: &[Item<'_>],
    lists: &L,
    output: &mut Output<'_, W>,
    errors: &mut Output<'_, E>,
) -> u8
    ensures { EndsRequest (L.known lists.now) items.now
        (ending output.old output.new errors.old errors.new result) }
{
    let Ok(names) = names_of(alloc, items) else {
        return refuse_memory(PROGRAM, errors);
    };
    let Ok(files) = inputs_of(alloc, items) else {
        return refuse_memory(PROGRAM, errors);
    };
    filter_files(
        alloc,
        items,
        names.as_slice(),
        files.as_slice(),
        lists,
        output,
        errors,
    )
}

// Reads the lists, reports the refused lines by these names of the lists, and then filters these
// logs, unless refused lines end the run or memory runs out.
fn filter_files<L: OpenLists, W: Write, E: Write>(
    alloc: Global,
    items: &[Item<'_>],
    names: &[String],
    files: &[String],
    lists: &L,
    output: &mut Output<'_, W>,
    errors: &mut Output<'_, E>,
) -> u8
    requires files { map string_bytes files.now ≡ inputs_of items.now }
    ensures { EndsRequest (L.known lists.now) items.now
        (ending output.old output.new errors.old errors.new result) }
{
    let question = question_of(items);
    let (listed, refusals, read) = read_listed(alloc, lists, items, question);
    let form = rules_of(items).form;
    tell_refusals(
        PROGRAM,
        names,
        &InOptions { items },
        form,
        &refusals,
        errors,
    );
    if let Err(fault) = read {
        tell_fault(PROGRAM, names, &[], fault, errors);
        return FAILED;
    }
    if is_stopped_by(items, &refusals) {
        return FAILED;
    }
    let Ok(listed) = listed else {
        return refuse_memory(PROGRAM, errors);
    };
    let Ok(mut buffer) = vec![in alloc; 0u8; BUFFER_LEN] else {
        return refuse_memory(PROGRAM, errors);
    };
    let mut filter = filter_of(items, files, listed);
    filter_logs(
        &mut filter,
        lists,
        files,
        buffer.as_mut_slice(),
        output,
        errors,
    )
}

// Returns whether refused lines of lists end the run: if there is one, unless they are skipped.
fn is_stopped_by(items: &[Item<'_>], refusals: &Refusals) -> bool
    ensures { result ≡ is_stopped_by items.now refusals.now }
{
    !refusals.is_empty() && !is_given(items, SKIPS_BAD)
}

// Returns the filter that is asked for, for logs with these names.
fn filter_of<'a>(items: &[Item<'a>], files: &[String], listed: Matcher) -> Filter<'a>
    requires { map string_bytes files.now ≡ inputs_of items.now }
    ensures { result ≡ filter_of items.now listed }
{
    Filter {
        listed,
        area: area_of(items),
        mapped: is_given(items, MAPPED),
        family: family_of(items),
        inverts: is_given(items, INVERTS),
        bad: bad_in(value_of(items, BAD)),
        most: most_of(items),
        shows: shows_of(items),
        named: is_named(items, files),
        numbered: is_given(items, NUMBERED),
        nul: is_given(items, NUL),
        name: no_name(),
    }
}

// Returns the family whose addresses count.
fn family_of(items: &[Item<'_>]) -> Family
    ensures { result ≡ family_of items.now }
{
    if is_given(items, ONLY_V4) {
        Family::V4
    } else if is_given(items, ONLY_V6) {
        Family::V6
    } else {
        Family::Either
    }
}

// Returns how many lines of a log may be selected at most.
fn most_of(items: &[Item<'_>]) -> Option<u64>
    ensures { result ≡ most_of items.now }
{
    let most = number_in(value_of(items, MOST));
    if is_given(items, QUIET) || is_given(items, NAMES) {
        up_to_one(most)
    } else {
        most
    }
}

// Returns at most one: none if no line may be selected.
fn up_to_one(most: Option<u64>) -> Option<u64>
    ensures { result ≡ up_to_one most }
{
    match most {
        Some(most) => Some(most.min(1)),
        None => Some(1),
    }
}

// What is printed.
fn shows_of(items: &[Item<'_>]) -> OutputMode
    ensures { result ≡ shows_of items.now }
{
    if is_given(items, QUIET) {
        OutputMode::Nothing
    } else if is_given(items, NAMES) {
        OutputMode::Names
    } else if is_given(items, COUNTS) {
        OutputMode::Count
    } else if is_given(items, ONLY) {
        OutputMode::Addresses
    } else {
        OutputMode::Lines
    }
}

// Returns whether the name of a log is printed before a line or before the number of its lines.
fn is_named(items: &[Item<'_>], files: &[String]) -> bool
    requires { map string_bytes files.now ≡ inputs_of items.now }
    ensures { result ≡ is_named items.now }
{
    if is_given(items, NAMED) || is_given(items, NAMES) {
        return true;
    }
    is_given(items, COUNTS) && files.len() > 1 && !is_given(items, UNNAMED)
}

// No name before lines.
fn no_name<'a>() -> Text<'a>
    ensures { result ≡ [] }
{
    Text::new(b"".as_slice())
}
