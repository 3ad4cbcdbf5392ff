//! The run that the program makes.
ghost use Rattle.std.specs.Prelude.{◌≡◌, ◌⊎◌, map};
ghost use Rattle.std.specs.String.{string_bytes};
ghost use Rattle.options.specs.Given.{inputs_of};
ghost use Rattle.program.specs.Endings.{ending};
ghost use Rattle.cidr_join.specs.Lists.{list_text};
ghost use Rattle.cidr_join.specs.Runs.{EndsRequest, EndsFiles, EndsAs, EndsAsked, EndsJoining, RunsOut, answers_by, join_of, lacks_tally, lengths_of, rules_of};

use crate::answers::Answers;
use crate::help::{HELP, PROGRAM, USAGE, VERSION};
use crate::join::Join;
use crate::lengths::Lengths;
use crate::list::ListRules;
use crate::logs::join_logs;
use crate::reading::{ReadList, read_lists, take_lists};
use crate::routes::Routes;
use crate::rows::{
    BAD, GROUP, LAST, LAST_WINS, NETWORK, NETWORKS, RANGES, SKIPS_BAD, STRICT, TALLY, ZERO, table,
};
use crate::tally_logs::tally_logs;
use crate::whole::tell_cut_if_asked;
use lines::output::Output;
use lists::OpenLists;
use log_programs::areas::area_of;
use log_programs::rows::MAPPED;
use log_programs::without_address::bad_in;
use options::asking::{About, asked};
use options::faults::{Subject, about};
use options::given::{inputs_of, is_given, value_of};
use options::items::Item;
use options::refusing::refuse;
use options::values::lengths_in;
use program::ending::FAILED;
use program::log_reader::BUFFER_LEN;
use program::memory::refuse_memory;
use std::alloc::Global;
use std::io::Write;

/// Does what the words after the program's name ask for, and returns the exit status.
pub(crate) fn run<L: OpenLists, W: Write, E: Write>(
    alloc: Global,
    words: &[String],
    lists: &L,
    output: &mut Output<'_, W>,
    errors: &mut Output<'_, E>,
) -> u8
    ensures { EndsAs PROGRAM.now HELP.now VERSION.now (L.known lists.now) words.now
        (ending output.old output.new errors.old errors.new result) }
{
    let about = About {
        program: PROGRAM,
        help: HELP,
        version: VERSION,
        usage: USAGE,
    };
    match asked(alloc, &about, &table(), words, output, errors) {
        Ok(items) => join(alloc, items.as_slice(), lists, output, errors),
        Err(status) => status,
    }
}

// Does what is asked for.
fn join<L: OpenLists, W: Write, E: Write>(
    alloc: Global,
    items: &[Item<'_>],
    lists: &L,
    output: &mut Output<'_, W>,
    errors: &mut Output<'_, E>,
) -> u8
    ensures { EndsRequest (L.known lists.now) items.now
        (ending output.old output.new errors.new errors.new result) }
{
    if lacks_tally(items) {
        let fault = about(Subject::CommandLine, "--zero goes only with --tally");
        return refuse(PROGRAM, USAGE, &[], &fault, errors);
    }
    match inputs_of(alloc, items) {
        Ok(files) => join_files(alloc, items, files.as_slice(), lists, output, errors),
        Err(_) => refuse_memory(PROGRAM, errors),
    }
}

// Whether `--zero` is given without `--tally`.
fn lacks_tally(items: &[Item<'_>]) -> bool
    ensures { result ≡ lacks_tally items.now }
{
    is_given(items, ZERO) && !is_given(items, TALLY)
}

// Reads the list and joins these logs to it, or, with `--group`, groups their lines in blocks.
fn join_files<L: OpenLists, W: Write, E: Write>(
    alloc: Global,
    items: &[Item<'_>],
    files: &[String],
    lists: &L,
    output: &mut Output<'_, W>,
    errors: &mut Output<'_, E>,
) -> u8
    requires { map string_bytes files.now ≡ inputs_of items.now }
    ensures { RunsOut (ending output.old output.new errors.new errors.new result)
        ⊎ EndsFiles (L.known lists.now) items.now
        (ending output.old output.new errors.new errors.new result) }
{
    if let Some(lengths) = lengths_of(items) {
        let answers = Answers::Blocks(lengths);
        return join_by(alloc, items, files, answers, lists, output, errors);
    }
    let Some(read) = read_lists(alloc, lists, items, errors) else {
        return FAILED;
    };
    let read = read.as_slice();
    if tell_cut_if_asked(items, read, errors) {
        return FAILED;
    }
    join_to(alloc, items, files, read, lists, output, errors)
}

// The lengths of the blocks in which lines are grouped, if they are.
fn lengths_of(items: &[Item<'_>]) -> Option<Lengths>
    ensures { result ≡ lengths_of items.now }
{
    match lengths_in(value_of(items, GROUP)) {
        Some((v4, v6)) => Some(Lengths { v4, v6 }),
        None => None,
    }
}

// Joins the logs to the list with this name and these bytes, or counts their lines by it.
fn join_to<L: OpenLists, W: Write, E: Write>(
    alloc: Global,
    items: &[Item<'_>],
    files: &[String],
    read: &[ReadList<'_>],
    lists: &L,
    output: &mut Output<'_, W>,
    errors: &mut Output<'_, E>,
) -> u8
    requires { map string_bytes files.now ≡ inputs_of items.now }
    ensures { RunsOut (ending output.old output.new errors.new errors.new result)
        ⊎ EndsJoining (L.known lists.now) items.now (map list_text read.now)
        (ending output.old output.new errors.new errors.new result) }
{
    let Some(networks) = take_lists(alloc, read, rules_of(items), errors) else {
        return FAILED;
    };
    let Ok(routes) = Routes::of(alloc, networks) else {
        return refuse_memory(PROGRAM, errors);
    };
    let network = is_given(items, NETWORK);
    let answers = answers_by(network, routes);
    join_by(alloc, items, files, answers, lists, output, errors)
}

// Returns how the lines of the list are taken.
fn rules_of(items: &[Item<'_>]) -> ListRules
    ensures { result ≡ rules_of items.now }
{
    ListRules {
        last_wins: is_given(items, LAST_WINS),
        bare: is_given(items, NETWORK),
        ranges: is_given(items, RANGES),
        strict: is_given(items, STRICT),
        skips: is_given(items, SKIPS_BAD),
    }
}

// Returns what is printed for addresses by the routes of a list: networks or values.
fn answers_by(network: bool, routes: Routes<'_>) -> Answers<'_>
    ensures { result ≡ answers_by network routes.entry }
{
    if network {
        Answers::Networks(routes)
    } else {
        Answers::Values(routes)
    }
}

// Joins the logs or counts their lines; `answers` decides what is printed for addresses.
fn join_by<'a, L: OpenLists, W: Write, E: Write>(
    alloc: Global,
    items: &[Item<'a>],
    files: &[String],
    answers: Answers<'a>,
    lists: &L,
    output: &mut Output<'_, W>,
    errors: &mut Output<'_, E>,
) -> u8
    requires { map string_bytes files.now ≡ inputs_of items.now }
    ensures { RunsOut (ending output.old output.new errors.new errors.new result)
        ⊎ EndsAsked (L.known lists.now) items.now answers.entry
        (ending output.old output.new errors.new errors.new result) }
{
    let Ok(mut buffer) = vec![in alloc; 0u8; BUFFER_LEN] else {
        return refuse_memory(PROGRAM, errors);
    };
    let join = join_of(items, answers);
    let buffer = buffer.as_mut_slice();
    if is_given(items, TALLY) {
        return tally_logs(alloc, &join, lists, buffer, files, output, errors);
    }
    join_logs(&join, lists, files, buffer, output, errors)
}

// Returns what decides what is printed for a line.
fn join_of<'a>(items: &[Item<'a>], answers: Answers<'a>) -> Join<'a>
    ensures { result ≡ join_of items.now answers.entry }
{
    Join {
        answers,
        area: area_of(items),
        networks: is_given(items, NETWORKS),
        mapped: is_given(items, MAPPED),
        last: is_given(items, LAST),
        bad: bad_in(value_of(items, BAD)),
        zeros: is_given(items, ZERO),
    }
}
