//! Runs a `find`.
ghost use Rattle.std.specs.Prelude.{◌≡◌, ◌≤◌, ◌+◌, ◌++◌, take, length, map, if◌then◌else◌, IfOk};
ghost use Rattle.cidr_merge.specs.FindRuns.{EndsFind, EndsReadingAll, EndsSearching};
ghost use Rattle.cidr_merge.specs.FindWords.{AreNetworks, with_networks};
ghost use Rattle.cidr_merge.specs.Private.LinesLeft.{sought_in};
ghost use Rattle.cidr_merge.specs.Private.SoughtPlaces.{AreQuery};
ghost use Rattle.cidr_merge.specs.SoughtLines.{has_other, lists_sought};
ghost use Rattle.cidr_merge.specs.Texts.{whole};

use crate::context::Context;
use crate::faults::at;
use crate::findings::either;
use crate::help::{PROGRAM, USAGE};
use crate::query::{Query, QueryFault, networks_of};
use crate::reading::refuse_lists;
use crate::searching::search_lists;
use crate::sought::{add_lines, sought_in_words, tell_others};
use crate::sought_places::places_of;
use crate::texts::{WholeLists, texts_of};
use arrayvec::ArrayString;
use ipnetwork::IpNetwork;
use lines::output::Output;
use lists::{EntryFault, LineFault, OpenLists, Rules, meant};
use options::refusing::refuse;
use options::table::Row;
use program::command_line::text_at;
use program::ending::{FAILED, end};
use program::memory::refuse_memory;
use std::alloc::{AllocError, Global};
use std::io::Write;

/// The exit status if an entry was printed.
const FOUND: u8 = 0;

/// The exit status if no entry meets a sought network.
const NOTHING_FOUND: u8 = 1;

/// Runs a `find`, and returns the exit status. The first `middle` names are addresses and
/// networks, the next `from` name lists of such, and the others name the lists to search, which are
/// read by these rules. If lists have to be whole, nothing is printed if a FILE does not end with a
/// line feed.
pub(crate) fn find<L: OpenLists, W: Write, E: Write>(
    middle: usize,
    from: usize,
    rules: Rules,
    rows: &[Row],
    context: &Context<'_, L>,
    output: &mut Output<'_, W>,
    errors: &mut Output<'_, E>,
) -> u8
    requires { middle + from ≤ length context.now.names.now }
    ensures { EndsFind (whole (L.known context.now.lists.now) rules.is_whole) rules
        context.now.names.now middle from output.old output.new result }
{
    match networks_of(context.alloc, &context.names[..middle], 0) {
        Ok(networks) => {
            let networks = networks.as_slice();
            find_all(middle, from, rules, networks, context, output, errors)
        }
        Err(fault) => refuse_sought(rows, fault, context.names, errors),
    }
}

// Reports why words are not taken as addresses and networks, and returns the exit status.
fn refuse_sought<E: Write>(
    rows: &[Row],
    fault: QueryFault,
    words: &[String],
    errors: &mut Output<'_, E>,
) -> u8
    ensures { result ≡ 2 }
{
    match fault {
        QueryFault::Wrong(place, fault) => {
            let word = text_at(words, place);
            let problem = problem_of(word, fault);
            refuse(PROGRAM, USAGE, rows, &at(word, problem.as_str()), errors)
        }
        QueryFault::OutOfMemory => refuse_memory(PROGRAM, errors),
    }
}

/// The greatest length of a problem with a word: a network takes at most 49 bytes of it.
const PROBLEM_MAX: usize = 96;

// Why a word is not taken, and what would do in its place.
fn problem_of(word: &str, fault: EntryFault) -> ArrayString<PROBLEM_MAX> {
    let mut problem = ArrayString::new();
    let (what, end) = match fault {
        EntryFault::HostBits => ("a network with host bits", ", or an address)"),
        _ => ("not an address or network", ")"),
    };
    add(what, &mut problem);
    // What has host bits would not be taken.
    if let Some(network) = meant(LineFault::Entry(fault), word.as_bytes()) {
        if network.ip() == network.network() {
            add(" (write ", &mut problem);
            add(network.canonical().as_str(), &mut problem);
            add(end, &mut problem);
        }
    }
    problem
}

// Adds a text to a problem, if there is room for it.
fn add(text: &str, problem: &mut ArrayString<PROBLEM_MAX>) {
    let _ = problem.try_push_str(text);
}

// Reads the lists, and prints the entries that meet one of these networks, or one of those in the
// lists of networks.
fn find_all<L: OpenLists, W: Write, E: Write>(
    middle: usize,
    from: usize,
    rules: Rules,
    networks: &[IpNetwork],
    context: &Context<'_, L>,
    output: &mut Output<'_, W>,
    errors: &mut Output<'_, E>,
) -> u8
    requires words { middle + from ≤ length context.now.names.now }
    requires networks { AreNetworks (take middle context.now.names.now) networks.now }
    ensures { EndsReadingAll (whole (L.known context.now.lists.now) rules.is_whole) rules
        context.now.names.now middle from networks.now output.old output.new result }
{
    let names = &context.names[middle..];
    let texts = match texts_of(context, names, middle, rules.is_whole) {
        Ok(texts) => texts,
        Err(fault) => return refuse_lists(context, fault, errors),
    };
    let (from_names, list_names) = names.split_at(from);
    let (from_texts, list_texts) = texts.as_slice().split_at(from);
    let froms = WholeLists {
        names: from_names,
        texts: from_texts,
        rules: Rules::lenient(),
    };
    let lists = WholeLists {
        names: list_names,
        texts: list_texts,
        rules,
    };
    match all_sought(context.alloc, &context.names[..middle], networks, &froms) {
        Ok((query, mut buffer)) => {
            search(
                &query,
                buffer.as_mut_slice(),
                &froms,
                &lists,
                output,
                errors,
            )
        }
        Err(_) => refuse_memory(PROGRAM, errors),
    }
}

// The networks that words name, and those of lists, and a buffer for as many places.
fn all_sought(
    alloc: Global,
    words: &[String],
    networks: &[IpNetwork],
    froms: &WholeLists<'_>,
) -> Result<(Query, Vec<usize>), AllocError>
    requires { length networks.now ≡ length words.now }
    ensures sought { IfOk result (λ all. sought_in all.0 ≡ with_networks words.now networks.now
        ++ lists_sought (map (λ text. text.items) froms.now.texts.now)) }
    ensures query { IfOk result (λ all. AreQuery all.0) }
    ensures room { IfOk result (λ all. length all.0.sought.items ≤ length all.1.items) }
{
    let mut sought = sought_in_words(alloc, words, networks)?;
    add_lines(alloc, froms, &mut sought)?;
    let v4 = places_of(alloc, sought.as_slice(), false)?;
    let v6 = places_of(alloc, sought.as_slice(), true)?;
    let buffer = vec![in alloc; 0usize; sought.len()]?;
    Ok((Query { sought, v4, v6 }, buffer))
}

// Prints the entries that meet a sought network, and reports the refused lines, those of the lists
// of networks first.
fn search<W: Write, E: Write>(
    query: &Query,
    buffer: &mut [usize],
    froms: &WholeLists<'_>,
    lists: &WholeLists<'_>,
    output: &mut Output<'_, W>,
    errors: &mut Output<'_, E>,
) -> u8
    requires query { AreQuery query.now }
    requires room { length query.now.sought.items ≤ length buffer.old }
    ensures { EndsSearching lists.now.rules (sought_in query.now)
        (has_other (map (λ text. text.items) froms.now.texts.now))
        lists.now.names.now (map (λ text. text.items) lists.now.texts.now)
        output.old output.new result }
{
    let told = tell_others(froms, errors);
    let reported = search_lists(query, buffer, lists, output, errors);
    let written = output.finish();
    let status = status(reported.printed, either(told, reported.told));
    end(PROGRAM, written, status, errors)
}

// The exit status, given whether an entry was printed and whether a refused line was reported.
fn status(printed: bool, told: bool) -> u8
    ensures { result ≡ (if told then 2 else if printed then 0 else 1) }
{
    if told {
        FAILED
    } else if printed {
        FOUND
    } else {
        NOTHING_FOUND
    }
}
