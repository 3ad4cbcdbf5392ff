//! Searches lists for addresses and networks.
ghost use Rattle.std.specs.Prelude.{◌≡◌, ◌≤◌, ◌∷◌, [], length, map, is_err};
ghost use Rattle.std.specs.List.{flat_map};
ghost use Rattle.program.specs.Messages.{Reports};
ghost use Rattle.cidr_merge.specs.Finds.{has_refused, has_slash, has_words, lists_matches};
ghost use Rattle.cidr_merge.specs.Finds.{match_lines, matches_by, relation_text};
ghost use Rattle.cidr_merge.specs.NumberedLines.{said_by};
ghost use Rattle.cidr_merge.specs.Private.Reported.{TellsFound};
ghost use Rattle.cidr_merge.specs.Private.LinesLeft.{sought_as, sought_in};
ghost use Rattle.cidr_merge.specs.Private.SoughtPlaces.{AreFound, AreQuery};

use crate::entry_match::{Relation, entry_of, relation_of};
use crate::findings::{either, tell_line, tell_refused};
use crate::numbered_lines::{Line, NumberedLines};
use crate::query::Query;
use crate::sought::Sought;
use crate::sought_places::put_found;
use crate::texts::WholeLists;
use lines::output::Output;
use lists::{Entry, Rules};
use std::io::Write;

/// What a search wrote.
#[derive(Clone, Copy, Debug, PartialEq, Eq)]
pub(crate) struct Reported {
    /// Whether a line was printed.
    pub printed: bool,
    /// Whether a refused line was reported.
    pub told: bool,
}

/// Prints the entries of lists that meet sought networks, and reports the refused lines.
pub(crate) fn search_lists<W: Write, E: Write>(
    query: &Query,
    buffer: &mut [usize],
    lists: &WholeLists<'_>,
    output: &mut Output<'_, W>,
    errors: &mut Output<'_, E>,
) -> Reported
    requires query { AreQuery query.now }
    requires room { length query.now.sought.items ≤ length buffer.old }
    ensures printed { TellsFound (lists_matches lists.now.rules (sought_in query.now)
        lists.now.names.now (map (λ text. text.items) lists.now.texts.now))
        output.old output.new result.printed }
    ensures told { result.told ≡ has_refused lists.now.rules
        (map (λ text. text.items) lists.now.texts.now) }
{
    let mut printed = false;
    let mut told = false;
    let mut lines = NumberedLines::of(lists);
    while let Some(line) = lines.next() {
        let more = search_line(lists.rules, query, buffer, &line, output, errors);
        printed = either(printed, more.printed);
        told = either(told, more.told);
    }
    Reported { printed, told }
}

// Searches a line that is read by these rules, or reports why it is refused.
fn search_line<W: Write, E: Write>(
    rules: Rules,
    query: &Query,
    buffer: &mut [usize],
    line: &Line<'_>,
    output: &mut Output<'_, W>,
    errors: &mut Output<'_, E>,
) -> Reported
    requires query { AreQuery query.now }
    requires room { length query.now.sought.items ≤ length buffer.old }
    ensures printed { TellsFound (matches_by (sought_in query.now) line.now.name.now
        line.now.number line.now.text.now (said_by rules line.now.text.now))
        output.old output.new result.printed }
    ensures told { result.told ≡ is_err (said_by rules line.now.text.now) }
{
    match entry_of(rules, line.text) {
        Ok(None) => Reported {
            printed: false,
            told: false,
        },
        Ok(Some(entry)) => Reported {
            printed: print_matches(query, buffer, line, &entry, output),
            told: false,
        },
        Err(fault) => {
            tell_refused(line, fault, errors);
            Reported {
                printed: false,
                told: true,
            }
        }
    }
}

// Prints a line for each of the networks sought that the entry of a line meets.
fn print_matches<W: Write>(
    query: &Query,
    buffer: &mut [usize],
    line: &Line<'_>,
    entry: &Entry,
    output: &mut Output<'_, W>,
) -> bool
    requires query { AreQuery query.now }
    requires room { length query.now.sought.items ≤ length buffer.old }
    ensures { TellsFound (flat_map (match_lines line.now.name.now line.now.number line.now.text.now
        entry.now) (sought_in query.now)) output.old output.new result }
{
    let count = put_found(query, entry, buffer);
    print_found(
        query.sought.as_slice(),
        &buffer[..count],
        line,
        entry,
        output,
    )
}

// Prints a line for each of the networks at these places that the entry of a line meets.
fn print_found<W: Write>(
    sought: &[Sought],
    places: &[usize],
    line: &Line<'_>,
    entry: &Entry,
    output: &mut Output<'_, W>,
) -> bool
    requires { AreFound entry.now sought.now places.now }
    ensures { TellsFound (flat_map (match_lines line.now.name.now line.now.number line.now.text.now
        entry.now) (map sought_as sought.now)) output.old output.new result }
{
    let mut printed = false;
    let mut next = 0;
    for at in 0..places.len() {
        let place = places[at];
        if place < next {
            continue;
        }
        let more = print_match(&sought[place], line, entry, output);
        printed = either(printed, more);
        next = place + 1;
    }
    printed
}

// Prints how the entry of a line relates to a network, if they share an address.
fn print_match<W: Write>(
    one: &Sought,
    line: &Line<'_>,
    entry: &Entry,
    output: &mut Output<'_, W>,
) -> bool
    ensures { TellsFound (match_lines line.now.name.now line.now.number line.now.text.now entry.now
        (sought_as one.now)) output.old output.new result }
{
    let text = one.text.as_slice();
    match relation_of(entry, &one.network) {
        Relation::HasAll => print_relation(has_words(text), text, line, output),
        Relation::LiesIn => print_relation(": lies in ", text, line, output),
        Relation::Meets => print_relation(": meets ", text, line, output),
        Relation::Apart => false,
    }
}

// Prints what the entry of a line is to the network of a text, and returns `true`: a line is
// printed.
fn print_relation<W: Write>(
    what: &str,
    text: &[u8],
    line: &Line<'_>,
    output: &mut Output<'_, W>,
) -> bool
    ensures { TellsFound (relation_text line.now.name.now line.now.number what.now text.now
        line.now.text.now ∷ []) output.old output.new result }
{
    tell_line(line, what, text, ": ", output);
    true
}

// What is reported of an entry that has all addresses of the network that a text names, which is an
// address if it has no `/`.
fn has_words(text: &[u8]) -> &'static str
    ensures { result.now ≡ has_words text.now }
{
    if has_slash(text) {
        ": has all of "
    } else {
        ": has "
    }
}

// Whether the text has a `/`.
fn has_slash(text: &[u8]) -> bool
    ensures { result ≡ has_slash text.now }
{
    text.iter().any(|byte| *byte == b'/')
}
