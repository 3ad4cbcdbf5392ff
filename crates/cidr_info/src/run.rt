//! A run of the program.
ghost use Rattle.std.specs.Prelude.{◌≡◌, ◌⊎◌, IfOk, IfErr, OnOk, OnErr};
ghost use Rattle.std.specs.List.{list_any};
ghost use Rattle.std.specs.Option.{is_none};
ghost use Rattle.lines.specs.Outputs.{Writes};
ghost use Rattle.program.specs.Endings.{ending};
ghost use Rattle.cidr_info.specs.Runs.{EndsAs, EndsReading, EndsSaid, LacksMemory, FailsWriting, are_right, is_outer_right, outer_of, is_within, all_within, within_status, status_of, form_of, answer_text, IsInput, NoInput};
ghost use Rattle.cidr_info.specs.Words.{words_said};

use crate::field::Form;
use crate::help::{HELP, PROGRAM, VERSION};
use crate::printing::put_infos;
use crate::rows::{IN, JSON, NO_NETWORK, ZONES, table};
use crate::said::{Said, network_in};
use crate::said_words::{reads_input, words_said};
use crate::telling::{refuse_words, tell_input_fault, tell_refusals};
use ipnetwork::{IpNetwork, laws};
use lines::fault::RunFault;
use lines::output::Output;
use lists::{BytesFault, OpenLists, read_bytes};
use options::faults::{Fault, Subject, about};
use options::given::{is_given, value_of};
use options::items::{Item, Text};
use options::operands::operands_fault;
use options::reading::items_of;
use options::table::Table;
use program::ending::{FAILED, end, print_text};
use program::memory::refuse_memory;
use program::start::text_asked;
use std::alloc::Global;
use std::io::Write;

/// The most bytes that are read of standard input.
const INPUT_MAX: usize = 1_073_741_824;

/// Does what the words after the program's name ask for, and returns the exit status.
pub(crate) fn run<L: OpenLists, W: Write, E: Write>(
    alloc: Global,
    words: &[String],
    lists: &L,
    output: &mut Output<'_, W>,
    errors: &mut Output<'_, E>,
) -> u8
    ensures { EndsAs HELP.now VERSION.now (L.known lists.now) words.now
        (ending output.old output.new errors.old errors.new result) }
{
    let table = table();
    if let Some(text) = text_asked(HELP, VERSION, words) {
        return print_text(PROGRAM, text, output, errors);
    }
    let Ok(items) = items_of(alloc, table.rows, words) else {
        return refuse_memory(PROGRAM, errors);
    };
    if let Some(fault) = fault_of(&table, items.as_slice()) {
        return refuse_words(table.rows, &fault, errors);
    }
    read(alloc, items.as_slice(), lists, output, errors)
}

// Returns what is wrong with a command line: with its words, or else with the value of `--in`.
fn fault_of<'a>(table: &Table<'_>, items: &[Item<'a>]) -> Option<Fault<'a>>
    ensures { is_none result ≡ are_right table.now items.now }
{
    match operands_fault(table, items) {
        Some(fault) => Some(fault),
        None => in_fault(items),
    }
}

// Returns the fault of `--in`, if the option is given with a value that names no network.
fn in_fault<'a>(items: &[Item<'a>]) -> Option<Fault<'a>>
    ensures { is_none result ≡ is_outer_right items.now }
{
    if is_given(items, IN) && outer_of(items).is_none() {
        let value = Text::new(value_of(items, IN));
        return Some(about(Subject::Value(IN, value), NO_NETWORK));
    }
    None
}

// Returns the network that the value of `--in` names, if the option is given and its value names
// one.
fn outer_of(items: &[Item<'_>]) -> Option<IpNetwork>
    ensures { result ≡ outer_of items.now }
{
    if is_given(items, IN) {
        network_in(value_of(items, IN).as_bytes())
    } else {
        None
    }
}

// Reads standard input, if a word asks for it, and then answers.
fn read<L: OpenLists, W: Write, E: Write>(
    alloc: Global,
    items: &[Item<'_>],
    lists: &L,
    output: &mut Output<'_, W>,
    errors: &mut Output<'_, E>,
) -> u8
    ensures { EndsReading (L.known lists.now) items.now
        (ending output.old output.new errors.old errors.new result) }
{
    match input_of(alloc, items, lists) {
        Ok(input) => answer(alloc, items, input.as_slice(), output, errors),
        Err(fault) => {
            tell_input_fault(fault, errors);
            FAILED
        }
    }
}

// Returns the bytes of standard input, or none if no word asks for it.
fn input_of<L: OpenLists>(
    alloc: Global,
    items: &[Item<'_>],
    lists: &L,
) -> Result<Vec<u8>, BytesFault>
    ensures ok { IfOk result (λ input. IsInput (L.known lists.now) items.now input.items) }
    ensures err { IfErr result (NoInput (L.known lists.now) items.now) }
{
    if reads_input(items) {
        read_bytes(alloc, lists, "-", INPUT_MAX)
    } else {
        Ok(Vec::new(alloc))
    }
}

// Answers the words of the command line, with the lines of this input in the place of `-`.
fn answer<W: Write, E: Write>(
    alloc: Global,
    items: &[Item<'_>],
    input: &[u8],
    output: &mut Output<'_, W>,
    errors: &mut Output<'_, E>,
) -> u8
    ensures { let end = ending output.old output.new errors.old errors.new result in
        LacksMemory end ⊎ EndsSaid items.now (words_said input.now items.now) end }
{
    let Ok(all) = words_said(alloc, items, input) else {
        return refuse_memory(PROGRAM, errors);
    };
    let all = all.as_slice();
    tell_refusals(all, errors);
    let status = status_of(outer_of(items), all);
    let written = write_answer(items, all, output);
    end(PROGRAM, written, status, errors)
}

// Returns the exit status for these texts: 2 if one of them names no network.
fn status_of(outer: Option<IpNetwork>, all: &[Said<'_>]) -> u8
    ensures { result ≡ status_of outer all.now }
{
    if is_refused(all) {
        return FAILED;
    }
    within_status(outer, all)
}

// Whether one of these texts names no network.
fn is_refused(all: &[Said<'_>]) -> bool
    ensures { result ≡ list_any is_none all.now }
{
    all.iter().any(|said| said.network().is_none())
}

// Returns the exit status if each text names a network: with an outer network, 1 if one of them
// does not lie within it, or if there are no texts; else 0.
fn within_status(outer: Option<IpNetwork>, all: &[Said<'_>]) -> u8
    ensures { result ≡ within_status outer all.now }
{
    match outer {
        Some(outer) => {
            if !all.is_empty() && all_within(outer, all) {
                0
            } else {
                1
            }
        }
        None => 0,
    }
}

// Whether each of these texts names a network that lies within `outer`.
fn all_within(outer: IpNetwork, all: &[Said<'_>]) -> bool
    ensures { result ≡ all_within outer all.now }
{
    all.iter().all(|said| is_within(outer, said.network()))
}

// Whether there is a network, and it lies within `outer`.
fn is_within(outer: IpNetwork, network: Option<IpNetwork>) -> bool
    ensures { result ≡ is_within outer network }
{
    // This call does nothing: the proof of this body needs its law, and learns from the two calls
    // of `prefix` that these are networks.
    laws::ip_subnet_is_computed();
    match network {
        Some(network) => {
            let _ = network.prefix();
            let _ = outer.prefix();
            network.is_subnet_of(outer)
        }
        None => false,
    }
}

// Writes what waits and, unless `--in` is given, the networks that these texts name.
fn write_answer<W: Write>(
    items: &[Item<'_>],
    all: &[Said<'_>],
    output: &mut Output<'_, W>,
) -> Result<(), RunFault>
    ensures ok { OnOk result (Writes output.old output.new (answer_text items.now all.now)) }
    ensures err { OnErr result
        (FailsWriting output.old output.new (answer_text items.now all.now)) }
{
    if is_given(items, IN) {
        return output.finish();
    }
    put_infos(form_of(items), all, output)?;
    output.finish()
}

// Returns the form in which networks are printed.
fn form_of(items: &[Item<'_>]) -> Form
    ensures { result ≡ form_of items.now }
{
    if is_given(items, JSON) {
        Form::Json
    } else if is_given(items, ZONES) {
        Form::Zones
    } else {
        Form::Lines
    }
}
