//! Reads the lists of a run.
ghost use Rattle.std.specs.Prelude.{◌≡◌, false, OnOk, IfOk, IfErr};
ghost use Rattle.ipnetwork_blocks.specs.Aggregate.{IsAggregate};
ghost use Rattle.lists.specs.Lists.{nothing_read};
ghost use Rattle.lists.specs.Refusals.{no_refusals};
ghost use Rattle.cidr_filter.specs.Reading.{form_called, question_of, rules_of, source_by, source_of, ReadsItem, ReadsItems, StopsAtItem, StopsAtItems, HoldsRead};
ghost use Rattle.cidr_filter.specs.Private.Reading.{ReadsAll, HasSets, HasBlocks};

use crate::matcher::{Matcher, Sets, Tables};
use crate::rows::{LONGEST, MASKS, NETWORKS, READ, STRICT, TEXT, WHOLE};
use ipnetwork::{Ipv4Network, Ipv6Network};
use ipnetwork_sets::{AddressSet, IpAddressSet};
use lists::{LineForm, ListReader, OpenLists, ReadFault, Refusals, Rules, read_named, read_text};
use log_programs::rows::LIST;
use options::given::{is_given, value_of};
use options::items::{Item, Text};
use std::alloc::{AllocError, Global};

/// What an option tells the program to read.
#[derive(Debug, Drop)]
pub enum Source<'a> {
    /// The list with this name.
    List(Text<'a>),
    /// This text.
    Text(Text<'a>),
    /// Nothing.
    Nothing,
}

/// What the options ask of the lists.
#[derive(Clone, Copy, Debug, PartialEq, Eq)]
pub enum Question {
    /// Whether they contain an address.
    Address,
    /// Whether they contain every address of a network.
    Network,
    /// Which is the longest of their blocks that contains an address.
    Block,
}

/// Returns what the options ask of the lists.
pub(crate) fn question_of(items: &[Item<'_>]) -> Question
    ensures { result ≡ question_of items.now }
{
    if is_given(items, LONGEST) {
        Question::Block
    } else if is_given(items, NETWORKS) {
        Question::Network
    } else {
        Question::Address
    }
}

/// Returns the rules of the lists: with `--strict`, host bits are refused; with `--whole`, lists
/// that do not end with a line feed; with `--masks`, a mask or wildcard may be a second word; with
/// `--read`, lines are in the form that it names.
pub(crate) fn rules_of(items: &[Item<'_>]) -> Rules
    ensures { result ≡ rules_of items.now }
{
    Rules {
        refuses_host_bits: is_given(items, STRICT),
        is_whole: is_given(items, WHOLE),
        takes_masks: is_given(items, MASKS),
        form: form_called(value_of(items, READ)),
    }
}

// Returns the form of lists that a text names, or their own if it names none.
fn form_called(text: &str) -> LineForm
    ensures { result ≡ form_called text.now }
{
    match text {
        "csv" => LineForm::Csv,
        "ipset" => LineForm::Ipset,
        "nft" => LineForm::Nft,
        _ => LineForm::Plain,
    }
}

/// Reads the lists that the options name, in their order. Returns their networks, or `AllocError`
/// if memory runs out; the refused lines; and why a list was not read to the end, if one was not.
pub(crate) fn read_listed<L: OpenLists>(
    alloc: Global,
    lists: &L,
    items: &[Item<'_>],
    question: Question,
) -> (Result<Matcher, AllocError>, Refusals, Result<(), ReadFault>)
    ensures read { OnOk result.2
        (ReadsAll (L.known lists.now) items.now question result.0 result.1) }
    ensures stopped { IfErr result.2
        (λ fault. StopsAtItems (L.known lists.now) 0 items.now
        (nothing_read (rules_of items.now) no_refusals) fault result.1) }
{
    let mut reader = ListReader::new(alloc, rules_of(items), Refusals::new());
    let end = read_lists(lists, items, &mut reader);
    let (listed, refusals) = listed_by(alloc, question, reader);
    (listed, refusals, end)
}

// Returns the networks that were read, stored for the question, and the refused lines.
fn listed_by(
    alloc: Global,
    question: Question,
    reader: ListReader,
) -> (Result<Matcher, AllocError>, Refusals)
    ensures listed { IfOk result.0 (HoldsRead question reader) }
    ensures refused { result.1 ≡ reader.refused }
{
    match question {
        Question::Address => {
            let (v4, v6, refusals) = into_sets(reader);
            (addresses_of(alloc, &v4, &v6), refusals)
        }
        Question::Network => {
            let (v4, v6, refusals) = into_sets(reader);
            let set = IpAddressSet::from_parts(v4, v6);
            (Ok(Matcher::Networks(set)), refusals)
        }
        Question::Block => {
            let (v4, v6, refusals) = reader.into_networks();
            (blocks_of(alloc, v4, v6), refusals)
        }
    }
}

// Returns the sets of the addresses that were read, and the refused lines.
fn into_sets(reader: ListReader) -> (AddressSet<Ipv4Network>, AddressSet<Ipv6Network>, Refusals)
    ensures v4 { IsAggregate 32 reader.v4 result.0 }
    ensures v6 { IsAggregate 128 reader.v6 result.1 }
    ensures refused { result.2 ≡ reader.refused }
{
    let (v4, v6, refusals) = reader.into_networks();
    (
        AddressSet::from_networks(v4),
        AddressSet::from_networks(v6),
        refusals,
    )
}

// Reads the lists that the options name.
fn read_lists<L: OpenLists>(
    lists: &L,
    items: &[Item<'_>],
    reader: &mut ListReader,
) -> Result<(), ReadFault>
    requires memory { reader.old.is_out_of_memory ≡ false }
    ensures read { OnOk result (ReadsItems (L.known lists.now) 0 items.now reader.old reader.new) }
    ensures memory { OnOk result (reader.new.is_out_of_memory ≡ false) }
    ensures stopped { IfErr result
        (λ fault. StopsAtItems (L.known lists.now) 0 items.now reader.old fault
        reader.new.refused) }
{
    let mut at = 0;
    'items: while at < items.len() {
        read_item(lists, &items[at], at, reader)?;
        at += 1;
    }
    Ok(())
}

// Reads the list of an option, if it names one.
fn read_item<L: OpenLists>(
    lists: &L,
    item: &Item<'_>,
    number: usize,
    reader: &mut ListReader,
) -> Result<(), ReadFault>
    requires memory { reader.old.is_out_of_memory ≡ false }
    ensures read { OnOk result
        (ReadsItem (L.known lists.now) number item.now reader.old reader.new) }
    ensures memory { OnOk result (reader.new.is_out_of_memory ≡ false) }
    ensures stopped { IfErr result (λ fault. StopsAtItem (L.known lists.now) number item.now
        reader.old fault reader.new.refused) }
{
    match source_of(item) {
        Source::List(name) => read_named(lists, name.as_str(), number, reader),
        Source::Text(text) => read_text(text.as_str(), number, reader),
        Source::Nothing => Ok(()),
    }
}

/// Returns what an option tells the program to read.
pub(crate) fn source_of<'a>(item: &Item<'a>) -> Source<'a>
    ensures { result ≡ source_of item.now }
{
    match item {
        Item::Value(row, value) | Item::Joined(row, value, _) => source_by(*row, value.as_str()),
        _ => Source::Nothing,
    }
}

// Returns what the option of this row, with this value, tells the program to read.
fn source_by(row: usize, value: &str) -> Source<'_>
    ensures { result ≡ source_by row value.now }
{
    if row == LIST {
        Source::List(Text::new(value))
    } else if row == TEXT {
        Source::Text(Text::new(value))
    } else {
        Source::Nothing
    }
}

// Returns a matcher with the addresses of these sets.
fn addresses_of(
    alloc: Global,
    v4: &AddressSet<Ipv4Network>,
    v6: &AddressSet<Ipv6Network>,
) -> Result<Matcher, AllocError>
    ensures { IfOk result (HasSets v4.now v6.now) }
{
    Ok(Matcher::Addresses(Sets::of(alloc, v4, v6)?))
}

// Returns a matcher with the blocks of these networks.
fn blocks_of(
    alloc: Global,
    v4: Vec<Ipv4Network>,
    v6: Vec<Ipv6Network>,
) -> Result<Matcher, AllocError>
    ensures { IfOk result (HasBlocks v4.items v6.items) }
{
    Ok(Matcher::Blocks(Tables::of(alloc, v4.as_slice(), v6.as_slice())?))
}
