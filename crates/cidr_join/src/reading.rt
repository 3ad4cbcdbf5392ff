//! Reads the lists of a run, and takes their lines.
ghost use Rattle.std.specs.Prelude.{◌≡◌, ◌⊎◌, ◌∷◌, ◌++◌, [], List, ℕ, map, None, Some, IfOk, IfErr, MatchOption};
ghost use Rattle.lists.specs.Bytes.{BytesStop};
ghost use Rattle.cidr_join.specs.Lists.{AreRead, IsRead, lines_of, list_by, list_in, list_text, lists_of};
ghost use Rattle.cidr_join.specs.Routes.{no_networks};
ghost use Rattle.cidr_join.specs.Runs.{LacksMemory};
ghost use Rattle.cidr_join.specs.Takes.{Takes};
ghost use Rattle.cidr_join.specs.Private.Listing.{Unread};

use crate::help::PROGRAM;
use crate::list::{ListRules, Listing, take_list};
use crate::routes::Networks;
use crate::telling::{tell_bytes_fault, tell_take_fault};
use crate::value_ids::put;
use lines::output::Output;
use lists::{BytesFault, OpenLists, read_bytes};
use log_programs::rows::LIST;
use options::items::{Item, Text};
use program::messages::tell_of;
use program::telling::tell_more;
use std::alloc::Global;
use std::io::Write;

/// The greatest number of bytes in a list.
const LIST_MAX: usize = 1_073_741_824;

/// A list that was read.
#[derive(Drop)]
pub struct ReadList<'a> {
    /// The name of the list.
    pub(crate) name: Text<'a>,
    /// The bytes of the list.
    pub(crate) text: Vec<u8>,
}

/// Reads the lists that the options name, in order. If one is not read to its end, the cause is
/// reported, and `None` is returned.
pub(crate) fn read_lists<'a, L: OpenLists, E: Write>(
    alloc: Global,
    lists: &L,
    items: &[Item<'a>],
    errors: &mut Output<'_, E>,
) -> Option<Vec<ReadList<'a>>>
    ensures { MatchOption result
        (Unread (L.known lists.now) (lists_of items.now) errors.new)
        (λ read. AreRead (L.known lists.now) (lists_of items.now) (map list_text read.items)) }
{
    let mut read = Vec::new(alloc);
    let mut at = 0;
    'items: while at < items.len() {
        let Some(()) = read_item(alloc, lists, &items[at], &mut read, errors) else {
            return None;
        };
        at += 1;
    }
    Some(read)
}

// Reads the list that an option names, if it names one. If it is not read to its end, the cause is
// reported, and `None` is returned.
fn read_item<'a, L: OpenLists, E: Write>(
    alloc: Global,
    lists: &L,
    item: &Item<'a>,
    read: &mut Vec<ReadList<'a>>,
    errors: &mut Output<'_, E>,
) -> Option<()>
    ensures { MatchOption result
        (Unread (L.known lists.now) (list_in item.now) errors.new)
        (λ _. (more : List (List ℕ)) × AreRead (L.known lists.now) (list_in item.now) more
        × (map list_text read.new.items ≡ map list_text read.old.items ++ more)) }
{
    let Some(name) = list_in(item) else {
        return Some(());
    };
    match text_of(alloc, lists, name) {
        Ok(text) => match put(
            read,
            ReadList {
                name: Text::new(name),
                text,
            },
        ) {
            Ok(()) => Some(()),
            Err(_) => {
                tell_of(PROGRAM, ": out of memory\n", errors);
                None
            }
        },
        Err(fault) => {
            tell_bytes_fault(name, fault, errors);
            None
        }
    }
}

// Returns all bytes of the list with this name.
fn text_of<L: OpenLists>(alloc: Global, lists: &L, name: &str) -> Result<Vec<u8>, BytesFault>
    ensures ok { IfOk result (λ text. IsRead (L.known lists.now) name.now text.items) }
    ensures err { IfErr result (BytesStop (L.known lists.now) name.now 1073741824) }
{
    read_bytes(alloc, lists, name, LIST_MAX)
}

// Returns the name of the list that an option reads, if the option is `-f`.
fn list_in<'a>(item: &Item<'a>) -> Option<&'a str>
    ensures { MatchOption result (list_in item.now ≡ [])
        (λ name. list_in item.now ≡ name.now ∷ []) }
{
    match item {
        Item::Value(row, name) | Item::Joined(row, name, _) => list_by(*row, name.as_str()),
        _ => None,
    }
}

// Returns the name of the list of an option with this row and value, if the row is that of `-f`.
fn list_by(row: usize, name: &str) -> Option<&str>
    ensures { MatchOption result (list_by row name.now ≡ [])
        (λ one. list_by row name.now ≡ one.now ∷ []) }
{
    if row == LIST { Some(name) } else { None }
}

/// Takes the lines of the lists in turn, by these rules, and returns their networks and values. The
/// lines that are left out are reported, and then a fault that ends this; `None` is then returned.
pub(crate) fn take_lists<'a, E: Write>(
    alloc: Global,
    lists: &'a [ReadList<'_>],
    rules: ListRules,
    errors: &mut Output<'_, E>,
) -> Option<Networks<'a>>
    ensures { MatchOption result
        (Takes rules no_networks (lines_of (map list_text lists.now)) None
        ⊎ LacksMemory errors.new)
        (λ networks. Takes rules no_networks (lines_of (map list_text lists.now))
        (Some networks)) }
{
    let mut listing = Listing::new(alloc);
    let mut at = 0;
    'lists: while at < lists.len() {
        let list = &lists[at];
        let name = list.name.as_str();
        if let Err(fault) = take_list(&mut listing, name, list.text.as_slice(), rules, errors) {
            tell_more(PROGRAM, listing.more(), errors);
            tell_take_fault(name, fault, errors);
            return None;
        }
        at += 1;
    }
    tell_more(PROGRAM, listing.more(), errors);
    Some(listing.into_networks())
}
