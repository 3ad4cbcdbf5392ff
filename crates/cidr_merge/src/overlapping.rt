//! Reports which entries of lists overlap.
ghost use Rattle.std.specs.Prelude.{◌≡◌, ◌≤◌, ◌<◌, ◌==◌, []};
ghost use Rattle.std.specs.Prelude.{not, length, map};
ghost use Rattle.std.specs.List.{concat};
ghost use Rattle.std.specs.List.Sorted.{IsSorted};
ghost use Rattle.program.specs.Messages.{Reports};
ghost use Rattle.cidr_merge.specs.Overlaps.{is_up_to, relation, pair_text, pairs_after, listed_cmp};
ghost use Rattle.cidr_merge.specs.Private.Entries.{address_of, listed_as, KeepsReaching, Overlaps};
ghost use Rattle.cidr_merge.specs.Private.Reported.{TellsFound};

use crate::findings::{either, tell_place};
use crate::placed::{Key, Placed};
use lines::output::Output;
use program::command_line::text_at;
use program::messages::tell;
use std::io::Write;

/// Prints each pair of overlapping entries, given entries in order, and returns whether there is
/// one. May reorder the entries.
pub(crate) fn tell_pairs<W: Write>(
    names: &[String],
    entries: &mut [Placed],
    output: &mut Output<'_, W>,
) -> bool
    requires { IsSorted listed_cmp (map listed_as entries.old) }
    ensures { TellsFound (pairs_after names.now [] (map listed_as entries.old))
        output.old output.new result }
{
    let mut found = false;
    // The first `kept` entries are the earlier ones that may overlap a later one.
    let mut kept = 0;
    for place in 0..entries.len() {
        let count = keep_reaching(entries, kept, place);
        let all = &entries[..];
        let more = tell_with(names, &all[..count], &all[place], output);
        found = either(found, more);
        entries.swap(count, place);
        kept = count + 1;
    }
    found
}

// Moves those of the first `kept` entries that the entry at a place overlaps to the front, in their
// order, and returns their number.
fn keep_reaching(entries: &mut [Placed], kept: usize, place: usize) -> usize
    requires within { kept ≤ place }
    requires place { place < length entries.old }
    ensures { KeepsReaching entries.old entries.new kept place result }
{
    let mut count = 0;
    for index in 0..kept {
        if overlaps(entries, place, index) {
            entries.swap(count, index);
            count += 1;
        }
    }
    count
}

// Returns whether the entry at a place overlaps an earlier one.
fn overlaps(entries: &[Placed], place: usize, earlier: usize) -> bool
    requires place { place < length entries.now }
    requires earlier { earlier < length entries.now }
    ensures { Overlaps entries.now place earlier result }
{
    is_up_to(&entries[place].first, &entries[earlier].last.0)
}

// Prints the finding for an entry with each of these earlier ones; returns whether there are any.
fn tell_with<W: Write>(
    names: &[String],
    before: &[Placed],
    later: &Placed,
    output: &mut Output<'_, W>,
) -> bool
    ensures told { Reports output.old output.new
        (concat (map (pair_text names.now (listed_as later.now)) (map listed_as before.now))) }
    ensures found { result ≡ not (length before.now == 0) }
{
    for index in 0..before.len() {
        tell_pair(names, later, &before[index], output);
    }
    !before.is_empty()
}

/// Prints the finding for an entry and an earlier one that it overlaps.
pub(crate) fn tell_pair<W: Write>(
    names: &[String],
    later: &Placed,
    earlier: &Placed,
    output: &mut Output<'_, W>,
)
    ensures { Reports output.old output.new
        (pair_text names.now (listed_as later.now) (listed_as earlier.now)) }
{
    tell_place(text_at(names, later.list), later.number, output);
    tell(": ", output);
    tell(relation(later, earlier), output);
    tell(" ", output);
    tell_place(text_at(names, earlier.list), earlier.number, output);
    tell("\n", output);
}

// Returns how an entry overlaps an earlier one: as the same, within it, or in part.
fn relation(later: &Placed, earlier: &Placed) -> &'static str
    ensures { result.now ≡ relation (listed_as later.now) (listed_as earlier.now) }
{
    if !is_up_to(&later.last.0, &earlier.last.0) {
        return "overlaps";
    }
    if is_up_to(&later.first, &earlier.first) && is_up_to(&earlier.last.0, &later.last.0) {
        "same as"
    } else {
        "in"
    }
}

/// Returns whether the first address is not after the last.
pub(crate) fn is_up_to(first: &Key, last: &Key) -> bool
    ensures { result ≡ is_up_to (address_of first.now) (address_of last.now) }
{
    if first.0 == last.0 {
        first.1 <= last.1
    } else {
        last.0
    }
}
