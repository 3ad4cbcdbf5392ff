//! Runs an inspection of lists.
ghost use Rattle.std.specs.Prelude.{◌≡◌, length, map, if◌then◌else◌};
ghost use Rattle.std.specs.List.Sorted.{IsSorted};
ghost use Rattle.cidr_merge.specs.InspectionRuns.{EndsChecking, EndsFinding, EndsInspecting};
ghost use Rattle.cidr_merge.specs.InspectionRuns.{EndsOrdered};
ghost use Rattle.cidr_merge.specs.Overlaps.{listed_cmp};
ghost use Rattle.cidr_merge.specs.Private.Entries.{listed_as};
ghost use Rattle.cidr_merge.specs.Private.Reported.{TellsFound};
ghost use Rattle.cidr_merge.specs.Repetitions.{found_among};
ghost use Rattle.cidr_merge.specs.Texts.{whole};

use crate::checking::{check_ends, check_ends_if, check_lists};
use crate::command_line::Inspection;
use crate::context::Context;
use crate::findings::either;
use crate::help::PROGRAM;
use crate::overlapping::tell_pairs;
use crate::placed::{Placed, entries_of};
use crate::reading::refuse_lists;
use crate::repeating::tell_repetitions;
use crate::texts::{WholeLists, texts_of};
use lines::output::Output;
use lists::{OpenLists, Rules};
use program::ending::end;
use program::memory::refuse_memory;
use std::alloc::Global;
use std::io::Write;

/// The exit status if nothing was found.
const NOTHING_FOUND: u8 = 0;

/// The exit status if something was found.
const FOUND: u8 = 1;

/// Inspects the lists, which are read by these rules, and returns the exit status. If they have to
/// be whole, nothing is printed if a FILE does not end with a line feed.
pub(crate) fn inspect<L: OpenLists, W: Write, E: Write>(
    inspection: Inspection,
    rules: Rules,
    context: &Context<'_, L>,
    output: &mut Output<'_, W>,
    errors: &mut Output<'_, E>,
) -> u8
    ensures { EndsInspecting (whole (L.known context.now.lists.now) rules.is_whole) rules
        context.now.names.now inspection output.old output.new result }
{
    let names = context.names;
    let texts = match texts_of(context, names, 0, rules.is_whole) {
        Ok(texts) => texts,
        Err(fault) => return refuse_lists(context, fault, errors),
    };
    let texts = texts.as_slice();
    look_over(
        inspection,
        context.alloc,
        rules,
        names,
        texts,
        output,
        errors,
    )
}

// Inspects lists of these names and bytes by these rules, and returns the exit status.
fn look_over<W: Write, E: Write>(
    inspection: Inspection,
    alloc: Global,
    rules: Rules,
    names: &[String],
    texts: &[Vec<u8>],
    output: &mut Output<'_, W>,
    errors: &mut Output<'_, E>,
) -> u8
    requires { length texts.now ≡ length names.now }
    ensures { EndsFinding inspection rules names.now (map (λ text. text.items) texts.now)
        output.old output.new result }
{
    let lists = WholeLists {
        names,
        texts,
        rules,
    };
    match inspection {
        Inspection::Check => check(&lists, output, errors),
        Inspection::Strict => check_ordered(alloc, true, &lists, output, errors),
        Inspection::Overlaps => check_ordered(alloc, false, &lists, output, errors),
    }
}

// Prints the wrong entries of lists and the last ones that may have been cut, and returns the exit
// status.
fn check<W: Write, E: Write>(
    lists: &WholeLists<'_>,
    output: &mut Output<'_, W>,
    errors: &mut Output<'_, E>,
) -> u8
    ensures { EndsChecking lists.now.rules lists.now.names.now
        (map (λ text. text.items) lists.now.texts.now) output.old output.new result }
{
    let wrong = check_lists(false, lists, output);
    let cut = check_ends(lists, output);
    let written = output.finish();
    end(PROGRAM, written, status(either(wrong, cut)), errors)
}

// Prints the wrong entries of lists, if strictly the last ones that may have been cut, then the
// findings for all entries in order, and returns the exit status.
fn check_ordered<W: Write, E: Write>(
    alloc: Global,
    strictly: bool,
    lists: &WholeLists<'_>,
    output: &mut Output<'_, W>,
    errors: &mut Output<'_, E>,
) -> u8
    ensures { EndsOrdered strictly lists.now.rules lists.now.names.now
        (map (λ text. text.items) lists.now.texts.now) output.old output.new result }
{
    let mut entries = match entries_of(alloc, lists) {
        Ok(entries) => entries,
        Err(_) => return refuse_memory(PROGRAM, errors),
    };
    let wrong = check_lists(strictly, lists, output);
    let cut = check_ends_if(strictly, lists, output);
    let more = tell_ordered(strictly, lists.names, entries.as_mut_slice(), output);
    let rest = either(cut, more);
    let written = output.finish();
    end(PROGRAM, written, status(either(wrong, rest)), errors)
}

// Prints the findings for entries in order, and returns whether there are any. May reorder the
// entries.
fn tell_ordered<W: Write>(
    strictly: bool,
    names: &[String],
    entries: &mut [Placed],
    output: &mut Output<'_, W>,
) -> bool
    requires { IsSorted listed_cmp (map listed_as entries.old) }
    ensures { TellsFound (found_among strictly names.now (map listed_as entries.old))
        output.old output.new result }
{
    if strictly {
        tell_repetitions(names, entries, output)
    } else {
        tell_pairs(names, entries, output)
    }
}

// Returns the exit status, given whether something was found.
fn status(found: bool) -> u8
    ensures { result ≡ (if found then 1 else 0) }
{
    if found { FOUND } else { NOTHING_FOUND }
}
