//! Runs a `split`.
ghost use Rattle.std.specs.Prelude.{◌≡◌, if◌then◌else◌};
ghost use Rattle.cidr_merge.specs.Pieces.{split_text};
ghost use Rattle.cidr_merge.specs.Private.Printing.{WritesOrFails};
ghost use Rattle.cidr_merge.specs.Splits.{EndsSplitting, EndsCutting};

use crate::command_line::SplitRequest;
use crate::context::Context;
use crate::cutting::print_pieces;
use crate::held_back::{lacking_of_sets, tell_lacking};
use crate::help::PROGRAM;
use crate::reading::{Sets, read_side, refuse_lists};
use crate::set_names::SetNames;
use crate::shapes::rules_of;
use lines::fault::RunFault;
use lines::output::Output;
use lists::{OpenLists, Refusals};
use program::ending::{FAILED, end};
use program::telling::{InLists, tell_refusals};
use std::io::Write;

/// Reads the lists, prints their networks in pieces, and returns the exit status.
pub(crate) fn split<L: OpenLists, W: Write, E: Write>(
    request: SplitRequest,
    context: &Context<'_, L>,
    output: &mut Output<'_, W>,
    errors: &mut Output<'_, E>,
) -> u8
    ensures { EndsSplitting (L.known context.now.lists.now) context.now.names.now
        context.now.sets.now request output.old output.new result }
{
    let names = context.names;
    let none = Refusals::new();
    let (sets, refusals, read) = read_side(context, request.shape, names, 0, none);
    let form = rules_of(request.shape).form;
    tell_refusals(PROGRAM, names, &InLists, form, &refusals, errors);
    match read {
        Ok(()) => print_split(
            context.sets,
            request,
            !refusals.is_empty(),
            &sets,
            output,
            errors,
        ),
        Err(fault) => refuse_lists(context, fault, errors),
    }
}

// Prints the pieces of the networks, unless lines were refused that are not to be skipped, or there
// are too few networks.
fn print_split<W: Write, E: Write>(
    names: &SetNames<'_>,
    request: SplitRequest,
    skips: bool,
    sets: &Sets,
    output: &mut Output<'_, W>,
    errors: &mut Output<'_, E>,
) -> u8
    ensures { EndsCutting names.now request skips sets.now output.old output.new result }
{
    if skips && !request.skips_bad {
        return FAILED;
    }
    let lacking = lacking_of_sets(sets, request.at_least);
    if lacking > 0 {
        tell_lacking(lacking, request.at_least, errors);
        return FAILED;
    }
    let written = write_split(names, request.length, sets, output);
    let status = status(skips);
    end(PROGRAM, written, status, errors)
}

/// Returns the exit status after networks were written.
pub(crate) fn status(skips: bool) -> u8
    ensures { result ≡ (if skips then 3 else 0) }
{
    if skips { 3 } else { 0 }
}

// Writes the pieces of the networks of both families.
fn write_split<W: Write>(
    names: &SetNames<'_>,
    length: u8,
    sets: &Sets,
    output: &mut Output<'_, W>,
) -> Result<(), RunFault>
    ensures { WritesOrFails result output.old output.new (split_text names.now length sets.now) }
{
    print_pieces(names, length, &sets.v4, output)?;
    print_pieces(names, length, &sets.v6, output)?;
    output.finish()
}
