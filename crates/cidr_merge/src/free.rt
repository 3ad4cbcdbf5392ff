//! Prints the free networks of pools, or how much of them is used.
ghost use Rattle.std.specs.Prelude.{◌≡◌, ◌≤◌, ◌∷◌, length};
ghost use Rattle.std.specs.List.{flat_map};
ghost use Rattle.program.specs.Putting.{PutsOrFails};
ghost use Rattle.cidr_merge.specs.FreeRuns.{EndsFree, EndsFinding, EndsFamily, EndsOfLength, EndsOfOne};
ghost use Rattle.cidr_merge.specs.FreeRuns.{are_of_both, is_v6, others_if};
ghost use Rattle.cidr_merge.specs.Pieces.{network_line};
ghost use Rattle.cidr_merge.specs.Private.Printing.{WritesOrFails};

use crate::command_line::FreeRequest;
use crate::context::Context;
use crate::cutting::put_network;
use crate::free_task::FreeTask;
use crate::help::PROGRAM;
use crate::placing::print_places;
use crate::reading::{Sets, refuse_lists};
use crate::reduce::is_any;
use crate::run::read_sides;
use crate::set_names::SetNames;
use crate::shapes::rules_of;
use crate::split::status;
use crate::usage::print_usage;
use allotting::{FreeBlocks, free_blocks};
use ipnetwork::{Address, Network};
use ipnetwork_sets::AddressSet;
use lines::fault::RunFault;
use lines::output::Output;
use lists::OpenLists;
use program::ending::{FAILED, end};
use program::messages::tell_of;
use program::telling::{InLists, tell_refusals};
use std::alloc::Global;
use std::io::Write;

/// The exit status if no network is free.
const NONE_FREE: u8 = 1;

/// Reads the pools and the lists of used addresses, prints what is free or how much is used, and
/// returns the exit status.
pub(crate) fn free<L: OpenLists, W: Write, E: Write>(
    request: FreeRequest,
    context: &Context<'_, L>,
    output: &mut Output<'_, W>,
    errors: &mut Output<'_, E>,
) -> u8
    requires { request.merge.middle ≤ length context.now.names.now }
    ensures { EndsFree (L.known context.now.lists.now) context.now.names.now
        context.now.sets.now request output.old output.new result }
{
    let (pools, used, refusals, read) = read_sides(request.merge, context);
    let form = rules_of(request.merge.shape).form;
    tell_refusals(PROGRAM, context.names, &InLists, form, &refusals, errors);
    match read {
        Ok(()) => {
            let skips = !refusals.is_empty();
            find_free(&request, context, skips, pools, &used, output, errors)
        }
        Err(fault) => refuse_lists(context, fault, errors),
    }
}

// Prints free networks of pools, or how much of them is used, unless lines were refused that are not
// to be skipped.
fn find_free<L: OpenLists, W: Write, E: Write>(
    request: &FreeRequest,
    context: &Context<'_, L>,
    skips: bool,
    pools: Sets,
    used: &Sets,
    output: &mut Output<'_, W>,
    errors: &mut Output<'_, E>,
) -> u8
    ensures { EndsFinding context.now.sets.now request.now skips pools used.now output.old
        output.new result }
{
    if skips && !request.merge.skips_bad {
        return FAILED;
    }
    let (alloc, names) = (context.alloc, context.sets);
    match request.task {
        FreeTask::Usage => {
            print_usage(alloc, request, names, skips, &pools, used, output, errors)
        }
        FreeTask::Blocks | FreeTask::Places => {
            print_of_one(alloc, request, names, skips, pools, used, output, errors)
        }
    }
}

// Prints free networks of one family, unless the pools have both.
fn print_of_one<W: Write, E: Write>(
    alloc: Global,
    request: &FreeRequest,
    names: &SetNames<'_>,
    skips: bool,
    pools: Sets,
    used: &Sets,
    output: &mut Output<'_, W>,
    errors: &mut Output<'_, E>,
) -> u8
    ensures { EndsOfOne names.now request.now skips pools used.now output.old output.new result }
{
    if are_of_both(request, &pools) {
        tell_of(PROGRAM, BOTH, errors);
        return FAILED;
    }
    if is_v6(request, &pools) {
        print_family(
            alloc, request, names, skips, pools.v6, &used.v6, output, errors,
        )
    } else {
        print_family(
            alloc, request, names, skips, pools.v4, &used.v4, output, errors,
        )
    }
}

// The message for pools of both families.
const BOTH: &str = ": the FILEs before the -- have addresses of both families: see -4 and -6\n";

// Whether the pools have networks of this length in both families.
fn are_of_both(request: &FreeRequest, pools: &Sets) -> bool
    ensures { result ≡ are_of_both request.now pools.now }
{
    request.length <= 32 && is_any(&pools.v4) && is_any(&pools.v6)
}

// Whether networks of IPv6 are looked for.
fn is_v6(request: &FreeRequest, pools: &Sets) -> bool
    ensures { result ≡ is_v6 request.now pools.now }
{
    request.length > 32 || !is_any(&pools.v4)
}

// Prints the free networks of a family, unless no address of it is used.
fn print_family<A: Address, W: Write, E: Write>(
    alloc: Global,
    request: &FreeRequest,
    names: &SetNames<'_>,
    skips: bool,
    pools: AddressSet<Network<A>>,
    used: &AddressSet<Network<A>>,
    output: &mut Output<'_, W>,
    errors: &mut Output<'_, E>,
) -> u8
    ensures { EndsFamily names.now A.family request.now skips pools used.now output.old output.new
        result }
{
    if !is_any(used) && !request.merge.allows_empty {
        tell_of(PROGRAM, lacking(request.length, is_any(&pools)), errors);
        return FAILED;
    }
    match request.task {
        FreeTask::Places => print_places(alloc, names, skips, pools, used, output, errors),
        FreeTask::Blocks | FreeTask::Usage => {
            print_free(request, names, skips, &pools, used, output, errors)
        }
    }
}

// The message if no address is used.
const NONE_USED: &str = ": the FILEs after the -- have no address of the family of the pools: see \
    --allow-empty\n";

// The messages if the pools have no address of the family.
const NO_POOL: &str = ": the FILEs before the -- have no address\n";

const NO_V6_POOL: &str =
    ": the FILEs before the -- have no address of IPv6, and IPv4 has no network of \
    this length\n";

// Returns the message if no address of a family is used, given the length of the networks that are
// looked for, and whether the pools have an address of the family.
fn lacking(length: u8, has_pool: bool) -> &'static str {
    if has_pool {
        NONE_USED
    } else if length > 32 {
        NO_V6_POOL
    } else {
        NO_POOL
    }
}

// Prints the free networks of a family that have one prefix length.
fn print_free<A: Address, W: Write, E: Write>(
    request: &FreeRequest,
    names: &SetNames<'_>,
    skips: bool,
    pools: &AddressSet<Network<A>>,
    used: &AddressSet<Network<A>>,
    output: &mut Output<'_, W>,
    errors: &mut Output<'_, E>,
) -> u8
    ensures { EndsOfLength names.now A.family request.now skips pools.now used.now output.old
        output.new result }
{
    let mut blocks = free_blocks(pools, used, request.length);
    let Some(first) = blocks.next() else {
        tell_of(PROGRAM, ": no network of this length is free\n", errors);
        return NONE_FREE;
    };
    let written = write_free(names, request.all, first, blocks, output);
    let status = status(skips);
    end(PROGRAM, written, status, errors)
}

// Writes the first free network, and the others if all are asked for.
fn write_free<A: Address, W: Write>(
    names: &SetNames<'_>,
    all: bool,
    first: Network<A>,
    others: FreeBlocks<'_, Network<A>>,
    output: &mut Output<'_, W>,
) -> Result<(), RunFault>
    ensures { WritesOrFails result output.old output.new (flat_map
        (network_line names.now A.family) (first ∷ others_if all others.entry)) }
{
    print_found(names, all, first, others, output)?;
    output.finish()
}

// Prints the first free network, and the others if all are asked for.
fn print_found<A: Address, W: Write>(
    names: &SetNames<'_>,
    all: bool,
    first: Network<A>,
    others: FreeBlocks<'_, Network<A>>,
    output: &mut Output<'_, W>,
) -> Result<(), RunFault>
    ensures { PutsOrFails result output.old output.new (flat_map
        (network_line names.now A.family) (first ∷ others_if all others.entry)) }
{
    put_network(names, first, output)?;
    if !all {
        return Ok(());
    }
    print_blocks(names, others, output)
}

// Prints the blocks still to come.
#[tactic(auto, using(crate::proofs::Printed::printing))]
fn print_blocks<A: Address, W: Write>(
    names: &SetNames<'_>,
    mut blocks: FreeBlocks<'_, Network<A>>,
    output: &mut Output<'_, W>,
) -> Result<(), RunFault>
    ensures { PutsOrFails result output.old output.new
        (flat_map (network_line names.now A.family) blocks.entry) }
{
    while let Some(block) = blocks.next() {
        put_network(names, block, output)?;
    }
    Ok(())
}
