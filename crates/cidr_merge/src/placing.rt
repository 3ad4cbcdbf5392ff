//! Prints free networks for numbers of hosts.
ghost use Rattle.std.specs.Prelude.{◌≡◌};
ghost use Rattle.std.specs.List.{flat_map, list_any};
ghost use Rattle.std.specs.Option.{is_none};
ghost use Rattle.program.specs.Putting.{PutsOrFails};
ghost use Rattle.cidr_merge.specs.Placements.{EndsPlacing, EndsPlaces, place_line};
ghost use Rattle.cidr_merge.specs.Private.Printing.{WritesOrFails};

use crate::counts::tell_count;
use crate::cutting::put_network;
use crate::help::PROGRAM;
use crate::hosts::hosts_in;
use crate::set_names::SetNames;
use crate::split::status;
use allotting::{lengths_for, places};
use ipnetwork::{Address, Network};
use ipnetwork_sets::AddressSet;
use lines::fault::RunFault;
use lines::output::Output;
use program::ending::{FAILED, end};
use program::memory::refuse_memory;
use program::messages::{tell, tell_of};
use std::alloc::{AllocError, Global};
use std::io::Write;

/// The exit status if a number has no free network.
const NO_PLACE: u8 = 1;

/// Prints a free network for each number of hosts that is asked for, and returns the exit status.
pub(crate) fn print_places<A: Address, W: Write, E: Write>(
    alloc: Global,
    names: &SetNames<'_>,
    skips: bool,
    pools: AddressSet<Network<A>>,
    used: &AddressSet<Network<A>>,
    output: &mut Output<'_, W>,
    errors: &mut Output<'_, E>,
) -> u8
    ensures { EndsPlaces names.now A.family skips pools used.now output.old output.new result }
{
    let Ok(numbers) = hosts_in(alloc, names.hosts) else {
        return refuse_memory(PROGRAM, errors);
    };
    let lengths = match lengths_for::<Network<A>>(alloc, numbers.as_slice()) {
        Ok(Ok(lengths)) => lengths,
        Ok(Err(at)) => {
            tell_hosts("no network has ", numbers[at], errors);
            return FAILED;
        }
        Err(_) => return refuse_memory(PROGRAM, errors),
    };
    match places(alloc, pools, used, lengths.as_slice()) {
        Ok(places) => {
            print_placed(
                names,
                skips,
                numbers.as_slice(),
                places.as_slice(),
                output,
                errors,
            )
        }
        Err(_) => refuse_memory(PROGRAM, errors),
    }
}

// Prints the networks, unless a number has none.
fn print_placed<A: Address, W: Write, E: Write>(
    names: &SetNames<'_>,
    skips: bool,
    numbers: &[u128],
    places: &[Option<Network<A>>],
    output: &mut Output<'_, W>,
    errors: &mut Output<'_, E>,
) -> u8
    ensures { EndsPlacing names.now A.family skips places.now output.old output.new result }
{
    if does_lack(places) {
        tell_lacking(numbers, places, errors);
        return NO_PLACE;
    }
    let written = write_places(names, places, output);
    let status = status(skips);
    end(PROGRAM, written, status, errors)
}

// Whether a place has no network.
fn does_lack<A: Address>(places: &[Option<Network<A>>]) -> bool
    ensures { result ≡ list_any is_none places.now }
{
    let mut at = 0;
    while at < places.len() {
        if places[at].is_none() {
            return true;
        }
        at += 1;
    }
    false
}

// Reports each number that has no place.
fn tell_lacking<A: Address, E: Write>(
    numbers: &[u128],
    places: &[Option<Network<A>>],
    errors: &mut Output<'_, E>,
) {
    for (number, place) in numbers.iter().zip(places.iter()) {
        if place.is_none() {
            tell_hosts("no network is free for ", *number, errors);
        }
    }
}

// Reports what is the case of a number of hosts.
fn tell_hosts<E: Write>(problem: &str, number: u128, errors: &mut Output<'_, E>) {
    tell_of(PROGRAM, ": ", errors);
    tell(problem, errors);
    tell_count(number, errors);
    tell(" hosts\n", errors);
}

// Writes the networks of places.
fn write_places<A: Address, W: Write>(
    names: &SetNames<'_>,
    places: &[Option<Network<A>>],
    output: &mut Output<'_, W>,
) -> Result<(), RunFault>
    ensures { WritesOrFails result output.old output.new
        (flat_map (place_line names.now A.family) places.now) }
{
    put_places(names, places, output)?;
    output.finish()
}

// Prints the networks of places.
#[tactic(auto, using(crate::proofs::Printed::printing))]
fn put_places<A: Address, W: Write>(
    names: &SetNames<'_>,
    places: &[Option<Network<A>>],
    output: &mut Output<'_, W>,
) -> Result<(), RunFault>
    ensures { PutsOrFails result output.old output.new
        (flat_map (place_line names.now A.family) places.now) }
{
    let mut left = places;
    while let Some((place, others)) = left.split_first() {
        put_place(names, *place, output)?;
        left = others;
    }
    Ok(())
}

// Prints the network of a place, if it has one.
fn put_place<A: Address, W: Write>(
    names: &SetNames<'_>,
    place: Option<Network<A>>,
    output: &mut Output<'_, W>,
) -> Result<(), RunFault>
    ensures { PutsOrFails result output.old output.new (place_line names.now A.family place) }
{
    match place {
        Some(network) => put_network(names, network, output),
        None => Ok(()),
    }
}
