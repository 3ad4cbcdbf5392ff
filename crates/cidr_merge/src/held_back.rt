//! Holds back a result that has too few networks, or of which too many addresses went or came.
ghost use Rattle.std.specs.Prelude.{◌≡◌, ◌≤◌, ◌-◌, ◌+◌, ◌^◌, ◌&&◌, ◌||◌, ℕ, length, min, nat_lt, not};
ghost use Rattle.ipnetwork_sets.specs.Counts.{HasCount, count_number};
ghost use Rattle.ipnetwork_sets.specs.Sets.{InFirstAlone};
ghost use Rattle.cidr_merge.specs.HeldBack.{HasNetworks, IsChange, IsCountedChange, IsHeldBack};
ghost use Rattle.cidr_merge.specs.HeldBack.{least_number};
ghost use Rattle.cidr_merge.specs.Bounds.{allows};
ghost use Rattle.cidr_merge.specs.Private.Sweeps.{blocks_left, left_of_second};

use crate::bounds::{Bound, does_allow, sum};
use crate::command_line::{Operation, Request};
use crate::counts::{Counts, tell_addresses, tell_count};
use crate::faults::has_sets;
use crate::help::PROGRAM;
use crate::printing::Merging;
use crate::reading::Sets;
use crate::sweep::Sweep;
use ipnetwork::{Address, Ipv4Network, Ipv6Network, Network};
use ipnetwork_blocks::AddressSpace;
use ipnetwork_sets::{AddressCount, AddressSet, SetBlocks};
use lines::output::Output;
use program::messages::{tell, tell_of};
use std::io::Write;

/// Returns whether the result of an operation is held back, and reports why.
pub(crate) fn is_held_back<E: Write>(merging: &Merging<'_>, errors: &mut Output<'_, E>) -> bool
    ensures { let m = merging.now in IsHeldBack m.request m.first.now m.second.now result }
{
    let (first, second) = (merging.first, merging.second);
    let bound = merging.request.max_change;
    let least = least_number(&merging.request);
    let lacking = lacking(merging.request.operation, first, second, least);
    tell_lacking(lacking, least, errors);
    let v4 = is_allowed("IPv4", bound, &first.v4, &second.v4, errors);
    let v6 = is_allowed("IPv6", bound, &first.v6, &second.v6, errors);
    is_either(lacking, v4, v6)
}

// Returns whether networks are lacking, or a change of a family is not allowed.
fn is_either(lacking: u64, v4: bool, v6: bool) -> bool
    ensures { result ≡ (nat_lt 0 lacking || not (v4 && v6)) }
{
    lacking > 0 || !(v4 && v6)
}

// The number of networks that a result must have.
fn least_number(request: &Request) -> u64
    ensures { result ≡ least_number request.now }
{
    if request.at_least > 0 {
        request.at_least
    } else if has_sets(request.form) && !request.allows_empty {
        1
    } else {
        0
    }
}

// How many networks the result of an operation lacks to have so many.
fn lacking(operation: Operation, first: &Sets, second: &Sets, least: u64) -> u64
    ensures { (networks : ℕ) × HasNetworks operation first.now second.now networks
        × (result ≡ least - networks) }
{
    let v4 = Sweep::of(operation, &first.v4, &second.v4);
    let v6 = Sweep::of(operation, &first.v6, &second.v6);
    let v4_others = Sweep::of(Operation::Minus, &second.v4, &first.v4);
    let v6_others = Sweep::of(Operation::Minus, &second.v6, &first.v6);
    let without_v4 = lacking_beside(v4, least);
    let without_any = lacking_beside(v6, without_v4);
    lacking_second(operation, v4_others, v6_others, without_any)
}

// How many more networks are lacking than those that an operation prints of what only the second
// side has.
fn lacking_second(
    operation: Operation,
    v4: Sweep<'_, Ipv4Network>,
    v6: Sweep<'_, Ipv6Network>,
    least: u64,
) -> u64
    ensures { result ≡ least - (length (left_of_second operation (blocks_left v4.entry))
        + length (left_of_second operation (blocks_left v6.entry))) }
{
    match operation {
        Operation::Differ => {
            let without_v4 = lacking_beside(v4, least);
            lacking_beside(v6, without_v4)
        }
        _ => least,
    }
}

// How many more networks are lacking than these blocks.
fn lacking_beside<N: AddressSpace>(mut blocks: Sweep<'_, N>, least: u64) -> u64
    ensures { result ≡ least - length (blocks_left blocks.entry) }
{
    let mut lacking = least;
    while lacking > 0 {
        let Some(_) = blocks.next_block() else {
            return lacking;
        };
        lacking -= 1;
    }
    lacking
}

/// How many networks the least lists of both families lack to have so many.
pub(crate) fn lacking_of_sets(sets: &Sets, least: u64) -> u64
    ensures { result ≡ least - (length sets.now.v4 + length sets.now.v6) }
{
    let v4 = sets.v4.blocks().len() as u64;
    let v6 = sets.v6.blocks().len() as u64;
    least.saturating_sub(v4).saturating_sub(v6)
}

// Returns whether a bound allows what went and came of a family, and reports it if not.
fn is_allowed<A: Address, E: Write>(
    family: &str,
    bound: Bound,
    first: &AddressSet<Network<A>>,
    second: &AddressSet<Network<A>>,
    errors: &mut Output<'_, E>,
) -> bool
    requires { A.WIDTH ≤ 128 }
    ensures { IsChange A.WIDTH bound first.now second.now result }
{
    match bound {
        Bound::Any => true,
        _ => is_within(family, bound, first, second, errors),
    }
}

// Returns whether what went and came of a family, counted, is within a bound, and reports it if not.
fn is_within<A: Address, E: Write>(
    family: &str,
    bound: Bound,
    first: &AddressSet<Network<A>>,
    second: &AddressSet<Network<A>>,
    errors: &mut Output<'_, E>,
) -> bool
    requires { A.WIDTH ≤ 128 }
    ensures { IsCountedChange A.WIDTH bound first.now second.now result }
{
    let had = first.address_count();
    let went = count_alone(first, second);
    let came = count_alone(second, first);
    let is_within = allows_change(bound, had, went, came);
    tell_change(is_within, family, went, came, had, errors);
    is_within
}

// Whether a bound allows that so many addresses went and came, of so many.
fn allows_change(bound: Bound, had: AddressCount, went: AddressCount, came: AddressCount) -> bool
    ensures { result ≡ allows bound (count_number had)
        (min (count_number went + count_number came) (2 ^ 128)) }
{
    does_allow(bound, had, sum(went, came))
}

// How many addresses the first set has that the second has not.
fn count_alone<A: Address>(
    first: &AddressSet<Network<A>>,
    second: &AddressSet<Network<A>>,
) -> AddressCount
    requires { A.WIDTH ≤ 128 }
    ensures { HasCount (InFirstAlone A.WIDTH first.now second.now) (count_number result) }
{
    let blocks = Sweep::of(Operation::Minus, first, second);
    let counts = Counts::of(blocks);
    counts.addresses
}

/// Reports that a result lacks networks, if it does.
pub(crate) fn tell_lacking<E: Write>(lacking: u64, least: u64, errors: &mut Output<'_, E>) {
    if lacking == 0 {
        return;
    }
    if least == 1 {
        return tell_of(
            PROGRAM,
            ": the result has no network: see --allow-empty and --at-least\n",
            errors,
        );
    }
    tell_of(PROGRAM, ": networks of the result: ", errors);
    tell_count(u128::from(least.saturating_sub(lacking)), errors);
    tell(", fewer than ", errors);
    tell_count(u128::from(least), errors);
    tell(": see --at-least\n", errors);
}

// Reports how many addresses of a family went and came, unless that is within the bound.
fn tell_change<E: Write>(
    is_within: bool,
    family: &str,
    went: AddressCount,
    came: AddressCount,
    had: AddressCount,
    errors: &mut Output<'_, E>,
) {
    if is_within {
        return;
    }
    tell_of(PROGRAM, ": ", errors);
    tell(family, errors);
    tell(": of ", errors);
    tell_addresses(had, errors);
    tell(" addresses ", errors);
    tell_addresses(went, errors);
    tell(" went, and ", errors);
    tell_addresses(came, errors);
    tell(" came: see --max-change\n", errors);
}
