//! Numbers for what is printed for addresses by the networks of a list.
ghost use Rattle.std.specs.Prelude.{◌≡◌, ℕ, [], ◌∷◌, ◌++◌, Option, IfOk, IfSome, OnOk};
ghost use Rattle.ipnetwork.specs.declared.ip_network.IpNetwork.{IpNetwork as AnyNetwork};
ghost use Rattle.ipnetwork_family.specs.Network.{Network as Pair};
ghost use Rattle.ipnetwork_table.specs.Table.{HasOnlyBlocks};
ghost use Rattle.log_programs.specs.Unmapping.{asked_network};
ghost use Rattle.cidr_join.specs.Private.Numbering.{AddsNumbers, AnswersOver, NumbersRoutes, IsNumbering, StandsFor, StandsForEither, StandsForRoute, found_by, number_or_none};
ghost use Rattle.cidr_join.specs.declared.answers.Answers.{Answers as AnswersOf};

use crate::answers::Answers;
use crate::found::Found;
use crate::longest::longest_over;
use crate::routes::Routes;
use crate::value::Value;
use ipnetwork::{IpNetwork, Ipv4Network, Ipv6Network};
use ipnetwork_index::{IndexedNetwork, RouteIndex};
use ipnetwork_table::PrefixTable;
use log_programs::unmapping::asked_network;
use std::alloc::{AllocError, Global};

/// The numbers of the networks of a list, and what each number stands for. The number 0 is for
/// what none of them contains. If blocks are printed, there are no numbers.
#[derive(Drop)]
pub struct ValueIds<'a> {
    pub(crate) v4: RouteIndex<Ipv4Network, usize>,
    pub(crate) v6: RouteIndex<Ipv6Network, usize>,
    // What each number stands for.
    pub(crate) founds: Vec<Found<'a>>,
}

// Networks of one family that convert to networks of either.
trait OfEither: IndexedNetwork {
    // The conversion of a network, as contracts see it.
    ghost either_of: { Pair → AnyNetwork };

    // Returns the network as one of either family.
    fn either(self) -> IpNetwork
        ensures { result ≡ either_of (Self.pair self) };
}

impl OfEither for Ipv4Network {
    ghost use Rattle.ipnetwork.specs.declared.ip_network.IpNetwork.TheVariants as families;

    ghost either_of = { λ network. families.V4 network };

    fn either(self) -> IpNetwork {
        IpNetwork::V4(self)
    }
}

impl OfEither for Ipv6Network {
    ghost use Rattle.ipnetwork.specs.declared.ip_network.IpNetwork.TheVariants as families;

    ghost either_of = { λ network. families.V6 network };

    fn either(self) -> IpNetwork {
        IpNetwork::V6(self)
    }
}

impl<'a> ValueIds<'a> {
    /// Numbers the networks that decide what is printed for addresses. Returns `AllocError` if
    /// memory runs out.
    pub(crate) fn of(alloc: Global, answers: &Answers<'a>) -> Result<ValueIds<'a>, AllocError>
        ensures { IfOk result (λ numbered. IsNumbering answers.now numbered) }
    {
        match answers {
            Answers::Values(routes) => number_routes(alloc, routes, false),
            Answers::Networks(routes) => number_routes(alloc, routes, true),
            Answers::Blocks(_) => no_numbers(alloc),
        }
    }

    /// Returns what each number stands for.
    pub(crate) fn founds(&self) -> &[Found<'a>]
        ensures { result.now ≡ self.now.founds.items }
    {
        self.founds.as_slice()
    }

    /// Returns the number that stands for what is printed for the network of a line, or for a line
    /// without one; `None` if there are no numbers. If `mapped`, a network of IPv4-mapped addresses
    /// counts as the one of their IPv4 addresses too. Does not allocate.
    pub(crate) fn number_of(&self, asked: Option<IpNetwork>, mapped: bool) -> Option<usize>
        ensures { IfSome result (λ number. (by : AnswersOf) → IsNumbering by self.now
            → StandsFor by mapped asked self.now.founds.items number) }
    {
        if self.founds.is_empty() {
            return None;
        }
        match asked {
            Some(asked) => Some(self.number_for(&asked, mapped)),
            None => Some(0),
        }
    }

    // Returns the number that stands for what is printed for a network.
    fn number_for(&self, network: &IpNetwork, mapped: bool) -> usize
        ensures { StandsForEither self.now (asked_network mapped network.now) network.now result }
    {
        if mapped {
            self.number_of_either(asked_network(true, *network), *network)
        } else {
            self.number_at(*network)
        }
    }

    // Returns the number that stands for what is printed for the first network, or, if that is
    // nothing, for the second.
    fn number_of_either(&self, first: IpNetwork, second: IpNetwork) -> usize
        ensures { StandsForEither self.now first second result }
    {
        if first == second {
            return self.number_at(first);
        }
        let number = self.number_at(first);
        match self.founds.get(number) {
            Some(Found::Nothing) => self.number_at(second),
            _ => number,
        }
    }

    // Returns the number that stands for what is printed for a network as it is.
    fn number_at(&self, asked: IpNetwork) -> usize
        ensures { StandsForRoute self.now asked result }
    {
        match asked {
            IpNetwork::V4(asked) => number_in(&self.v4, asked),
            IpNetwork::V6(asked) => number_in(&self.v6, asked),
        }
    }
}

// Returns the number of the longest network that contains this one, or 0.
fn number_in<N: IndexedNetwork>(index: &RouteIndex<N, usize>, asked: N) -> usize
    ensures { (found : Option (Pair × ℕ)) × AnswersOver N.WIDTH index.now (N.pair asked) found
        × HasOnlyBlocks N.WIDTH index.now × (result ≡ number_or_none found) }
{
    match longest_over(index, asked) {
        Some(found) => found.1,
        None => 0,
    }
}

// Returns no numbers.
fn no_numbers<'a>(alloc: Global) -> Result<ValueIds<'a>, AllocError>
    ensures { IfOk result (λ numbered. numbered.founds.items ≡ []) }
{
    Ok(ValueIds {
        v4: RouteIndex::from_table(alloc, PrefixTable::new(alloc))?,
        v6: RouteIndex::from_table(alloc, PrefixTable::new(alloc))?,
        founds: Vec::new(alloc),
    })
}

// Numbers the networks of a list; `network` says whether they or their values are printed.
fn number_routes<'a>(
    alloc: Global,
    routes: &Routes<'a>,
    network: bool,
) -> Result<ValueIds<'a>, AllocError>
    ensures { IfOk result (λ numbered. NumbersRoutes network routes.now numbered) }
{
    let mut founds = Vec::new(alloc);
    put(&mut founds, Found::Nothing)?;
    let v4 = number_each(alloc, routes.v4.table(), network, &mut founds)?;
    let v6 = number_each(alloc, routes.v6.table(), network, &mut founds)?;
    Ok(ValueIds { v4, v6, founds })
}

// Numbers the networks of one family, continuing the numbers in `founds`, and adds what these
// stand for.
fn number_each<'a, N: OfEither>(
    alloc: Global,
    table: &PrefixTable<N, Value<'a>>,
    network: bool,
    founds: &mut Vec<Found<'a>>,
) -> Result<RouteIndex<N, usize>, AllocError>
    ensures { IfOk result (λ numbers. AddsNumbers (found_by network N.either_of) table.now numbers
        founds.old.items founds.new.items) }
{
    let mut numbers = PrefixTable::new(alloc);
    let mut left = table.iter();
    'listing: while let Some(entry) = left.next() {
        let at = entry.0;
        numbers.insert(at, founds.len())?;
        put(founds, found_of(at, entry.1, network))?;
    }
    RouteIndex::from_table(alloc, numbers)
}

/// Adds an item after the others.
pub(crate) fn put<T: Drop>(items: &mut Vec<T>, item: T) -> Result<(), AllocError>
    ensures { OnOk result (items.new.items ≡ items.old.items ++ item ∷ []) }
{
    items.push(item)?;
    Ok(())
}

// Returns what is printed if this is the longest network, with this value.
fn found_of<N: OfEither>(at: N, value: Value<'_>, network: bool) -> Found<'_>
    ensures { result ≡ found_by network N.either_of (N.pair at) value.entry }
{
    if network {
        Found::Network(at.either())
    } else {
        Found::Value(value)
    }
}
