//! The networks of a list with their values, and which of them contains a network.
ghost use Rattle.std.specs.Prelude.{◌≡◌, ◌<◌, ◌≤◌, ◌^◌, IfOk, IfErr, MatchOption, OnOk};
ghost use Rattle.ipnetwork_blocks.specs.LeastList.{IsLeastList};
ghost use Rattle.ipnetwork_blocks.specs.Ranges.{FromTo};
ghost use Rattle.cidr_join.specs.Routes.{IsLongestRoute, NoRouteHolds, SetsOne, HasOne, SetsRange, RangeHasOne, RefusesRange, IsRefusal, Keeps, no_networks};

use crate::line::Cause;
use crate::longest::longest_over;
use crate::value::Value;
use ipnetwork::{IpNetwork, Ipv4Network, Ipv6Network};
use ipnetwork_blocks::laws::ranges_are_shortest;
use ipnetwork_blocks::{AddressSpace, RangeBlocks, range_to_blocks};
use ipnetwork_index::RouteIndex;
use ipnetwork_table::PrefixTable;
use std::alloc::{AllocError, Global};

/// The networks of a list that were read so far, by family, with their values. Each is stored as
/// its block, with its host bits set to zero.
#[derive(Drop)]
pub struct Networks<'a> {
    pub(crate) v4: PrefixTable<Ipv4Network, Value<'a>>,
    pub(crate) v6: PrefixTable<Ipv6Network, Value<'a>>,
}

/// The networks of a list, indexed for lookups.
#[derive(Drop)]
pub struct Routes<'a> {
    pub(crate) v4: RouteIndex<Ipv4Network, Value<'a>>,
    pub(crate) v6: RouteIndex<Ipv6Network, Value<'a>>,
}

/// Why a line does not give its network a value.
#[derive(Clone, Copy, Debug, PartialEq, Eq)]
pub enum RouteFault {
    /// Out of memory.
    OutOfMemory,
    /// The line is refused.
    Refused(Cause),
}

impl<'a> Networks<'a> {
    /// Creates an empty set of networks.
    pub(crate) fn new(alloc: Global) -> Networks<'a>
        ensures { result ≡ no_networks }
    {
        Networks {
            v4: PrefixTable::new(alloc),
            v6: PrefixTable::new(alloc),
        }
    }
}

impl<'a> Routes<'a> {
    /// Indexes these networks for lookups. Returns `AllocError` if memory runs out.
    pub(crate) fn of(alloc: Global, networks: Networks<'a>) -> Result<Routes<'a>, AllocError>
        ensures v4 { IfOk result (λ routes. routes.v4 ≡ networks.entry.v4) }
        ensures v6 { IfOk result (λ routes. routes.v6 ≡ networks.entry.v6) }
    {
        Ok(Routes {
            v4: RouteIndex::from_table(alloc, networks.v4)?,
            v6: RouteIndex::from_table(alloc, networks.v6)?,
        })
    }

    /// Returns the longest network that contains this one, with its value, or `None` if none does.
    pub(crate) fn longest(&self, asked: IpNetwork) -> Option<(IpNetwork, Value<'a>)>
        ensures { MatchOption result (NoRouteHolds self.now asked)
            (λ found. IsLongestRoute self.now asked found.0 found.1) }
    {
        match asked {
            IpNetwork::V4(asked) => match longest_over(&self.v4, asked) {
                Some((network, value)) => Some((IpNetwork::V4(network), value)),
                None => None,
            },
            IpNetwork::V6(asked) => match longest_over(&self.v6, asked) {
                Some((network, value)) => Some((IpNetwork::V6(network), value)),
                None => None,
            },
        }
    }
}

/// Gives a network a value. If it already has one, it gets the new one if `last_wins`; if not, it
/// keeps its own and `Cause::Twice` is returned. Returns `OutOfMemory` if memory runs out.
pub(crate) fn set_one<'a, N: AddressSpace>(
    table: &mut PrefixTable<N, Value<'a>>,
    network: N,
    value: Value<'a>,
    last_wins: bool,
) -> Result<(), RouteFault>
    ensures ok { OnOk result
        (SetsOne N.WIDTH last_wins table.old (N.pair network) value.entry table.new) }
    ensures err { IfErr result (IsRefusal (HasOne N.WIDTH last_wins table.old (N.pair network))) }
    ensures kept { IfErr result (Keeps table.old table.new) }
{
    match table.insert(network, value) {
        Ok(Some(old)) if !last_wins => {
            // The block gets its own value back: one search fewer for each network that has none.
            let _ = table.insert(network, old);
            Err(RouteFault::Refused(Cause::Twice))
        }
        Ok(_) => Ok(()),
        Err(_) => Err(RouteFault::OutOfMemory),
    }
}

/// Gives a value to each block of the shortest list that makes up the range from `first` to `last`.
/// Returns `Cause::Twice` and changes nothing if a block has one, unless `last_wins`. If memory
/// runs out, returns `OutOfMemory`, and only some of the blocks may have the value.
pub(crate) fn set_range<'a, N: AddressSpace>(
    table: &mut PrefixTable<N, Value<'a>>,
    first: N::Addr,
    last: N::Addr,
    value: Value<'a>,
    last_wins: bool,
) -> Result<(), RouteFault>
    requires { N.number first ≤ N.number last }
    ensures ok { OnOk result (SetsRange N.WIDTH last_wins table.old
        (N.number first) (N.number last) value.entry table.new) }
    ensures err { IfErr result (IsRefusal (RangeHasOne N.WIDTH last_wins table.old
        (N.number first) (N.number last))) }
    ensures kept { IfErr result (Keeps table.old table.new) }
{
    if refuses_range(table, first, last, last_wins) {
        return Err(RouteFault::Refused(Cause::Twice));
    }
    ranges_are_shortest();
    let mut blocks = blocks_of::<N>(first, last);
    while let Some(block) = blocks.next() {
        set_one(table, block, value, true)?;
    }
    Ok(())
}

// Returns whether a range is refused: a block of the shortest list that makes it up has a value,
// and not `last_wins`.
fn refuses_range<N: AddressSpace>(
    table: &PrefixTable<N, Value<'_>>,
    first: N::Addr,
    last: N::Addr,
    last_wins: bool,
) -> bool
    requires { N.number first ≤ N.number last }
    ensures { RefusesRange N.WIDTH last_wins table.now (N.number first) (N.number last) result }
{
    let mut blocks = blocks_of::<N>(first, last);
    if last_wins {
        return false;
    }
    while let Some(block) = blocks.next() {
        if table.get(block).is_some() {
            return true;
        }
    }
    false
}

// Returns the shortest list of blocks that makes up the range from `first` to `last`.
fn blocks_of<N: AddressSpace>(first: N::Addr, last: N::Addr) -> RangeBlocks<N>
    requires { N.number first ≤ N.number last }
    ensures blocks { IsLeastList N.WIDTH (FromTo (N.number first) (N.number last)) result }
    ensures address { N.number last < 2 ^ N.WIDTH }
{
    // The clause `address` of this call states that `last` is an address of the family.
    let _ = N::block(last, N::WIDTH);
    let Some(blocks) = range_to_blocks::<N>(first, last) else {
        unreachable!()
    };
    blocks
}
