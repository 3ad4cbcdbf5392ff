//! Takes the networks of lists with their values.
ghost use Rattle.std.specs.Prelude.{◌≡◌, ◌==◌, ◌<◌, ◌+◌, ◌^◌, ◌∷◌, [], IfErr, OnOk};
ghost use Rattle.std.specs.List.{slice_split};
ghost use Rattle.cidr_join.specs.Routes.{IsGoodEntry, SetsEntry, EntryHasOne, IsRefusal, Keeps};
ghost use Rattle.cidr_join.specs.Takes.{TakesLine, refuses};
ghost use Rattle.cidr_join.specs.Private.Listing.{nothing_taken, left_out, EndsLines, GoesOn, LineFails};

use crate::line::{Cause, read_route};
use crate::routes::{Networks, RouteFault, set_one, set_range};
use crate::telling::tell_refused;
use crate::value::Value;
use byte_search::find_from;
use ipnetwork::{IpAddr, IpNetwork};
use lines::output::Output;
use lists::{Entry, has_host_bits};
use std::alloc::Global;
use std::io::Write;

/// How the lines of a list are taken.
#[derive(Clone, Copy, Debug, PartialEq, Eq)]
pub struct ListRules {
    /// A network that is listed twice gets its last value, and is not refused.
    pub last_wins: bool,
    /// A line may have no value.
    pub bare: bool,
    /// A line `FIRST LAST` is a range, and is not refused.
    pub ranges: bool,
    /// A network with host bits is refused: `10.0.0.5/8`.
    pub strict: bool,
    /// A refused line is reported and left out, and is not a fault.
    pub skips: bool,
}

impl ListRules {
    // Returns whether an entry is refused for its host bits.
    fn refuses(self, entry: &Entry) -> bool
        ensures { result ≡ refuses self entry.now }
    {
        self.strict && has_host_bits(entry)
    }
}

/// Why a list is not taken to its end: a fault of one of its lines.
#[derive(Clone, Copy, Debug)]
pub struct TakeFault<'a> {
    /// How many lines come before that line.
    pub lines: usize,
    /// The line.
    pub line: &'a [u8],
    /// The fault.
    pub fault: RouteFault,
}

/// How many of the refused lines that are left out are reported; of the others only their number
/// is.
const TOLD_MAX: u64 = 100;

/// What was taken of the lines of lists.
#[derive(Drop)]
pub struct Listing<'a> {
    pub(crate) networks: Networks<'a>,
    // The number of lines of the last list.
    pub(crate) lines: usize,
    // How many lines of all lists were refused and left out.
    pub(crate) skipped: u64,
}

impl<'a> Listing<'a> {
    /// The state before the first list.
    pub(crate) fn new(alloc: Global) -> Listing<'a>
        ensures { result ≡ nothing_taken }
    {
        Listing {
            networks: Networks::new(alloc),
            lines: 0,
            skipped: 0,
        }
    }

    /// Returns how many of the refused lines that were left out are not reported.
    pub(crate) fn more(&self) -> u64 {
        self.skipped.saturating_sub(TOLD_MAX)
    }

    /// Returns the networks of the lists, with their values.
    pub(crate) fn into_networks(self) -> Networks<'a>
        ensures { result ≡ self.entry.networks }
    {
        self.networks
    }
}

/// Takes the lines of the list with this name by these rules, after those of other lists.
pub(crate) fn take_list<'a, E: Write>(
    listing: &mut Listing<'a>,
    name: &str,
    text: &'a [u8],
    rules: ListRules,
    errors: &mut Output<'_, E>,
) -> Result<(), TakeFault<'a>>
    ensures ok { OnOk result (GoesOn rules listing.old.networks listing.new.networks
        (slice_split (λ b. b == 10) text.now)) }
    ensures err { IfErr result (λ fault. EndsLines rules listing.old.networks
        (slice_split (λ b. b == 10) text.now) fault.fault) }
{
    listing.lines = 0;
    let mut at = 0;
    'lines: while let Some(end) = find_from(text, at, b'\n') {
        if let Err(fault) = take_next(listing, name, &text[at..end], rules, errors) {
            return Err(fault);
        }
        at = end + 1;
    }
    take_next(listing, name, &text[at..], rules, errors)
}

// Takes the next line, or leaves it out.
fn take_next<'a, E: Write>(
    listing: &mut Listing<'a>,
    name: &str,
    line: &'a [u8],
    rules: ListRules,
    errors: &mut Output<'_, E>,
) -> Result<(), TakeFault<'a>>
    requires { listing.old.lines + 1 < 2 ^ 64 }
    ensures ok { OnOk result
        (GoesOn rules listing.old.networks listing.new.networks (line.now ∷ [])) }
    ensures err { IfErr result
        (λ fault. EndsLines rules listing.old.networks (line.now ∷ []) fault.fault) }
    ensures lines { listing.new.lines ≡ listing.old.lines + 1 }
{
    let lines = listing.lines;
    listing.lines += 1;
    match take_line(&mut listing.networks, line, rules) {
        Ok(()) => Ok(()),
        Err(fault) => match left_out(rules, fault) {
            Some(cause) => {
                skip(&mut listing.skipped, name, lines, line, cause, errors);
                Ok(())
            }
            None => Err(TakeFault { lines, line, fault }),
        },
    }
}

// Returns why a line with this fault is left out, if it is.
fn left_out(rules: ListRules, fault: RouteFault) -> Option<Cause>
    ensures { result ≡ left_out rules fault }
{
    match fault {
        RouteFault::Refused(cause) if rules.skips => Some(cause),
        _ => None,
    }
}

// Counts a line that is left out, and reports it if it is one of the first; `lines` come before
// it.
fn skip<E: Write>(
    skipped: &mut u64,
    name: &str,
    lines: usize,
    line: &[u8],
    cause: Cause,
    errors: &mut Output<'_, E>,
) {
    *skipped = skipped.saturating_add(1);
    if *skipped <= TOLD_MAX {
        tell_refused(name, lines, line, cause, errors);
    }
}

// Takes what a line says.
#[tactic(auto, using(crate::proofs::Taking::line_said))]
fn take_line<'a>(
    networks: &mut Networks<'a>,
    line: &'a [u8],
    rules: ListRules,
) -> Result<(), RouteFault>
    ensures ok { OnOk result (TakesLine rules networks.old line.now networks.new) }
    ensures err { IfErr result (LineFails rules networks.old line.now) }
    ensures kept { IfErr result (Keeps networks.old networks.new) }
{
    match read_route(line, rules.bare, rules.ranges) {
        Ok(None) => Ok(()),
        Ok(Some(said)) if rules.refuses(&said.entry) => Err(RouteFault::Refused(Cause::HostBits)),
        Ok(Some(said)) => set_entry(networks, said.entry, said.value, rules.last_wins),
        Err(cause) => Err(RouteFault::Refused(cause)),
    }
}

// Gives the network of an entry, or the blocks of its range, a value.
#[tactic(auto, using(crate::proofs::Taking::kept_v4, crate::proofs::Taking::kept_v6))]
fn set_entry<'a>(
    networks: &mut Networks<'a>,
    entry: Entry,
    value: Value<'a>,
    last_wins: bool,
) -> Result<(), RouteFault>
    requires { IsGoodEntry entry }
    ensures ok { OnOk result (SetsEntry last_wins networks.old entry value.entry networks.new) }
    ensures err { IfErr result (IsRefusal (EntryHasOne last_wins networks.old entry)) }
    ensures kept { IfErr result (Keeps networks.old networks.new) }
{
    match entry {
        Entry::Network(network) => match network {
            IpNetwork::V4(network) => set_one(&mut networks.v4, network, value, last_wins),
            IpNetwork::V6(network) => set_one(&mut networks.v6, network, value, last_wins),
        },
        Entry::Range { first, last } => match first {
            IpAddr::V4(first) => match last {
                IpAddr::V4(last) => { set_range(&mut networks.v4, first, last, value, last_wins) }
                IpAddr::V6(_) => Ok(()),
            },
            IpAddr::V6(first) => match last {
                IpAddr::V4(_) => Ok(()),
                IpAddr::V6(last) => { set_range(&mut networks.v6, first, last, value, last_wins) }
            },
        },
    }
}
