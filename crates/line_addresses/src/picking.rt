//! Picks an address from a part of a line.
ghost use Rattle.std.specs.Prelude.{◌≡◌, ◌-◌, None, MatchOption, slice_get};
ghost use Rattle.line_addresses.specs.Addresses.{with_text};
ghost use Rattle.line_addresses.specs.Areas.{IsPicked, last_of, picked, spelled_by};
ghost use Rattle.line_addresses.specs.Networks.{found_of};

use crate::area::Pick;
use crate::found::Found;
use crate::network::named_network;
use crate::run::address_of;
use crate::stretches::next_found;
use ipnetwork_addr::IpAddr;

/// Returns the address that is picked from a part of a line, or the first of several; or `None` if
/// there is none. If `networks`, networks count too. The part is scanned at most once.
///
/// ```
/// let forwarded = b"10.1.1.1, 192.0.2.7, 198.51.100.9";
/// let second = picked(forwarded, Pick::Number(2), false);
/// assert_eq!(rt; second.map(|found| found.address), Some("192.0.2.7".parse()?));
/// assert_eq!(rt; picked(forwarded, Pick::Whole, false), None);
/// ```
#[inline(always)]
pub fn picked(text: &[u8], pick: Pick, networks: bool) -> Option<Found>
    ensures { MatchOption result (picked networks pick text.now ≡ None)
        (IsPicked (picked networks pick text.now) text.now) }
{
    match pick {
        Pick::Whole => whole(text, networks),
        Pick::Each => next_found(text, 0, networks),
        Pick::Number(number) => numbered(text, number, networks),
        Pick::Last => last(text, networks),
    }
}

// Finds the address that the whole text names, or, if `networks`, the network.
#[inline(always)]
fn whole(text: &[u8], networks: bool) -> Option<Found>
    ensures { MatchOption result (spelled_by networks text.now ≡ None)
        (IsPicked (spelled_by networks text.now) text.now) }
{
    match named(text, networks) {
        Some(address) => Some(Found {
            address,
            start: 0,
            end: text.len(),
            next: text.len(),
        }),
        None => None,
    }
}

// Returns the address that a text names, or, if `networks`, that of the network that it names.
#[inline(always)]
fn named(text: &[u8], networks: bool) -> Option<IpAddr>
    ensures { with_text text.now result ≡ spelled_by networks text.now }
{
    if networks {
        named_network(text)
    } else {
        address_of(text)
    }
}

// Finds the address with this number, from 1 on, in a text.
fn numbered(text: &[u8], number: u32, networks: bool) -> Option<Found>
    ensures { MatchOption result (slice_get (found_of networks text.now) (number - 1) ≡ None)
        (IsPicked (slice_get (found_of networks text.now) (number - 1)) text.now) }
{
    let mut at = 0;
    let mut more = number.saturating_sub(1);
    'addresses: while let Some(found) = next_found(text, at, networks) {
        if more == 0 {
            return Some(found);
        }
        more -= 1;
        at = found.next;
    }
    None
}

// Finds the last address in a text.
fn last(text: &[u8], networks: bool) -> Option<Found>
    ensures { MatchOption result (last_of None (found_of networks text.now) ≡ None)
        (IsPicked (last_of None (found_of networks text.now)) text.now) }
{
    let mut at = 0;
    let mut last = None;
    'addresses: while let Some(found) = next_found(text, at, networks) {
        at = found.next;
        last = Some(found);
    }
    last
}
