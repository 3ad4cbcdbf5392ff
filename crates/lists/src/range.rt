//! Reads a range of addresses.
ghost use Rattle.lists.specs.Entries.{IsRange};
ghost use Rattle.lists.specs.Private.Kinds.{ReadsRange};
ghost use Rattle.std.specs.Prelude.{◌↔◌, ◌≡◌, IsTrue, MatchResult};

use crate::entry::{Entry, EntryFault};
use crate::trimming::{Blank, trim};
use ipnetwork::IpAddr;

/// Returns the range between the ends that these texts name, or why there is none.
pub(crate) fn read_range(before: &[u8], after: &[u8]) -> Result<Entry, EntryFault>
    ensures { ReadsRange before.now after.now result }
{
    let Ok(first) = IpAddr::read_bytes(trim::<Blank>(before)) else {
        return Err(EntryFault::Address);
    };
    let Ok(last) = IpAddr::read_bytes(trim::<Blank>(after)) else {
        return Err(EntryFault::Address);
    };
    between(first, last)
}

/// Returns the range from one address to another, or the fault that they are the ends of none.
fn between(first: IpAddr, last: IpAddr) -> Result<Entry, EntryFault>
    ensures { MatchResult result (λ entry. (entry ≡ Entry.Range first last) × IsRange first last)
        (λ fault. (fault ≡ EntryFault.Range) × ¬ (IsRange first last)) }
{
    if !is_range(&first, &last) {
        return Err(EntryFault::Range);
    }
    let range = Entry::Range { first, last };
    Ok(range)
}

/// Whether the addresses are of one family, and the first is not after the last.
fn is_range(first: &IpAddr, last: &IpAddr) -> bool
    ensures { IsTrue result ↔ IsRange first.now last.now }
{
    if let (IpAddr::V4(_), IpAddr::V6(_)) = (first, last) {
        return false;
    }
    first <= last
}
