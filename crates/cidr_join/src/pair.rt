//! Two addresses at the front of a line.
ghost use Rattle.std.specs.Prelude.{◌≡◌, ◌↔◌, IsTrue, MatchOption, None};
ghost use Rattle.std.specs.Bool.{MatchBool};
ghost use Rattle.ipnetwork_addr.specs.Computed.Either.{ip_of};
ghost use Rattle.lists.specs.Entries.{IsRange};
ghost use Rattle.cidr_join.specs.Entries.{first_word};
ghost use Rattle.cidr_join.specs.Pairs.{IsLikelyRange, IsMaskAddress, are_one_family, two_of};

use ipnetwork::{IpAddr, IpNetwork, ipv4_mask_to_prefix, laws};
use lists::{ByteKind, Entry, front_len, meant_by_mask};

/// Two addresses, one after the other.
#[derive(Clone, Copy, Debug)]
pub struct Pair {
    /// The first one.
    pub first: IpAddr,
    /// The second one.
    pub second: IpAddr,
}

/// Returns the addresses that a text and the first word of a value are, if both are one.
pub(crate) fn pair_of(front: &[u8], value: &[u8]) -> Option<Pair>
    ensures { result ≡ two_of (ip_of front.now) (ip_of (first_word value.now)) }
{
    if ends_in_prefix(front) {
        return None;
    }
    // Most values begin with no address: only if one does, `front` is read once more.
    match address_of(first_word(value)) {
        Some(second) => match address_of(front) {
            Some(first) => Some(Pair { first, second }),
            None => None,
        },
        None => None,
    }
}

// Whether one or two bytes after a `/` end a text, which then is no address: `10.0.0.0/8`.
fn ends_in_prefix(text: &[u8]) -> bool
    ensures { IsTrue result → ip_of text.now ≡ None }
{
    // These do nothing: the proof of this body needs the laws.
    laws::v4_text_is_computed();
    laws::v6_text_is_computed();
    laws::v4_text_bytes();
    laws::v6_text_bytes();
    let count = text.len();
    count > 2 && (text[count - 3] == b'/' || text[count - 2] == b'/')
}

// Returns the first word of a value: what comes before a space, a tab or a comma.
fn first_word(value: &[u8]) -> &[u8]
    ensures { result.now ≡ first_word value.now }
{
    &value[..front_len::<OfWord>(value)]
}

// Returns the address that a text names.
fn address_of(text: &[u8]) -> Option<IpAddr>
    ensures { result ≡ ip_of text.now }
{
    // Does nothing: the proof of this body needs the law.
    laws::ip_reading_is_computed();
    IpAddr::read_bytes(text).ok()
}

impl Pair {
    /// Whether both are of one family.
    pub(crate) fn are_one_family(self) -> bool
        ensures { result ≡ are_one_family self }
    {
        match self.first {
            IpAddr::V4(_) => matches!(self.second, IpAddr::V4(_)),
            IpAddr::V6(_) => matches!(self.second, IpAddr::V6(_)),
        }
    }

    /// Returns the range from the first to the second, unless they are of two families or the
    /// second is before the first.
    pub(crate) fn range(self) -> Option<Entry>
        ensures { MatchOption result (¬ (IsRange self.first self.second))
            (λ entry. (entry ≡ Entry.Range self.first self.second)
            × IsRange self.first self.second) }
    {
        if !is_range(&self.first, &self.second) {
            return None;
        }
        Some(Entry::Range {
            first: self.first,
            last: self.second,
        })
    }

    /// Returns the network of an address and the mask or wildcard after it, if they are these; it is
    /// for messages, and no clause says which.
    pub(crate) fn masked(self) -> Option<IpNetwork> {
        meant_by_mask(self.first, self.second)
    }

    /// Whether the two are probably a range: the first is not after the second, and the second is
    /// no mask.
    pub(crate) fn is_likely_range(self) -> bool
        ensures { MatchBool result (IsLikelyRange self) (¬ (IsLikelyRange self)) }
    {
        is_range(&self.first, &self.second) && !is_mask(self.second)
    }
}

// Whether two addresses are of one family, and the first is not after the last.
fn is_range(first: &IpAddr, last: &IpAddr) -> bool
    ensures { IsTrue result ↔ IsRange first.now last.now }
{
    if let (IpAddr::V4(_), IpAddr::V6(_)) = (first, last) {
        return false;
    }
    first <= last
}

// Whether an address is a mask of IPv4.
fn is_mask(address: IpAddr) -> bool
    ensures { MatchBool result (IsMaskAddress address) (¬ (IsMaskAddress address)) }
{
    match address {
        IpAddr::V4(mask) => ipv4_mask_to_prefix(mask).is_ok(),
        IpAddr::V6(_) => false,
    }
}

/// Neither a space nor a tab nor a comma.
pub(crate) struct OfWord;

impl ByteKind for OfWord {
    ghost use Rattle.cidr_join.specs.Entries.{is_word};

    ghost is_one = { is_word };

    fn has(byte: u8) -> bool {
        byte != b' ' && byte != b'\t' && byte != b','
    }
}
