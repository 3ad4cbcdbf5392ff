//! Reads the entry of a line.
ghost use Rattle.std.specs.Prelude.{◌≡◌};
ghost use Rattle.std.specs.Bool.{MatchBool};
ghost use Rattle.lists.specs.Entries.{NamesNone, NamesSome, ReadsEntry, ReadsText, told_cause};
ghost use Rattle.lists.specs.Faults.{entry_fault_text};
ghost use Rattle.lists.specs.Private.Kinds.{ReadsNetworkText, ReadsPlain};

use crate::comment::{comment_text, without_comment};
use crate::encoding::{Encoding, encoding_of};
use crate::laws as list_laws;
use crate::range::read_range;
use crate::trimming::{Blank, trim};
use byte_search::find_from;
use ipnetwork::{CidrFault, IpAddr, IpNetwork, cause};
use ipnetwork_addr::laws;

/// What a line of a list names: addresses of one family.
///
/// ```
/// let entry = read_entry(b"10.0.0.0/8 # private")?;
/// assert_eq!(rt; entry, Some(Entry::Network("10.0.0.0/8".parse()?)));
/// ```
#[derive(Clone, Copy, Debug, PartialEq, Eq)]
pub enum Entry {
    /// A network, which keeps its host bits. It names the addresses of its block.
    Network(IpNetwork),
    /// The addresses from `first` to `last`, both included. They are of one family, and `first` is
    /// not after `last`.
    Range {
        /// The first address.
        first: IpAddr,
        /// The last address.
        last: IpAddr,
    },
}

/// Why a line names no addresses.
///
/// ```
/// assert_eq!(rt; read_entry(b"10.0.0.0/33"), Err(EntryFault::Prefix));
/// assert_eq!(rt; read_entry(b"10.0.0.9-10.0.0.1"), Err(EntryFault::Range));
/// ```
#[derive(Clone, Copy, Debug, PartialEq, Eq)]
pub enum EntryFault {
    /// The entry is no range and has two or more slashes; or the line is none of the form in which
    /// the list is read (`LineForm`).
    Format,
    /// What comes before the slash, or the whole entry if it has none, is not an address; or an
    /// end of a range is not an address.
    Address,
    /// What comes after the slash is not a suffix of the address's family: a prefix length, or for
    /// IPv4 a mask.
    Prefix,
    /// The ends of a range are of two families, or the last is before the first.
    Range,
    /// The entry is not plain text.
    Encoding(Encoding),
    /// An entry follows in the comment: `10.0.0.0/8; 192.168.0.0/16`.
    Second,
    /// The network has host bits, and such entries are refused (`Rules`).
    HostBits,
    /// What comes after the address 0.0.0.0 is a mask and a wildcard: `0.0.0.0 255.255.255.255`
    /// may be one address or all of them.
    Mask,
}

impl EntryFault {
    /// Returns the fault in words, `format`, `address`, `prefix`, `range`, `second entry`,
    /// `host bits` or `mask or wildcard`, or the name of the encoding.
    ///
    /// ```
    /// assert_eq!(rt; EntryFault::Prefix.text(), "prefix");
    /// ```
    pub fn text(self) -> &'static str
        ensures { result.now ≡ entry_fault_text self }
    {
        match self {
            EntryFault::Format => "format",
            EntryFault::Address => "address",
            EntryFault::Prefix => "prefix",
            EntryFault::Range => "range",
            EntryFault::Encoding(encoding) => encoding.text(),
            EntryFault::Second => "second entry",
            EntryFault::HostBits => "host bits",
            EntryFault::Mask => "mask or wildcard",
        }
    }
}

/// Reads a line, which is given without its line end. Returns `None` if it has nothing but blanks
/// and a comment.
///
/// The entry is what comes before the first `#` or `;`, without the blanks (spaces and tabs)
/// around it. An entry that contains a `-` is a range: what comes before the first `-` and what
/// is after it, without the blanks around each, are its first and its last address. Any other
/// entry is the text of a network, as `IpNetwork::read_bytes` reads it. All other bytes belong to
/// the entry.
///
/// An error is returned if the entry names no addresses, or if an entry follows it in the comment:
/// what comes after the first `#` or `;`, more of them and blanks, up to the next of them, is an
/// entry by itself. A comment without an entry before it may have one.
///
/// ```
/// let (first, last) = ("10.0.0.1".parse()?, "10.0.0.9".parse()?);
/// assert_eq!(rt; read_entry(b"10.0.0.1 - 10.0.0.9"), Ok(Some(Entry::Range { first, last })));
/// assert_eq!(rt; read_entry(b"; 10.0.0.0/8"), Ok(None));
/// assert_eq!(rt; read_entry(b"10.0.0.0/8; 192.0.2.1"), Err(EntryFault::Second));
/// ```
pub fn read_entry(line: &[u8]) -> Result<Option<Entry>, EntryFault>
    ensures { ReadsEntry line.now result }
{
    // This call does nothing: the proof of this body needs its law, that the text of a network
    // contains no mark of a comment, no blank and no `-`.
    list_laws::network_texts_are_entries();
    if let Ok(network) = IpNetwork::read_bytes(line) {
        return Ok(Some(Entry::Network(network)));
    }
    read_line(line)
}

/// Reads a line, without trying first whether all of it is the text of a network.
fn read_line(line: &[u8]) -> Result<Option<Entry>, EntryFault>
    ensures { ReadsEntry line.now result }
{
    let text = trim::<Blank>(without_comment(line));
    if text.is_empty() {
        return Ok(None);
    }
    match read_text(text) {
        Ok(_) if names_entry(comment_text(line)) => Err(EntryFault::Second),
        Ok(entry) => Ok(Some(entry)),
        Err(fault) => Err(fault),
    }
}

/// Whether a text names an entry.
pub(crate) fn names_entry(text: &[u8]) -> bool
    ensures { MatchBool result (NamesSome text.now) (NamesNone text.now) }
{
    read_plain(text).is_ok()
}

/// Returns the entry that a text names, or why it names none.
pub(crate) fn read_text(text: &[u8]) -> Result<Entry, EntryFault>
    ensures { ReadsText text.now result }
{
    match read_plain(text) {
        Ok(entry) => Ok(entry),
        Err(cause) => Err(told_cause(encoding_of(text), cause)),
    }
}

/// Returns the fault that is reported about a text: its encoding, if it has one, and else the
/// cause.
pub(crate) fn told_cause(encoding: Option<Encoding>, cause: EntryFault) -> EntryFault
    ensures { result ≡ told_cause encoding cause }
{
    match encoding {
        Some(encoding) => EntryFault::Encoding(encoding),
        None => cause,
    }
}

/// Returns the entry that a text names, or why it names none as plain text.
fn read_plain(text: &[u8]) -> Result<Entry, EntryFault>
    ensures { ReadsPlain text.now result }
{
    // This call does nothing: the proof of this body needs its law, since other addresses of the
    // same ends would be another range.
    laws::ip_text_names_one();
    match find_from(text, 0, b'-') {
        Some(at) => read_range(&text[..at], &text[at + 1..]),
        None => read_network(text),
    }
}

/// Returns the network that a text names, or why it names none.
fn read_network(text: &[u8]) -> Result<Entry, EntryFault>
    ensures { ReadsNetworkText text.now result }
{
    if let Ok(network) = IpNetwork::read_bytes(text) {
        return Ok(Entry::Network(network));
    }
    match cause(text) {
        Some(CidrFault::Format) => Err(EntryFault::Format),
        Some(CidrFault::Prefix) => Err(EntryFault::Prefix),
        Some(CidrFault::Addr) => Err(EntryFault::Address),
        None => Err(EntryFault::Address),
    }
}
