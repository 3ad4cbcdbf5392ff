//! Reads entries of two words: an IPv4 address, and its mask or wildcard.
ghost use Rattle.std.specs.Prelude.{◌≡◌, ◌≢◌, ◌≤◌, [], Some};
ghost use Rattle.std.specs.Bool.{MatchBool};
ghost use Rattle.lists.specs.Entries.{entry_text};
ghost use Rattle.lists.specs.Lines.{comment_text};
ghost use Rattle.lists.specs.Masks.{ReadsWithMasks, SaysNone, SaysSome, after_word, first_word};
ghost use Rattle.lists.specs.Private.Masked.{GivesLength, GivesOneLength, IsNotMasked, ReadsMasked};

use crate::comment::{comment_text, without_comment};
use crate::entry::{Entry, EntryFault, names_entry, read_entry};
use crate::trimming::{Blank, ByteKind, front_len, trim};
use ipnetwork::{IpNetwork, Ipv4Addr, Ipv4Network, ipv4_mask_to_prefix};
use ipnetwork_addr::laws;

/// Reads a line whose entry may be of two words (see `read_entry_by`).
pub(crate) fn read_with_masks(line: &[u8]) -> Result<Option<Entry>, EntryFault>
    ensures { ReadsWithMasks line.now result }
{
    let text = trim::<Blank>(without_comment(line));
    if text.is_empty() {
        return Ok(None);
    }
    let comment = comment_text(line);
    match read_masked(text) {
        Ok(None) => read_word(line, comment),
        Ok(Some(_)) if says_some(comment) => Err(EntryFault::Second),
        read => read,
    }
}

// Reads a line whose entry is not of two words, and whose comment is this text.
fn read_word(line: &[u8], comment: &[u8]) -> Result<Option<Entry>, EntryFault>
    requires comment { comment.now ≡ comment_text line.now }
    requires none { IsNotMasked (entry_text line.now) }
    requires some { entry_text line.now ≢ [] }
    ensures { ReadsWithMasks line.now result }
{
    match read_entry(line) {
        Ok(Some(_)) if says_some(comment) => Err(EntryFault::Second),
        read => read,
    }
}

// Whether a text names an entry or is unclear.
fn says_some(text: &[u8]) -> bool
    ensures { MatchBool result (SaysSome text.now) (SaysNone text.now) }
{
    match read_masked(text) {
        Ok(None) => names_entry(text),
        _ => true,
    }
}

// Returns the network of an address and its mask or wildcard, or nothing if the text is none.
fn read_masked(text: &[u8]) -> Result<Option<Entry>, EntryFault>
    ensures { ReadsMasked text.now result }
{
    // This call does nothing: the proof of this body needs its law, since other addresses of the
    // same words would be another network.
    laws::v4_text_names_one();
    let count = front_len::<WordByte>(text);
    let Ok(number) = Ipv4Addr::read_bytes(trim::<Blank>(&text[count..])) else {
        return Ok(None);
    };
    let Ok(address) = Ipv4Addr::read_bytes(&text[..count]) else {
        return Ok(None);
    };
    match length_said(address, number) {
        Ok(Some(prefix)) => Ok(network_of(address, prefix)),
        Ok(None) => Ok(None),
        Err(fault) => Err(fault),
    }
}

/// Returns the first word of a text.
pub(crate) fn first_word(text: &[u8]) -> &[u8]
    ensures { result.now ≡ first_word text.now }
{
    &text[..front_len::<WordByte>(text)]
}

/// Returns what follows the first word of a text, without the blanks around it.
pub(crate) fn after_word(text: &[u8]) -> &[u8]
    ensures { result.now ≡ after_word text.now }
{
    trim::<Blank>(&text[front_len::<WordByte>(text)..])
}

// Returns the prefix length that the number after an address says, if it says one.
fn length_said(address: Ipv4Addr, number: Ipv4Addr) -> Result<Option<u8>, EntryFault>
    ensures { GivesLength address number result }
{
    let bits = u32::from(number);
    if bits != 0 && bits != u32::MAX {
        return Ok(length_of(number));
    }
    if u32::from(address) == 0 {
        return Err(EntryFault::Mask);
    }
    Ok(Some(32))
}

// Returns the prefix length of a mask or wildcard, or nothing if the number is neither.
fn length_of(number: Ipv4Addr) -> Option<u8>
    ensures { GivesOneLength number result }
{
    if let Ok(prefix) = ipv4_mask_to_prefix(number) {
        return Some(prefix);
    }
    let turned = Ipv4Addr::from(u32::MAX - u32::from(number));
    ipv4_mask_to_prefix(turned).ok()
}

// Returns the network of this address and prefix length, unless that is greater than 32.
fn network_of(address: Ipv4Addr, prefix: u8) -> Option<Entry>
    ensures { prefix ≤ 32 → result ≡ Some (Entry.Network
        (IpNetwork.V4 (record { address = address; prefix = prefix }))) }
{
    match Ipv4Network::new(address, prefix) {
        Ok(network) => Some(Entry::Network(IpNetwork::V4(network))),
        Err(_) => None,
    }
}

/// Bytes that are no blanks.
struct WordByte;

impl ByteKind for WordByte {
    ghost use Rattle.lists.specs.Masks.{is_word_byte};

    ghost is_one = { is_word_byte };

    fn has(byte: u8) -> bool {
        byte != b' ' && byte != b'\t'
    }
}
