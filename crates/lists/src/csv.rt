//! Reads lines of comma-separated values.
ghost use Rattle.std.specs.Prelude.{◌≡◌, ◌≤◌, ◌+◌, ◌++◌, MatchBool, Ok, Err, Some};
ghost use Rattle.std.specs.Prelude.{bytes_eq, length};
ghost use Rattle.arrayvec.specs.ArrayString.{array_string_len};
ghost use Rattle.ipnetwork_family.specs.Family.{text_of};
ghost use Rattle.lists.specs.CsvLines.{ReadsCsv, csv_fields, csv_line};
ghost use Rattle.lists.specs.Encodings.{encoding_of};
ghost use Rattle.lists.specs.Entries.{told_cause};
ghost use Rattle.lists.specs.declared.entry.Entry.TheVariants as entries;
ghost use Rattle.lists.specs.declared.entry.EntryFault.TheVariants.{Format};

use crate::cutting::{after, before};
use crate::entry::{Entry, EntryFault};
use crate::forms::of_another_form;
use arrayvec::ArrayString;
use ipnetwork::{Address, IpNetwork, Network, laws};
use ipnetwork_addr::decimal::push_decimal;

/// The greatest length of a line, in bytes.
const LINE_CAPACITY: usize = 128;

/// A line.
type Line = ArrayString<LINE_CAPACITY>;

/// Reads a line.
pub(crate) fn read_csv(line: &[u8]) -> Result<Option<Entry>, EntryFault>
    ensures { ReadsCsv line.now result }
{
    // This call does nothing: the proof of this body needs its law, since another network of the
    // same text would have another line.
    laws::ip_network_text_names_one();
    if line == b"family,network,first,last".as_slice() {
        return Ok(None);
    }
    match IpNetwork::read_bytes(before(after(line, b','), b',')) {
        Ok(network) => read_line_of(line, &network),
        Err(_) => Err(of_another_form(line)),
    }
}

// Reads a line whose second field names this network.
fn read_line_of(line: &[u8], network: &IpNetwork) -> Result<Option<Entry>, EntryFault>
    ensures { MatchBool (bytes_eq line.now (csv_line network.now))
        (result ≡ Ok (Some (entries.Network network.now)))
        (result ≡ Err (told_cause (encoding_of line.now) Format)) }
{
    if is_line_of(line, *network) {
        Ok(Some(Entry::Network(*network)))
    } else {
        Err(of_another_form(line))
    }
}

// Whether a line is the one that is printed for a network.
fn is_line_of(line: &[u8], network: IpNetwork) -> bool
    ensures { result ≡ bytes_eq line.now (csv_line network) }
{
    let wanted = csv_line(network);
    line == wanted.as_str().as_bytes()
}

// Returns the line that is printed for a network.
fn csv_line(network: IpNetwork) -> Line
    ensures { result.bytes ≡ csv_line network }
{
    match network {
        IpNetwork::V4(network) => line_of("IPv4,", network),
        IpNetwork::V6(network) => line_of("IPv6,", network),
    }
}

// Returns the line of a network, from its beginning.
fn line_of<A: Address>(family: &str, network: Network<A>) -> Line
    requires { length family.now ≤ 5 }
    ensures { result.bytes ≡ csv_fields family.now A.family network }
{
    let mut text = ArrayString::new();
    text.push_str(family);
    push_network(&mut text, network);
    text.push(',');
    push_address(&mut text, network.network());
    text.push(',');
    push_address(&mut text, network.broadcast());
    text
}

// Appends the canonical text of a network to a text.
fn push_network<A: Address>(text: &mut Line, network: Network<A>)
    requires { array_string_len text.old + 43 ≤ 128 }
    ensures bytes { text.new.bytes ≡ text.old.bytes ++ text_of A.family network }
    ensures room { array_string_len text.new ≤ array_string_len text.old + 43 }
{
    push_address(text, network.ip());
    text.push('/');
    push_decimal(text, network.prefix());
}

// Appends the canonical text of an address to a text.
fn push_address<A: Address>(text: &mut Line, address: A)
    requires { array_string_len text.old + 39 ≤ 128 }
    ensures bytes { text.new.bytes ≡ text.old.bytes ++ A.family.canonical (A.number address) }
    ensures room { array_string_len text.new ≤ array_string_len text.old + 39 }
{
    text.push_str(address.canonical().as_str());
}
