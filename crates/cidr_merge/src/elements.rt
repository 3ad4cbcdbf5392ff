//! The text of a block in an export.
ghost use Rattle.std.specs.Prelude.{◌≡◌, ◌≤◌, ◌+◌, ◌-◌, ◌++◌, length};
ghost use Rattle.arrayvec.specs.ArrayString.{array_string_len};
ghost use Rattle.ipnetwork_family.specs.Family.{text_of};
ghost use Rattle.program.specs.Putting.{PutsOrFails};
ghost use Rattle.ipnetwork_family.specs.Network.{block_size};
ghost use Rattle.cidr_merge.specs.Exports.{element, with_mask, csv_line, ipset_lines};
ghost use Rattle.cidr_merge.specs.Exports.{family_name, family_word, half_blocks, ipset_halves};

use crate::addresses::print_addresses;
use crate::cutting::put_network;
use crate::exports::{Export, Version, family_word};
use crate::set_names::{Name, SetNames};
use arrayvec::ArrayString;
use ipnetwork::{Address, Network};
use ipnetwork_addr::decimal::push_decimal;
use lines::fault::RunFault;
use lines::output::Output;
use program::putting::put_all;
use std::io::Write;

/// The greatest length of a line of comma-separated values, in bytes.
const LINE_CAPACITY: usize = 129;

/// A line of comma-separated values.
type Line = ArrayString<LINE_CAPACITY>;

/// Writes a block.
pub(crate) fn print_element<A: Address, W: Write>(
    export: Export,
    names: &SetNames<'_>,
    version: Version,
    block: Network<A>,
    output: &mut Output<'_, W>,
) -> Result<(), RunFault>
    ensures { PutsOrFails result output.old output.new
        (element names.now export version A.family block) }
{
    match export {
        Export::Netmask => put_with_mask(names, version, block, block.mask(), output),
        Export::Wildcard => put_with_mask(names, version, block, wildcard(block), output),
        Export::Csv => output.put(csv_line(version, block).as_str().as_bytes()),
        Export::Nft => output.put(block.canonical().as_str().as_bytes()),
        Export::Ipset => put_ipset(names.set, version, block, output),
        Export::Json => put_all(&["\"", block.canonical().as_str(), "\""], output),
        Export::Addresses => print_addresses(names, block.iter(), output),
    }
}

// Returns the wildcard mask of a block: the complement of its mask.
fn wildcard<A: Address>(block: Network<A>) -> A
    ensures { A.number result ≡ block_size A.WIDTH block.prefix - 1 }
{
    A::mask(0).greatest(block.prefix())
}

// Writes a line with the address of an IPv4 block and this mask, or with the text of an IPv6 block.
fn put_with_mask<A: Address, W: Write>(
    names: &SetNames<'_>,
    version: Version,
    block: Network<A>,
    mask: A,
    output: &mut Output<'_, W>,
) -> Result<(), RunFault>
    ensures { PutsOrFails result output.old output.new
        (with_mask names.now version A.family block (A.number mask)) }
{
    match version {
        Version::V4 => put_all(
            &[
                names.before,
                block.ip().canonical().as_str(),
                " ",
                mask.canonical().as_str(),
                names.after,
                "\n",
            ],
            output,
        ),
        Version::V6 => put_network(names, block, output),
    }
}

// Returns the line of comma-separated values for a block.
fn csv_line<A: Address>(version: Version, block: Network<A>) -> Line
    ensures { result.bytes ≡ csv_line version A.family block }
{
    let mut text = ArrayString::new();
    text.push_str(family_name(version));
    text.push(',');
    push_network(&mut text, block);
    text.push(',');
    push_address(&mut text, block.network());
    text.push(',');
    push_address(&mut text, block.broadcast());
    text.push('\n');
    text
}

// Writes the command that adds a block to the new set of ipset. Since a set cannot have the block
// of all addresses, its two halves are added instead.
fn put_ipset<A: Address, W: Write>(
    set: Name,
    version: Version,
    block: Network<A>,
    output: &mut Output<'_, W>,
) -> Result<(), RunFault>
    ensures { PutsOrFails result output.old output.new
        (ipset_lines set.bytes version A.family block) }
{
    if block.prefix() == 0 {
        return put_halves(set, version, output);
    }
    put_all(
        &[
            "add ",
            set.as_str(),
            family_word(version),
            "_new ",
            block.canonical().as_str(),
            "\n",
        ],
        output,
    )
}

// Writes the commands that add all addresses to the new set of ipset.
fn put_halves<W: Write>(
    set: Name,
    version: Version,
    output: &mut Output<'_, W>,
) -> Result<(), RunFault>
    ensures { PutsOrFails result output.old output.new
        (ipset_halves set.bytes (family_word version) (half_blocks version)) }
{
    let set = set.as_str();
    let word = family_word(version);
    let (first, second) = half_blocks(version);
    put_all(
        &[
            "add ", set, word, "_new ", first, "\nadd ", set, word, "_new ", second, "\n",
        ],
        output,
    )
}

// Returns the name of a family.
fn family_name(version: Version) -> &'static str
    ensures name { result.now ≡ family_name version }
    ensures short { length result.now ≤ 4 }
{
    match version {
        Version::V4 => "IPv4",
        Version::V6 => "IPv6",
    }
}

// Returns the two halves of the block of all addresses.
fn half_blocks(version: Version) -> (&'static str, &'static str)
    ensures first { result.0.now ≡ (half_blocks version).0 }
    ensures second { result.1.now ≡ (half_blocks version).1 }
{
    match version {
        Version::V4 => ("0.0.0.0/1", "128.0.0.0/1"),
        Version::V6 => ("::/1", "8000::/1"),
    }
}

// Appends the canonical text of an address to a text.
fn push_address<A: Address>(text: &mut Line, address: A)
    requires { array_string_len text.old + 39 ≤ 129 }
    ensures bytes { text.new.bytes ≡ text.old.bytes ++ A.family.canonical (A.number address) }
    ensures room { array_string_len text.new ≤ array_string_len text.old + 39 }
{
    text.push_str(address.canonical().as_str());
}

// Appends the canonical text of a block to a text.
fn push_network<A: Address>(text: &mut Line, block: Network<A>)
    requires { array_string_len text.old + 43 ≤ 129 }
    ensures bytes { text.new.bytes ≡ text.old.bytes ++ text_of A.family block }
    ensures room { array_string_len text.new ≤ array_string_len text.old + 43 }
{
    push_address(text, block.ip());
    text.push('/');
    push_decimal(text, block.prefix());
}
