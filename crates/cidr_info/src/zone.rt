//! The zones that hold the reverse names of a network.
ghost use Rattle.std.specs.Prelude.{◌≡◌, ◌+◌, ◌*◌, ◌<◌, ◌≤◌, ◌^◌, ◌++◌};
ghost use Rattle.arrayvec.specs.ArrayString.{array_string_len};
ghost use Rattle.ipnetwork.specs.declared.ip_network.IpNetwork.TheVariants.{V4, V6};
ghost use Rattle.cidr_info.specs.Zones.{zone_of, zone_at, zone_count, octet_label, nibble_label, octet_at, nibble_at, octet_labels, nibble_labels};

use crate::number_texts::{hex_digit, push_hex};
use crate::value::VALUE_MAX;
use arrayvec::ArrayString;
use ipnetwork::{IpNetwork, Ipv4Network, Ipv6Network};
use ipnetwork_addr::decimal::{push_decimal, push_number};

/// Returns the reverse zone of the octets that the prefix length of a network covers in full, or of
/// the nibbles of an IPv6 network.
pub(crate) fn zone_text(network: &IpNetwork) -> ArrayString<VALUE_MAX>
    ensures { result.bytes ≡ zone_of network.now }
{
    let mut text = ArrayString::new();
    match network {
        IpNetwork::V4(network) => push_v4_zone(&mut text, network),
        IpNetwork::V6(network) => push_v6_zone(&mut text, network),
    }
    text
}

/// Returns how many reverse zones a network has.
pub(crate) fn zone_count(network: &IpNetwork) -> u8
    ensures { result ≡ zone_count network.now }
{
    match network {
        IpNetwork::V4(network) if network.prefix() < 24 => 1 << ((8 - network.prefix() % 8) % 8),
        IpNetwork::V4(_) => 1,
        IpNetwork::V6(network) => 1 << ((4 - network.prefix() % 4) % 4),
    }
}

/// Returns the reverse zone of a network that comes after `place` others.
pub(crate) fn zone_at(network: &IpNetwork, place: u8) -> ArrayString<VALUE_MAX>
    ensures { result.bytes ≡ zone_at network.now place }
{
    let mut text = ArrayString::new();
    match network {
        IpNetwork::V4(network) => {
            push_octet_label(&mut text, network, place);
            push_v4_zone(&mut text, network);
        }
        IpNetwork::V6(network) => {
            push_nibble_label(&mut text, network, place);
            push_v6_zone(&mut text, network);
        }
    }
    text
}

// Appends the label of the octet that the prefix length covers in part, in the zone that comes
// after `place` others.
fn push_octet_label(text: &mut ArrayString<VALUE_MAX>, network: &Ipv4Network, place: u8)
    requires { array_string_len text.old + 40 ≤ VALUE_MAX }
    ensures bytes { text.new.bytes ≡ text.old.bytes ++ octet_label network.now place }
    ensures room { array_string_len text.new ≤ array_string_len text.old + 40 }
{
    let prefix = network.prefix();
    if prefix < 24 && prefix % 8 > 0 {
        let octet = octet_at(prefix / 8, u32::from(network.network()));
        push_number(text, u128::from(octet) + u128::from(place));
        text.push_str(".");
    }
}

// Appends the label of the nibble that the prefix length covers in part, in the zone that comes
// after `place` others.
fn push_nibble_label(text: &mut ArrayString<VALUE_MAX>, network: &Ipv6Network, place: u8)
    requires { array_string_len text.old + 2 ≤ VALUE_MAX }
    ensures bytes { text.new.bytes ≡ text.old.bytes ++ nibble_label network.now place }
    ensures room { array_string_len text.new ≤ array_string_len text.old + 2 }
{
    let prefix = network.prefix();
    if prefix % 4 > 0 {
        let nibble = nibble_at(prefix / 4, u128::from(network.network()));
        push_hex(text, u128::from(nibble) + u128::from(place), 1);
        text.push_str(".");
    }
}

// Appends the reverse zone of the octets that the prefix length covers in full.
fn push_v4_zone(text: &mut ArrayString<VALUE_MAX>, network: &Ipv4Network)
    requires { array_string_len text.old + 28 ≤ VALUE_MAX }
    ensures { text.new.bytes ≡ text.old.bytes ++ zone_of (V4 network.now) }
{
    push_octets(text, u32::from(network.ip()), network.prefix() / 8);
    text.push_str("in-addr.arpa");
}

// Appends the reverse zone of the nibbles that the prefix length covers in full.
fn push_v6_zone(text: &mut ArrayString<VALUE_MAX>, network: &Ipv6Network)
    requires { array_string_len text.old + 72 ≤ VALUE_MAX }
    ensures { text.new.bytes ≡ text.old.bytes ++ zone_of (V6 network.now) }
{
    push_nibbles(text, u128::from(network.ip()), network.prefix() / 4);
    text.push_str("ip6.arpa");
}

// Appends the first `count` octets of an address, the last of them first, each followed by a dot.
fn push_octets(text: &mut ArrayString<VALUE_MAX>, address: u32, count: u8)
    requires count { count ≤ 4 }
    requires room { array_string_len text.old + 4 * count ≤ VALUE_MAX }
    ensures bytes { text.new.bytes ≡ text.old.bytes ++ octet_labels count address }
    ensures room { array_string_len text.new ≤ array_string_len text.old + 4 * count }
{
    if count > 0 {
        push_decimal(text, octet_at(count - 1, address));
        text.push_str(".");
        push_octets(text, address, count - 1);
    }
}

// Returns the octet of an address that comes after `place` others.
fn octet_at(place: u8, address: u32) -> u8
    requires { place < 4 }
    ensures { result ≡ octet_at place address }
{
    ((address >> (8 * (3 - place))) % 256) as u8
}

// Appends the first `count` nibbles of an address, the last of them first, each followed by a dot.
fn push_nibbles(text: &mut ArrayString<VALUE_MAX>, address: u128, count: u8)
    requires count { count ≤ 32 }
    requires room { array_string_len text.old + 2 * count ≤ VALUE_MAX }
    ensures bytes { text.new.bytes ≡ text.old.bytes ++ nibble_labels count address }
    ensures room { array_string_len text.new ≡ array_string_len text.old + 2 * count }
{
    if count > 0 {
        text.push(hex_digit(nibble_at(count - 1, address)));
        text.push_str(".");
        push_nibbles(text, address, count - 1);
    }
}

// Returns the nibble of an address that comes after `place` others.
fn nibble_at(place: u8, address: u128) -> u8
    requires { place < 32 }
    ensures value { result ≡ nibble_at place address }
    ensures small { result < 16 }
{
    ((address >> (4 * (31 - place))) % 16) as u8
}
