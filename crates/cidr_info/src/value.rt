//! The values of the fields of a network.
ghost use Rattle.std.specs.Prelude.{◌≡◌, ◌≤◌, length};
ghost use Rattle.cidr_info.specs.Fields.{count_of, value_of, wildcard_of, block_text, hosts_of, v4_hosts_of, hosts_text, host_bits, number_of, hex_width};
ghost use Rattle.ipnetwork_addr.specs.Either.{canonical_ip};

use crate::field::{Field, Form};
use crate::number_texts::{decimal_text, hex_text, power_text};
use crate::zone::{zone_at, zone_count, zone_text};
use arrayvec::ArrayString;
use ipnetwork::{IpAddr, IpNetwork, Ipv4Addr, Ipv4Network, Ipv6Addr};
use ipnetwork_addr::decimal::push_decimal;

/// The most bytes of a value: two IPv6 addresses with ` - ` between them.
pub(crate) const VALUE_MAX: usize = 81;

/// The most zones that are printed on lines, in place of the one of whole octets.
const ZONE_LINES: u8 = 8;

/// Returns how many values of a field are printed.
pub(crate) fn count_of(form: Form, field: Field, network: &IpNetwork) -> u8
    ensures { result ≡ count_of form field network.now }
{
    let count = zone_count(network);
    match (form, field) {
        (Form::Lines, Field::Reverse) => u8::from(count > ZONE_LINES),
        (Form::Lines, Field::Zones) if count > ZONE_LINES => 0,
        (_, Field::Zones) => count,
        (Form::Zones, _) => 0,
        (_, _) => 1,
    }
}

/// Returns the value of a field of a network that comes after `place` others, as text.
pub(crate) fn value_of(field: Field, network: &IpNetwork, place: u8) -> ArrayString<VALUE_MAX>
    ensures { result.bytes ≡ value_of field network.now place }
{
    match field {
        Field::Address => address_text(network.ip()),
        Field::Network => block_text(network),
        Field::Mask => address_text(network.mask()),
        Field::Wildcard => address_text(wildcard_of(network)),
        Field::First => address_text(network.network()),
        Field::Last => address_text(network.broadcast()),
        Field::Hosts => hosts_text(network),
        Field::Addresses => power_text(host_bits(network)),
        Field::Reverse => zone_text(network),
        Field::Zones => zone_at(network, place),
        Field::Integer => decimal_text(number_of(network.ip())),
        Field::Hexadecimal => hex_text(number_of(network.ip()), hex_width(network.ip())),
    }
}

// Returns the canonical text of an address.
fn address_text(address: IpAddr) -> ArrayString<VALUE_MAX>
    ensures bytes { result.bytes ≡ canonical_ip address }
    ensures short { length result.bytes ≤ 39 }
{
    let mut text = ArrayString::new();
    text.push_str(address.canonical().as_str());
    text
}

// Returns the canonical text of a network without its host bits.
fn block_text(network: &IpNetwork) -> ArrayString<VALUE_MAX>
    ensures { result.bytes ≡ block_text network.now }
{
    let mut text = address_text(network.network());
    text.push_str("/");
    push_decimal(&mut text, network.prefix());
    text
}

// Returns the complement of the mask of a network, as an address.
fn wildcard_of(network: &IpNetwork) -> IpAddr
    ensures { result ≡ wildcard_of network.now }
{
    match network.mask() {
        IpAddr::V4(mask) => IpAddr::V4(Ipv4Addr::from(u32::MAX - u32::from(mask))),
        IpAddr::V6(mask) => IpAddr::V6(Ipv6Addr::from(u128::MAX - u128::from(mask))),
    }
}

// Returns the first and the last address that a host may have, with ` - ` between them.
fn hosts_text(network: &IpNetwork) -> ArrayString<VALUE_MAX>
    ensures { result.bytes ≡ hosts_text network.now }
{
    let (first, last) = hosts_of(network);
    let mut text = address_text(first);
    text.push_str(" - ");
    text.push_str(last.canonical().as_str());
    text
}

// Returns the first and the last address that a host of a network may have.
fn hosts_of(network: &IpNetwork) -> (IpAddr, IpAddr)
    ensures { result ≡ hosts_of network.now }
{
    match network {
        IpNetwork::V4(network) => {
            let (first, last) = v4_hosts_of(network);
            (
                IpAddr::V4(Ipv4Addr::from(first)),
                IpAddr::V4(Ipv4Addr::from(last)),
            )
        }
        IpNetwork::V6(network) => (
            IpAddr::V6(network.network()),
            IpAddr::V6(network.broadcast()),
        ),
    }
}

// Returns the first and the last address that a host of an IPv4 network may have, as numbers.
fn v4_hosts_of(network: &Ipv4Network) -> (u32, u32)
    ensures { result ≡ v4_hosts_of network.now }
{
    let first = u32::from(network.network());
    let last = u32::from(network.broadcast());
    if network.prefix() > 30 {
        (first, last)
    } else {
        (first + 1, last - 1)
    }
}

// Returns the number of host bits of a network.
fn host_bits(network: &IpNetwork) -> u8
    ensures value { result ≡ host_bits network.now }
    ensures few { result ≤ 128 }
{
    match network {
        IpNetwork::V4(network) => 32 - network.prefix(),
        IpNetwork::V6(network) => 128 - network.prefix(),
    }
}

// Returns an address as a number.
fn number_of(address: IpAddr) -> u128
    ensures { result ≡ number_of address }
{
    match address {
        IpAddr::V4(address) => u128::from(u32::from(address)),
        IpAddr::V6(address) => u128::from(address),
    }
}

// Returns the number of hexadecimal digits of an address of this family.
fn hex_width(address: IpAddr) -> u8
    ensures value { result ≡ hex_width address }
    ensures few { result ≤ 32 }
{
    match address {
        IpAddr::V4(_) => 8,
        IpAddr::V6(_) => 32,
    }
}
