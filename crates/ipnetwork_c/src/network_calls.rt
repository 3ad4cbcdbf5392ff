//! The calls for networks of one family.
ghost use Rattle.std.specs.Prelude.{◌≡◌, ◌≤◌};
ghost use Rattle.ipnetwork_addr.specs.Computed.Ipv6Canonical.{canonical_v6};
ghost use Rattle.ipnetwork_addr.specs.Digits.{octets_of, octets_of_v6};
ghost use Rattle.ipnetwork_addr.specs.Ipv4Text.{canonical_v4};
ghost use Rattle.ipnetwork_family.specs.Network.{Member, low, high, mask_of, Subnet, Overlap, network_cmp};
ghost use Rattle.ipnetwork_family.specs.NetworkText.{network_text};
ghost use Rattle.ipnetwork_family.specs.Ipv4NetworkText.{ReadsV4Network};
ghost use Rattle.ipnetwork_family.specs.Ipv6NetworkText.{ReadsV6Network};
ghost use Rattle.ipnetwork_c.specs.Numbers.{order_number};
ghost use Rattle.ipnetwork_c.specs.Held.{v4_in, v6_in, HoldsV4, HoldsV6, PrefixFits, number_of_octets};
ghost use Rattle.ipnetwork_c.specs.Answers.{ReadsInto, IfFit, IsFlag, PutsText, WritesPrefix};
ghost use Rattle.ipnetwork_c.specs.Outcomes.{Writes};

use crate::fault::{NO_MASK, OK, PREFIX};
use crate::order::number_of_order;
use crate::structs::{Ipv4InC, Ipv6InC, address_of};
use crate::text;
use crate::text_columns::ReadsRow;
use ipnetwork::Ipv4Addr;
use ipnetwork_family::Address;

/// Reads the network that a text names, as `Ipv4Network::read_bytes` does, and writes it to
/// `network`. If the text names none, returns `FORMAT`, `ADDRESS` or `PREFIX`, the first that
/// applies.
#[unsafe(no_mangle)]
pub extern "C" fn ipnetwork_v4_read(text: &[u8], network: &mut Ipv4InC) -> u32
    ensures { ReadsInto ReadsV4Network HoldsV4 text.now network.old network.new result }
{
    network.read_row(text)
}

/// The same for IPv6, as `Ipv6Network::read_bytes` does.
#[unsafe(no_mangle)]
pub extern "C" fn ipnetwork_v6_read(text: &[u8], network: &mut Ipv6InC) -> u32
    ensures { ReadsInto ReadsV6Network HoldsV6 text.now network.old network.new result }
{
    network.read_row(text)
}

/// Writes to `network` the network of this address, host bits kept, and this prefix length. Returns
/// `PREFIX` if the prefix length is greater than 32.
#[unsafe(no_mangle)]
pub extern "C" fn ipnetwork_v4_new(address: &[u8; 4], prefix: u8, network: &mut Ipv4InC) -> u32
    ensures { IfFit (prefix ≤ 32)
        (Writes (λ held. (held.address ≡ address.now)
        × (held.prefix ≡ prefix))) network.old network.new result }
{
    if prefix > 32 {
        return PREFIX;
    }
    *network = Ipv4InC {
        address: *address,
        prefix,
    };
    OK
}

/// The same for IPv6, for prefix lengths up to 128.
#[unsafe(no_mangle)]
pub extern "C" fn ipnetwork_v6_new(address: &[u8; 16], prefix: u8, network: &mut Ipv6InC) -> u32
    ensures { IfFit (prefix ≤ 128)
        (Writes (λ held. (held.address ≡ address.now)
        × (held.prefix ≡ prefix))) network.old network.new result }
{
    if prefix > 128 {
        return PREFIX;
    }
    *network = Ipv6InC {
        address: *address,
        prefix,
    };
    OK
}

/// Writes the canonical text and a zero byte to `buffer`, for which 19 bytes are enough, and the
/// length of the text, without the zero byte, to `length`. Returns `SHORT_BUFFER` if the buffer has
/// no room for both, and then writes only the length; `PREFIX` if the prefix length is greater than
/// 32.
#[unsafe(no_mangle)]
pub extern "C" fn ipnetwork_v4_canonical(
    network: &Ipv4InC,
    buffer: &mut [u8],
    length: &mut usize,
) -> u32
    ensures { IfFit (PrefixFits 32 (v4_in network.now))
        (PutsText (network_text canonical_v4 (v4_in network.now))) (buffer.old, length.old)
        (buffer.new, length.new) result }
{
    match network.network() {
        Some(network) => text::tell(network.canonical().as_str().as_bytes(), buffer, length),
        None => PREFIX,
    }
}

/// The same for IPv6, for prefix lengths up to 128. 44 bytes are enough.
#[unsafe(no_mangle)]
pub extern "C" fn ipnetwork_v6_canonical(
    network: &Ipv6InC,
    buffer: &mut [u8],
    length: &mut usize,
) -> u32
    ensures { IfFit (PrefixFits 128 (v6_in network.now))
        (PutsText (network_text canonical_v6 (v6_in network.now))) (buffer.old, length.old)
        (buffer.new, length.new) result }
{
    match network.network() {
        Some(network) => text::tell(network.canonical().as_str().as_bytes(), buffer, length),
        None => PREFIX,
    }
}

/// Writes to `answer` 1 if an address is in the network, else 0. Returns `PREFIX` if the prefix
/// length is greater than 32.
#[unsafe(no_mangle)]
pub extern "C" fn ipnetwork_v4_contains(
    network: &Ipv4InC,
    address: &[u8; 4],
    answer: &mut u8,
) -> u32
    ensures { IfFit (PrefixFits 32 (v4_in network.now))
        (Writes (IsFlag (Member 32 (v4_in network.now) (number_of_octets address.now)))) answer.old
        answer.new result }
{
    let Some(v4) = network.network() else {
        return PREFIX;
    };
    *answer = u8::from(v4.contains(Ipv4Addr::from(*address)));
    OK
}

/// The same for IPv6, for prefix lengths up to 128.
#[unsafe(no_mangle)]
pub extern "C" fn ipnetwork_v6_contains(
    network: &Ipv6InC,
    address: &[u8; 16],
    answer: &mut u8,
) -> u32
    ensures { IfFit (PrefixFits 128 (v6_in network.now))
        (Writes (IsFlag (Member 128 (v6_in network.now) (number_of_octets address.now))))
        answer.old answer.new result }
{
    let Some(member) = network.contains(address) else {
        return PREFIX;
    };
    *answer = u8::from(member);
    OK
}

/// Writes the least member: the address with its host bits cleared. Returns `PREFIX` if the prefix
/// length is greater than 32.
#[unsafe(no_mangle)]
pub extern "C" fn ipnetwork_v4_network(network: &Ipv4InC, address: &mut [u8; 4]) -> u32
    ensures { IfFit (PrefixFits 32 (v4_in network.now))
        (Writes (λ octets. octets ≡ octets_of (low 32 (v4_in network.now)))) address.old
        address.new result }
{
    let Some(v4) = network.network() else {
        return PREFIX;
    };
    *address = v4.network().octets();
    OK
}

/// The same for IPv6, for prefix lengths up to 128.
#[unsafe(no_mangle)]
pub extern "C" fn ipnetwork_v6_network(network: &Ipv6InC, address: &mut [u8; 16]) -> u32
    ensures { IfFit (PrefixFits 128 (v6_in network.now))
        (Writes (λ octets. octets ≡ octets_of_v6 (low 128 (v6_in network.now)))) address.old
        address.new result }
{
    let Some(v6) = network.network() else {
        return PREFIX;
    };
    *address = v6.network().octets();
    OK
}

/// Writes the greatest member: the address with its host bits set. Returns `PREFIX` if the prefix
/// length is greater than 32.
#[unsafe(no_mangle)]
pub extern "C" fn ipnetwork_v4_broadcast(network: &Ipv4InC, address: &mut [u8; 4]) -> u32
    ensures { IfFit (PrefixFits 32 (v4_in network.now))
        (Writes (λ octets. octets ≡ octets_of (high 32 (v4_in network.now)))) address.old
        address.new result }
{
    let Some(v4) = network.network() else {
        return PREFIX;
    };
    *address = v4.broadcast().octets();
    OK
}

/// The same for IPv6, for prefix lengths up to 128.
#[unsafe(no_mangle)]
pub extern "C" fn ipnetwork_v6_broadcast(network: &Ipv6InC, address: &mut [u8; 16]) -> u32
    ensures { IfFit (PrefixFits 128 (v6_in network.now))
        (Writes (λ octets. octets ≡ octets_of_v6 (high 128 (v6_in network.now)))) address.old
        address.new result }
{
    let Some(v6) = network.network() else {
        return PREFIX;
    };
    *address = v6.broadcast().octets();
    OK
}

/// Writes the mask: as many leading 1 bits as the prefix length, and zeros after them. Returns
/// `PREFIX` if the prefix length is greater than 32.
#[unsafe(no_mangle)]
pub extern "C" fn ipnetwork_v4_mask(network: &Ipv4InC, mask: &mut [u8; 4]) -> u32
    ensures { IfFit (PrefixFits 32 (v4_in network.now))
        (Writes (λ octets. octets ≡ octets_of (mask_of 32 network.now.prefix))) mask.old mask.new
        result }
{
    let Some(v4) = network.network() else {
        return PREFIX;
    };
    *mask = v4.mask().octets();
    OK
}

/// The same for IPv6, for prefix lengths up to 128.
#[unsafe(no_mangle)]
pub extern "C" fn ipnetwork_v6_mask(network: &Ipv6InC, mask: &mut [u8; 16]) -> u32
    ensures { IfFit (PrefixFits 128 (v6_in network.now))
        (Writes (λ octets. octets ≡ octets_of_v6 (mask_of 128 network.now.prefix))) mask.old
        mask.new result }
{
    let Some(v6) = network.network() else {
        return PREFIX;
    };
    *mask = v6.mask().octets();
    OK
}

/// Writes the prefix length of a mask. Returns `NO_MASK` if the address is not one of the 33 masks.
#[unsafe(no_mangle)]
pub extern "C" fn ipnetwork_v4_prefix_of_mask(mask: &[u8; 4], prefix: &mut u8) -> u32
    ensures { WritesPrefix 32 (number_of_octets mask.now) prefix.old prefix.new result }
{
    let Some(found) = Ipv4Addr::from(*mask).prefix_of_mask() else {
        return NO_MASK;
    };
    *prefix = found;
    OK
}

/// The same for IPv6 and its 129 masks.
#[unsafe(no_mangle)]
pub extern "C" fn ipnetwork_v6_prefix_of_mask(mask: &[u8; 16], prefix: &mut u8) -> u32
    ensures { WritesPrefix 128 (number_of_octets mask.now) prefix.old prefix.new result }
{
    let Some(found) = address_of(mask).prefix_of_mask() else {
        return NO_MASK;
    };
    *prefix = found;
    OK
}

/// Writes to `answer` 1 if each member of `inner` is a member of `outer`, else 0. Host bits are
/// ignored. Returns `PREFIX` if a prefix length is greater than 32.
#[unsafe(no_mangle)]
pub extern "C" fn ipnetwork_v4_is_subnet_of(
    inner: &Ipv4InC,
    outer: &Ipv4InC,
    answer: &mut u8,
) -> u32
    ensures { IfFit (PrefixFits 32 (v4_in inner.now) × PrefixFits 32 (v4_in outer.now))
        (Writes (IsFlag (Subnet 32 (v4_in inner.now) (v4_in outer.now)))) answer.old answer.new
        result }
{
    match (inner.network(), outer.network()) {
        (Some(inner), Some(outer)) => {
            *answer = u8::from(inner.is_subnet_of(outer));
            OK
        }
        _ => PREFIX,
    }
}

/// The same for IPv6, for prefix lengths up to 128.
#[unsafe(no_mangle)]
pub extern "C" fn ipnetwork_v6_is_subnet_of(
    inner: &Ipv6InC,
    outer: &Ipv6InC,
    answer: &mut u8,
) -> u32
    ensures { IfFit (PrefixFits 128 (v6_in inner.now) × PrefixFits 128 (v6_in outer.now))
        (Writes (IsFlag (Subnet 128 (v6_in inner.now) (v6_in outer.now)))) answer.old answer.new
        result }
{
    match (inner.network(), outer.network()) {
        (Some(inner), Some(outer)) => {
            *answer = u8::from(inner.is_subnet_of(outer));
            OK
        }
        _ => PREFIX,
    }
}

/// Writes to `answer` 1 if some address is a member of both networks, else 0. Returns `PREFIX` if a
/// prefix length is greater than 32.
#[unsafe(no_mangle)]
pub extern "C" fn ipnetwork_v4_overlaps(one: &Ipv4InC, other: &Ipv4InC, answer: &mut u8) -> u32
    ensures { IfFit (PrefixFits 32 (v4_in one.now) × PrefixFits 32 (v4_in other.now))
        (Writes (IsFlag (Overlap 32 (v4_in one.now) (v4_in other.now)))) answer.old answer.new
        result }
{
    match (one.network(), other.network()) {
        (Some(one), Some(other)) => {
            *answer = u8::from(one.overlaps(other));
            OK
        }
        _ => PREFIX,
    }
}

/// The same for IPv6, for prefix lengths up to 128.
#[unsafe(no_mangle)]
pub extern "C" fn ipnetwork_v6_overlaps(one: &Ipv6InC, other: &Ipv6InC, answer: &mut u8) -> u32
    ensures { IfFit (PrefixFits 128 (v6_in one.now) × PrefixFits 128 (v6_in other.now))
        (Writes (IsFlag (Overlap 128 (v6_in one.now) (v6_in other.now)))) answer.old answer.new
        result }
{
    match (one.network(), other.network()) {
        (Some(one), Some(other)) => {
            *answer = u8::from(one.overlaps(other));
            OK
        }
        _ => PREFIX,
    }
}

/// Writes to `order` which of two networks comes first, by address, host bits included, and then by
/// prefix length: -1 if `one` does, 1 if `other` does, 0 if they are equal. Returns `PREFIX` if a
/// prefix length is greater than 32.
#[unsafe(no_mangle)]
pub extern "C" fn ipnetwork_v4_compare(one: &Ipv4InC, other: &Ipv4InC, order: &mut i32) -> u32
    ensures { IfFit (PrefixFits 32 (v4_in one.now) × PrefixFits 32 (v4_in other.now))
        (Writes (λ told. told ≡ order_number (network_cmp (v4_in one.now) (v4_in other.now))))
        order.old order.new result }
{
    match (one.network(), other.network()) {
        (Some(one), Some(other)) => {
            *order = number_of_order(one.cmp(&other));
            OK
        }
        _ => PREFIX,
    }
}

/// The same for IPv6, for prefix lengths up to 128.
#[unsafe(no_mangle)]
pub extern "C" fn ipnetwork_v6_compare(one: &Ipv6InC, other: &Ipv6InC, order: &mut i32) -> u32
    ensures { IfFit (PrefixFits 128 (v6_in one.now) × PrefixFits 128 (v6_in other.now))
        (Writes (λ told. told ≡ order_number (network_cmp (v6_in one.now) (v6_in other.now))))
        order.old order.new result }
{
    match (one.network(), other.network()) {
        (Some(one), Some(other)) => {
            *order = number_of_order(one.cmp(&other));
            OK
        }
        _ => PREFIX,
    }
}
