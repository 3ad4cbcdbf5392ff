//! The calls that ask about networks of either family. Each refuses a struct that represents no
//! network: `NO_FAMILY` if its family is neither 4 nor 6, else `PREFIX` if its prefix length is
//! greater than the family's width.
ghost use Rattle.std.specs.Prelude.{◌≡◌};
ghost use Rattle.ipnetwork.specs.IpNetworkText.{ip_network_text};
ghost use Rattle.ipnetwork.specs.IpNetworks.{ip_low, ip_high, ip_mask_of, IpSubnet, IpOverlap, ip_network_cmp};
ghost use Rattle.ipnetwork_c.specs.Numbers.{order_number};
ghost use Rattle.ipnetwork_c.specs.Outcomes.{Writes};
ghost use Rattle.ipnetwork_c.specs.Answers.{PutsText};
ghost use Rattle.ipnetwork_c.specs.Either.{OfNetwork, OfBoth, TellsAddress, TellsOfBoth};

use crate::address::AddressInC;
use crate::fault::OK;
use crate::order::number_between;
use crate::structs::IpInC;
use crate::text;
use ipnetwork::IpNetwork;

// Writes what `told` returns for the network that a struct represents.
#[inline(always)]
fn tell<T: Copy, F: FnOnce(IpNetwork) -> T>(held: &IpInC, place: &mut T, told: F) -> u32
    requires { F.IsAlwaysCallable told }
    ensures { OfNetwork held.now (λ n. Writes (F.post told n)) place.old place.new result }
{
    match held.network() {
        Ok(network) => {
            *place = told(network);
            OK
        }
        Err(fault) => fault,
    }
}

// The same for two structs.
#[inline(always)]
fn tell_both<T: Copy, F: FnOnce(IpNetwork, IpNetwork) -> T>(
    one: &IpInC,
    other: &IpInC,
    place: &mut T,
    told: F,
) -> u32
    requires { F.IsAlwaysCallable told }
    ensures { OfBoth one.now other.now (λ a b. Writes (F.post told a b))
        place.old place.new result }
{
    let one = match one.network() {
        Ok(network) => network,
        Err(fault) => return fault,
    };
    match other.network() {
        Ok(other) => {
            *place = told(one, other);
            OK
        }
        Err(fault) => fault,
    }
}

/// Writes the canonical text and a zero byte to `buffer`, for which 44 bytes are enough, and the
/// length of the text, without the zero byte, to `length`. Returns `SHORT_BUFFER` if the buffer has
/// no room for both, and then writes only the length.
#[unsafe(no_mangle)]
pub extern "C" fn ipnetwork_canonical(network: &IpInC, buffer: &mut [u8], length: &mut usize) -> u32
    ensures { OfNetwork network.now (λ n. PutsText (ip_network_text n)) (buffer.old, length.old)
        (buffer.new, length.new) result }
{
    match network.network() {
        Ok(network) => text::tell_network(&network, buffer, length),
        Err(fault) => fault,
    }
}

/// Writes the least member: the address with its host bits cleared.
#[unsafe(no_mangle)]
pub extern "C" fn ipnetwork_network(network: &IpInC, address: &mut AddressInC) -> u32
    ensures { TellsAddress ip_low network.now address.old address.new result }
{
    tell(network, address, |n| AddressInC::of(n.network()))
}

/// Writes the greatest member: the address with its host bits set.
#[unsafe(no_mangle)]
pub extern "C" fn ipnetwork_broadcast(network: &IpInC, address: &mut AddressInC) -> u32
    ensures { TellsAddress ip_high network.now address.old address.new result }
{
    tell(network, address, |n| AddressInC::of(n.broadcast()))
}

/// Writes the mask, an address of the network's family.
#[unsafe(no_mangle)]
pub extern "C" fn ipnetwork_mask(network: &IpInC, mask: &mut AddressInC) -> u32
    ensures { TellsAddress ip_mask_of network.now mask.old mask.new result }
{
    tell(network, mask, |n| AddressInC::of(n.mask()))
}

/// Writes to `answer` 1 if each member of `inner` is a member of `outer`, else 0, as it is for
/// different families. Host bits are ignored. `inner` is checked first.
#[unsafe(no_mangle)]
pub extern "C" fn ipnetwork_is_subnet_of(inner: &IpInC, outer: &IpInC, answer: &mut u8) -> u32
    ensures { TellsOfBoth IpSubnet inner.now outer.now answer.old answer.new result }
{
    tell_both(inner, outer, answer, |a, b| u8::from(a.is_subnet_of(b)))
}

/// Writes to `answer` 1 if some address is a member of both networks, else 0. `one` is checked
/// first.
#[unsafe(no_mangle)]
pub extern "C" fn ipnetwork_overlaps(one: &IpInC, other: &IpInC, answer: &mut u8) -> u32
    ensures { TellsOfBoth IpOverlap one.now other.now answer.old answer.new result }
{
    tell_both(one, other, answer, |a, b| u8::from(a.overlaps(b)))
}

/// Writes to `order` which of two networks comes first: -1 if `one` does, 1 if `other` does, 0 if
/// they are equal. Each IPv4 network comes before each IPv6 network; within a family the address
/// decides, then the prefix length. `one` is checked first.
#[unsafe(no_mangle)]
pub extern "C" fn ipnetwork_compare(one: &IpInC, other: &IpInC, order: &mut i32) -> u32
    ensures { OfBoth one.now other.now
        (λ a b. Writes (λ told. told ≡ order_number (ip_network_cmp a b))) order.old order.new
        result }
{
    tell_both(one, other, order, |a, b| number_between(a, b))
}
