//! Laws of values: the meaning of `==`, the order, the hash and the clones of addresses and errors.
ghost use Rattle.std.specs.Prelude.{◌≡◌, ◌↔◌, ◌<◌, ◌≤◌, IsTrue, Ok, Result, fold};
ghost use Rattle.std.specs.Hash as writes;
ghost use Rattle.std.specs.Ordering.{nat_cmp};
ghost use Rattle.ipnetwork_addr.specs.Either.{IsAddrBefore, IsAddrAtMost, ip_cmp, ip_writes};

use crate::{AddrParseError, IpAddr, Ipv4Addr, Ipv6Addr};
use std::alloc::AllocError;
use std::cmp::Ordering;
use std::hash::{Hash, Hasher};

/// `==` is true exactly for equal addresses.
pub fn v4_equality(a: Ipv4Addr, b: Ipv4Addr) -> bool
    ensures { IsTrue result ↔ (a ≡ b) }
{
    a == b
}

/// `==` is true exactly for equal addresses.
pub fn v6_equality(a: Ipv6Addr, b: Ipv6Addr) -> bool
    ensures { IsTrue result ↔ (a ≡ b) }
{
    a == b
}

/// `==` is true exactly for equal addresses, which have one family and one number.
pub fn ip_equality(a: IpAddr, b: IpAddr) -> bool
    ensures { IsTrue result ↔ (a ≡ b) }
{
    a == b
}

/// `==` is true exactly for equal errors.
pub fn addr_parse_error_equality(a: AddrParseError, b: AddrParseError) -> bool
    ensures { IsTrue result ↔ (a ≡ b) }
{
    a == b
}

/// `<`, `<=` and `cmp` compare IPv4 addresses by their numbers.
pub fn v4_order(a: Ipv4Addr, b: Ipv4Addr) -> (bool, bool, Ordering)
    ensures less { IsTrue result.0 ↔ (a < b) }
    ensures at_most { IsTrue result.1 ↔ (a ≤ b) }
    ensures compare { result.2 ≡ nat_cmp a b }
{
    (a < b, a <= b, a.cmp(&b))
}

/// `<`, `<=` and `cmp` compare IPv6 addresses by their numbers.
pub fn v6_order(a: Ipv6Addr, b: Ipv6Addr) -> (bool, bool, Ordering)
    ensures less { IsTrue result.0 ↔ (a < b) }
    ensures at_most { IsTrue result.1 ↔ (a ≤ b) }
    ensures compare { result.2 ≡ nat_cmp a b }
{
    (a < b, a <= b, a.cmp(&b))
}

/// `<`, `<=` and `cmp` put each IPv4 address before each IPv6 address, and compare two of one
/// family by their numbers.
pub fn ip_order(a: IpAddr, b: IpAddr) -> (bool, bool, Ordering)
    ensures less { IsTrue result.0 ↔ IsAddrBefore a b }
    ensures at_most { IsTrue result.1 ↔ IsAddrAtMost a b }
    ensures compare { result.2 ≡ ip_cmp a b }
{
    (a < b, a <= b, a.cmp(&b))
}

/// An IPv4 address is hashed as its number is, so that equal addresses take two hashers in the same
/// state to the same state.
pub fn v4_hash<H: Hasher>(a: Ipv4Addr, b: Ipv4Addr, first: &mut H, second: &mut H)
    ensures fed { first.new ≡ fold H.write first.old (writes.u32 a) }
    ensures alike { a ≡ b → first.old ≡ second.old → first.new ≡ second.new }
{
    a.hash(first);
    b.hash(second);
}

/// An IPv6 address is hashed as its number is, so that equal addresses take two hashers in the same
/// state to the same state.
pub fn v6_hash<H: Hasher>(a: Ipv6Addr, b: Ipv6Addr, first: &mut H, second: &mut H)
    ensures fed { first.new ≡ fold H.write first.old (writes.u128 a) }
    ensures alike { a ≡ b → first.old ≡ second.old → first.new ≡ second.new }
{
    a.hash(first);
    b.hash(second);
}

/// An address of either family is hashed as its family and then its number, so that equal addresses
/// take two hashers in the same state to the same state.
pub fn ip_hash<H: Hasher>(a: IpAddr, b: IpAddr, first: &mut H, second: &mut H)
    ensures fed { first.new ≡ fold H.write first.old (ip_writes a) }
    ensures alike { a ≡ b → first.old ≡ second.old → first.new ≡ second.new }
{
    a.hash(first);
    b.hash(second);
}

/// The clone of an address is the address.
pub fn v4_clone(a: Ipv4Addr) -> Result<Ipv4Addr, AllocError>
    ensures { result ≡ Ok a }
{
    a.clone()
}

/// The clone of an address is the address.
pub fn v6_clone(a: Ipv6Addr) -> Result<Ipv6Addr, AllocError>
    ensures { result ≡ Ok a }
{
    a.clone()
}

/// The clone of an address is the address.
pub fn ip_clone(a: IpAddr) -> Result<IpAddr, AllocError>
    ensures { result ≡ Ok a }
{
    a.clone()
}

/// The clone of an error is the error.
pub fn addr_parse_error_clone(a: AddrParseError) -> Result<AddrParseError, AllocError>
    ensures { result ≡ Ok a }
{
    a.clone()
}
