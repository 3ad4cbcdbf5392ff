//! What follows from the laws of addresses.
ghost use Rattle.std.specs.Prelude.{◌≡◌, ◌↔◌, IsTrue, IsFalse, Ok, fold};
ghost use Rattle.std.specs.Hash as writes;
ghost use Rattle.ipnetwork_addr.specs.Either.{IsAddrBefore, IsAddrAtMost, ip_cmp, ip_writes};

use crate::orders::is_one_order;
use ipnetwork_addr::laws::{
    addr_parse_error_clone, addr_parse_error_equality, ip_clone, ip_equality, ip_hash, ip_order,
    v4_clone, v4_equality, v4_hash, v4_order, v6_clone, v6_equality, v6_hash, v6_order,
};
use ipnetwork_addr::{AddrParseError, IpAddr, Ipv4Addr, Ipv6Addr};
use std::alloc::AllocError;
use std::cmp::Ordering;
use std::hash::Hasher;

fn v4_is_one_order(a: Ipv4Addr, b: Ipv4Addr) -> bool
    ensures { IsTrue result }
{
    let numbers = (u128::from(u32::from(a)), u128::from(u32::from(b)));
    let greater = v4_order(b, a).0;
    is_one_order(
        numbers.0,
        numbers.1,
        v4_order(a, b),
        greater,
        v4_equality(a, b),
    )
}

fn v6_is_one_order(a: Ipv6Addr, b: Ipv6Addr) -> bool
    ensures { IsTrue result }
{
    let numbers = (u128::from(a), u128::from(b));
    let greater = v6_order(b, a).0;
    is_one_order(
        numbers.0,
        numbers.1,
        v6_order(a, b),
        greater,
        v6_equality(a, b),
    )
}

fn ip_is_equal(a: IpAddr, b: IpAddr) -> bool
    ensures { IsTrue result ↔ (a ≡ b) }
{
    ip_equality(a, b)
}

fn ip_compares(a: IpAddr, b: IpAddr) -> (bool, bool, Ordering)
    ensures less { IsTrue result.0 ↔ IsAddrBefore a b }
    ensures at_most { IsTrue result.1 ↔ IsAddrAtMost a b }
    ensures compare { result.2 ≡ ip_cmp a b }
{
    ip_order(a, b)
}

fn v4_feeds_all<H: Hasher>(a: Ipv4Addr, first: &mut H, second: &mut H)
    ensures fed { first.new ≡ fold H.write first.old (writes.u32 a) }
    ensures alike { first.old ≡ second.old → first.new ≡ second.new }
{
    v4_hash(a, a, first, second);
}

fn v6_feeds_all<H: Hasher>(a: Ipv6Addr, first: &mut H, second: &mut H)
    ensures fed { first.new ≡ fold H.write first.old (writes.u128 a) }
    ensures alike { first.old ≡ second.old → first.new ≡ second.new }
{
    v6_hash(a, a, first, second);
}

fn ip_feeds_all<H: Hasher>(a: IpAddr, first: &mut H, second: &mut H)
    ensures fed { first.new ≡ fold H.write first.old (ip_writes a) }
    ensures alike { first.old ≡ second.old → first.new ≡ second.new }
{
    let same = a;
    ip_hash(a, same, first, second);
}

fn copies_are_equal(a: Ipv4Addr, b: Ipv6Addr, c: AddrParseError) -> bool
    ensures { IsTrue result }
{
    v4_clone(a) == Ok(a) && v6_clone(b) == Ok(b) && addr_parse_error_clone(c) == Ok(c)
}

fn ip_copy(a: IpAddr) -> Result<IpAddr, AllocError>
    ensures { result ≡ Ok a }
{
    ip_clone(a)
}

fn kinds_are_apart(a: AddrParseError) -> (bool, bool)
    ensures same { IsTrue result.0 }
    ensures other { IsFalse result.1 }
{
    (
        addr_parse_error_equality(a, a),
        addr_parse_error_equality(AddrParseError::Ipv4, AddrParseError::Ip),
    )
}
