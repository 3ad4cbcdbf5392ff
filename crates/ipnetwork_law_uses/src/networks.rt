//! What follows from the laws of networks of one family and of their errors.
ghost use Rattle.std.specs.Prelude.{◌≡◌, ◌↔◌, ◌++◌, Ok, IsTrue, IsFalse, fold};
ghost use Rattle.std.specs.Hash as fed;
ghost use Rattle.ipnetwork_family.specs.Network.{IsNetworkBefore, IsNetworkAtMost, network_cmp};

use ipnetwork_family::laws::{
    cidr_fault_clone, cidr_fault_equality, ip_network_error_equality, json_fault_equality,
    network_clone, network_equality, network_hash, network_order, network_size_error_clone,
    network_size_error_equality,
};
use ipnetwork_family::{
    Address, CidrFault, IpNetworkError, Ipv4Network, Ipv6Network, JsonFault, Network,
    NetworkSizeError,
};
use std::alloc::AllocError;
use std::cmp::Ordering;
use std::hash::Hasher;

fn network_compares<A: Address>(a: Network<A>, b: Network<A>) -> (bool, bool, Ordering)
    ensures less { IsTrue result.0 ↔ IsNetworkBefore a b }
    ensures at_most { IsTrue result.1 ↔ IsNetworkAtMost a b }
    ensures compare { result.2 ≡ network_cmp a b }
{
    network_order(a, b)
}

fn network_is_equal<A: Address>(a: Network<A>, b: Network<A>) -> bool
    ensures { IsTrue result ↔ (a ≡ b) }
{
    network_equality(a, b)
}

fn v4_network_feeds_all<H: Hasher>(a: &Ipv4Network, one: &mut H, two: &mut H)
    ensures first { one.new ≡ fold H.write one.old (fed.u32 a.now.address ++ fed.u8 a.now.prefix) }
    ensures other { two.new ≡ fold H.write two.old (fed.u32 a.now.address ++ fed.u8 a.now.prefix) }
    ensures alike { one.old ≡ two.old → one.new ≡ two.new }
{
    network_hash(a, a, one, two);
}

fn v6_network_feeds_all<H: Hasher>(a: &Ipv6Network, one: &mut H, two: &mut H)
    ensures first { one.new ≡ fold H.write one.old (fed.u128 a.now.address ++ fed.u8 a.now.prefix) }
    ensures other { two.new ≡ fold H.write two.old (fed.u128 a.now.address ++ fed.u8 a.now.prefix) }
    ensures alike { one.old ≡ two.old → one.new ≡ two.new }
{
    network_hash(a, a, one, two);
}

fn network_copy<A: Address>(a: Network<A>) -> Result<Network<A>, AllocError>
    ensures { result ≡ Ok a }
{
    network_clone(a)
}

fn refusals_are_equal(a: CidrFault, b: NetworkSizeError) -> bool
    ensures { IsTrue result }
{
    let copies = cidr_fault_clone(a) == Ok(a) && network_size_error_clone(b) == Ok(b);
    copies && cidr_fault_equality(a, a) && network_size_error_equality(b, b)
}

fn causes_are_apart() -> bool
    ensures { IsFalse result }
{
    cidr_fault_equality(CidrFault::Addr, CidrFault::Prefix)
}

fn errors_are_apart() -> bool
    ensures { IsFalse result }
{
    ip_network_error_equality(IpNetworkError::InvalidPrefix, IpNetworkError::OutOfMemory)
}

fn one_error_is_equal() -> bool
    ensures { IsTrue result }
{
    ip_network_error_equality(IpNetworkError::InvalidPrefix, IpNetworkError::InvalidPrefix)
}

fn json_faults_are_apart() -> bool
    ensures { IsFalse result }
{
    json_fault_equality(
        JsonFault::NotAString,
        JsonFault::Refused(IpNetworkError::InvalidPrefix),
    )
}

fn one_json_fault_is_equal() -> bool
    ensures { IsTrue result }
{
    json_fault_equality(JsonFault::NotAString, JsonFault::NotAString)
}
