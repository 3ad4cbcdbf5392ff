//! Laws on values: the meaning of `==`, the order, the hash and the clones of networks, sizes and
//! errors.
ghost use Rattle.std.specs.Prelude.{◌≡◌, ◌<◌, ◌≤◌, ◌↔◌, fold, Result, Ok, IsTrue};
ghost use Rattle.std.specs.Hash as fed;
ghost use Rattle.std.specs.Ordering.{nat_cmp};
ghost use Rattle.ipnetwork.specs.IpNetworks.{IsIpBefore, IsIpAtMost, ip_network_cmp, ip_network_writes};
ghost use Rattle.ipnetwork.specs.Sizes.{size_number};

use crate::{IpNetwork, NetworkSize, WrongFamily};
use ipnetwork_addr::laws as address_laws;
use std::alloc::AllocError;
use std::cmp::Ordering;
use std::hash::{Hash, Hasher};

/// `==` of networks is true if and only if they are of one family, with equal addresses and prefix
/// lengths.
pub fn ip_network_equality(a: IpNetwork, b: IpNetwork) -> bool
    ensures { IsTrue result ↔ (a ≡ b) }
{
    a == b
}

/// `<`, `<=` and `cmp` put each IPv4 network before each IPv6 network, and compare two of one
/// family by their addresses, then by their prefix lengths.
pub fn ip_network_order(a: IpNetwork, b: IpNetwork) -> (bool, bool, Ordering)
    ensures less { IsTrue result.0 ↔ IsIpBefore a b }
    ensures at_most { IsTrue result.1 ↔ IsIpAtMost a b }
    ensures compare { result.2 ≡ ip_network_cmp a b }
{
    (a < b, a <= b, a.cmp(&b))
}

/// `==` of sizes is true if and only if their numbers are equal.
pub fn network_size_equality(a: NetworkSize, b: NetworkSize) -> bool
    ensures { IsTrue result ↔ (size_number a ≡ size_number b) }
{
    a == b
}

/// `<`, `<=` and `cmp` compare sizes by their numbers.
pub fn network_size_order(a: NetworkSize, b: NetworkSize) -> (bool, bool, Ordering)
    ensures less { IsTrue result.0 ↔ (size_number a < size_number b) }
    ensures at_most { IsTrue result.1 ↔ (size_number a ≤ size_number b) }
    ensures compare { result.2 ≡ nat_cmp (size_number a) (size_number b) }
{
    (a < b, a <= b, a.cmp(&b))
}

/// A size feeds its number to a hasher as a 128-bit number, whatever its variant. So equal sizes
/// take hashers in the same state to the same state.
pub fn network_size_hash<H: Hasher>(size: NetworkSize, state: &mut H)
    ensures { state.new ≡ fold H.write state.old (fed.u128 (size_number size)) }
{
    size.hash(state);
}

/// A clone of a size is the size.
pub fn network_size_clone(size: NetworkSize) -> Result<NetworkSize, AllocError>
    ensures { result ≡ Ok size }
{
    size.clone()
}

/// A network feeds its family, its address and its prefix length to a hasher. So equal networks
/// take hashers in the same state to the same state.
pub fn ip_network_hash<H: Hasher>(a: IpNetwork, b: IpNetwork, first: &mut H, second: &mut H)
    ensures first { first.new ≡ fold H.write first.old (ip_network_writes a) }
    ensures second { second.new ≡ fold H.write second.old (ip_network_writes b) }
    ensures alike { a ≡ b → first.old ≡ second.old → first.new ≡ second.new }
{
    a.hash(first);
    b.hash(second);
}

/// A clone of a network is the network.
pub fn ip_network_clone(network: IpNetwork) -> Result<IpNetwork, AllocError>
    ensures { result ≡ Ok network }
{
    network.clone()
}

/// `==` of `WrongFamily`, which has one value, is always true.
pub fn wrong_family_equality(a: WrongFamily, b: WrongFamily) -> bool
    ensures { IsTrue result ↔ (a ≡ b) }
{
    a == b
}

/// A clone of `WrongFamily` is `WrongFamily`.
pub fn wrong_family_clone(a: WrongFamily) -> Result<WrongFamily, AllocError>
    ensures { result ≡ Ok a }
{
    a.clone()
}
