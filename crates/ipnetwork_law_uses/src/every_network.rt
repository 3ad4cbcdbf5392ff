//! What follows from the laws of every implementation of `CidrNetwork` for networks of each family,
//! with host bits and of any prefix length.
ghost use Rattle.std.specs.Prelude.{◌≡◌, ◌↔◌, IsTrue, IsFalse};
ghost use Rattle.ipnetwork_family.specs.Network.{Member, Subnet, Overlap, HostBitsAreZero, high, network_cmp};

use ipnetwork_family::laws::{
    blocks_that_meet, nested_networks, networks_are_pairs, ordered_blocks, overlaps_by_four_tests,
    overlaps_is_four_tests,
};
use ipnetwork_family::{CidrNetwork, Ipv4Network, Ipv6Network};
use std::cmp::Ordering;

fn v4_lies_in_what_it_is_no_part_of(a: Ipv4Network, b: Ipv4Network)
    requires meets { Member 32 a b.address }
    requires no_part { ¬ (Subnet 32 a b) }
    ensures { Subnet 32 b a }
{
    nested_networks(a, b);
}

fn v6_lies_in_what_it_is_no_part_of(a: Ipv6Network, b: Ipv6Network)
    requires meets { Member 128 a b.address }
    requires no_part { ¬ (Subnet 128 a b) }
    ensures { Subnet 128 b a }
{
    nested_networks(a, b);
}

// Both laws use the same four tests. One of them is true if a network contains the last address of
// the other.
fn v4_tests_agree(a: Ipv4Network, b: Ipv4Network) -> (bool, bool)
    requires { Member 32 a (high 32 b) }
    ensures is { IsTrue result.0 }
    ensures by { IsTrue result.1 ↔ Overlap 32 a b }
{
    (overlaps_is_four_tests(a, b), overlaps_by_four_tests(a, b))
}

fn v6_tests_agree(a: Ipv6Network, b: Ipv6Network) -> (bool, bool)
    requires { Member 128 a (high 128 b) }
    ensures is { IsTrue result.0 }
    ensures by { IsTrue result.1 ↔ Overlap 128 a b }
{
    (overlaps_is_four_tests(a, b), overlaps_by_four_tests(a, b))
}

// A block ordered between a block and one inside it is inside the first too.
fn stands_between<N: CidrNetwork>(a: N, b: N, c: N) -> bool
    requires first { HostBitsAreZero N.WIDTH (N.pair a) }
    requires second { HostBitsAreZero N.WIDTH (N.pair b) }
    requires third { HostBitsAreZero N.WIDTH (N.pair c) }
    requires inside { Subnet N.WIDTH (N.pair c) (N.pair a) }
    ensures { IsTrue result → Subnet N.WIDTH (N.pair b) (N.pair a) }
{
    ordered_blocks(a, b, c);
    match a.cmp(&b) {
        Ordering::Greater => false,
        Ordering::Less | Ordering::Equal => match b.cmp(&c) {
            Ordering::Greater => false,
            Ordering::Less | Ordering::Equal => true,
        },
    }
}

// A block inside another is not ordered before it.
fn comes_before<N: CidrNetwork>(a: N, c: N) -> bool
    requires first { HostBitsAreZero N.WIDTH (N.pair a) }
    requires second { HostBitsAreZero N.WIDTH (N.pair c) }
    requires inside { Subnet N.WIDTH (N.pair c) (N.pair a) }
    ensures { IsTrue result }
{
    ordered_blocks(a, a, c);
    match a.cmp(&c) {
        Ordering::Greater => false,
        Ordering::Less | Ordering::Equal => true,
    }
}

fn v4_lies_between(a: Ipv4Network, b: Ipv4Network, c: Ipv4Network) -> (bool, bool)
    requires first { HostBitsAreZero 32 a }
    requires second { HostBitsAreZero 32 b }
    requires third { HostBitsAreZero 32 c }
    requires inside { Subnet 32 c a }
    ensures between { IsTrue result.0 → Subnet 32 b a }
    ensures before { IsTrue result.1 }
{
    (stands_between(a, b, c), comes_before(a, c))
}

fn v6_lies_between(a: Ipv6Network, b: Ipv6Network, c: Ipv6Network) -> (bool, bool)
    requires first { HostBitsAreZero 128 a }
    requires second { HostBitsAreZero 128 b }
    requires third { HostBitsAreZero 128 c }
    requires inside { Subnet 128 c a }
    ensures between { IsTrue result.0 → Subnet 128 b a }
    ensures before { IsTrue result.1 }
{
    (stands_between(a, b, c), comes_before(a, c))
}

// Two different blocks of the same prefix length have no address in common.
fn v4_blocks_are_apart(a: Ipv4Network, b: Ipv4Network) -> bool
    requires first { HostBitsAreZero 32 a }
    requires second { HostBitsAreZero 32 b }
    requires as_long { a.prefix ≡ b.prefix }
    ensures { IsFalse result → ¬ (Overlap 32 a b) }
{
    blocks_that_meet(a, b);
    networks_are_pairs(a, b).0
}

fn v6_blocks_are_apart(a: Ipv6Network, b: Ipv6Network) -> bool
    requires first { HostBitsAreZero 128 a }
    requires second { HostBitsAreZero 128 b }
    requires as_long { a.prefix ≡ b.prefix }
    ensures { IsFalse result → ¬ (Overlap 128 a b) }
{
    blocks_that_meet(a, b);
    networks_are_pairs(a, b).0
}

fn v4_networks_are_ordered_as_pairs(a: Ipv4Network, b: Ipv4Network) -> Ordering
    ensures { result ≡ network_cmp a b }
{
    networks_are_pairs(a, b).1
}

fn v6_networks_are_ordered_as_pairs(a: Ipv6Network, b: Ipv6Network) -> Ordering
    ensures { result ≡ network_cmp a b }
{
    networks_are_pairs(a, b).1
}
