//! What follows from the laws of networks of either family and of their sizes.
ghost use Rattle.std.specs.Prelude.{◌≡◌, ◌↔◌, IsTrue, fold};
ghost use Rattle.ipnetwork.specs.IpNetworks.{IsIpBefore, IsIpAtMost, ip_network_cmp, ip_network_writes};

use crate::orders::is_one_order;
use ipnetwork::laws::{
    ip_mask_converts_back, ip_network_clone, ip_network_equality, ip_network_hash,
    ip_network_order, network_size_clone, network_size_equality, network_size_hash,
    network_size_order, wrong_family_clone, wrong_family_equality,
};
use ipnetwork::{IpNetwork, NetworkSize, WrongFamily};
use std::cmp::Ordering;
use std::hash::Hasher;

fn ip_network_compares(a: IpNetwork, b: IpNetwork) -> (bool, bool, Ordering)
    ensures less { IsTrue result.0 ↔ IsIpBefore a b }
    ensures at_most { IsTrue result.1 ↔ IsIpAtMost a b }
    ensures compare { result.2 ≡ ip_network_cmp a b }
{
    ip_network_order(a, b)
}

fn ip_network_is_equal(a: IpNetwork, b: IpNetwork) -> bool
    ensures { IsTrue result ↔ (a ≡ b) }
{
    ip_network_equality(a, b)
}

fn network_size_is_one_order(a: NetworkSize, b: NetworkSize) -> bool
    ensures { IsTrue result }
{
    let numbers = (u128::from(a), u128::from(b));
    let greater = network_size_order(b, a).0;
    let equal = network_size_equality(a, b);
    is_one_order(
        numbers.0,
        numbers.1,
        network_size_order(a, b),
        greater,
        equal,
    )
}

fn ip_network_feeds_all<H: Hasher>(a: IpNetwork, first: &mut H, second: &mut H)
    ensures fed { first.new ≡ fold H.write first.old (ip_network_writes a) }
    ensures other { second.new ≡ fold H.write second.old (ip_network_writes a) }
    ensures alike { first.old ≡ second.old → first.new ≡ second.new }
{
    let same = a;
    ip_network_hash(a, same, first, second);
}

// Only the number is fed, so that sizes of different families with the same number feed the same.
fn network_size_feeds_its_number<H: Hasher>(number: u32, first: &mut H, second: &mut H)
    ensures { first.old ≡ second.old → first.new ≡ second.new }
{
    network_size_hash(NetworkSize::V4(number), first);
    network_size_hash(NetworkSize::V6(u128::from(number)), second);
}

fn copies_are_equal(a: IpNetwork, b: NetworkSize, c: WrongFamily) -> (bool, bool)
    ensures networks { IsTrue result.0 }
    ensures others { IsTrue result.1 }
{
    let others = network_size_clone(b) == Ok(b) && wrong_family_clone(c) == Ok(WrongFamily);
    (
        ip_network_clone(a) == Ok(a),
        others && wrong_family_equality(c, WrongFamily),
    )
}

fn mask_gives_its_prefix(a: IpNetwork) -> bool
    ensures { IsTrue result }
{
    match ip_mask_converts_back(a) {
        Ok(prefix) => prefix == a.prefix(),
        Err(_) => false,
    }
}
