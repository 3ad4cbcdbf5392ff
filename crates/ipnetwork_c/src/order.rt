//! Orders as numbers.
ghost use Rattle.std.specs.Prelude.{◌≡◌};
ghost use Rattle.ipnetwork.specs.IpNetworks.{ip_network_cmp};
ghost use Rattle.ipnetwork_c.specs.Numbers.{order_number};

use ipnetwork::IpNetwork;
use std::cmp::Ordering;

/// Returns -1, 0 or 1 for less, equal or greater.
pub(crate) fn number_of_order(order: Ordering) -> i32
    ensures { result ≡ order_number order }
{
    match order {
        Ordering::Less => -1,
        Ordering::Equal => 0,
        Ordering::Greater => 1,
    }
}

/// Returns the order of two networks of either family, as a number.
pub(crate) fn number_between(one: IpNetwork, other: IpNetwork) -> i32
    ensures { result ≡ order_number (ip_network_cmp one other) }
{
    number_of_order(one.cmp(&other))
}
