//! What follows from an order of numbers.
ghost use Rattle.std.specs.Prelude.{◌≡◌, ◌↔◌, ◌<◌, ◌≤◌, IsTrue};
ghost use Rattle.std.specs.Ordering.{nat_cmp};

use std::cmp::Ordering;

/// Returns whether exactly one of `<`, `==` and `>` is true of two numbers, and `<=` and `cmp`
/// agree. `order` holds the results of `<`, `<=` and `cmp` for the two.
pub(crate) fn is_one_order(
    a: u128,
    b: u128,
    order: (bool, bool, Ordering),
    is_greater: bool,
    is_equal: bool,
) -> bool
    requires less { IsTrue order.0 ↔ (a < b) }
    requires at_most { IsTrue order.1 ↔ (a ≤ b) }
    requires compare { order.2 ≡ nat_cmp a b }
    requires greater { IsTrue is_greater ↔ (b < a) }
    requires equal { IsTrue is_equal ↔ (a ≡ b) }
    ensures { IsTrue result }
{
    match order.2 {
        Ordering::Less => order.0 && order.1 && !is_equal && !is_greater,
        Ordering::Equal => !order.0 && order.1 && is_equal && !is_greater,
        Ordering::Greater => !order.0 && !order.1 && !is_equal && is_greater,
    }
}
