//! The laws of routes: what `add`, `drop` and `find` do.
ghost use Rattle.cidr.specs.Laws.Routes.{AddsGet, DropsGet, FindsGet, FirstFindsNothing, FirstDropsNothing, FirstAddsNew};

use crate::laws::commands::lines_about_routes;
use ipnetwork::laws;
use ipnetwork_table::laws as table_laws;

/// `add` and `drop` reply according to the number that the block had, and change only the number of
/// the networks with the same set. `find` replies with the longest block that contains the address.
/// Only an `add` of a block without a number can run out of memory, and then the routes do not
/// change.
pub fn routes_by_sets()
    ensures add { AddsGet }
    ensures drop { DropsGet }
    ensures find { FindsGet }
{
    table_laws::one_key_changes::<u32>();
    table_laws::keys_without_host_bits::<u32>();
    laws::subnets();
    laws::blocks();
    laws::families_are_apart();
}

/// A run starts with no routes: in the first line of an input, a `find` finds nothing, a `drop`
/// drops nothing, and an `add` changes no number.
pub fn a_run_begins_with_no_routes()
    ensures find { FirstFindsNothing }
    ensures drop { FirstDropsNothing }
    ensures add { FirstAddsNew }
{
    lines_about_routes();
    routes_by_sets();
}
