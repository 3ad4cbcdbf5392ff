//! `add`, `drop` and `find`: the routes that a run keeps.
ghost use Rattle.std.specs.Prelude.{◌≡◌, ◌≤◌, ◌∷◌, ◌++◌, length, decimal};
ghost use Rattle.ipnetwork_addr.specs.Computed.Either.{ip_of};
ghost use Rattle.ipnetwork.specs.Computed.IpNetworkText.{ip_network_of};
ghost use Rattle.cidr.specs.Output.{MayGet};
ghost use Rattle.cidr.specs.Private.Replies.{HasRoom, Adds, RepliesTo};
ghost use Rattle.cidr.specs.Private.Routes.{routes_of};
ghost use Rattle.cidr.specs.Requests.{Add, Drop, adding, dropping, finding, route_number_of};
ghost use Rattle.cidr.specs.Words.{blank};

use crate::commands::REFUSED;
use crate::commands::reading::{address_of, network_of};
use crate::replies::{Answer, reply};
use crate::route_tables::RouteTables;
use ipnetwork::decimal::push_number;
use ipnetwork::parse::read_number;
use ipnetwork::{IpNetwork, laws};
use lines::buffer::Buffer;

/// The answer if no block contains the address.
const NONE: &str = "none";

// The calls of these three commands are not inlined: otherwise the code around them, which every
// other command runs through, would save more registers.

/// `add`: gives the block of a network a number.
#[inline(never)]
pub(crate) fn add(network: &[u8], number: &[u8], routes: &mut RouteTables, replies: &mut Buffer<'_>)
    requires { HasRoom replies.old }
    ensures { RepliesTo (routes_of routes.old)
        (adding (ip_network_of network.now) (route_number_of number.now))
        replies.old replies.new (routes_of routes.new) }
{
    // Does nothing: the proof of this body needs the law.
    laws::prefix_number_is_computed();
    let Ok(network) = network_of(network) else {
        reply(replies, REFUSED);
        return;
    };
    let Some(number) = read_number(number, u32::MAX) else {
        reply(replies, REFUSED);
        return;
    };
    reply(replies, insert(network, number, routes));
}

/// Gives the block of a network a number, and returns the answer, which says whether it had one.
fn insert(network: IpNetwork, number: u32, routes: &mut RouteTables) -> &'static str
    ensures text { MayGet (routes_of routes.old) (Add network number) result.now
        (routes_of routes.new) }
    ensures short { length result.now ≤ 15 }
{
    match routes.insert(network, number) {
        Ok(None) => "new",
        Ok(Some(_)) => "changed",
        Err(_) => "out of memory",
    }
}

/// `drop`: removes the block of a network.
#[inline(never)]
pub(crate) fn drop(network: &[u8], routes: &mut RouteTables, replies: &mut Buffer<'_>)
    requires { HasRoom replies.old }
    ensures { RepliesTo (routes_of routes.old)
        (dropping (ip_network_of network.now)) replies.old replies.new (routes_of routes.new) }
{
    match network_of(network) {
        Ok(network) => reply(replies, remove(network, routes)),
        Err(_) => reply(replies, REFUSED),
    }
}

/// Removes the block of a network, and returns the answer, which says whether it had a number.
fn remove(network: IpNetwork, routes: &mut RouteTables) -> &'static str
    ensures text { MayGet (routes_of routes.old) (Drop network) result.now (routes_of routes.new) }
    ensures short { length result.now ≤ 15 }
{
    match routes.remove(network) {
        None => "absent",
        Some(_) => "dropped",
    }
}

/// `find`: the longest block that contains an address, and its number.
#[inline(never)]
pub(crate) fn find(address: &[u8], routes: &RouteTables, replies: &mut Buffer<'_>)
    requires { HasRoom replies.old }
    ensures { RepliesTo (routes_of routes.now)
        (finding (ip_of address.now)) replies.old replies.new (routes_of routes.now) }
{
    let Some(address) = address_of(address) else {
        reply(replies, REFUSED);
        return;
    };
    let Some((block, number)) = routes.find(address) else {
        reply(replies, NONE);
        return;
    };
    match block {
        IpNetwork::V4(block) => push_found(block.canonical().as_str(), number, replies),
        IpNetwork::V6(block) => push_found(block.canonical().as_str(), number, replies),
    }
}

/// Adds the answer: the block, of at most 43 bytes, a blank and its number.
fn push_found(block: &str, number: u32, replies: &mut Buffer<'_>)
    requires room { HasRoom replies.old }
    requires short { length block.now ≤ 43 }
    ensures { Adds replies.old replies.new (block.now ++ blank ∷ decimal number) }
{
    let mut text = Answer::new();
    text.push_str(block);
    text.push(' ');
    push_number(&mut text, u128::from(number));
    reply(replies, text.as_str());
}
