//! `rel`: how the sets of two networks are related.
ghost use Rattle.std.specs.Prelude.{◌≡◌, ◌≤◌, length};
ghost use Rattle.ipnetwork.specs.Computed.IpNetworks.{is_ip_subnet};
ghost use Rattle.cidr.specs.Commands.{rel_answer, relation};
ghost use Rattle.cidr.specs.Private.Replies.{HasRoom, Adds};

use crate::commands::REFUSED;
use crate::commands::reading::network_of;
use crate::replies::reply;
use ipnetwork::{IpNetwork, laws};
use lines::buffer::Buffer;

/// `rel`: how the sets of two networks are related.
#[tactic(auto, unfolding(crate::specs::Commands::rel_answer))]
pub(crate) fn rel(first: &[u8], second: &[u8], replies: &mut Buffer<'_>)
    requires { HasRoom replies.old }
    ensures { Adds replies.old replies.new (rel_answer first.now second.now) }
{
    match (network_of(first), network_of(second)) {
        (Ok(first), Ok(second)) => reply(replies, relation(first, second)),
        _ => reply(replies, REFUSED),
    }
}

/// Returns how the sets of two networks are related.
fn relation(first: IpNetwork, second: IpNetwork) -> &'static str
    ensures text { result.now ≡ relation first second }
    ensures short { length result.now ≤ 15 }
{
    if is_part(&first, &second) {
        if is_part(&second, &first) {
            "same"
        } else {
            "inside"
        }
    } else if is_part(&second, &first) {
        "around"
    } else {
        "apart"
    }
}

/// Returns whether the set of a network is a subset of that of another.
fn is_part(network: &IpNetwork, other: &IpNetwork) -> bool
    ensures { result ≡ is_ip_subnet network.now other.now }
{
    // Does nothing: the proof of this body needs the law, and the facts from the next two calls
    // that these are networks.
    laws::ip_subnet_is_computed();
    let _ = network.prefix();
    let _ = other.prefix();
    network.is_subnet_of(*other)
}
