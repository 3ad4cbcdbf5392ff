//! `has` and `has4`: whether a network contains an address.
ghost use Rattle.std.specs.Prelude.{codes, if◌then◌else◌};
ghost use Rattle.cidr.specs.Commands.{has_answer, has4_answer};
ghost use Rattle.cidr.specs.Private.Replies.{HasRoom, Adds};

use crate::commands::reading::{address_of, network_of};
use crate::replies::reply;
use ipnetwork::{Ipv4Addr, Ipv4Network, laws};
use lines::buffer::Buffer;

/// The answers if a text names no network or no address.
const NO_NETWORK: &str = "refused network";

const NO_ADDRESS: &str = "refused address";

/// The answers if the network contains the address, and if it does not.
const YES: &str = "yes";

const NO: &str = "no";

/// `has`: whether a network contains an address, each of either family.
#[tactic(auto, unfolding(crate::specs::Commands::has_answer))]
pub(crate) fn has(network: &[u8], address: &[u8], replies: &mut Buffer<'_>)
    requires { HasRoom replies.old }
    ensures { Adds replies.old replies.new (has_answer network.now address.now) }
{
    // Does nothing: the proof of this body needs the law.
    laws::ip_membership_is_computed();
    let Ok(network) = network_of(network) else {
        reply(replies, NO_NETWORK);
        return;
    };
    let Some(address) = address_of(address) else {
        reply(replies, NO_ADDRESS);
        return;
    };
    reply_whether(network.contains(address), replies);
}

/// `has4`: whether an IPv4 network contains an IPv4 address.
pub(crate) fn has4(network: &[u8], address: &[u8], replies: &mut Buffer<'_>)
    requires { HasRoom replies.old }
    ensures { Adds replies.old replies.new (has4_answer network.now address.now) }
{
    // Does nothing: the proof of this body needs the laws.
    laws::v4_network_reading_is_computed();
    laws::v4_text_is_computed();
    let Ok(network) = Ipv4Network::read_bytes(network) else {
        reply(replies, NO_NETWORK);
        return;
    };
    let Ok(address) = Ipv4Addr::read_bytes(address) else {
        reply(replies, NO_ADDRESS);
        return;
    };
    reply_whether(network.contains(address), replies);
}

/// Adds the answer, which says whether the network contains the address.
#[inline(always)]
fn reply_whether(contains: bool, replies: &mut Buffer<'_>)
    requires { HasRoom replies.old }
    ensures { Adds replies.old replies.new (if contains then codes "yes" else codes "no") }
{
    if contains {
        reply(replies, YES);
    } else {
        reply(replies, NO);
    }
}
