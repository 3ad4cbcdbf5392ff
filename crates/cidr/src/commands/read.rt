//! `read`, `read4` and `read6`: the canonical text of a network.
ghost use Rattle.std.specs.Prelude.{◌≡◌, ◌≤◌, length};
ghost use Rattle.cidr.specs.Commands.{read_answer, read4_answer, read6_answer, refusal};
ghost use Rattle.cidr.specs.Private.Replies.{HasRoom, Adds};

use crate::commands::REFUSED;
use crate::commands::reading::network_of;
use crate::replies::reply;
use ipnetwork::{CidrFault, Ipv4Network, Ipv6Network, laws};
use lines::buffer::Buffer;

/// `read`: the canonical text of a network of either family.
#[tactic(auto, unfolding(crate::specs::Commands::read_answer))]
pub(crate) fn read(word: &[u8], replies: &mut Buffer<'_>)
    requires { HasRoom replies.old }
    ensures { Adds replies.old replies.new (read_answer word.now) }
{
    match network_of(word) {
        Ok(network) => reply(replies, network.canonical().as_str()),
        Err(_) => reply(replies, REFUSED),
    }
}

/// `read4`: the canonical text of an IPv4 network, or why the word names none.
pub(crate) fn read4(word: &[u8], replies: &mut Buffer<'_>)
    requires { HasRoom replies.old }
    ensures { Adds replies.old replies.new (read4_answer word.now) }
{
    // Does nothing: the proof of this body needs the law.
    laws::v4_network_reading_is_computed();
    match Ipv4Network::read_bytes(word) {
        Ok(network) => reply(replies, network.canonical().as_str()),
        Err(fault) => reply(replies, refusal(fault)),
    }
}

/// `read6`: the canonical text of an IPv6 network, or why the word names none.
#[tactic(auto, unfolding(crate::specs::Commands::read6_answer))]
pub(crate) fn read6(word: &[u8], replies: &mut Buffer<'_>)
    requires { HasRoom replies.old }
    ensures { Adds replies.old replies.new (read6_answer word.now) }
{
    // Does nothing: the proof of this body needs the law.
    laws::v6_network_reading_is_computed();
    match Ipv6Network::read_bytes(word) {
        Ok(network) => reply(replies, network.canonical().as_str()),
        Err(fault) => reply(replies, refusal(fault)),
    }
}

/// Returns why a text names no network.
fn refusal(fault: CidrFault) -> &'static str
    ensures text { result.now ≡ refusal fault }
    ensures short { length result.now ≤ 15 }
{
    match fault {
        CidrFault::Format => "refused format",
        CidrFault::Addr => "refused address",
        CidrFault::Prefix => "refused prefix",
    }
}
