//! `ends`: the lowest and highest address of a network, its mask and its size.
ghost use Rattle.std.specs.Prelude.{◌≡◌, ◌<◌, [], length};
ghost use Rattle.cidr.specs.Commands.{ends_answer, ends_text};
ghost use Rattle.cidr.specs.Private.Replies.{HasRoom, Adds};
ghost use Rattle.cidr.specs.declared.replies.TheConstants.{ANSWER_MAX};

use crate::commands::REFUSED;
use crate::commands::reading::network_of;
use crate::replies::{ANSWER_MAX, Answer, reply};
use ipnetwork::IpNetwork;
use ipnetwork::decimal::push_number;
use lines::buffer::Buffer;

/// `ends`: the lowest and highest address of a network, its mask and its size.
#[tactic(auto, unfolding(crate::specs::Commands::ends_answer))]
pub(crate) fn ends(word: &[u8], replies: &mut Buffer<'_>)
    requires { HasRoom replies.old }
    ensures { Adds replies.old replies.new (ends_answer word.now) }
{
    match network_of(word) {
        Ok(network) => {
            let mut text = Answer::new();
            push_ends(network, &mut text);
            reply(replies, text.as_str());
        }
        Err(_) => reply(replies, REFUSED),
    }
}

/// Writes the lowest and highest address of a network, its mask and its size, separated by blanks:
/// three addresses of at most 39 bytes, a number of at most 39 digits and three blanks.
fn push_ends(network: IpNetwork, text: &mut Answer)
    requires { text.old.bytes ≡ [] }
    ensures text { text.new.bytes ≡ ends_text network }
    ensures short { length text.new.bytes < ANSWER_MAX }
{
    text.push_str(network.network().canonical().as_str());
    text.push(' ');
    text.push_str(network.broadcast().canonical().as_str());
    text.push(' ');
    text.push_str(network.mask().canonical().as_str());
    text.push(' ');
    push_number(text, u128::from(network.size()));
}
