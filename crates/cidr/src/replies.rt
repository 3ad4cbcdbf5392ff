//! Adds answers to the replies that wait.
ghost use Rattle.std.specs.Prelude.{◌<◌, length};
ghost use Rattle.cidr.specs.Private.Replies.{HasRoom, Adds};
ghost use Rattle.cidr.specs.declared.replies.TheConstants.{ANSWER_MAX};

use arrayvec::ArrayString;
use lines::buffer::Buffer;

/// The greatest number of bytes in an answer with its line feed.
pub(crate) const ANSWER_MAX: usize = 160;

/// An answer of several parts, before it is added.
pub(crate) type Answer = ArrayString<ANSWER_MAX>;

/// Adds an answer and a line feed.
#[inline(always)]
pub(crate) fn reply(replies: &mut Buffer<'_>, answer: &str)
    requires room { HasRoom replies.old }
    requires short { length answer.now < ANSWER_MAX }
    ensures { Adds replies.old replies.new answer.now }
{
    replies.push_bytes(answer.as_bytes());
    replies.push(b'\n');
}
