//! Answers lines. The replies wait to be written until there is no room for more.
ghost use Rattle.std.specs.Prelude.{◌≡◌, ◌||◌, ◌<◌, ◌≤◌, ◌∷◌, ℕ, List, [], Option, length, is_err, IsOkUnless, OnErr, OnOk};
ghost use Rattle.lines.specs.Outputs.{AppendsBeginning};
ghost use Rattle.lines.specs.Watched.{device_of, has_failed};

use crate::dispatch::answer;
use crate::replies::{ANSWER_MAX, reply};
use crate::route_tables::RouteTables;
use lines::buffer::Buffer;
use lines::fault::RunFault;
use lines::watched::Watched;
use std::alloc::Global;
use std::io::Write;

/// The greatest number of bytes in a line, not counting its line ending. A longer line is too long.
pub(crate) const LINE_MAX: usize = 1024;

/// What a run keeps from line to line: the routes, and the replies that wait to be written.
#[derive(Drop)]
pub(crate) struct Answering<'a> {
    routes: RouteTables,
    waiting: Buffer<'a>,
}

impl<'a> Answering<'a> {
    ghost use Rattle.cidr.specs.Private.Replies.{HasRoom};
    ghost use Rattle.cidr.specs.Private.Progress.{Answered, FailsWithin, begun, standing};
    ghost use Rattle.cidr.specs.declared.replies.TheConstants.{ANSWER_MAX};
    ghost use Rattle.cidr.specs.declared.answering.TheConstants.{LINE_MAX};

    /// Starts with no routes and no replies. Replies will wait in the slice.
    pub(crate) fn new(alloc: Global, slice: &'a mut [u8]) -> Answering<'a>
        requires { ANSWER_MAX ≤ length slice.old }
        ensures begins { (holds : Option (List ℕ)) → standing holds result ≡ begun holds }
        ensures fits { ANSWER_MAX ≤ result.waiting.capacity }
    {
        Answering {
            routes: RouteTables::new(alloc),
            waiting: Buffer::new(slice),
        }
    }

    /// Adds the reply to a line.
    pub(crate) fn answer_line<W: Write>(
        &mut self,
        line: &[u8],
        writer: &mut Watched<W>,
    ) -> Result<(), RunFault>
        requires fits { ANSWER_MAX ≤ self.old.waiting.capacity }
        requires short { length line.now ≤ LINE_MAX }
        ensures ok { OnOk result (Answered (standing (W.contents (device_of writer.old)) self.old)
            (standing (W.contents (device_of writer.new)) self.new) (line.now ∷ [])) }
        ensures err { OnErr result
            (FailsWithin (standing (W.contents (device_of writer.old)) self.old)
            (W.contents (device_of writer.new)) (line.now ∷ [])) }
        ensures failed { has_failed writer.new ≡ (has_failed writer.old || is_err result) }
        ensures fault { IsOkUnless result RunFault.Write }
        ensures fits { ANSWER_MAX ≤ self.new.waiting.capacity }
    {
        self.make_room(writer)?;
        answer(line, &mut self.routes, &mut self.waiting);
        Ok(())
    }

    /// Adds the reply to a line that is too long.
    pub(crate) fn answer_too_long<W: Write>(
        &mut self,
        writer: &mut Watched<W>,
    ) -> Result<(), RunFault>
        requires fits { ANSWER_MAX ≤ self.old.waiting.capacity }
        ensures ok { (line : List ℕ) → LINE_MAX < length line
            → OnOk result (Answered (standing (W.contents (device_of writer.old)) self.old)
            (standing (W.contents (device_of writer.new)) self.new) (line ∷ [])) }
        ensures err { (line : List ℕ)
            → OnErr result (FailsWithin (standing (W.contents (device_of writer.old)) self.old)
            (W.contents (device_of writer.new)) (line ∷ [])) }
        ensures failed { has_failed writer.new ≡ (has_failed writer.old || is_err result) }
        ensures fault { IsOkUnless result RunFault.Write }
        ensures fits { ANSWER_MAX ≤ self.new.waiting.capacity }
    {
        self.make_room(writer)?;
        reply(&mut self.waiting, "line too long");
        Ok(())
    }

    // Writes the replies that wait if there may be no room for one more.
    fn make_room<W: Write>(&mut self, writer: &mut Watched<W>) -> Result<(), RunFault>
        requires fits { ANSWER_MAX ≤ self.old.waiting.capacity }
        ensures ok { OnOk result (Answered (standing (W.contents (device_of writer.old)) self.old)
            (standing (W.contents (device_of writer.new)) self.new) []) }
        ensures err { OnErr result
            (AppendsBeginning (W.contents (device_of writer.old))
            (W.contents (device_of writer.new))
            self.old.waiting.items) }
        ensures room { OnOk result (HasRoom self.new.waiting) }
        ensures fits { ANSWER_MAX ≤ self.new.waiting.capacity }
        ensures failed { has_failed writer.new ≡ (has_failed writer.old || is_err result) }
        ensures fault { IsOkUnless result RunFault.Write }
    {
        if self.waiting.remaining() >= ANSWER_MAX {
            return Ok(());
        }
        self.hand_on(writer)
    }

    /// Writes the replies that wait.
    pub(crate) fn hand_on<W: Write>(&mut self, writer: &mut Watched<W>) -> Result<(), RunFault>
        ensures ok { OnOk result (Answered (standing (W.contents (device_of writer.old)) self.old)
            (standing (W.contents (device_of writer.new)) self.new) []) }
        ensures emptied { OnOk result (self.new.waiting.items ≡ []) }
        ensures err { OnErr result
            (AppendsBeginning (W.contents (device_of writer.old))
            (W.contents (device_of writer.new))
            self.old.waiting.items) }
        ensures failed { has_failed writer.new ≡ (has_failed writer.old || is_err result) }
        ensures fault { IsOkUnless result RunFault.Write }
        ensures capacity { self.new.waiting.capacity ≡ self.old.waiting.capacity }
    {
        writer.write_whole(self.waiting.as_slice())?;
        self.waiting.clear();
        Ok(())
    }
}
