//! The run of the program, and what it promises.
ghost use Rattle.std.specs.Prelude.{◌≡◌, ◌||◌, IsFalse};
ghost use Rattle.lines.specs.Faults.{ended_by_read, ended_by_write};
ghost use Rattle.lines.specs.Watched.{device_of, has_failed};
ghost use Rattle.cidr.specs.Run.{Ran, IsRun};

use crate::answering::{Answering, LINE_MAX};
use ipnetwork_table::laws;
use lines::fault::RunFault;
use lines::line_buffer::{LineBuffer, NextLine};
use lines::watched::Watched;
use std::alloc::Global;
use std::io::{Read, Write};

/// The greatest number of bytes that are read but not answered yet.
const BUFFER_MAX: usize = 65536;

/// The greatest number of bytes of replies that wait to be written.
const WAITING_MAX: usize = 65536;

/// Answers each line of `reader`, up to 4,294,967,295 bytes of input, and then flushes `writer`.
///
/// This is `run_limited` with that limit: the clauses and errors are the same, and so is the
/// condition for the promises about bytes. Only the routes allocate, from `alloc`.
pub fn run<R: Read, W: Write>(
    alloc: Global,
    reader: &mut Watched<R>,
    writer: &mut Watched<W>,
) -> Result<(), RunFault>
    ensures { IsRun R.remaining W.contents u32.MAX reader.old reader.new writer.old writer.new
        result }
{
    run_limited(alloc, u32::MAX, reader, writer)
}

/// Answers each line of `reader`, up to `limit` bytes of input, and then flushes `writer`.
///
/// The errors, and what the clauses say about each:
///
/// - `RunFault::Read`: a read failed. Exactly the lines that were complete before were answered.
/// - `RunFault::Write`: a write or the flush failed, or a write took no bytes. A beginning of the
///   output was written.
/// - `RunFault::InputTooLong`: a read passed the limit. For some beginning of the input, not longer
///   than the limit, exactly the lines that it completes were answered.
///
/// If the reader had failed before the run, the result is `Read`; otherwise, if the writer had, it
/// is `Write`. In both cases neither is called.
///
/// Two facts are not clauses but follow from them: each line that a read completes is answered
/// before the next read; and nothing is written or flushed after a read that failed or passed the
/// limit. Otherwise that next read, or that write, might fail, and no result would meet the
/// clauses. No device is called after a call of it failed: `ask`, `write_whole` and `finish` call
/// no device that has failed.
///
/// Two facts are only tested: if a read passes the limit, none of the lines that it completes is
/// answered; and the writer is flushed once, after the last answer.
///
/// The promises about bytes apply to a reader and a writer whose contracts give their contents, as
/// those of readers and writers of memory do. Those of standard input and output do not.
///
/// A run starts with no routes and frees its routes at the end. Only an `add` of a new block
/// allocates, from `alloc`. If memory runs out, its answer says so, the routes do not change, and
/// the run continues.
#[tactic(auto, using(crate::proofs::Runs::read_had_failed, crate::proofs::Runs::write_had_failed))]
pub fn run_limited<R: Read, W: Write>(
    alloc: Global,
    limit: u32,
    reader: &mut Watched<R>,
    writer: &mut Watched<W>,
) -> Result<(), RunFault>
    ensures { IsRun R.remaining W.contents limit reader.old reader.new writer.old writer.new
        result }
{
    if reader.failed() {
        return Err(RunFault::Read);
    }
    if writer.failed() {
        return Err(RunFault::Write);
    }
    answer_all(alloc, limit, reader, writer)
}

/// Answers each line, on devices that have not failed.
fn answer_all<R: Read, W: Write>(
    alloc: Global,
    limit: u32,
    reader: &mut Watched<R>,
    writer: &mut Watched<W>,
) -> Result<(), RunFault>
    requires reader_works { IsFalse (has_failed reader.old) }
    requires writer_works { IsFalse (has_failed writer.old) }
    ensures ran { Ran limit
        (R.remaining (device_of reader.old)) (R.remaining (device_of reader.new))
        (W.contents (device_of writer.old)) (W.contents (device_of writer.new)) result }
    ensures reader_failed { has_failed reader.new
        ≡ (has_failed reader.old || ended_by_read result) }
    ensures writer_failed { has_failed writer.new
        ≡ (has_failed writer.old || ended_by_write result) }
{
    // Does nothing: the proof of this body needs the law.
    laws::answer_is_computed::<u32>();
    let mut buffer = [0u8; BUFFER_MAX];
    let mut waiting = [0u8; WAITING_MAX];
    let mut lines = LineBuffer::new(&mut buffer, LINE_MAX);
    let mut answering = Answering::new(alloc, &mut waiting);
    let mut room = u64::from(limit);
    'lines: loop {
        match lines.next() {
            NextLine::Line(_) => answering.answer_line(lines.line(), writer)?,
            NextLine::TooLong => answering.answer_too_long(writer)?,
            NextLine::Ask => {
                answering.hand_on(writer)?;
                let count = lines.ask(reader)? as u64;
                if count > room {
                    return Err(RunFault::InputTooLong);
                }
                room -= count;
            }
            NextLine::End => {
                answering.hand_on(writer)?;
                return writer.finish();
            }
        }
    }
}
