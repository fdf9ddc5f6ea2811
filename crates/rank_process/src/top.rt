//! The whole program over any source and any sinks.

ghost use Rattle.std.specs.Prelude.{length};
ghost use Rattle.rank_process.specs.Notes.{SaysBeside};
ghost use Rattle.rank_process.specs.Runs.{Does, IsAsked};

use crate::first::read_first;
use crate::notes::say;
use crate::opening::open;
use crate::refusing::refuse;
use crate::running::run;
use crate::status::Status;
use port_io::{Sink, Source};
use std::alloc::Global;

/// The whole program but what is said on standard error.
fn answered<S: Source, K: Sink>(
    alloc: Global,
    words: &[String],
    source: &mut S,
    sink: &mut K,
) -> Status
    ensures does { Does result (S.inflow source.old) (S.inflow source.new) (K.outflow sink.old) (K.outflow sink.new) }
    ensures asked { IsAsked result (length words.now) }
{
    if !words.is_empty() {
        return Status::Usage;
    }
    let first = match read_first(alloc, source) {
        Ok(first) => first,
        Err(status) => return refuse(alloc, sink, status),
    };
    match open(alloc, first) {
        Ok(opened) => run(alloc, opened, source, sink),
        Err(status) => refuse(alloc, sink, status),
    }
}

/// The whole program: one rank of a job. It takes no words. From the source comes a first frame, which has the rank's number and the
/// text of a description, or of a description and a plan for it, and then the mark of the start and the messages to the rank; to the sink
/// go the frames of the messages that it makes, and at its end a mark, its lines and the line of its steps. A description is run by its
/// own plan, and one with a plan after it by that plan, whatever its results mean.
///
/// `Ended`: what was written are the frames of the messages of a legal history of this rank, in order, then the mark, and exactly the
/// rank's lines and steps of that history; the rank has started, nothing is ready, and all that its lanes carry has come. `Frame`: a
/// frame is refused, by which nothing was done. `Answered`: the text is refused, or the plan in it has a flaw, and
/// nothing ran; the mark and the line that says so were written. `WrongRank` and `Usage`:
/// nothing was written. `ReadFault`: a read failed, or the source ended before the rank did; the frames of all messages that it made
/// were written, and nothing else. `WriteFault`: a write failed, and a beginning of what was due was written. `NoMemory`: the frames of
/// all messages that it made were written, or of all but the last, and nothing else.
///
/// Beside each status but `Ended` a line stands in `notes`, if that doesn't fail; beside `Answered` it is the answer's, if there is memory.
pub fn rank_main<S: Source, K: Sink, N: Sink>(
    alloc: Global,
    words: &[String],
    source: &mut S,
    sink: &mut K,
    notes: &mut N,
) -> Status
    ensures does { Does result (S.inflow source.old) (S.inflow source.new) (K.outflow sink.old) (K.outflow sink.new) }
    ensures asked { IsAsked result (length words.now) }
    ensures says { SaysBeside result (N.outflow notes.old) (N.outflow notes.new) }
{
    let status = answered(alloc, words, source, sink);
    say(alloc, notes, &status);
    status
}
