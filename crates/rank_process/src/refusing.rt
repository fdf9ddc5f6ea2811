//! Why a text isn't run.

ghost use Rattle.rank_process.specs.Refused.{Refuses, WritesAnswer};

use crate::printing::{end_mark, write_line};
use crate::status::Status;
use given_verdicts::{GivenAnswer, answer_line};
use port_io::Sink;
use run_text::Pieces;
use std::alloc::Global;

/// Writes the answer on a text.
fn write_answer<K: Sink>(alloc: Global, sink: &mut K, answer: GivenAnswer) -> Status
    ensures { WritesAnswer answer result (K.outflow sink.old) (K.outflow sink.new) }
{
    let Ok(line) = answer_line(alloc, &answer) else {
        return Status::NoMemory;
    };
    let Ok(mut out) = Pieces::open(alloc) else {
        return Status::NoMemory;
    };
    match write_line(&mut out, sink, &end_mark(), line.as_slice()) {
        Ok(()) => Status::Answered(answer),
        Err(_) => Status::WriteFault,
    }
}

/// Says why a text isn't run, where there is an answer on it; any other status is that of a rank that wrote nothing.
pub(crate) fn refuse<K: Sink>(alloc: Global, sink: &mut K, status: Status) -> Status
    ensures { Refuses status result (K.outflow sink.old) (K.outflow sink.new) }
{
    match status {
        Status::Answered(answer) => write_answer(alloc, sink, answer),
        other => other,
    }
}
