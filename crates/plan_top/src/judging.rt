//! The answer on a plan that follows a description.

ghost use Rattle.std.specs.Prelude.{◌≡◌, ◌≢◌, []};
ghost use Rattle.given_verdicts.specs.Answers.{answer_of};
ghost use Rattle.plan_top.specs.Owed.{Answers, owed_given, status_of};
ghost use Rattle.plan_top.specs.Explained.{Beside, TellsOf};
ghost use Rattle.plan_top.specs.declared.words.PlanRequest.TheVariants.{Verify, VerifyGiven};
ghost use Rattle.plan_top.specs.notes.Notes.{Notes};
ghost use Rattle.run_text.specs.Ending.{Written};
ghost use Rattle.run_text.specs.Putting.{EndsWith};

use crate::notes::note_of;
use given_verdicts::general::general_answer;
use given_verdicts::{GivenAnswer, answer_line, answer_of};
use port_io::{Failed, Sink};
use run_text::{Pieces, Status};
use std::alloc::Global;
use text_notes::notes::Printable;

/// The status with which an answer is written.
fn status_of(answer: &GivenAnswer) -> Status
    ensures { result ≡ status_of answer.now }
{
    match answer {
        GivenAnswer::Holds => Status::Done,
        _ => Status::Refused,
    }
}

/// Writes a line, and finishes the sink.
fn write_line<K: Sink>(out: &mut Pieces, sink: &mut K, line: &[u8]) -> Result<(), Failed>
    requires { out.old ≡ [] }
    ensures { EndsWith (K.outflow sink.old) (K.outflow sink.new) line.now result }
{
    out.put(sink, line)?;
    out.end(sink)
}

/// Writes the line of an answer, and finishes the sink.
pub fn write_answer<K: Sink>(alloc: Global, answer: &GivenAnswer, sink: &mut K) -> Status
    ensures { Written (owed_given answer.now) (K.outflow sink.old) (K.outflow sink.new) result }
{
    let Ok(mut out) = Pieces::open(alloc) else {
        return Status::NoMemory;
    };
    let Ok(line) = answer_line(alloc, answer) else {
        return Status::NoMemory;
    };
    match write_line(&mut out, sink, line.as_slice()) {
        Ok(()) => status_of(answer),
        Err(_) => Status::WriteFault,
    }
}

/// Writes the line of the answer on a text, as `write_answer` does, and keeps what a person is told beside it.
pub fn write_noted<K: Sink>(
    alloc: Global,
    text: &[u8],
    answer: &GivenAnswer,
    sink: &mut K,
    told: &mut Printable,
) -> Status
    ensures written { Written (owed_given answer.now) (K.outflow sink.old) (K.outflow sink.new) result }
    ensures told { result ≡ Status.Refused → Notes text.now answer.now told.new }
{
    match note_of(alloc, text, answer) {
        Ok(note) => {
            *told = note;
            write_answer(alloc, answer, sink)
        }
        Err(_) => Status::NoMemory,
    }
}

/// Judges a plan that follows a description, for the inputs that the description gives.
pub(crate) fn judge_given<K: Sink>(
    alloc: Global,
    text: &[u8],
    sink: &mut K,
    told: &mut Printable,
) -> Status
    ensures written { Written (owed_given (answer_of text.now)) (K.outflow sink.old) (K.outflow sink.new) result }
    ensures told { TellsOf (Beside VerifyGiven text.now (K.outflow sink.old) (K.outflow sink.new)) result told.new }
{
    match answer_of(alloc, text) {
        Ok(answer) => write_noted(alloc, text, &answer, sink, told),
        Err(_) => Status::NoMemory,
    }
}

/// Judges a plan that follows a description, for all inputs of the description's shape.
pub(crate) fn judge_for_all<K: Sink>(
    alloc: Global,
    text: &[u8],
    sink: &mut K,
    told: &mut Printable,
) -> Status
    ensures answers { Answers Verify text.now (K.outflow sink.old) (K.outflow sink.new) result }
    ensures no_read { result ≢ Status.ReadFault }
    ensures told { TellsOf (Beside Verify text.now (K.outflow sink.old) (K.outflow sink.new)) result told.new }
{
    match general_answer(alloc, text) {
        Ok(answer) => write_noted(alloc, text, &answer, sink, told),
        Err(_) => Status::NoMemory,
    }
}
