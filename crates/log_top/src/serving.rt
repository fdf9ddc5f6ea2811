//! `serve`: each line is answered at once.

ghost use Rattle.std.specs.Prelude.{◌≡◌, [], true, IfOk, IfErr, IfNone, Bool, List, ℕ};
ghost use Rattle.port_io.specs.Counts.{Rose};
ghost use Rattle.run_text.specs.Ending.{IsTold};
ghost use Rattle.log_verdict.specs.Judging.{IsNew, Unchanged, LineTook, next_line, took};
ghost use Rattle.log_top.specs.Answered.{ServeAnswers};
ghost use Rattle.log_top.specs.Telling.{served};
ghost use Rattle.log_top.specs.Turns.{AnsweredAs, ServeTurn, ServedOne};

use crate::reading::{LineReader, Read};
use crate::telling::served;
use crate::verdicts::write_end;
use log_verdict::{Judge, Taken};
use port_io::{Sink, Source};
use run_text::{Pieces, ReadError, Status};
use std::alloc::Global;

/// Takes a line.
fn take(judge: &mut Judge, line: &[u8]) -> Result<Taken, ReadError>
    ensures took { IfOk result (λ t. LineTook (next_line judge.old) line.now (took judge.new t)) }
    ensures stays { IfOk result (λ t. Unchanged judge.old t judge.new) }
    ensures lacks { IfErr result (λ e. e ≡ ReadError.NoMemory) }
{
    match judge.take(line) {
        Ok(taken) => Ok(taken),
        Err(_) => Err(ReadError::NoMemory),
    }
}

/// Takes the next line; nothing at the end of the text. Of a line that is too long all is read.
fn serve_next<S: Source>(
    judge: &mut Judge,
    reader: &mut LineReader,
    source: &mut S,
) -> Result<Option<Taken>, ReadError>
    ensures turn { IfOk result (ServeTurn judge.old reader.old (S.inflow source.old) judge.new reader.new (S.inflow source.new)) }
    ensures failed { IfErr result (λ e. e ≡ ReadError.Failed → Rose (S.inflow source.old).faults (S.inflow source.new).faults) }
{
    let read = reader.next(source)?;
    match read {
        Read::Last => Ok(None),
        Read::Line => {
            let taken = take(judge, reader.line())?;
            Ok(Some(taken))
        }
        Read::Long => {
            let taken = take(judge, reader.line())?;
            let ended = reader.skip(source)?;
            if ended { Ok(Some(taken)) } else { Ok(None) }
        }
    }
}

/// Writes the answer to a line, and finishes the sink; the status, where that failed.
fn answer<K: Sink>(alloc: Global, taken: &Taken, out: &mut Pieces, sink: &mut K) -> Option<Status>
    requires { out.old ≡ [] }
    ensures answers { AnsweredAs (K.outflow sink.old) (K.outflow sink.new) (served taken.now) result }
    ensures nothing { IfNone result (out.new ≡ []) }
{
    let Ok(text) = served(alloc, taken) else {
        return Some(Status::NoMemory);
    };
    match write_end(out, sink, text.as_slice()) {
        Ok(()) => None,
        Err(_) => Some(Status::WriteFault),
    }
}

/// Reads the next line, and answers it; the status, where nothing further is to be read.
fn serve_turn<S: Source, K: Sink>(
    alloc: Global,
    judge: &mut Judge,
    reader: &mut LineReader,
    out: &mut Pieces,
    source: &mut S,
    sink: &mut K,
) -> Option<Status>
    requires { out.old ≡ [] }
    ensures served { ServedOne judge.old reader.old (S.inflow source.old) (K.outflow sink.old) judge.new reader.new
        (S.inflow source.new) (K.outflow sink.new) result }
    ensures nothing { IfNone result (out.new ≡ []) }
{
    match serve_next(judge, reader, source) {
        Ok(Some(taken)) => answer(alloc, &taken, out, sink),
        Ok(None) => Some(Status::Done),
        Err(ReadError::Failed) => Some(Status::ReadFault),
        Err(ReadError::NoMemory) => Some(Status::NoMemory),
    }
}

/// Answers the lines that a source has, each before the next is read.
fn serve_all<S: Source, K: Sink>(
    alloc: Global,
    judge: &mut Judge,
    out: &mut Pieces,
    source: &mut S,
    sink: &mut K,
) -> Status
    requires { out.old ≡ [] }
    ensures { (any_order : Bool) → IsNew true any_order judge.old → (bytes : List ℕ) × IsTold (S.inflow source.old).left bytes
        × ServeAnswers any_order bytes (S.inflow source.old) (S.inflow source.new) (K.outflow sink.old) (K.outflow sink.new) result }
{
    let Ok(mut reader) = LineReader::open(alloc) else {
        return Status::NoMemory;
    };
    'lines: for _ in 0..u64::MAX {
        match serve_turn(alloc, judge, &mut reader, out, source, sink) {
            Some(status) => return status,
            None => {}
        }
    }
    Status::NoMemory
}

/// Answers each line that a source has before the next is read, up to the end of the text. A line that is refused or differs is answered
/// by that, and changes nothing.
pub(crate) fn serve<S: Source, K: Sink>(
    alloc: Global,
    any_order: bool,
    source: &mut S,
    sink: &mut K,
) -> Status
    ensures { (bytes : List ℕ) × IsTold (S.inflow source.old).left bytes × ServeAnswers any_order bytes (S.inflow source.old)
        (S.inflow source.new) (K.outflow sink.old) (K.outflow sink.new) result }
{
    let mut judge = Judge::filling(alloc, any_order);
    let Ok(mut out) = Pieces::open(alloc) else {
        return Status::NoMemory;
    };
    serve_all(alloc, &mut judge, &mut out, source, sink)
}
