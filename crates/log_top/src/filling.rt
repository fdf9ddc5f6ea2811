//! `fill`: a log with the answers that are owed.

ghost use Rattle.std.specs.Prelude.{◌≡◌, ◌++◌, ◌∷◌, [], IfOk, IfErr, Bool, List, ℕ};
ghost use Rattle.port_io.specs.Counts.{Rose};
ghost use Rattle.run_text.specs.Ending.{IsTold};
ghost use Rattle.run_text.specs.Putting.{Puts};
ghost use Rattle.run_text.specs.declared.status.Status.TheVariants as ends;
ghost use Rattle.log_top.specs.Answered.{FillAnswers};
ghost use Rattle.log_top.specs.Telling.{verdict_lines};
ghost use Rattle.log_top.specs.Turns.{Closes, FillTurn, FilledOne, FilledRead, PutAs, TurnWritten};
ghost use Rattle.log_verdict.specs.Filling.{IsNewFiller};

use crate::ending::Ended;
use crate::reading::{LineReader, Read};
use crate::telling::{flaw_of, verdict_text};
use crate::verdicts::write_end;
use log_verdict::{Filled, Filler, Printed, Verdict};
use port_io::{Failed, Sink, Source};
use run_text::{Pieces, ReadError, Status};
use std::alloc::Global;

/// What became of a line, or of the end of the text.
#[derive(Drop)]
pub(crate) enum Turn {
    /// The line as it is to be written.
    Line(Printed),
    /// All was filled in; there were so many calls.
    Whole(u64),
    /// The verdict, whatever follows.
    Stopped(Verdict),
}

/// Fills in the line that was read, or ends the text.
fn fill_read(filler: &mut Filler, line: &[u8], read: Read) -> Result<Turn, ReadError>
    ensures filled { IfOk result (FilledRead filler.old line.now read filler.new) }
    ensures lacks { IfErr result (λ e. e ≡ ReadError.NoMemory) }
{
    match read {
        Read::Last => match filler.end(line) {
            Verdict::Conforms(calls) => Ok(Turn::Whole(calls)),
            verdict => Ok(Turn::Stopped(verdict)),
        },
        _ => match filler.take(line) {
            Ok(Filled::Line(text)) => Ok(Turn::Line(text)),
            Ok(Filled::Ends(verdict)) => Ok(Turn::Stopped(verdict)),
            Err(_) => Err(ReadError::NoMemory),
        },
    }
}

/// Fills in the next line, or ends the text.
fn fill_next<S: Source>(
    filler: &mut Filler,
    reader: &mut LineReader,
    source: &mut S,
) -> Result<Turn, ReadError>
    ensures turn { IfOk result (FillTurn filler.old reader.old (S.inflow source.old) filler.new reader.new (S.inflow source.new)) }
    ensures failed { IfErr result (λ e. e ≡ ReadError.Failed → Rose (S.inflow source.old).faults (S.inflow source.new).faults) }
{
    let read = reader.next(source)?;
    let turn = fill_read(filler, reader.line(), read)?;
    Ok(turn)
}

/// Writes a line.
fn put_line<K: Sink>(out: &mut Pieces, sink: &mut K, line: &[u8]) -> Result<(), Failed>
    ensures { Puts (K.outflow sink.old) (K.outflow sink.new) out.old out.new (line.now ++ 10 ∷ []) result }
{
    out.put(sink, line)?;
    out.put(sink, b"\n")
}

/// Writes a line; how the text ended, where that failed.
fn write_line<K: Sink>(out: &mut Pieces, sink: &mut K, line: &[u8]) -> Option<Ended>
    ensures { PutAs (K.outflow sink.old) (K.outflow sink.new) (out.old ++ (line.now ++ 10 ∷ [])) out.new result }
{
    match put_line(out, sink, line) {
        Ok(()) => None,
        Err(_) => Some(Ended::alone(Status::WriteFault)),
    }
}

/// Ends the text that was filled in as a whole.
fn finish<K: Sink>(out: &mut Pieces, sink: &mut K) -> Status
    ensures { Closes ends.Done (K.outflow sink.old) (K.outflow sink.new) out.old result }
{
    match out.end(sink) {
        Ok(()) => Status::Done,
        Err(_) => Status::WriteFault,
    }
}

/// Ends the text with a verdict.
fn stop<K: Sink>(alloc: Global, out: &mut Pieces, verdict: &Verdict, sink: &mut K) -> Status
    ensures { Closes ends.Refused (K.outflow sink.old) (K.outflow sink.new) (out.old ++ verdict_lines verdict.now) result }
{
    let Ok(text) = verdict_text(alloc, b'\n', verdict) else {
        return Status::NoMemory;
    };
    match write_end(out, sink, text.as_slice()) {
        Ok(()) => Status::Refused,
        Err(_) => Status::WriteFault,
    }
}

/// Writes what became of a line, or of the end; how the text ended, where it did.
fn write_turn<K: Sink>(alloc: Global, turn: &Turn, out: &mut Pieces, sink: &mut K) -> Option<Ended>
    ensures { TurnWritten (K.outflow sink.old) (K.outflow sink.new) out.old out.new turn.now result }
{
    match turn {
        Turn::Line(text) => write_line(out, sink, text.as_slice()),
        Turn::Whole(_) => Some(Ended::alone(finish(out, sink))),
        Turn::Stopped(verdict) => Some(Ended {
            status: stop(alloc, out, verdict, sink),
            flaw: flaw_of(verdict),
        }),
    }
}

/// Fills in the next line, or ends the text, and writes it; how the text ended, where it did.
fn fill_turn<S: Source, K: Sink>(
    alloc: Global,
    filler: &mut Filler,
    reader: &mut LineReader,
    out: &mut Pieces,
    source: &mut S,
    sink: &mut K,
) -> Option<Ended>
    ensures { FilledOne filler.old reader.old (S.inflow source.old) (K.outflow sink.old) out.old filler.new reader.new
        (S.inflow source.new) (K.outflow sink.new) out.new result }
{
    match fill_next(filler, reader, source) {
        Ok(turn) => write_turn(alloc, &turn, out, sink),
        Err(ReadError::Failed) => Some(Ended::alone(Status::ReadFault)),
        Err(ReadError::NoMemory) => Some(Ended::alone(Status::NoMemory)),
    }
}

/// Writes the log that a source has, with its answers.
fn fill_all<S: Source, K: Sink>(
    alloc: Global,
    filler: &mut Filler,
    out: &mut Pieces,
    source: &mut S,
    sink: &mut K,
) -> Ended
    requires { out.old ≡ [] }
    ensures { (any_order : Bool) → IsNewFiller any_order filler.old → (bytes : List ℕ) × IsTold (S.inflow source.old).left bytes
        × FillAnswers any_order bytes (S.inflow source.old) (S.inflow source.new) (K.outflow sink.old) (K.outflow sink.new) result }
{
    let Ok(mut reader) = LineReader::open(alloc) else {
        return Ended::alone(Status::NoMemory);
    };
    'lines: for _ in 0..u64::MAX {
        match fill_turn(alloc, filler, &mut reader, out, source, sink) {
            Some(ended) => return ended,
            None => {}
        }
    }
    Ended::alone(Status::NoMemory)
}

/// Writes the log that a source has, with its answers; each line is judged before it is written.
pub(crate) fn fill<S: Source, K: Sink>(
    alloc: Global,
    any_order: bool,
    source: &mut S,
    sink: &mut K,
) -> Ended
    ensures { (bytes : List ℕ) × IsTold (S.inflow source.old).left bytes × FillAnswers any_order bytes (S.inflow source.old)
        (S.inflow source.new) (K.outflow sink.old) (K.outflow sink.new) result }
{
    let mut filler = Filler::new(alloc, any_order);
    let Ok(mut out) = Pieces::open(alloc) else {
        return Ended::alone(Status::NoMemory);
    };
    fill_all(alloc, &mut filler, &mut out, source, sink)
}
