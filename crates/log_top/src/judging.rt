//! `judge`: the verdict on a log.

ghost use Rattle.std.specs.Prelude.{◌≡◌, IfOk, IfErr, List, ℕ};
ghost use Rattle.port_io.specs.Counts.{Rose};
ghost use Rattle.run_text.specs.Ending.{IsTold};
ghost use Rattle.log_top.specs.Answered.{JudgeAnswers};
ghost use Rattle.log_top.specs.Turns.{JudgedFrom, JudgedRead, JudgeTurn};

use crate::ending::Ended;
use crate::reading::{LineReader, Read};
use crate::telling::flaw_of;
use crate::verdicts::write_verdict;
use log_verdict::{Judge, Verdict};
use port_io::{Sink, Source};
use run_text::{ReadError, Status};
use std::alloc::Global;

/// Judges the line that was read, or the end of the text.
fn judge_read(judge: &mut Judge, line: &[u8], read: Read) -> Result<Option<Verdict>, ReadError>
    ensures judged { IfOk result (JudgedRead judge.old line.now read judge.new) }
    ensures lacks { IfErr result (λ e. e ≡ ReadError.NoMemory) }
{
    match read {
        Read::Last => Ok(Some(judge.end(line))),
        _ => match judge.judge_line(line) {
            Ok(verdict) => Ok(verdict),
            Err(_) => Err(ReadError::NoMemory),
        },
    }
}

/// Judges the next line, or the end of the text.
fn judge_next<S: Source>(
    judge: &mut Judge,
    reader: &mut LineReader,
    source: &mut S,
) -> Result<Option<Verdict>, ReadError>
    ensures turn { IfOk result (JudgeTurn judge.old reader.old (S.inflow source.old) judge.new reader.new (S.inflow source.new)) }
    ensures failed { IfErr result (λ e. e ≡ ReadError.Failed → Rose (S.inflow source.old).faults (S.inflow source.new).faults) }
{
    let read = reader.next(source)?;
    let verdict = judge_read(judge, reader.line(), read)?;
    Ok(verdict)
}

/// The verdict on the log that a source has. What follows the first line that differs or is refused isn't looked at.
fn judged<S: Source>(alloc: Global, any_order: bool, source: &mut S) -> Result<Verdict, ReadError>
    ensures verdict { IfOk result (JudgedFrom any_order (S.inflow source.old) (S.inflow source.new)) }
    ensures failed { IfErr result (λ e. e ≡ ReadError.Failed → Rose (S.inflow source.old).faults (S.inflow source.new).faults) }
{
    let Ok(mut reader) = LineReader::open(alloc) else {
        return Err(ReadError::NoMemory);
    };
    let mut judge = Judge::new(alloc, any_order);
    'lines: for _ in 0..u64::MAX {
        let verdict = judge_next(&mut judge, &mut reader, source)?;
        if let Some(verdict) = verdict {
            return Ok(verdict);
        }
    }
    Err(ReadError::NoMemory)
}

/// Writes the verdict on the log that a source has.
pub(crate) fn judge<S: Source, K: Sink>(
    alloc: Global,
    any_order: bool,
    source: &mut S,
    sink: &mut K,
) -> Ended
    ensures { (bytes : List ℕ) × IsTold (S.inflow source.old).left bytes × JudgeAnswers any_order bytes (S.inflow source.old)
        (S.inflow source.new) (K.outflow sink.old) (K.outflow sink.new) result }
{
    match judged(alloc, any_order, source) {
        Ok(verdict) => Ended {
            status: write_verdict(alloc, &verdict, sink),
            flaw: flaw_of(&verdict),
        },
        Err(ReadError::Failed) => Ended::alone(Status::ReadFault),
        Err(ReadError::NoMemory) => Ended::alone(Status::NoMemory),
    }
}
