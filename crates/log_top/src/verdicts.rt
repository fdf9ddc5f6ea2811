//! Verdicts that are written.

ghost use Rattle.std.specs.Prelude.{◌≡◌, [], ◌++◌, OnOk};
ghost use Rattle.run_text.specs.Ending.{Written};
ghost use Rattle.run_text.specs.Putting.{EndsWith};
ghost use Rattle.log_top.specs.Telling.{owed_verdict};

use crate::telling::{status_of, verdict_text};
use log_verdict::Verdict;
use port_io::{Failed, Sink};
use run_text::{Pieces, Status};
use std::alloc::Global;

/// Writes a text behind what was held back, and finishes the sink.
pub(crate) fn write_end<K: Sink>(
    pieces: &mut Pieces,
    sink: &mut K,
    text: &[u8],
) -> Result<(), Failed>
    ensures ends { EndsWith (K.outflow sink.old) (K.outflow sink.new) (pieces.old ++ text.now) result }
    ensures nothing { OnOk result (pieces.new ≡ []) }
{
    pieces.put(sink, text)?;
    pieces.end(sink)
}

/// Writes a verdict alone.
pub(crate) fn write_verdict<K: Sink>(alloc: Global, verdict: &Verdict, sink: &mut K) -> Status
    ensures { Written (owed_verdict verdict.now) (K.outflow sink.old) (K.outflow sink.new) result }
{
    let Ok(mut pieces) = Pieces::open(alloc) else {
        return Status::NoMemory;
    };
    let Ok(text) = verdict_text(alloc, b'\n', verdict) else {
        return Status::NoMemory;
    };
    match write_end(&mut pieces, sink, text.as_slice()) {
        Ok(()) => status_of(verdict),
        Err(_) => Status::WriteFault,
    }
}
