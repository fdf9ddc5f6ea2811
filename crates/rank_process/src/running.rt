//! The run of a rank.

ghost use Rattle.std.specs.Prelude.{ℕ, [], ◌≡◌};
ghost use Rattle.rank_process.specs.lines.Rank.{Work};
ghost use Rattle.rank_process.specs.Opening.{IsOpened};
ghost use Rattle.rank_process.specs.Owed.{Closes, owed};
ghost use Rattle.rank_process.specs.Runs.{RunsAs};

use crate::opening::Opened;
use crate::printing::write_end;
use crate::recalling::recall_place;
use crate::status::{Status, status_of};
use port_io::{Sink, Source};
use rank_frames::take_frames;
use run_text::Pieces;
use std::alloc::Global;

/// Writes what a rank that is over owes.
fn close<K: Sink>(out: &mut Pieces, sink: &mut K, opened: &Opened) -> Status
    requires { out.old ≡ [] }
    ensures { Closes result (K.outflow sink.old) (K.outflow sink.new) (owed opened.now) }
{
    let node = opened.place.node();
    let written = write_end(
        out,
        sink,
        &opened.prints,
        node.nic().memory(),
        node.history(),
    );
    match written {
        Ok(()) => Status::Ended,
        Err(_) => Status::WriteFault,
    }
}

/// Takes frames until the rank is over, and writes what it then owes.
pub(crate) fn run<S: Source, K: Sink>(
    alloc: Global,
    opened: Opened,
    source: &mut S,
    sink: &mut K,
) -> Status
    requires { opened.place.node.diary.locals ≡ [] }
    ensures { (w : Work) (r : ℕ) → IsOpened w r opened →
        RunsAs w r result (S.inflow source.old) (S.inflow source.new) (K.outflow sink.old) (K.outflow sink.new) }
{
    let mut opened = opened;
    let Ok(mut out) = Pieces::open(alloc) else {
        return Status::NoMemory;
    };
    let taken = take_frames(alloc, &mut opened.place, source, sink);
    recall_place(&opened.place);
    match taken {
        Ok(()) => close(&mut out, sink, &opened),
        Err(stop) => status_of(stop),
    }
}
