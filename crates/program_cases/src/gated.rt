//! Runs of the program between a source and a sink in memory, with a gate.

use crate::runs::words_of;
use port_io::{IoTurns, MemorySink, Sink, Source, SureSink, SureSource};
use portals_top::{Host, Ran, Status, run_with_gate};
use ptl_types::Bytes;
use rank_threads::Gate;
use std::alloc::Global;
use std::sync::Wait;
use std::test::Fail;
use std::thread::Threads;
use worlds::World;

/// Room for all that a run here writes.
const ROOM: u64 = 262_144;

/// What a run answered and left. It holds no world, so that the tests need to know none.
#[derive(Clone, Copy)]
pub(crate) struct Left {
    pub(crate) status: Status,
    /// How many steps the ranks of the world made that is left; `None` where none is left.
    pub(crate) steps: Option<u64>,
}

/// What a run wrote and left.
#[derive(Drop)]
pub(crate) struct Made {
    pub(crate) left: Left,
    pub(crate) sink: SureSink,
}

/// How many steps the ranks of a world made.
fn steps_of(world: &World) -> u64 {
    let mut steps = 0u64;
    for rank in 0..world.schedule().ranks() {
        steps = steps.wrapping_add(world.history(rank).len() as u64);
    }
    steps
}

fn left_by(status: Status, ran: &Ran) -> Left {
    let steps = match &ran.world {
        Some(world) => Some(steps_of(world)),
        None => None,
    };
    Left { status, steps }
}

/// Runs these words: the only call of the program.
fn run_words<S: Source, K: Sink, G: Gate>(
    rt: &(impl Threads + Wait + Sync),
    alloc: Global,
    gate: &G,
    words: &[String],
    source: &mut S,
    sink: &mut K,
) -> Left {
    let mut ran = Ran::new();
    // A sink without room: standard error that fails changes nothing.
    let mut notes = MemorySink::new(alloc, IoTurns::new(alloc));
    let host = Host { rt, alloc, gate };
    let status = run_with_gate(&host, words, source, sink, &mut notes, &mut ran);
    left_by(status, &ran)
}

/// Runs words on bytes with a gate.
pub(crate) fn run_through<G: Gate>(
    rt: &(impl Threads + Wait + Sync),
    alloc: Global,
    gate: &G,
    command: &[&str],
    bytes: &[u8],
) -> Result<Made, Fail> {
    let words = words_of(alloc, command)?;
    let mut source = SureSource::new(Bytes::of(alloc, bytes)?);
    let mut sink = SureSink::with_room(alloc, ROOM)?;
    let left = run_words(rt, alloc, gate, words.as_slice(), &mut source, &mut sink);
    Ok(Made { left, sink })
}
