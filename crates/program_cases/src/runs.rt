//! Runs of the program between sources and sinks in memory.

use crate::comparing::{same, same_bytes};
use port_io::{Failed, IoTurns, MemorySink, Sink, Source, SureSink, SureSource};
use portals_top::{Host, Ran, Status, portals_main};
use ptl_types::Bytes;
use std::alloc::{AllocError, Global};
use std::fmt::Display;
use std::process::Abort;
use std::sync::Wait;
use std::test::Fail;
use std::thread::Threads;

/// Room for all that a run here writes.
const ROOM: u64 = 262_144;

/// What a run answered and left. It holds no world, so that the tests need to know none.
#[derive(Clone, Copy)]
pub(crate) struct Left {
    pub(crate) status: Status,
    /// Whether a world is left.
    pub(crate) world: bool,
    /// Whether a choice world is left.
    pub(crate) choice: bool,
}

/// What is left where no world is.
pub(crate) fn no_world(status: Status) -> Left {
    Left {
        status,
        world: false,
        choice: false,
    }
}

/// What a run wrote and left.
#[derive(Drop)]
pub(crate) struct Made {
    pub(crate) left: Left,
    pub(crate) sink: SureSink,
}

fn left_by(status: Status, ran: &Ran) -> Left {
    Left {
        status,
        world: matches!(&ran.world, Some(_)),
        choice: matches!(&ran.choice, Some(_)),
    }
}

/// Runs these words: the only call of the program.
fn run_words<S: Source, K: Sink, N: Sink>(
    rt: &(impl Threads + Wait + Sync),
    alloc: Global,
    words: &[String],
    source: &mut S,
    sink: &mut K,
    notes: &mut N,
) -> Left {
    let mut ran = Ran::new();
    let host = Host::new(rt, alloc);
    let status = portals_main(&host, words, source, sink, notes, &mut ran);
    left_by(status, &ran)
}

pub(crate) fn words_of(alloc: Global, command: &[&str]) -> Result<Vec<String>, AllocError> {
    let mut words = Vec::new(alloc);
    for word in command {
        words.push(String::from_str(alloc, word)?)?;
    }
    Ok(words)
}

/// Runs words on bytes, and keeps what is written beside the answer, of which there is at most a few lines.
pub(crate) fn run_noted(
    rt: &(impl Threads + Wait + Sync),
    alloc: Global,
    command: &[&str],
    bytes: &[u8],
) -> Result<SureSink, Fail> {
    let words = words_of(alloc, command)?;
    let mut source = SureSource::new(Bytes::of(alloc, bytes)?);
    let mut sink = SureSink::with_room(alloc, ROOM)?;
    let mut notes = SureSink::with_room(alloc, ROOM)?;
    run_words(
        rt,
        alloc,
        words.as_slice(),
        &mut source,
        &mut sink,
        &mut notes,
    );
    Ok(notes)
}

/// Runs words between these ends, beside a standard error that fails. Without memory for the words it is as in a run without memory.
pub(crate) fn run_between<S: Source, K: Sink>(
    rt: &(impl Threads + Wait + Sync),
    alloc: Global,
    command: &[&str],
    source: &mut S,
    sink: &mut K,
) -> Left {
    match words_of(alloc, command) {
        Ok(words) => {
            let mut notes = MemorySink::new(alloc, IoTurns::new(alloc));
            run_words(rt, alloc, words.as_slice(), source, sink, &mut notes)
        }
        Err(_) => no_world(Status::NoMemory),
    }
}

/// Runs words on bytes. Without memory for these it is as in a run without memory.
pub(crate) fn run_into<K: Sink>(
    rt: &(impl Threads + Wait + Sync),
    alloc: Global,
    command: &[&str],
    bytes: &[u8],
    sink: &mut K,
) -> Left {
    match Bytes::of(alloc, bytes) {
        Ok(bytes) => run_between(rt, alloc, command, &mut SureSource::new(bytes), sink),
        Err(_) => no_world(Status::NoMemory),
    }
}

/// Runs words on bytes, and keeps what is written.
pub(crate) fn run(
    rt: &(impl Threads + Wait + Sync),
    alloc: Global,
    command: &[&str],
    bytes: &[u8],
) -> Result<Made, Fail> {
    let mut sink = SureSink::with_room(alloc, ROOM)?;
    let left = run_into(rt, alloc, command, bytes, &mut sink);
    Ok(Made { left, sink })
}

/// How many bytes a source still has, of eight at most.
pub(crate) fn unread(source: &mut SureSource) -> Result<usize, Failed> {
    let mut left = [0u8; 8];
    source.read(&mut left)
}

/// Stops the test where a run answered or left something else.
pub(crate) fn same_left(rt: &impl Abort, at: &impl Display, left: Left, wanted: Left) {
    same(rt, at, left.status, wanted.status);
    same(rt, at, left.world, wanted.world);
    same(rt, at, left.choice, wanted.choice);
}

/// Runs words on a text, which leaves this and writes this output.
pub(crate) fn leaves(
    rt: &(impl Abort + Threads + Wait + Sync),
    alloc: Global,
    command: &[&str],
    text: &str,
    left: Left,
    output: &str,
) -> Result<(), Fail> {
    let made = run(rt, alloc, command, text.as_bytes())?;
    same_bytes(rt, &text, made.sink.as_slice(), output.as_bytes());
    same_left(rt, &text, made.left, left);
    same(rt, &text, made.sink.finishes(), 1);
    Ok(())
}

/// What words leave on a text without choices: a world where one ran to its end.
fn left_under(command: &[&str], status: Status) -> Left {
    let runs = !matches!(command, ["plan" | "check"]);
    Left {
        status,
        world: runs && status == Status::Done,
        choice: false,
    }
}

/// Runs words on a text without choices: the status, the whole output, and whether a world is left.
pub(crate) fn gives(
    rt: &(impl Abort + Threads + Wait + Sync),
    alloc: Global,
    command: &[&str],
    text: &str,
    status: Status,
    output: &str,
) -> Result<(), Fail> {
    leaves(
        rt,
        alloc,
        command,
        text,
        left_under(command, status),
        output,
    )
}
