//! Sources and sinks that take few bytes, or fail, under each command.

use crate::comparing::{same, same_bytes};
use crate::runs::{Left, Made, no_world, run, run_between, run_into, same_left, unread};
use crate::texts::{
    BARRIER_WITH_ORDERS, ONE_RANK, ONE_RANK_IN_JSON, ONE_RANK_RESULT, THREE_STEPS, wide_ranks,
    wide_results,
};
use port_io::{IoTurn, IoTurns, MemorySink, MemorySource, SureSink, SureSource};
use portals_top::Status;
use ptl_types::Bytes;
use std::alloc::Global;
use std::process::Abort;
use std::sync::Wait;
use std::test::Fail;
use std::thread::Threads;

/// How many calls of a source and of a sink fail, one after the other.
const CALLS: u32 = 50;

/// So many turns that take at most so many bytes each, and after them one that fails or none.
fn turns(alloc: Global, takes: u32, most: u64, fails: bool) -> Result<IoTurns, Fail> {
    let mut turns = IoTurns::new(alloc);
    for _ in 0..takes {
        turns.add(IoTurn::Take(most.max(1)))?;
    }
    if fails {
        turns.add(IoTurn::Fail)?;
    }
    Ok(turns)
}

/// A source of a text by such turns.
fn source_of(
    alloc: Global,
    text: &str,
    takes: u32,
    most: u64,
    fails: bool,
) -> Result<MemorySource, Fail> {
    let turns = turns(alloc, takes, most, fails)?;
    Ok(MemorySource::new(Bytes::of(alloc, text.as_bytes())?, turns))
}

/// A sink by such turns, with room for so many bytes.
fn sink_of(
    alloc: Global,
    room: u64,
    takes: u32,
    most: u64,
    fails: bool,
) -> Result<MemorySink, Fail> {
    let turns = turns(alloc, takes, most, fails)?;
    Ok(MemorySink::with_room(alloc, turns, room)?)
}

/// The turns of one end: how many take something, how much each takes at most, and whether one fails after them.
type Turns = (u32, u64, bool);

/// Stops the test where a run of one rank ended in another way.
fn ends_as_due(rt: &impl Abort, left: Left, sink: &MemorySink, status: Status, output: &str) {
    same(rt, &output, left.status, status);
    same_bytes(rt, &output, sink.as_slice(), output.as_bytes());
    same(rt, &output, sink.finishes() == 1, status == Status::Done);
    same(rt, &output, left.world, status != Status::ReadFault);
}

/// Runs `once` on one rank by turns of the source and of the sink.
fn scripted(
    rt: &(impl Abort + Threads + Wait + Sync),
    alloc: Global,
    reads: Turns,
    writes: Turns,
    status: Status,
    output: &str,
) -> Result<(), Fail> {
    let mut source = source_of(alloc, ONE_RANK, reads.0, reads.1, reads.2)?;
    let mut sink = sink_of(alloc, 64, writes.0, writes.1, writes.2)?;
    let left = run_between(rt, alloc, &["once"], &mut source, &mut sink);
    ends_as_due(rt, left, &sink, status, output);
    Ok(())
}

/// Turns of the source and of the sink, what is answered, and what is written.
const SCRIPTS: &[(Turns, Turns, Status, &str)] = &[
    (
        (200, 1, false),
        (200, 1, false),
        Status::Done,
        ONE_RANK_RESULT,
    ),
    ((0, 1, true), (0, 1, false), Status::ReadFault, ""),
    ((1, 5, true), (0, 1, false), Status::ReadFault, ""),
    ((0, 1, false), (1, 3, true), Status::WriteFault, "b 0"),
    // The whole text is taken, and its end fails.
    (
        (0, 1, false),
        (1, 100, true),
        Status::WriteFault,
        ONE_RANK_RESULT,
    ),
    ((0, 1, false), (0, 1, true), Status::WriteFault, ""),
];

#[test]
fn pieces_and_faults_of_both_ends(rt: HostRuntime) -> Result<(), Fail> {
    for (reads, writes, status, output) in SCRIPTS {
        scripted(&rt, rt.alloc(), *reads, *writes, *status, output)?;
    }
    Ok(())
}

/// The sink takes a thousand bytes so many times of the first piece, and then fails while threads make lines: these bytes stand, and the
/// run ends.
fn fails_after_takes(
    rt: &(impl Abort + Threads + Wait + Sync),
    alloc: Global,
    workers: &str,
    takes: u32,
) -> Result<(), Fail> {
    let text = wide_ranks(alloc)?;
    let output = wide_results(alloc)?;
    let mut source = SureSource::new(Bytes::of(alloc, text.as_bytes())?);
    let mut sink = sink_of(alloc, 262_144, takes, 1_000, true)?;
    let words = ["run", workers];
    let left = run_between(rt, alloc, &words, &mut source, &mut sink);
    let stands = (takes as usize)
        .wrapping_mul(1_000)
        .min(output.as_bytes().len());
    same_bytes(rt, &workers, sink.as_slice(), &output.as_bytes()[..stands]);
    same(rt, &workers, left.status, Status::WriteFault);
    same(rt, &workers, sink.finishes(), 0);
    Ok(())
}

#[test]
fn a_sink_fails_while_threads_make_lines(rt: HostRuntime) -> Result<(), Fail> {
    for workers in ["2", "4", "16"] {
        for takes in [0, 1, 20, 40, 65] {
            fails_after_takes(&rt, rt.alloc(), workers, takes)?;
        }
    }
    Ok(())
}

#[test]
fn a_usage_line_that_fails_leaves_the_source_unread(rt: HostRuntime) -> Result<(), Fail> {
    let alloc = rt.alloc();
    let mut source = SureSource::new(Bytes::of(alloc, b"ab")?);
    let mut sink = sink_of(alloc, 96, 0, 1, true)?;
    let left = run_between(&rt, alloc, &["run"], &mut source, &mut sink);
    same_left(&rt, &"run", left, no_world(Status::WriteFault));
    same_bytes(&rt, &"run", sink.as_slice(), b"");
    same(&rt, &"run", unread(&mut source), Ok(2));
    Ok(())
}

/// The source gives a byte at so many calls, and fails at the next: nothing is written, and no world is left.
fn fails_at_a_read(
    rt: &(impl Abort + Threads + Wait + Sync),
    alloc: Global,
    command: &[&str],
    text: &str,
    call: u32,
) -> Result<(), Fail> {
    let mut source = source_of(alloc, text, call, 1, true)?;
    let mut sink = SureSink::with_room(alloc, 64)?;
    let left = run_between(rt, alloc, command, &mut source, &mut sink);
    same_left(rt, &call, left, no_world(Status::ReadFault));
    same_bytes(rt, &call, sink.as_slice(), b"");
    same(rt, &call, sink.finishes(), 0);
    Ok(())
}

/// The source fails at one of its first calls.
fn fails_at_the_source(
    rt: &(impl Abort + Threads + Wait + Sync),
    alloc: Global,
    command: &[&str],
    text: &str,
) -> Result<(), Fail> {
    for call in 0..CALLS {
        fails_at_a_read(rt, alloc, command, text, call)?;
    }
    Ok(())
}

/// Commands that read a text, each with one.
const READING: &[(&[&str], &str)] = &[
    (&["once"], ONE_RANK),
    (&["sim", "1"], ONE_RANK),
    (&["plan"], ONE_RANK),
    (&["run", "2"], ONE_RANK),
    (&["trace", "2"], ONE_RANK),
    (&["json", "2"], ONE_RANK_IN_JSON),
    (&["check"], BARRIER_WITH_ORDERS),
];

#[test]
fn a_source_fails_under_each_command(rt: HostRuntime) -> Result<(), Fail> {
    for (command, text) in READING {
        fails_at_the_source(&rt, rt.alloc(), command, text)?;
    }
    Ok(())
}

/// Stops the test where a sink that takes a byte at so many calls, and then fails, has other bytes than those of the calls before. A
/// text that is shorter stands whole, and its end fails or, where the fault would come later, nothing does.
fn has_the_beginning(rt: &impl Abort, call: u32, whole: &Made, left: Left, sink: &MemorySink) {
    let due = whole.sink.as_slice();
    let taken = due.len().min(call as usize);
    same_bytes(rt, &call, sink.as_slice(), &due[..taken]);
    let fails = call as usize <= due.len();
    let status = if fails {
        Status::WriteFault
    } else {
        whole.left.status
    };
    same(rt, &call, left.status, status);
    same(rt, &call, left.world, whole.left.world);
    same(rt, &call, sink.finishes() == 0, fails);
}

/// The sink takes a byte at so many calls, and fails at the next.
fn fails_at_a_write(
    rt: &(impl Abort + Threads + Wait + Sync),
    alloc: Global,
    command: &[&str],
    text: &str,
    whole: &Made,
    call: u32,
) -> Result<(), Fail> {
    let mut sink = sink_of(alloc, 16_384, call, 1, true)?;
    let left = run_into(rt, alloc, command, text.as_bytes(), &mut sink);
    has_the_beginning(rt, call, whole, left, &sink);
    Ok(())
}

/// The sink fails at one of its first calls.
fn fails_at_the_sink(
    rt: &(impl Abort + Threads + Wait + Sync),
    alloc: Global,
    command: &[&str],
    text: &str,
) -> Result<(), Fail> {
    let whole = run(rt, alloc, command, text.as_bytes())?;
    for call in 0..CALLS {
        fails_at_a_write(rt, alloc, command, text, &whole, call)?;
    }
    Ok(())
}

/// Commands that write something, each with a text.
const WRITING: &[(&[&str], &str)] = &[
    (&["once"], ONE_RANK),
    (&["sim", "1"], THREE_STEPS),
    (&["plan"], ONE_RANK),
    (&["run", "2"], THREE_STEPS),
    // One worker makes the steps in one order.
    (&["trace", "1"], THREE_STEPS),
    (&["json", "2"], ONE_RANK_IN_JSON),
    (&["check"], BARRIER_WITH_ORDERS),
    (&["check"], "coll 1\nranks 1\nbarrier\nend\norder 0 s r0\n"),
    (&["once"], "coll 1\nranks 65\nend\n"),
    (&["once", "now"], ""),
];

#[test]
fn a_sink_fails_under_each_command(rt: HostRuntime) -> Result<(), Fail> {
    for (command, text) in WRITING {
        fails_at_the_sink(&rt, rt.alloc(), command, text)?;
    }
    Ok(())
}

#[test]
fn a_sink_fails_under_a_generated_run(rt: HostRuntime) -> Result<(), Fail> {
    fails_at_the_sink(&rt, rt.alloc(), &["large", "1", "1"], "")
}
