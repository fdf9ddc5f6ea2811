//! Memory may run out at any allocation: a run then writes nothing, else all that the description means. What the tests take themselves
//! is taken before the first run, so that a refused allocation is one of a run.

use crate::comparing::{same, same_bytes};
use crate::runs::run_into;
use crate::texts::{wide_ranks, wide_results};
use port_io::{IoTurns, MemorySink};
use portals_top::Status;
use ptl_types::NoMemory;
use std::alloc::Global;
use std::process::Abort;
use std::sync::Wait;
use std::test::Fail;
use std::thread::Threads;

const SUMS: &str =
    "coll 1\nranks 4\ninput a u32 1\n1\n2\n3\n4\nallreduce sum a b\nbarrier\nscan sum b c\nprint c\nend\n";

const SUMS_RESULT: &str = "c 0 10\nc 1 20\nc 2 30\nc 3 40\nrest\n";

const CHOICES: &str = "coll 2\nranks 2\nelect e\ntickets t\nprint e\nprint t\nend\n";

const CHOICES_RESULT: &str = "e 0 0\ne 1 0\nt 0 0\nt 1 1\nrest\n";

/// A run: its words, its text, the results that it writes, and how many lines of orders follow them.
#[derive(Drop)]
struct Walked<'a> {
    command: &'a [&'a str],
    text: &'a str,
    results: &'a str,
    orders: usize,
}

/// A sink for a run, which takes its room at once.
fn sink_of(alloc: Global, room: u64) -> Result<MemorySink, NoMemory> {
    MemorySink::with_room(alloc, IoTurns::new(alloc), room)
}

/// How many lines of orders follow so many bytes of results.
fn lines_after(text: &[u8], results: usize) -> usize {
    let mut lines = 0usize;
    for byte in &text[results.min(text.len())..] {
        if *byte == b'\n' {
            lines = lines.wrapping_add(1);
        }
    }
    lines
}

/// Stops the test where something else was written: without memory nothing, not even a beginning, else the results, and as many lines of
/// orders after them as are due.
fn wrote_or_lacked_memory(rt: &impl Abort, status: Status, sink: &MemorySink, run: &Walked) {
    let text = sink.as_slice();
    if status == Status::NoMemory {
        same_bytes(rt, &run.results, text, b"");
        same(rt, &run.results, sink.finishes(), 0);
    } else {
        let results = run.results.as_bytes();
        same(rt, &run.results, status, Status::Done);
        same_bytes(
            rt,
            &run.results,
            &text[..results.len().min(text.len())],
            results,
        );
        same(
            rt,
            &run.results,
            lines_after(text, results.len()),
            run.orders,
        );
        same(rt, &run.results, sink.finishes(), 1);
    }
}

/// Makes a run into a sink that has room for all that it writes.
fn walk(rt: &(impl Abort + Threads + Wait + Sync), alloc: Global, run: &Walked, sink: MemorySink) {
    let mut sink = sink;
    let left = run_into(rt, alloc, run.command, run.text.as_bytes(), &mut sink);
    wrote_or_lacked_memory(rt, left.status, &sink, run);
}

/// The runs of short texts: on one thread, and by two workers.
const RUNS: &[Walked] = &[
    Walked {
        command: &["once"],
        text: SUMS,
        results: SUMS_RESULT,
        orders: 0,
    },
    Walked {
        command: &["once"],
        text: CHOICES,
        results: CHOICES_RESULT,
        orders: 0,
    },
    Walked {
        command: &["sim", "1"],
        text: SUMS,
        results: SUMS_RESULT,
        orders: 4,
    },
    Walked {
        command: &["trace", "2"],
        text: SUMS,
        results: SUMS_RESULT,
        orders: 4,
    },
    Walked {
        command: &["run", "2"],
        text: SUMS,
        results: SUMS_RESULT,
        orders: 0,
    },
    Walked {
        command: &["steady", "2"],
        text: SUMS,
        results: SUMS_RESULT,
        orders: 0,
    },
];

/// A sink for each of these runs.
fn sinks_for(alloc: Global, runs: &[Walked]) -> Result<Vec<MemorySink>, Fail> {
    let mut sinks = Vec::new(alloc);
    for _ in runs {
        sinks.push(sink_of(alloc, 1024)?)?;
    }
    Ok(sinks)
}

/// Run with a refused allocation past those of the sinks, this walks to it.
#[test]
fn memory_walk(rt: HostRuntime) -> Result<(), Fail> {
    let alloc = rt.alloc();
    let sinks = sinks_for(alloc, RUNS)?;
    for (sink, run) in sinks.into_iter().zip(RUNS) {
        walk(&rt, alloc, run, sink);
    }
    Ok(())
}

/// The same for a result that is long enough for two threads to make its lines: what they lack memory for the call makes as it writes.
#[test]
fn memory_walk_of_long_results(rt: HostRuntime) -> Result<(), Fail> {
    let alloc = rt.alloc();
    let text = wide_ranks(alloc)?;
    let results = wide_results(alloc)?;
    let sink = sink_of(alloc, 262_144)?;
    let run = Walked {
        command: &["run", "2"],
        text: text.as_str(),
        results: results.as_str(),
        orders: 0,
    };
    walk(&rt, alloc, &run, sink);
    Ok(())
}
