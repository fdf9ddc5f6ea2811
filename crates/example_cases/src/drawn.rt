//! The plan of each description, as it is drawn, judged for all inputs and for those of the description, and run.

use given_top::given_main;
use port_io::{IoTurns, MemorySink, SureSink, SureSource};
use ptl_types::{Bytes, NoMemory};
use std::alloc::{AllocError, Global};
use std::io;
use std::sync::Wait;
use std::thread::Threads;

/// How many bytes of a plan are kept: more than any example has.
const ROOM: u64 = 1 << 24;

/// The words of a command line.
pub fn words_of(alloc: Global, line: &[&str]) -> Result<Vec<String>, AllocError> {
    let mut words = Vec::new(alloc);
    for word in line {
        words.push(String::from_str(alloc, word)?)?;
    }
    Ok(words)
}

/// What is written for these words.
pub fn written_for(
    rt: &(impl Threads + Wait + Sync),
    alloc: Global,
    line: &[&str],
    text: &[u8],
) -> Result<SureSink, NoMemory> {
    let words = words_of(alloc, line)?;
    let mut source = SureSource::new(Bytes::of(alloc, text)?);
    let mut sink = SureSink::with_room(alloc, ROOM)?;
    // A sink without room: notes that fail change nothing.
    let mut notes = MemorySink::new(alloc, IoTurns::new(alloc));
    let _run = given_main(
        rt,
        alloc,
        words.as_slice(),
        &mut source,
        &mut sink,
        &mut notes,
    );
    Ok(sink)
}

/// What these words say of a description and the plan that is drawn of it.
pub fn said_of_drawn(
    rt: &(impl Threads + Wait + Sync),
    alloc: Global,
    line: &[&str],
    text: &[u8],
) -> Result<SureSink, NoMemory> {
    let plan = written_for(rt, alloc, &["draw"], text)?;
    let mut both = text.to_vec(alloc)?;
    both.extend_from_slice(plan.as_slice())?;
    written_for(rt, alloc, line, both.as_slice())
}

/// Prints what these words say of the plan that is drawn of a description.
fn print_said(
    rt: &HostRuntime,
    threads: &(impl Threads + Wait + Sync),
    name: &str,
    inputs: &str,
    line: &[&str],
    text: &[u8],
) -> io::Result<()> {
    let Ok(sink) = said_of_drawn(threads, rt.alloc(), line, text) else {
        return println!(rt; "{name}: no memory for its plan");
    };
    let said = String::from_utf8_lossy(rt.alloc(), sink.as_slice())?;
    print!(rt; "{name}: its plan for {inputs} inputs: {said}")
}

/// Prints whether the plan that is drawn of a description gives this text when it is run.
fn print_run(
    rt: &HostRuntime,
    threads: &(impl Threads + Wait + Sync),
    name: &str,
    line: &[&str],
    text: &[u8],
    wanted: &[u8],
) -> io::Result<()> {
    let Ok(sink) = said_of_drawn(threads, rt.alloc(), line, text) else {
        return println!(rt; "{name}: no memory for its plan");
    };
    let found = if sink.as_slice() == wanted {
        "the same"
    } else {
        "another text"
    };
    println!(rt; "{name}: its plan, run: {found}")
}

/// Prints what is said of the plan that is drawn of a description, and whether it gives what is wanted, on one thread and on two.
pub fn print_drawn(
    rt: &HostRuntime,
    threads: &(impl Threads + Wait + Sync),
    name: &str,
    text: &[u8],
    wanted: &[u8],
) -> io::Result<()> {
    print_said(rt, threads, name, "all", &["verify"], text)?;
    print_said(rt, threads, name, "these", &["verify", "given"], text)?;
    print_run(rt, threads, name, &["once"], text, wanted)?;
    print_run(rt, threads, name, &["run", "2"], text, wanted)
}
