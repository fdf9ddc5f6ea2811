//! What plans take in time, held against closed forms: L is 1 us, o and g 100 ns, G 80 ps a byte.

use crate::drawn::{said_of_drawn, written_for};
use crate::told::print_answer;
use port_io::SureSink;
use ptl_types::NoMemory;
use std::sync::Wait;
use std::thread::Threads;
use std::{fs, io};

/// Three rounds of a binomial tree, each 2 o + 7 G + L: from rank 0 by 1 and 3 to 7.
const BROADCAST: &[u8] = b"
total 3601680 messages 7 bytes 56 queued 0 overhead 600000 wire 1680 latency 3000000 held 0 work 0
";

/// Three rounds of a dissemination, each 2 o + L.
const BARRIER: &[u8] = b"
total 3600000 messages 24 bytes 0 queued 0 overhead 600000 wire 0 latency 3000000 held 0 work 0
";

/// Six steps round a ring, each 2 o + 7 G + L.
const RING: &[u8] = b"
total 7203360 messages 24 bytes 192 queued 0 overhead 1200000 wire 3360 latency 6000000 held 0 work 0
";

/// In the first three of them 8 bytes are combined, for 10 ps each.
const RING_WITH_WORK: &[u8] = b"
total 7203600 messages 24 bytes 192 queued 0 overhead 1200000 wire 3360 latency 6000000 held 0 work 240
";

/// Prints whether what was written ends as a closed form says.
fn print_end(
    rt: &HostRuntime,
    name: &str,
    written: Result<SureSink, NoMemory>,
    wanted: &[u8],
) -> io::Result<()> {
    let Ok(sink) = written else {
        return println!(rt; "{name}: no memory");
    };
    let found = if sink.as_slice().ends_with(wanted) {
        "as by hand"
    } else {
        "otherwise"
    };
    println!(rt; "{name}: its time: {found}")
}

/// Prints what is found of the time of the plan that is drawn of a description.
fn print_drawn_time(
    rt: &HostRuntime,
    threads: &(impl Threads + Wait + Sync),
    name: &str,
    wanted: &[u8],
) -> io::Result<()> {
    let text = fs::read(rt, name)?;
    let line = ["cost", "1000", "100", "100", "80"];
    let written = said_of_drawn(threads, rt.alloc(), &line, text.as_slice());
    print_end(rt, name, written, wanted)
}

/// Prints what is found of the time of a given plan, by these words.
fn print_given_time(
    rt: &HostRuntime,
    threads: &(impl Threads + Wait + Sync),
    name: &str,
    line: &[&str],
    wanted: &[u8],
) -> io::Result<()> {
    let text = fs::read(rt, name)?;
    let written = written_for(threads, rt.alloc(), line, text.as_slice());
    print_end(rt, name, written, wanted)
}

/// Prints what is found of the times of plans that are drawn, and of plans that are given. Three hundred messages of 32 MB take more than
/// 2^64 ps by the greatest numbers.
pub fn print_times(rt: &HostRuntime, threads: &(impl Threads + Wait + Sync)) -> io::Result<()> {
    let ring = "forms/allreduce_ring_4.given";
    let plain = ["cost", "1000", "100", "100", "80"];
    let with_work = ["cost", "1000", "100", "100", "80", "10"];
    let most = "4294967295";
    print_drawn_time(rt, threads, "forms/broadcast_8.coll", BROADCAST)?;
    print_drawn_time(rt, threads, "forms/barrier_8.coll", BARRIER)?;
    print_given_time(rt, threads, ring, &plain, RING)?;
    print_given_time(rt, threads, ring, &with_work, RING_WITH_WORK)?;
    let greatest = ["cost", most, most, most, most, most];
    let long = fs::read(rt, "forms/too_long.given")?;
    print_answer(
        rt,
        threads,
        "forms/too_long.given",
        &greatest,
        long.as_slice(),
    )
}
