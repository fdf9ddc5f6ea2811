//! Runs by workers on threads.

use crate::comparing::{same, same_bytes};
use crate::gated::run_through;
use crate::runs::gives;
use crate::texts::{
    GROUPS, GROUPS_RESULT, HELD, HELD_RESULT, THREE_RESULTS, THREE_STEPS, long_lines, long_results,
    sixteen_ranks, sixteen_results, wide_ranks, wide_results,
};
use portals_top::Status;
use ptl_types::{LocalStep, Rank};
use rank_threads::Gate;
use std::alloc::Global;
use std::process::Abort;
use std::sync::Wait;
use std::sync::atomic::{AtomicU64, Ordering};
use std::test::Fail;
use std::thread;
use std::thread::Threads;

/// A barrier of two ranks.
pub(crate) const TWO_RANKS: &str = "coll 1\nranks 2\nbarrier\nend\n";

const FOUR_RANKS: &str = "coll 1\nranks 4\nbarrier\nend\n";

/// How many workers, a text, and what is written.
const RESULTS: &[(&str, &str, &str)] = &[
    (
        "2",
        "coll 1\nranks 2\ninput a u8 1\n200\n100\nallreduce sum a b\nprint b\nend\n",
        "b 0 44\nb 1 44\nrest\n",
    ),
    ("3", FOUR_RANKS, "rest\n"),
    ("4", THREE_STEPS, THREE_RESULTS),
    ("16", "coll 1\nranks 1\nend\n", "rest\n"),
    ("2", GROUPS, GROUPS_RESULT),
    ("8", "coll 2\nranks 256\nbarrier\nend\n", "rest\n"),
    ("3", HELD, HELD_RESULT),
];

#[test]
fn workers_write_what_each_rank_holds(rt: HostRuntime) -> Result<(), Fail> {
    for (workers, text, output) in RESULTS {
        let words = ["run", workers];
        gives(&rt, rt.alloc(), &words, text, Status::Done, output)?;
    }
    Ok(())
}

/// Runs a text by one worker and by more.
fn gives_by_workers(
    rt: &(impl Abort + Threads + Wait + Sync),
    alloc: Global,
    text: &str,
    output: &str,
) -> Result<(), Fail> {
    for workers in ["1", "2", "3", "4", "16"] {
        let words = ["run", workers];
        gives(rt, alloc, &words, text, Status::Done, output)?;
    }
    Ok(())
}

#[test]
fn threads_make_lines_and_they_come_in_order(rt: HostRuntime) -> Result<(), Fail> {
    let alloc = rt.alloc();
    let text = wide_ranks(alloc)?;
    let output = wide_results(alloc)?;
    gives_by_workers(&rt, alloc, text.as_str(), output.as_str())
}

#[test]
fn threads_make_lines_longer_than_a_piece(rt: HostRuntime) -> Result<(), Fail> {
    let alloc = rt.alloc();
    let text = long_lines(alloc)?;
    let output = long_results(alloc)?;
    gives_by_workers(&rt, alloc, text.as_str(), output.as_str())
}

/// Runs sixteen ranks after this head of a description.
fn gives_results_after(
    rt: &(impl Abort + Threads + Wait + Sync),
    alloc: Global,
    command: &[&str],
    head: &str,
) -> Result<(), Fail> {
    let text = sixteen_ranks(alloc, head)?;
    let output = sixteen_results(alloc)?;
    gives(
        rt,
        alloc,
        command,
        text.as_str(),
        Status::Done,
        output.as_str(),
    )
}

/// Runs sixteen ranks by these words, without and with the wait for remote completion.
pub(crate) fn gives_sixteen_results(
    rt: &(impl Abort + Threads + Wait + Sync),
    alloc: Global,
    command: &[&str],
) -> Result<(), Fail> {
    gives_results_after(rt, alloc, command, "coll 1\nranks 16\n")?;
    gives_results_after(rt, alloc, command, "coll 1\nranks 16\ncomplete remote\n")
}

#[test]
fn four_workers_run_sixteen_ranks(rt: HostRuntime) -> Result<(), Fail> {
    gives_sixteen_results(&rt, rt.alloc(), &["run", "4"])
}

/// What the sums of the values that 1 chooses are.
const SUMS_OF_ONE: &str =
    "large 1 ranks 64 cells 5632 links 14719\na 262144\nb 16777216\nc 262144\nd 16777216\n\
e 262144\nrest\n";

#[test]
fn four_workers_write_sums(rt: HostRuntime) -> Result<(), Fail> {
    gives(
        &rt,
        rt.alloc(),
        &["large", "1", "4"],
        "",
        Status::Done,
        SUMS_OF_ONE,
    )
}

#[test]
fn one_worker_writes_the_same_sums(rt: HostRuntime) -> Result<(), Fail> {
    gives(
        &rt,
        rt.alloc(),
        &["large", "1", "1"],
        "",
        Status::Done,
        SUMS_OF_ONE,
    )
}

#[test]
fn other_values_have_other_sums(rt: HostRuntime) -> Result<(), Fail> {
    gives(
        &rt,
        rt.alloc(),
        &["large", "0", "1"],
        "",
        Status::Done,
        "large 0 ranks 64 cells 5632 links 14719\na 129024\nb 8257536\nc 129024\nd 8257536\ne 129024\nrest\n",
    )
}

/// Runs these words on a text with a gate, and answers how many steps the ranks of the world made that is left.
pub(crate) fn steps_through<G: Gate>(
    rt: &(impl Abort + Threads + Wait + Sync),
    alloc: Global,
    gate: &G,
    command: &[&str],
    text: &str,
    output: &str,
) -> Result<u64, Fail> {
    let made = run_through(rt, alloc, gate, command, text.as_bytes())?;
    same(rt, &text, made.left.status, Status::Done);
    same_bytes(rt, &text, made.sink.as_slice(), output.as_bytes());
    Ok(made.left.steps.unwrap_or(0))
}

/// Counts the steps.
#[derive(Drop)]
pub(crate) struct Counting {
    passes: AtomicU64,
}

impl Counting {
    pub(crate) fn new() -> Counting {
        Counting {
            passes: AtomicU64::new(0),
        }
    }

    /// How many steps it saw.
    pub(crate) fn passes(&self) -> u64 {
        self.passes.load(Ordering::SeqCst)
    }
}

impl Gate for Counting {
    fn pass(&self, _rank: Rank, _step: LocalStep) {
        self.passes.fetch_add(1, Ordering::SeqCst);
    }
}

#[test]
fn one_worker_makes_every_step(rt: HostRuntime) -> Result<(), Fail> {
    let gate = Counting::new();
    let steps = steps_through(&rt, rt.alloc(), &gate, &["run", "1"], FOUR_RANKS, "rest\n")?;
    assert!(rt; steps > 0);
    assert_eq!(rt; gate.passes(), steps);
    Ok(())
}

/// How often a gate looks again at most.
const PATIENCE: u32 = 1_000_000;

/// Yields until a count reaches a number. False: it never did.
fn reaches(count: &AtomicU64, number: u64) -> bool {
    for _ in 0..PATIENCE {
        if count.load(Ordering::SeqCst) >= number {
            return true;
        }
        thread::yield_now();
    }
    false
}

/// Holds the first step that it sees until another rank makes one.
#[derive(Drop)]
pub(crate) struct Meeting {
    // How many steps of rank 0 were seen, and of the others.
    first: AtomicU64,
    others: AtomicU64,
    failures: AtomicU64,
}

impl Meeting {
    pub(crate) fn new() -> Meeting {
        Meeting {
            first: AtomicU64::new(0),
            others: AtomicU64::new(0),
            failures: AtomicU64::new(0),
        }
    }

    /// Whether steps of both kinds were seen, and each first one met another rank's.
    pub(crate) fn met(&self) -> bool {
        self.failures.load(Ordering::SeqCst) == 0
            && self.first.load(Ordering::SeqCst) > 0
            && self.others.load(Ordering::SeqCst) > 0
    }
}

impl Gate for Meeting {
    fn pass(&self, rank: Rank, _step: LocalStep) {
        let (own, other) = if rank == 0 {
            (&self.first, &self.others)
        } else {
            (&self.others, &self.first)
        };
        own.fetch_add(1, Ordering::SeqCst);
        if !reaches(other, 1) {
            self.failures.fetch_add(1, Ordering::SeqCst);
        }
    }
}

#[test]
fn two_workers_at_once(rt: HostRuntime) -> Result<(), Fail> {
    let gate = Meeting::new();
    steps_through(&rt, rt.alloc(), &gate, &["run", "2"], TWO_RANKS, "rest\n")?;
    assert!(rt; gate.met());
    Ok(())
}

/// Holds the start of rank 0 until 50 steps of other ranks were seen.
#[derive(Drop)]
struct LateStart {
    others: AtomicU64,
}

impl Gate for LateStart {
    fn pass(&self, rank: Rank, step: LocalStep) {
        if rank != 0 {
            self.others.fetch_add(1, Ordering::SeqCst);
        } else if step == LocalStep::Start {
            let _ = reaches(&self.others, 50);
        }
    }
}

#[test]
fn a_rank_that_starts_late_misses_nothing(rt: HostRuntime) -> Result<(), Fail> {
    let alloc = rt.alloc();
    let gate = LateStart {
        others: AtomicU64::new(0),
    };
    let text = sixteen_ranks(alloc, "coll 1\nranks 16\n")?;
    let output = sixteen_results(alloc)?;
    steps_through(
        &rt,
        alloc,
        &gate,
        &["run", "4"],
        text.as_str(),
        output.as_str(),
    )?;
    let others = gate.others.load(Ordering::SeqCst);
    same(&rt, &"50 steps of other ranks", others >= 50, true);
    Ok(())
}
