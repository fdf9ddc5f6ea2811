//! What `plan` writes, and plans that are too large.

use crate::comparing::same;
use crate::runs::{gives, run};
use crate::texts::ONE_RANK;
use portals_top::Status;
use std::alloc::{AllocError, Global};
use std::process::Abort;
use std::sync::Wait;
use std::test::Fail;
use std::thread::Threads;

const ONE_RANK_PLAN: &str =
    "plan 1 4 4 local\ncell 0 0 u8 - 0 1\ncell 1 0 u8 - 1 1\ncell 2 0 u8 - 1 2\n\
cell 3 0 u8 - 1 1\nlink 0 0 0 0 1 0 bump\nlink 1 0 0 0 2 0 bump\nlink 2 1 0 1 2 0 put\nlink 3 2 0 1 3 0 put\n\
done 0 4\nend\n";

/// Texts, and their plans.
const PLANS: &[(&str, &str)] = &[
    (ONE_RANK, ONE_RANK_PLAN),
    (
        "coll 1\nranks 1\ncomplete remote\ninput a u8 1\n7\nbroadcast 0 a b\nprint b\nend\n",
        "plan 1 4 4 remote\ncell 0 0 u8 - 0 1\ncell 1 0 u8 - 1 1\ncell 2 0 u8 - 1 2\n\
cell 3 0 u8 - 1 1\nlink 0 0 0 0 1 0 bump\nlink 1 0 0 0 2 0 bump\nlink 2 1 0 1 2 0 put\nlink 3 2 0 1 3 0 put\n\
done 0 6\nend\n",
    ),
    (
        "coll 2\nranks 3\ncomplete remote\ngroup g 0 2\ninput a u16 1\n1\n2\n3\n\
on g allreduce sum a b\nend\n",
        "plan 3 12 13 remote\ncell 0 0 u8 - 0 1\ncell 1 1 u8 - 0 1\ncell 2 2 u8 - 0 1\n\
cell 3 0 u16 - 2 1\ncell 4 1 u16 - 2 1\ncell 5 2 u16 - 2 1\ncell 6 0 u16 - 2 2\ncell 7 2 u16 - 2 2\n\
cell 8 2 u16 sum 2 1\ncell 9 0 u16 sum 2 2\ncell 10 0 u16 - 2 1\ncell 11 2 u16 - 2 2\n\
link 0 0 0 0 3 0 bump\nlink 1 1 0 0 4 0 bump\nlink 2 2 0 0 5 0 bump\nlink 3 0 0 0 6 0 bump\n\
link 4 3 0 2 6 0 put\nlink 5 2 0 0 7 0 bump\nlink 6 5 0 2 7 0 put\nlink 7 7 0 2 8 0 atomic\n\
link 8 6 0 2 9 0 atomic\nlink 9 8 0 2 9 0 atomic\nlink 10 9 0 2 10 0 put\nlink 11 8 0 0 11 0 bump\n\
link 12 10 0 2 11 0 put\ndone 0 9\ndone 1 2\ndone 2 8\nend\n",
    ),
];

#[test]
fn a_plan_has_its_cells_its_links_and_where_each_rank_is_done(rt: HostRuntime) -> Result<(), Fail> {
    for (text, output) in PLANS {
        gives(&rt, rt.alloc(), &["plan"], text, Status::Done, output)?;
    }
    Ok(())
}

/// Stops the test where this isn't such a plan.
fn is_plan_of_256(rt: &impl Abort, plan: &[u8]) {
    same(rt, &"its length", plan.len(), 188_329);
    let head = b"plan 256 2560 4352 local\ncell 0 0 u8 - 0 1\n";
    same(rt, &"its head", plan.starts_with(head.as_slice()), true);
    let last = b"\ndone 255 10\nend\n";
    same(rt, &"its end", plan.ends_with(last.as_slice()), true);
}

#[test]
fn a_barrier_of_256_ranks_has_a_plan(rt: HostRuntime) -> Result<(), Fail> {
    let text = b"coll 2\nranks 256\nbarrier\nend\n";
    let made = run(&rt, rt.alloc(), &["plan"], text.as_slice())?;
    same(&rt, &"256 ranks", made.left.status, Status::Done);
    is_plan_of_256(&rt, made.sink.as_slice());
    Ok(())
}

/// The head, and an input of 64 ranks, each with this line.
fn with_input(alloc: Global, head: &str, input: &str, row: &str) -> Result<String, AllocError> {
    let mut text = String::new(alloc);
    text.push_str(head)?;
    text.push_str(input)?;
    for _ in 0..64 {
        text.push_str(row)?;
    }
    Ok(text)
}

/// A line of 4096 zeros.
fn zeros(alloc: Global) -> Result<String, AllocError> {
    let mut line = String::new(alloc);
    for _ in 0..4095 {
        line.push_str("0 ")?;
    }
    line.push_str("0\n")?;
    Ok(line)
}

/// Adds 61 allgathers of the input.
fn push_allgathers(alloc: Global, text: &mut String) -> Result<(), AllocError> {
    for k in 1..62u32 {
        let line = format!(in alloc; "allgather a b{k}\n")?;
        text.push_str(line.as_str())?;
    }
    Ok(())
}

/// A description of 64 ranks, with an input in this line and rows, of which 61 allgathers are made.
fn allgathers(alloc: Global, head: &str, input: &str, row: &str) -> Result<String, AllocError> {
    let mut text = with_input(alloc, head, input, row)?;
    push_allgathers(alloc, &mut text)?;
    text.push_str("end\n")?;
    Ok(text)
}

/// Heads of descriptions, and the line of the step that makes the plan too large.
const TOO_MANY: &[(&str, &str)] = &[
    ("coll 1\nranks 64\n", "refused 128 TooMany\n"),
    (
        "coll 2\nranks 64\ncomplete remote\ngroup g 0 1\ngroup h 2 3\n",
        "refused 131 TooMany\n",
    ),
];

/// A plan of one value a rank is refused.
fn has_too_many(
    rt: &(impl Abort + Threads + Wait + Sync),
    alloc: Global,
    head: &str,
    output: &str,
) -> Result<(), Fail> {
    let text = allgathers(alloc, head, "input a u8 1\n", "7\n")?;
    gives(rt, alloc, &["plan"], text.as_str(), Status::Refused, output)
}

/// A run of 4096 values a rank is refused.
fn is_too_large(rt: &(impl Abort + Threads + Wait + Sync), alloc: Global) -> Result<(), Fail> {
    let row = zeros(alloc)?;
    let head = "coll 1\nranks 64\n";
    let text = allgathers(alloc, head, "input a u64 4096\n", row.as_str())?;
    let output = "refused 68 TooLarge\n";
    gives(rt, alloc, &["once"], text.as_str(), Status::Refused, output)
}

#[test]
fn a_plan_that_is_too_large_is_refused_in_the_line_of_its_step(
    rt: HostRuntime,
) -> Result<(), Fail> {
    for (head, output) in TOO_MANY {
        has_too_many(&rt, rt.alloc(), head, output)?;
    }
    is_too_large(&rt, rt.alloc())
}
