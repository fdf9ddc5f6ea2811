//! Descriptions that several tests run, and what they write.

use std::alloc::{AllocError, Global};

/// One rank, which has a value.
pub(crate) const ONE_RANK: &str =
    "coll 1\nranks 1\ninput a u8 1\n7\nbroadcast 0 a b\nprint b\nend\n";

/// The same in JSON.
pub(crate) const ONE_RANK_IN_JSON: &str =
    r#"{"coll":1,"ranks":1,"inputs":[{"name":"a","type":"u8","rows":[[7]]}],"steps":[["broadcast",0,"a","b"]],"prints":["b"]}"#;

/// What it writes.
pub(crate) const ONE_RANK_RESULT: &str = "b 0 7\nrest\n";

/// A barrier of two ranks, with orders that hold.
pub(crate) const BARRIER_WITH_ORDERS: &str =
    "coll 1\nranks 2\nbarrier\nend\norder 0 s f0 f1 f2 f3 f4 r1 f5\norder 1 s f0 f1 f2 f3 f4 r0 f5\n";

/// A reduction, a barrier and a scan on four ranks.
pub(crate) const THREE_STEPS: &str =
    "coll 1\nranks 4\ninput a u32 1\n1\n2\n3\n4\nallreduce sum a b\nbarrier\nscan sum b c\nprint c\nend\n";

/// What they write.
pub(crate) const THREE_RESULTS: &str = "c 0 10\nc 1 20\nc 2 30\nc 3 40\nrest\n";

/// A reduction and a scan on groups of four ranks.
pub(crate) const GROUPS: &str =
    "coll 2\nranks 4\ngroup odd 1 3\ninput a u8 1\n1\n2\n3\n4\non odd allreduce sum a b\n\
on odd broadcast 1 a c\nprint b\nprint c\nend\n";

/// What they write.
pub(crate) const GROUPS_RESULT: &str = "b 0\nb 1 6\nb 2\nb 3 6\nc 0\nc 1 4\nc 2\nc 3 4\nrest\n";

/// A reduction on a group of three ranks, and then a gathering of what is held.
pub(crate) const HELD: &str =
    "coll 2\nranks 3\ngroup g 0 2\ninput a u8 1\n1\n2\n3\non g allreduce sum a b\ngatherv 1 b c\nprint c\nend\n";

/// What it writes.
pub(crate) const HELD_RESULT: &str = "c 0\nc 1 4 4\nc 2\nrest\n";

/// An allreduce, a barrier and a scan with `complete remote`.
pub(crate) const ALLREDUCE_AND_SCAN: &str =
    "coll 1\nranks 4\ncomplete remote\ninput a u32 1\n1\n2\n3\n4\nallreduce sum a b\nbarrier\nscan sum b c\n\
print b\nprint c\nend\n";

/// Steps on two groups of three ranks.
pub(crate) const STEPS_ON_GROUPS: &str =
    "coll 2\nranks 6\ngroup even 0 2 4\ngroup odd 1 3 5\ninput a u8 1\n1\n2\n3\n4\n5\n6\non even allreduce sum a sums\n\
on odd scan max a greatest\non odd broadcast 2 a last\nprint sums\nprint greatest\nprint last\nend\n";

/// Ten of the example descriptions, of 2 to 6 ranks.
pub(crate) const TEN: [&str; 10] = [
    "coll 1\nranks 3\ninput reading u8 2\n1 2\n3 4\n5 6\nallgather reading all\nprint all\nend\n",
    "coll 1\nranks 4\ninput load u32 2\n10 400\n20 300\n30 200\n40 100\nallreduce max load peak\nprint peak\nend\n",
    ALLREDUCE_AND_SCAN,
    "coll 1\nranks 3\ninput row u8 3\n11 12 13\n21 22 23\n31 32 33\nalltoall row column\nprint column\nend\n",
    "coll 1\nranks 5\nbarrier\nend\n",
    "coll 1\nranks 3\ninput reading u8 2\n1 2\n3 4\n5 6\ngather 1 reading all\nprint all\nend\n",
    "coll 2\nranks 4\ninput amount u16 1\n1\n2\n3\n4\nexscan sum amount before\nprint before\nend\n",
    "coll 2\nranks 4\ngroup odd 1 3\ninput a u8 1\n1\n2\n3\n4\non odd allreduce sum a b\ngatherv 0 b all\n\
print all\nend\n",
    STEPS_ON_GROUPS,
    "coll 2\nranks 2\ninput part i32 4\n1 -2 3 -4\n10 20 30 40\nreducescatter sum part block\nprint block\nend\n",
];

/// Adds a number after these characters.
fn push_number(
    alloc: Global,
    text: &mut String,
    before: &str,
    number: u32,
) -> Result<(), AllocError> {
    let word = format!(in alloc; "{before}{number}")?;
    text.push_str(word.as_str())
}

/// Adds so many numbers from this one on, each after a space.
fn push_numbers(
    alloc: Global,
    text: &mut String,
    first: u32,
    count: u32,
) -> Result<(), AllocError> {
    for place in 0..count {
        push_number(alloc, text, " ", first.wrapping_add(place))?;
    }
    Ok(())
}

/// Adds a line of so many numbers from this one on.
fn push_row(alloc: Global, text: &mut String, first: u32, count: u32) -> Result<(), AllocError> {
    push_number(alloc, text, "", first)?;
    push_numbers(alloc, text, first.wrapping_add(1), count.saturating_sub(1))?;
    text.push_str("\n")
}

/// Adds the line of what a rank holds, so many numbers from this one on.
fn push_held(
    alloc: Global,
    text: &mut String,
    name: &str,
    rank: u32,
    first: u32,
    count: u32,
) -> Result<(), AllocError> {
    push_number(alloc, text, name, rank)?;
    push_numbers(alloc, text, first, count)?;
    text.push_str("\n")
}

/// Adds a line for each rank, which ends with the same characters.
fn push_alike(
    alloc: Global,
    text: &mut String,
    name: &str,
    ranks: u32,
    end: &str,
) -> Result<(), AllocError> {
    for rank in 0..ranks {
        push_number(alloc, text, name, rank)?;
        text.push_str(end)?;
        text.push_str("\n")?;
    }
    Ok(())
}

/// Adds the rows of so many ranks: each has so many values, which rise by one, and begins so much above the one before.
fn push_rows(
    alloc: Global,
    text: &mut String,
    ranks: u32,
    step: u32,
    count: u32,
) -> Result<(), AllocError> {
    for rank in 0..ranks {
        push_row(alloc, text, step.wrapping_mul(rank), count)?;
    }
    Ok(())
}

/// Adds sixteen ranks.
fn push_sixteen(alloc: Global, text: &mut String) -> Result<(), AllocError> {
    text.push_str("input load u64 8\n")?;
    push_rows(alloc, text, 16, 100, 8)?;
    text.push_str(
        "allreduce max load peak\nallgather load all\nbarrier\nprint peak\nprint all\nend\n",
    )
}

/// Sixteen ranks, of which each holds eight values: the greatest ones, and all of them.
pub(crate) fn sixteen_ranks(alloc: Global, head: &str) -> Result<String, AllocError> {
    let mut text = String::from_str(alloc, head)?;
    push_sixteen(alloc, &mut text)?;
    Ok(text)
}

/// The values of sixteen ranks, each after a space.
fn all_of_sixteen(alloc: Global) -> Result<String, AllocError> {
    let mut all = String::new(alloc);
    for rank in 0..16u32 {
        push_numbers(alloc, &mut all, 100 * rank, 8)?;
    }
    Ok(all)
}

/// What they write.
pub(crate) fn sixteen_results(alloc: Global) -> Result<String, AllocError> {
    let all = all_of_sixteen(alloc)?;
    let mut text = String::new(alloc);
    let peak = " 1500 1501 1502 1503 1504 1505 1506 1507";
    push_alike(alloc, &mut text, "peak ", 16, peak)?;
    push_alike(alloc, &mut text, "all ", 16, all.as_str())?;
    text.push_str("rest\n")?;
    Ok(text)
}

/// Thirty-two ranks, of which each holds thirty-two values, and then all 1,024: a buffer of 262,144 bytes over all ranks.
pub(crate) fn wide_ranks(alloc: Global) -> Result<String, AllocError> {
    let mut text = String::from_str(alloc, "coll 1\nranks 32\ninput part u64 32\n")?;
    push_rows(alloc, &mut text, 32, 32, 32)?;
    text.push_str("allgather part all\nprint all\nend\n")?;
    Ok(text)
}

/// So many numbers from 0 on, each after a space.
fn numbers_below(alloc: Global, count: u32) -> Result<String, AllocError> {
    let mut all = String::new(alloc);
    push_numbers(alloc, &mut all, 0, count)?;
    Ok(all)
}

/// What they write.
pub(crate) fn wide_results(alloc: Global) -> Result<String, AllocError> {
    let all = numbers_below(alloc, 1024)?;
    let mut text = String::new(alloc);
    push_alike(alloc, &mut text, "all ", 32, all.as_str())?;
    text.push_str("rest\n")?;
    Ok(text)
}

/// Two ranks, of which each holds 4,096 values of eight digits, and then all 8,192: a line of all has more bytes than a piece.
pub(crate) fn long_lines(alloc: Global) -> Result<String, AllocError> {
    let mut text = String::from_str(alloc, "coll 1\nranks 2\ninput part u64 4096\n")?;
    push_row(alloc, &mut text, 10_000_000, 4096)?;
    push_row(alloc, &mut text, 10_004_096, 4096)?;
    text.push_str("allgather part all\nprint all\nprint part\nend\n")?;
    Ok(text)
}

/// Adds what they write.
fn push_long_results(alloc: Global, text: &mut String) -> Result<(), AllocError> {
    push_held(alloc, text, "all ", 0, 10_000_000, 8192)?;
    push_held(alloc, text, "all ", 1, 10_000_000, 8192)?;
    push_held(alloc, text, "part ", 0, 10_000_000, 4096)?;
    push_held(alloc, text, "part ", 1, 10_004_096, 4096)?;
    text.push_str("rest\n")
}

/// What they write.
pub(crate) fn long_results(alloc: Global) -> Result<String, AllocError> {
    let mut text = String::new(alloc);
    push_long_results(alloc, &mut text)?;
    Ok(text)
}
