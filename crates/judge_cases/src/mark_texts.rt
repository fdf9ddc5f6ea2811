//! Texts, and the line at fault in each.

use crate::marks::{Found, answer_to};
use coll_lang::{Description, parse};
use mark_judge::{Due, MarkFlaw};
use std::alloc::Global;
use std::process::Abort;
use std::test::Fail;

/// Whose plan is judged. It has nine lines.
const DESCRIPTION: &str =
    "coll 1\nranks 2\ninput a u8 1\n7\n9\nbroadcast 0 a b\nbarrier\nprint b\nend\n";

/// A plan of it up to its last link, lines 10 to 36. Cells 6 and 7 hold `b`; each rank enters the barrier at its cell 8 or 9, which its
/// result bumps, and leaves it at its cell 10 or 11, to which both lead.
const PLAN: &str = "plan 2 12 14 local\n\
    cell 0 0 u8 - 0 1\n\
    cell 1 1 u8 - 0 1\n\
    cell 2 0 u8 - 1 1\n\
    cell 3 1 u8 - 1 1\n\
    cell 4 0 u8 - 1 2\n\
    cell 5 1 u8 - 0 1\n\
    cell 6 0 u8 - 1 1\n\
    cell 7 1 u8 - 1 2\n\
    cell 8 0 u8 - 0 1\n\
    cell 9 1 u8 - 0 1\n\
    cell 10 0 u8 - 0 2\n\
    cell 11 1 u8 - 0 2\n\
    link 0 0 0 0 2 0 bump\n\
    link 1 1 0 0 3 0 bump\n\
    link 2 0 0 0 4 0 bump\n\
    link 3 2 0 1 4 0 put\n\
    link 4 1 0 0 5 0 bump\n\
    link 5 4 0 1 6 0 put\n\
    link 6 5 0 0 7 0 bump\n\
    link 7 6 0 1 7 0 put\n\
    link 8 6 0 0 8 0 bump\n\
    link 9 7 0 0 9 0 bump\n\
    link 10 8 0 0 10 0 bump\n\
    link 11 9 0 0 10 0 put\n\
    link 12 9 0 0 11 0 bump\n\
    link 13 8 0 0 11 0 put\n";

/// Its done counters, lines 37 and 38: six cells at each rank.
const DONE: &str = "done 0 6\ndone 1 6\n";

/// Its results, lines 39 and 40.
const RESULTS: &str = "result b 0 6\nresult b 1 7\n";

/// Where its ranks enter the barrier, which is step 1, and leave it: lines 41 to 44.
const BARRIER: &str = "enter 1 0 8\nenter 1 1 9\nleave 1 0 10\nleave 1 1 11\n";

/// Stops the test where these differ.
fn same(rt: &impl Abort, answer: Found, wanted: Found) {
    assert_eq!(rt; answer, wanted);
}

/// Stops the test where the text of the plan with these lines isn't answered so.
fn answers(
    rt: &impl Abort,
    alloc: Global,
    d: &Description,
    lines: &[&str],
    wanted: Found,
) -> Result<(), Fail> {
    let mut text = String::from_str(alloc, PLAN)?;
    for line in lines {
        text.push_str(line)?;
    }
    text.push_str("end\n")?;
    same(rt, answer_to(alloc, d, 10, text.as_str()), wanted);
    Ok(())
}

fn at(line: u64, flaw: MarkFlaw) -> Found {
    Found::Judged(Some((line, flaw)))
}

fn bad(line: u64, mark: u32) -> Found {
    at(line, MarkFlaw::BadResult { mark })
}

fn left_open(line: u64, mark: u32) -> Found {
    at(line, MarkFlaw::BarrierOpen { mark })
}

fn lacks(line: u64, due: Due) -> Found {
    at(line, MarkFlaw::NoResult { due })
}

#[test]
fn what_is_asked_for(rt: HostRuntime) -> Result<(), Fail> {
    let alloc = rt.alloc();
    let d = parse(alloc, DESCRIPTION.as_bytes())?;
    let right = Found::Judged(None);
    answers(&rt, alloc, &d, &[DONE, RESULTS, BARRIER], right)?;
    answers(&rt, alloc, &d, &[DONE, BARRIER, RESULTS], right)?;
    Ok(())
}

#[test]
fn done_counters(rt: HostRuntime) -> Result<(), Fail> {
    let alloc = rt.alloc();
    let d = parse(alloc, DESCRIPTION.as_bytes())?;
    let low = at(37, MarkFlaw::BadDone { rank: 0 });
    answers(&rt, alloc, &d, &["done 0 5\ndone 1 7\n"], low)?;
    let high = at(38, MarkFlaw::BadDone { rank: 1 });
    answers(&rt, alloc, &d, &["done 0 6\ndone 1 7\n", RESULTS], high)?;
    Ok(())
}

#[test]
fn results(rt: HostRuntime) -> Result<(), Fail> {
    let alloc = rt.alloc();
    let d = parse(alloc, DESCRIPTION.as_bytes())?;
    let elsewhere = [DONE, "result b 1 6\n", BARRIER];
    answers(&rt, alloc, &d, &elsewhere, bad(39, 0))?;
    let empty = [DONE, "result b 0 6\nresult b 1 5\n", BARRIER];
    answers(&rt, alloc, &d, &empty, bad(40, 1))?;
    let none = [DONE, "result b 1 12\n"];
    answers(&rt, alloc, &d, &none, bad(39, 0))?;
    let input = [DONE, RESULTS, "result a 0 2\n", BARRIER];
    answers(&rt, alloc, &d, &input, bad(41, 2))?;
    let twice = [DONE, RESULTS, BARRIER, "result b 0 6\n"];
    answers(&rt, alloc, &d, &twice, bad(45, 6))?;
    let no_rank = [DONE, RESULTS, "result b 2 7\n"];
    answers(&rt, alloc, &d, &no_rank, bad(41, 2))?;
    let lacking = Due::Result { buffer: 1, rank: 1 };
    let one = [DONE, "result b 0 6\n", "enter 1 0 8\n"];
    answers(&rt, alloc, &d, &one, lacks(41, lacking))?;
    Ok(())
}

#[test]
fn barriers(rt: HostRuntime) -> Result<(), Fail> {
    let alloc = rt.alloc();
    let d = parse(alloc, DESCRIPTION.as_bytes())?;
    let broadcast = [DONE, RESULTS, "enter 0 0 8\n"];
    answers(&rt, alloc, &d, &broadcast, bad(41, 2))?;
    let no_step = [DONE, RESULTS, "leave 2 0 10\n"];
    answers(&rt, alloc, &d, &no_step, bad(41, 2))?;
    let elsewhere = [DONE, RESULTS, "enter 1 0 8\nleave 1 1 10\n"];
    answers(&rt, alloc, &d, &elsewhere, bad(42, 3))?;
    let no_leave = Due::Leave { step: 1, rank: 0 };
    let entries = [DONE, RESULTS, "enter 1 0 8\nenter 1 1 9\nleave 1 1 11\n"];
    answers(&rt, alloc, &d, &entries, lacks(44, no_leave))?;
    let no_entry = Due::Enter { step: 1, rank: 1 };
    let leaves = [DONE, RESULTS, "enter 1 0 8\nleave 1 1 11\nleave 1 0 10\n"];
    answers(&rt, alloc, &d, &leaves, lacks(44, no_entry))?;
    Ok(())
}

#[test]
fn barriers_that_are_open(rt: HostRuntime) -> Result<(), Fail> {
    let alloc = rt.alloc();
    let d = parse(alloc, DESCRIPTION.as_bytes())?;
    let too_soon = "enter 1 0 8\nenter 1 1 9\nleave 1 1 11\nleave 1 0 8\n";
    let early = [DONE, RESULTS, too_soon];
    answers(&rt, alloc, &d, &early, left_open(44, 5))?;
    let too_late = "leave 1 0 10\nleave 1 1 11\nenter 1 0 8\nenter 1 1 11\n";
    let late = [DONE, RESULTS, too_late];
    answers(&rt, alloc, &d, &late, left_open(41, 2))?;
    let both = "leave 1 0 6\nenter 1 0 6\nenter 1 1 7\nleave 1 1 7\n";
    answers(&rt, alloc, &d, &[DONE, RESULTS, both], left_open(41, 2))?;
    Ok(())
}
