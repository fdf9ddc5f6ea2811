//! Choice texts: what is written of their runs on one thread, and that no other command runs them.

use crate::comparing::same;
use crate::runs::{Left, Made, leaves, no_world, run, same_left};
use portals_top::Status;
use std::alloc::Global;
use std::process::Abort;
use std::sync::Wait;
use std::test::Fail;
use std::thread::Threads;

/// One rank, an elect and tickets.
const ONE_RANK: &str = "coll 2\nranks 1\nelect e\ntickets t\nprint e\nprint t\nend\n";

/// Four ranks, an elect and tickets.
const FOUR_RANKS: &str =
    "coll 2\nranks 4\nelect leader\ntickets number\nprint leader\nprint number\nend\n";

/// What they write where rank 0 is served first.
const FOUR_RANKS_RESULT: &str = "leader 0 0\nleader 1 0\nleader 2 0\nleader 3 0\n\
number 0 0\nnumber 1 1\nnumber 2 2\nnumber 3 3\nrest\n";

/// Five ranks, and tickets.
const FIVE_TICKETS: &str = "coll 2\nranks 5\ntickets t\nprint t\nend\n";

/// What the run of a choice text leaves.
const CHOICE_WORLD: Left = Left {
    status: Status::Done,
    world: false,
    choice: true,
};

/// Runs words on a choice text, of which a choice world is left.
fn run_choices(
    rt: &(impl Abort + Threads + Wait + Sync),
    alloc: Global,
    command: &[&str],
    text: &str,
) -> Result<Made, Fail> {
    let made = run(rt, alloc, command, text.as_bytes())?;
    same_left(rt, &text, made.left, CHOICE_WORLD);
    same(rt, &text, made.sink.finishes(), 1);
    Ok(made)
}

/// Choice texts, and what `once` writes of them.
const SERVED: &[(&str, &str)] = &[
    (ONE_RANK, "e 0 0\nt 0 0\nrest\n"),
    (FOUR_RANKS, FOUR_RANKS_RESULT),
    ("coll 2\nranks 3\nelect a\nend\n", "rest\n"),
];

#[test]
fn once_writes_the_values_of_each_rank(rt: HostRuntime) -> Result<(), Fail> {
    for (text, output) in SERVED {
        leaves(&rt, rt.alloc(), &["once"], text, CHOICE_WORLD, output)?;
    }
    Ok(())
}

#[test]
fn sim_writes_the_order_too(rt: HostRuntime) -> Result<(), Fail> {
    let made = run_choices(&rt, rt.alloc(), &["sim", "1"], ONE_RANK)?;
    let head = b"e 0 0\nt 0 0\nrest\norder 0 s f";
    let begins = made.sink.as_slice().starts_with(head.as_slice());
    same(&rt, &"the results and the order", begins, true);
    Ok(())
}

/// How many of the first five lines, of six bytes each, end with this digit.
fn lines_with(text: &[u8], digit: u8) -> usize {
    let mut count = 0_usize;
    for line in text.chunks(6).take(5) {
        if line.get(4) == Some(&digit) {
            count = count.saturating_add(1);
        }
    }
    count
}

/// Stops the test where the five ranks don't have each ticket once, or no order is written after the results.
fn has_each_ticket_once(rt: &impl Abort, seed: u32, text: &[u8]) {
    for digit in b'0'..b'5' {
        same(rt, &seed, lines_with(text, digit), 1);
    }
    assert!(rt; text.len() > 35, "at {seed}");
    assert_eq!(rt; &text[30..35], b"rest\n".as_slice(), "at {seed}");
}

/// Runs five tickets in the order that a seed chooses: whether rank 0 comes first.
fn five_ranks(
    rt: &(impl Abort + Threads + Wait + Sync),
    alloc: Global,
    seed: u32,
) -> Result<bool, Fail> {
    let number = format!(in alloc; "{seed}")?;
    let made = run_choices(rt, alloc, &["sim", number.as_str()], FIVE_TICKETS)?;
    has_each_ticket_once(rt, seed, made.sink.as_slice());
    Ok(made.sink.as_slice().starts_with(b"t 0 0\n".as_slice()))
}

#[test]
fn five_ranks_have_each_ticket_once_in_twenty_orders(rt: HostRuntime) -> Result<(), Fail> {
    let mut first = 0_u32;
    for seed in 1..21_u32 {
        let comes_first = five_ranks(&rt, rt.alloc(), seed)?;
        first = first.saturating_add(u32::from(comes_first));
    }
    assert!(rt;
        0 < first && first < 20,
        "in some orders another rank comes first"
    );
    Ok(())
}

/// Commands that refuse choice texts.
const REFUSED: &[(&[&str], &str, &str)] = &[
    (&["run", "2"], ONE_RANK, "refused 0 OneThread\n"),
    (&["plan"], ONE_RANK, "refused 0 OneThread\n"),
    (
        &["once"],
        "coll 2\nranks 1\nelect e\nbarrier\ntickets t\nprint e\nprint t\nend\n",
        "refused 4 BadLine\n",
    ),
];

#[test]
fn a_refused_choice_text_leaves_no_world(rt: HostRuntime) -> Result<(), Fail> {
    for (command, text, output) in REFUSED {
        let left = no_world(Status::Refused);
        leaves(&rt, rt.alloc(), command, text, left, output)?;
    }
    Ok(())
}
