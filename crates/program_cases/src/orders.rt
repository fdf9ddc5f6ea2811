//! Orders of runs: those that `sim` chooses and `trace` finds, and what `check` says of them and of others.

use crate::comparing::{same, same_bytes};
use crate::runs::{gives, run};
use crate::texts::{BARRIER_WITH_ORDERS, TEN, THREE_RESULTS, THREE_STEPS};
use crate::verdicts::EXCHANGED;
use portals_top::Status;
use std::alloc::{AllocError, Global};
use std::process::Abort;
use std::str;
use std::sync::Wait;
use std::test::Fail;
use std::thread::Threads;

/// Texts with orders, what is answered, and what is written.
const WITH_ORDERS: &[(&str, Status, &str)] = &[
    (BARRIER_WITH_ORDERS, Status::Done, "holds\n"),
    (
        "coll 1\nranks 2\nbarrier\nend\norder 0 s f0 f1 f2 f3 f4 f5 r1\norder 1 s f0 f1 f2 f3 f4 r0 f5\n",
        Status::Refused,
        "fails 0 7 NotReady\n",
    ),
    (
        "coll 1\nranks 1\nbarrier\nend\norder 0 s f0 f1\n",
        Status::Refused,
        "fails 0 4 NotAtRest\n",
    ),
    (
        "coll 1\nranks 1\nbarrier\nend\norder 0 s f1 f0 f2\n",
        Status::Done,
        "holds\n",
    ),
    (
        "coll 1\nranks 1\nbarrier\nend\norder 0 s s f0 f1 f2\n",
        Status::Refused,
        "fails 0 2 StartedTwice\n",
    ),
    (
        "coll 1\nranks 1\nbarrier\nend\norder 0 s r0\n",
        Status::Refused,
        "fails 0 2 NotSent\n",
    ),
    (
        "coll 1\nranks 1\nbarrier\nend\norder 0 x\n",
        Status::Refused,
        "refused 5 BadOrder\n",
    ),
    (
        "coll 1\nranks 2\nbarrier\nend\norder 0 s\n",
        Status::Refused,
        "refused 6 Unended\n",
    ),
    (
        "coll 2\nranks 1\nelect e\nend\norder 0 x\n",
        Status::Refused,
        "refused 0 OneThread\n",
    ),
];

#[test]
fn check_writes_the_verdict_on_orders(rt: HostRuntime) -> Result<(), Fail> {
    for (text, status, output) in WITH_ORDERS {
        gives(&rt, rt.alloc(), &["check"], text, *status, output)?;
    }
    Ok(())
}

/// A description, and orders after it.
fn joined(alloc: Global, text: &str, orders: &str) -> Result<String, AllocError> {
    let mut both = String::from_str(alloc, text)?;
    both.push_str(orders)?;
    Ok(both)
}

/// The orders of this description hold.
fn hold(
    rt: &(impl Abort + Threads + Wait + Sync),
    alloc: Global,
    text: &str,
    orders: &str,
) -> Result<(), Fail> {
    let both = joined(alloc, text, orders)?;
    gives(
        rt,
        alloc,
        &["check"],
        both.as_str(),
        Status::Done,
        "holds\n",
    )
}

/// Seeds, and the orders that they choose of three steps.
const CHOSEN: &[(&str, &str)] = &[
    (
        "1",
        "order 0 s f0 f1 f19 f20 f2 r1 r0 f21 f3 r2 r0 f4 r0 f22 f6 f23 f5 f7 f8 f24 f13 f9 r0 r2 r3 f25 f10 f11 f26 f12 f27 f14 r0 f16 f15 f28 r0 f29 f18 f17 r0 f30\n\
order 1 s f0 f19 f1 f2 r1 f3 r1 f20 f21 r3 f5 f22 f4 r0 r0 f13 f23 r1 f6 f7 f8 f9 f11 f24 f25 f10 r3 f26 f12 f27 f14 r1 f28 f15 r1 f16 r0 f17 f29 f18 r1 f30\n\
order 2 s f0 f18 f17 f1 f2 r2 f19 f3 r2 f20 f5 f4 r0 f12 f21 r2 f6 f22 f7 f8 r1 f9 f10 f23 r1 r0 f24 r0 f11 f13 f25 r2 f14 f15 f26 r2 f16 r2 f27 f28\n\
order 3 s f0 f16 f1 f2 r3 f18 f3 r3 f5 f17 f4 f19 r1 f6 f20 f7 f12 r1 f8 r3 r2 f9 f10 f23 f11 f22 f24 f21 f13 r3 f25 f14 r3 r1 r2 f15 r3 f26 f27\n",
    ),
    (
        "2",
        "order 0 s f19 f1 f0 f2 f20 r0 r2 f3 r0 f21 r1 f4 r0 f5 f13 r0 f6 f7 f8 f9 f23 f22 r3 f24 f11 f25 f10 r2 f12 f14 f26 f27 r0 f15 f16 r0 f18 f28 f17 f29 r0 f30\n\
order 1 s f0 f20 f19 f1 f2 r3 r1 f21 f3 r1 f22 f4 f5 r0 f6 f13 f7 r1 f23 f9 r0 f24 r3 f8 f11 f10 f25 f26 f12 f27 f14 r1 f28 f16 f15 r0 r1 f18 f29 f17 r1 f30\n\
order 2 s f0 f18 f2 f1 f17 r2 f3 f19 r2 f4 f20 f5 r0 f12 f6 r2 r1 f8 f7 f23 f21 f10 f22 r0 f11 f9 f13 r2 f26 f24 f14 f15 f25 r2 r1 r0 f27 f16 r2 f28\n\
order 3 s f0 f16 f2 f17 r3 f1 f18 f3 r3 f19 f4 f5 r1 f12 f6 r3 f21 f7 f8 r2 f10 f9 f22 f20 r1 f23 r2 f11 f13 r3 f14 f25 f24 r3 f15 f26 r3 r1 f27\n",
    ),
];

/// A seed chooses these orders, and they hold.
fn chooses(
    rt: &(impl Abort + Threads + Wait + Sync),
    alloc: Global,
    seed: &str,
    orders: &str,
) -> Result<(), Fail> {
    let output = joined(alloc, THREE_RESULTS, orders)?;
    let words = ["sim", seed];
    gives(
        rt,
        alloc,
        &words,
        THREE_STEPS,
        Status::Done,
        output.as_str(),
    )?;
    hold(rt, alloc, THREE_STEPS, orders)
}

#[test]
fn sim_writes_the_order_that_a_seed_chooses(rt: HostRuntime) -> Result<(), Fail> {
    for (seed, orders) in CHOSEN {
        chooses(&rt, rt.alloc(), seed, orders)?;
    }
    Ok(())
}

/// What is written after the results: the orders.
fn after_rest<'a>(rt: &impl Abort, written: &'a [u8]) -> Result<&'a str, Fail> {
    let Some((_, orders)) = str::from_utf8(written)?.split_once("rest\n") else {
        panic!(rt; "no results")
    };
    Ok(orders)
}

/// Runs words on a description, and answers the orders that are written after the results.
fn orders_of(
    rt: &(impl Abort + Threads + Wait + Sync),
    alloc: Global,
    command: &[&str],
    text: &str,
) -> Result<String, Fail> {
    let made = run(rt, alloc, command, text.as_bytes())?;
    same(rt, &text, made.left.status, Status::Done);
    let orders = after_rest(rt, made.sink.as_slice())?;
    Ok(String::from_str(alloc, orders)?)
}

/// The words of a line of orders, of which two neighbours are exchanged: a number says which.
fn exchanged<'a>(alloc: Global, line: &'a str, number: usize) -> Result<Vec<&'a str>, AllocError> {
    let mut words: Vec<&str> = line.split_whitespace().collect(alloc)?;
    // The line begins with `order` and its rank.
    if words.len() > 3 {
        let place = 2 + number % (words.len() - 3);
        words.swap(place, place + 1);
    }
    Ok(words)
}

/// Adds a line of these words.
fn push_words(text: &mut String, words: &[&str]) -> Result<(), AllocError> {
    let mut gap = "";
    for word in words {
        text.push_str(gap)?;
        text.push_str(word)?;
        gap = " ";
    }
    text.push_str("\n")
}

/// Adds a line of orders, of which two neighbours are exchanged.
fn push_exchanged(
    alloc: Global,
    text: &mut String,
    line: &str,
    number: usize,
) -> Result<(), AllocError> {
    let words = exchanged(alloc, line, number)?;
    push_words(text, words.as_slice())
}

/// Adds orders of which two neighbours are exchanged at one rank: a number says at which, and where.
fn push_orders(
    alloc: Global,
    text: &mut String,
    orders: &str,
    number: usize,
) -> Result<(), AllocError> {
    let ranks = orders.lines().count().max(1);
    for (rank, line) in orders.lines().enumerate() {
        if rank == number % ranks {
            push_exchanged(alloc, text, line, number)?;
        } else {
            text.push_str(line)?;
            text.push_str("\n")?;
        }
    }
    Ok(())
}

/// A description, and after it such orders.
fn with_exchanged(
    alloc: Global,
    text: &str,
    orders: &str,
    number: usize,
) -> Result<String, AllocError> {
    let mut both = String::from_str(alloc, text)?;
    push_orders(alloc, &mut both, orders, number)?;
    Ok(both)
}

/// A seed chooses orders that hold; with two neighbours exchanged they have the verdict of a program of its own.
fn checks_chosen_order(
    rt: &(impl Abort + Threads + Wait + Sync),
    alloc: Global,
    text: &str,
    seed: usize,
    verdict: &str,
) -> Result<(), Fail> {
    let number = format!(in alloc; "{seed}")?;
    let orders = orders_of(rt, alloc, &["sim", number.as_str()], text)?;
    hold(rt, alloc, text, orders.as_str())?;
    let exchanged = with_exchanged(alloc, text, orders.as_str(), seed)?;
    has_verdict(rt, alloc, exchanged.as_str(), verdict)
}

/// A text with orders has this verdict.
fn has_verdict(
    rt: &(impl Abort + Threads + Wait + Sync),
    alloc: Global,
    text: &str,
    verdict: &str,
) -> Result<(), Fail> {
    let line = format!(in alloc; "{verdict}\n")?;
    let made = run(rt, alloc, &["check"], text.as_bytes())?;
    same_bytes(rt, &text, made.sink.as_slice(), line.as_bytes());
    let holds = made.left.status == Status::Done;
    same(rt, &text, holds, verdict == "holds");
    Ok(())
}

/// The orders that 50 seeds choose hold; with two neighbours exchanged they have the verdicts of a program of its own.
fn checks_chosen_orders(
    rt: &(impl Abort + Threads + Wait + Sync),
    alloc: Global,
    text: &str,
    verdicts: &str,
) -> Result<(), Fail> {
    let mut seed = 0usize;
    for verdict in verdicts.lines() {
        seed = seed.saturating_add(1);
        checks_chosen_order(rt, alloc, text, seed, verdict)?;
    }
    same(rt, &text, seed, 50);
    Ok(())
}

#[test]
fn chosen_orders_hold_and_exchanged_ones_have_their_verdict(rt: HostRuntime) -> Result<(), Fail> {
    for (text, verdicts) in TEN.iter().zip(EXCHANGED) {
        checks_chosen_orders(&rt, rt.alloc(), text, verdicts)?;
    }
    Ok(())
}

/// The orders that are written after these results.
fn after_results<'a>(rt: &impl Abort, written: &'a [u8], results: &str) -> Result<&'a str, Fail> {
    let Some(orders) = str::from_utf8(written)?.strip_prefix(results) else {
        panic!(rt; "other results")
    };
    Ok(orders)
}

/// A trace by four workers begins with the results, and its orders hold.
fn traces(rt: &(impl Abort + Threads + Wait + Sync), alloc: Global) -> Result<(), Fail> {
    let made = run(rt, alloc, &["trace", "4"], THREE_STEPS.as_bytes())?;
    same(rt, &"a trace", made.left.status, Status::Done);
    same(rt, &"a trace", made.left.world, true);
    let orders = after_results(rt, made.sink.as_slice(), THREE_RESULTS)?;
    hold(rt, alloc, THREE_STEPS, orders)
}

#[test]
fn traces_begin_with_the_results_and_their_orders_hold(rt: HostRuntime) -> Result<(), Fail> {
    for _ in 0..50 {
        traces(&rt, rt.alloc())?;
    }
    Ok(())
}
