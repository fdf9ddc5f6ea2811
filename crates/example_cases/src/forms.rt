//! What each form that draws, runs or tells of a plan writes of one, held against the files beside it, and the verdicts on orders of its
//! ranks.

use crate::comparing::compared;
use crate::drawn::written_for;
use crate::told::print_answer;
use std::sync::Wait;
use std::thread::Threads;
use std::{fs, io};

/// Prints how what these words write of a text is found, beside the file of what is wanted.
fn print_written(
    rt: &HostRuntime,
    threads: &(impl Threads + Wait + Sync),
    name: &str,
    line: &[&str],
    other: &str,
) -> io::Result<()> {
    let text = fs::read(rt, name)?;
    let wanted = fs::read(rt, other)?;
    let Ok(sink) = written_for(threads, rt.alloc(), line, text.as_slice()) else {
        return println!(rt; "{name}: no memory");
    };
    let found = compared(sink.as_slice(), wanted.as_slice());
    println!(rt; "{name}: {found} {other}")
}

/// Prints how what these words write of a plan is found, beside the file of what is wanted.
fn print_form(
    rt: &HostRuntime,
    threads: &(impl Threads + Wait + Sync),
    stem: &str,
    line: &[&str],
    ending: &str,
) -> io::Result<()> {
    let given = format!(in rt.alloc(); "{stem}.given")?;
    let other = format!(in rt.alloc(); "{stem}.{ending}")?;
    print_written(rt, threads, given.as_str(), line, other.as_str())
}

/// Prints the verdict on the orders of a file, after the plan, and what stands beside it.
fn print_verdict(
    rt: &HostRuntime,
    threads: &(impl Threads + Wait + Sync),
    stem: &str,
    ending: &str,
) -> io::Result<()> {
    let given = format!(in rt.alloc(); "{stem}.given")?;
    let orders = format!(in rt.alloc(); "{stem}.{ending}")?;
    let mut text = fs::read(rt, given.as_str())?;
    let lines = fs::read(rt, orders.as_str())?;
    text.extend_from_slice(lines.as_slice())?;
    print_answer(rt, threads, orders.as_str(), &["check"], text.as_slice())
}

/// Prints what is found of a plan's limits, of its operations in words and as a graph, and of orders.
pub fn print_forms(
    rt: &HostRuntime,
    threads: &(impl Threads + Wait + Sync),
    stem: &str,
) -> io::Result<()> {
    print_form(rt, threads, stem, &["limits"], "limits")?;
    print_form(rt, threads, stem, &["explain"], "explain")?;
    print_form(rt, threads, stem, &["explain", "1"], "explain_1")?;
    print_form(rt, threads, stem, &["explain", "--dot"], "dot")?;
    print_form(
        rt,
        threads,
        stem,
        &["cost", "1000", "100", "100", "80"],
        "cost",
    )?;
    print_verdict(rt, threads, stem, "orders")?;
    print_verdict(rt, threads, stem, "too_early")?;
    print_verdict(rt, threads, stem, "torn")
}

/// Prints whether `trace` writes of a plan what its runs do, and the verdict on the orders that it writes then.
fn print_traced(
    rt: &HostRuntime,
    threads: &(impl Threads + Wait + Sync),
    stem: &str,
    ending: &str,
) -> io::Result<()> {
    let given = format!(in rt.alloc(); "{stem}.given")?;
    let other = format!(in rt.alloc(); "{stem}.{ending}")?;
    let mut text = fs::read(rt, given.as_str())?;
    let wanted = fs::read(rt, other.as_str())?;
    let Ok(sink) = written_for(threads, rt.alloc(), &["trace", "2"], text.as_slice()) else {
        return println!(rt; "{given}: no memory");
    };
    if !sink.as_slice().starts_with(wanted.as_slice()) {
        return println!(rt; "{given}: traced, another text than {other}");
    }
    let orders = sink.as_slice().get(wanted.len()..).unwrap_or(&[]);
    text.extend_from_slice(orders)?;
    print_answer(rt, threads, "orders traced", &["check"], text.as_slice())
}

/// Prints what is found of the plan that is drawn of a description, and of runs of another plan: on one thread, in the order that a seed
/// chooses, and by two workers.
pub fn print_runs(
    rt: &HostRuntime,
    threads: &(impl Threads + Wait + Sync),
    drawn: &str,
    stem: &str,
) -> io::Result<()> {
    let description = format!(in rt.alloc(); "{drawn}.coll")?;
    let plan = format!(in rt.alloc(); "{drawn}.plan")?;
    print_written(rt, threads, description.as_str(), &["draw"], plan.as_str())?;
    print_form(rt, threads, stem, &["once"], "out")?;
    print_form(rt, threads, stem, &["sim", "7"], "sim_7")?;
    print_form(rt, threads, stem, &["run", "2"], "out")?;
    print_form(rt, threads, stem, &["steady", "2"], "out")?;
    print_traced(rt, threads, stem, "out")
}
