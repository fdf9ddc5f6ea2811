//! The path that a plan's time rests on.

ghost use Rattle.std.specs.Prelude.{None, ◌≡◌, ◌<◌, ◌≤◌, IfOk, IfSome, get_or, length, set};
ghost use Rattle.plan_core.specs.Plan.{link};
ghost use Rattle.plan_costs.specs.Path.{IsCosted, IsCritical};
ghost use Rattle.plan_costs.specs.Lasts.{AreLast, IsLatestBelow, later_cell, later_link};
ghost use Rattle.plan_costs.specs.Times.{IsTimed};

use crate::numbers::LogGp;
use crate::spent::{Spent, Timed, counted, nothing, plus, spent_by};
use crate::times::Times;
use plan_core::Plan;
use plan_core::reading::{cell_count, link_at, link_count};
use ptl_types::NoMemory;
use std::alloc::{AllocError, Global};
use std::marker::Model;

/// The links of a plan on which its time rests: the cell that is reached last, the link that is counted last there, the link that is
/// counted last where that one comes from, and so on, to a cell to which no link comes.
#[derive(Debug, Drop)]
pub struct CriticalPath {
    end: u32,
    links: Vec<u32>,
    spent: Spent,
}

impl Model for CriticalPath {
    ghost use Rattle.plan_costs.specs.Path.{PathOf};

    ghost Value = { PathOf };

    ghost view = { λ p. record { end = p.end; links = p.links.items; spent = p.spent } };
}

impl CriticalPath {
    /// The cell that is reached last; of several the lowest.
    pub fn end(&self) -> u32
        ensures { result ≡ self.now.end }
    {
        self.end
    }

    /// The links, from the first to the last.
    pub fn links(&self) -> &[u32]
        ensures { result.now ≡ self.now.links }
    {
        self.links.as_slice()
    }

    /// What they take together: all of the plan's time.
    pub fn spent(&self) -> Spent
        ensures { result ≡ self.now.spent }
    {
        self.spent
    }
}

/// The cell that is reached later; of two that are reached at once the first of these.
fn later_cell(times: &Times, a: u32, b: u32) -> u32
    requires first { a < length times.now.cells }
    requires second { b < length times.now.cells }
    ensures { result ≡ later_cell times.now a b }
{
    if times.cell(a) < times.cell(b) { b } else { a }
}

/// The cell that is reached last.
fn latest(plan: &Plan, times: &Times) -> u32
    requires timed { IsTimed plan.now }
    requires some { 1 ≤ length plan.now.cells }
    requires times { length times.now.cells ≡ length plan.now.cells }
    ensures { IsLatestBelow plan.now times.now (length plan.now.cells) result }
{
    let mut latest: u32 = 0;
    for c in 0..cell_count(plan) {
        latest = later_cell(times, latest, c);
    }
    latest
}

/// The link that is counted later; of two that are counted at once the one before.
fn later_link(timed: &Timed, l: u32, before: Option<u32>) -> Option<u32>
    requires costed { IsCosted timed.now.numbers.now timed.now.plan.now timed.now.times.now }
    requires link { l < length timed.now.plan.now.links }
    requires before { IfSome before (λ m. m < length timed.now.plan.now.links) }
    ensures { result ≡ later_link timed.now.numbers.now timed.now.plan.now timed.now.times.now l before }
{
    match before {
        None => Some(l),
        Some(m) => {
            if counted(timed, m) < counted(timed, l) {
                Some(l)
            } else {
                Some(m)
            }
        }
    }
}

/// Looks at one more link.
fn note(last: &mut Vec<Option<u32>>, timed: &Timed, l: u32)
    requires costed { IsCosted timed.now.numbers.now timed.now.plan.now timed.now.times.now }
    requires link { l < length timed.now.plan.now.links }
    requires place { (link timed.now.plan.now l).target < length last.old.items }
    requires before { IfSome (get_or last.old.items (link timed.now.plan.now l).target None) (λ m. m < length timed.now.plan.now.links) }
    ensures { last.new.items ≡ set last.old.items (link timed.now.plan.now l).target
        (later_link timed.now.numbers.now timed.now.plan.now timed.now.times.now l
        (get_or last.old.items (link timed.now.plan.now l).target None)) }
{
    let place = link_at(timed.plan, l).target as usize;
    last[place] = later_link(timed, l, last[place]);
}

/// The link that is counted last at each cell, if any comes there, in one pass.
fn last_links(alloc: Global, timed: &Timed) -> Result<Vec<Option<u32>>, AllocError>
    requires costed { IsCosted timed.now.numbers.now timed.now.plan.now timed.now.times.now }
    ensures { IfOk result (λ last. AreLast timed.now.numbers.now timed.now.plan.now timed.now.times.now
        (length timed.now.plan.now.links) last.items) }
{
    let mut last: Vec<Option<u32>> = Vec::new(alloc);
    last.resize(cell_count(timed.plan) as usize, None)?;
    for l in 0..link_count(timed.plan) {
        note(&mut last, timed, l);
    }
    Ok(last)
}

/// The path to a cell, from its end on.
fn walk(
    alloc: Global,
    timed: &Timed,
    last: &[Option<u32>],
    end: u32,
) -> Result<CriticalPath, AllocError>
    requires costed { IsCosted timed.now.numbers.now timed.now.plan.now timed.now.times.now }
    requires last { AreLast timed.now.numbers.now timed.now.plan.now timed.now.times.now (length timed.now.plan.now.links) last.now }
    requires end { IsLatestBelow timed.now.plan.now timed.now.times.now (length timed.now.plan.now.cells) end }
    ensures { IfOk result (IsCritical timed.now.numbers.now timed.now.plan.now timed.now.times.now) }
{
    timed.times.recall_cell(end);
    let mut links = Vec::new(alloc);
    let mut spent = nothing();
    let mut at = end;
    while let Some(l) = last[at as usize] {
        links.push(l)?;
        spent = plus(spent_by(timed, l), spent);
        at = link_at(timed.plan, l).source;
    }
    links.reverse();
    Ok(CriticalPath { end, links, spent })
}

/// The critical path of a plan whose times these are.
fn find_path(alloc: Global, timed: &Timed) -> Result<CriticalPath, AllocError>
    requires costed { IsCosted timed.now.numbers.now timed.now.plan.now timed.now.times.now }
    requires some { 1 ≤ length timed.now.plan.now.cells }
    ensures { IfOk result (IsCritical timed.now.numbers.now timed.now.plan.now timed.now.times.now) }
{
    let last = last_links(alloc, timed)?;
    walk(
        alloc,
        timed,
        last.as_slice(),
        latest(timed.plan, timed.times),
    )
}

/// The critical path of a plan whose times by these numbers are these, in one pass over its links.
///
/// # Errors
///
/// There was no memory for it.
pub fn critical_path(
    alloc: Global,
    plan: &Plan,
    numbers: &LogGp,
    times: &Times,
) -> Result<CriticalPath, NoMemory>
    requires costed { IsCosted numbers.now plan.now times.now }
    requires some { 1 ≤ length plan.now.cells }
    ensures { IfOk result (IsCritical numbers.now plan.now times.now) }
{
    let timed = Timed {
        plan,
        numbers,
        times,
    };
    match find_path(alloc, &timed) {
        Ok(path) => Ok(path),
        Err(_) => Err(NoMemory),
    }
}
