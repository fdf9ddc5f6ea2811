//! What is wrong with a cell.

ghost use Rattle.std.specs.Prelude.{◌≡◌, ◌<◌, ◌≤◌, ◌+◌, ◌-◌, ◌*◌, ◌/◌, ◌%◌, ◌^◌, All, IfOk, length, sum_by, get_or, if◌then◌else◌};
ghost use Rattle.plan_core.specs.Plan.{in_links, is_bump, link};
ghost use Rattle.plan_judge.specs.Sizes.{IsSized};
ghost use Rattle.plan_judge.specs.Guards.{guarded_below};
ghost use Rattle.plan_judge.specs.Causes.{cell_rows, first_cause, first_other, go_rows, input_rows, is_go, is_input_cell};
ghost use Rattle.plan_judge.specs.Causes.{needs_its_links, other_rows};

use crate::flaw::CellCause;
use crate::kinds::is_bump;
use crate::overlap::puts_overlap;
use crate::whole::first_other;
use plan_core::Plan;
use plan_core::reading::{cell_at, link_at};
use ptl_types::NoMemory;
use std::alloc::Global;

/// Whether a cell is the go cell of the rank of its number. These links come to it.
fn is_go(plan: &Plan, c: u32, links: &[u32]) -> bool
    requires cell { c < length plan.now.cells }
    requires links { links.now ≡ in_links plan.now c }
    ensures { result ≡ is_go plan.now c }
{
    let cell = cell_at(plan, c);
    cell.rank == c && cell.length == 0 && cell.needs == 1 && links.is_empty()
}

/// What is wrong with a cell in the place of a go cell.
fn go_cause(plan: &Plan, c: u32, links: &[u32]) -> Option<CellCause>
    requires cell { c < length plan.now.cells }
    requires links { links.now ≡ in_links plan.now c }
    ensures { result ≡ first_cause (go_rows plan.now c) }
{
    if is_go(plan, c, links) {
        None
    } else {
        Some(CellCause::BadGo)
    }
}

/// Whether a cell needs as many messages and increments as there are links to it.
fn needs_its_links(plan: &Plan, c: u32, links: &[u32]) -> bool
    requires cell { c < length plan.now.cells }
    requires links { links.now ≡ in_links plan.now c }
    ensures { result ≡ needs_its_links plan.now c }
{
    cell_at(plan, c).needs == links.len() as u64
}

/// Whether the cell of an input is as it must be, counted over all inputs, rank 0 first in each.
fn is_input_cell(plan: &Plan, lengths: &[u64], i: u32) -> bool
    requires ranks { 0 < plan.now.ranks }
    requires cell { plan.now.ranks + i < length plan.now.cells }
    requires at_most { length plan.now.cells < 2 ^ 24 }
    ensures { result ≡ is_input_cell plan.now lengths.now i }
{
    let ranks = plan.ranks();
    let cell = cell_at(plan, ranks + i);
    let length = lengths.get((i / ranks) as usize).copied().unwrap_or(0);
    cell.op.is_none() && cell.rank == i % ranks && cell.length == length
}

/// What is wrong with a cell that is to hold an input.
fn input_cause(
    plan: &Plan,
    lengths: &[u64],
    guards: &[bool],
    c: u32,
    links: &[u32],
) -> Option<CellCause>
    requires ranks { 0 < plan.now.ranks }
    requires place { plan.now.ranks ≤ c }
    requires cell { c < length plan.now.cells }
    requires at_most { length plan.now.cells < 2 ^ 24 }
    requires guards { guards.now ≡ guarded_below plan.now (length plan.now.cells) }
    requires links { links.now ≡ in_links plan.now c }
    ensures { result ≡ first_cause (input_rows plan.now lengths.now c) }
{
    if !needs_its_links(plan, c, links) {
        return Some(CellCause::Needs);
    }
    if !is_input_cell(plan, lengths, c - plan.ranks()) {
        return Some(CellCause::BadInput);
    }
    if guards[c as usize] {
        None
    } else {
        Some(CellCause::Unguarded)
    }
}

/// The bytes that these links carry, but for bumps.
fn bytes_put(plan: &Plan, links: &[u32]) -> u128
    requires known { All (λ l. l < length plan.now.links) links.now }
    requires at_most { length links.now < 2 ^ 32 }
    ensures { result ≡ sum_by (λ l. if is_bump (link plan.now l).kind then 0 else (link plan.now l).length) links.now }
{
    let mut bytes = 0;
    for l in links {
        let link = link_at(plan, *l);
        if !is_bump(link.kind) {
            bytes += u128::from(link.length);
        }
    }
    bytes
}

/// What is wrong with a cell after those of the inputs.
fn other_cause(
    alloc: Global,
    plan: &Plan,
    c: u32,
    links: &[u32],
) -> Result<Option<CellCause>, NoMemory>
    requires cell { c < length plan.now.cells }
    requires at_most { length plan.now.links < 2 ^ 32 }
    requires links { links.now ≡ in_links plan.now c }
    ensures { IfOk result (λ cause. cause ≡ first_cause (other_rows plan.now c)) }
{
    if !needs_its_links(plan, c, links) {
        return Ok(Some(CellCause::Needs));
    }
    let cell = cell_at(plan, c);
    if cell.op.is_some() {
        return Ok(None);
    }
    if bytes_put(plan, links) != u128::from(cell.length) {
        return Ok(Some(CellCause::NotCovered));
    }
    if puts_overlap(alloc, plan, links)? {
        Ok(Some(CellCause::Overlap))
    } else {
        Ok(None)
    }
}

/// The first cause that a cell isn't taken. These links come to it.
///
/// # Errors
///
/// There was no memory to sort the puts to it.
pub(crate) fn cell_cause(
    alloc: Global,
    plan: &Plan,
    lengths: &[u64],
    guards: &[bool],
    c: u32,
    links: &[u32],
) -> Result<Option<CellCause>, NoMemory>
    requires sized { IsSized plan.now lengths.now }
    requires cell { c < length plan.now.cells }
    requires guards { guards.now ≡ guarded_below plan.now (length plan.now.cells) }
    requires links { links.now ≡ in_links plan.now c }
    ensures { IfOk result (λ cause. cause ≡ first_cause (cell_rows plan.now lengths.now c)) }
{
    let ranks = plan.ranks();
    let cell = cell_at(plan, c);
    if cell.rank >= ranks {
        return Ok(Some(CellCause::BadRank));
    }
    if cell.length % cell.ty.size() != 0 {
        return Ok(Some(CellCause::PartElement));
    }
    if c < ranks {
        return Ok(go_cause(plan, c, links));
    }
    if u128::from(c) < first_other(plan, lengths) {
        return Ok(input_cause(plan, lengths, guards, c, links));
    }
    other_cause(alloc, plan, c, links)
}
