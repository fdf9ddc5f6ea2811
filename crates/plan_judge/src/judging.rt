//! The first flaw of a plan.

ghost use Rattle.std.specs.Prelude.{◌≡◌, ◌<◌, ◌≤◌, ◌+◌, ◌-◌, ◌^◌, IfOk, length, map};
ghost use Rattle.plan_core.specs.Plan.{all_cells, all_links, in_links};
ghost use Rattle.plan_judge.specs.Causes.{cell_flaw, first_found, first_other, judged, link_flaw};
ghost use Rattle.plan_judge.specs.Sizes.{IsSized};
ghost use Rattle.plan_judge.specs.Guards.{guarded_below};

use crate::cells::cell_cause;
use crate::flaw::Flaw;
use crate::guards::guards;
use crate::incoming::{links_by_target, links_to};
use crate::links::link_cause;
use crate::whole::{first_other, plan_cause};
use plan_core::Plan;
use plan_core::reading::{cell_count, link_count};
use plan_tables::ByRank;
use ptl_types::NoMemory;
use std::alloc::Global;

/// What is wrong with a cell. These links come to it.
fn cell_flaw(
    alloc: Global,
    plan: &Plan,
    lengths: &[u64],
    guards: &[bool],
    cell: u32,
    links: &[u32],
) -> Result<Option<Flaw>, NoMemory>
    requires sized { IsSized plan.now lengths.now }
    requires cell { cell < length plan.now.cells }
    requires guards { guards.now ≡ guarded_below plan.now (length plan.now.cells) }
    requires links { links.now ≡ in_links plan.now cell }
    ensures { IfOk result (λ flaw. flaw ≡ cell_flaw plan.now lengths.now cell) }
{
    match cell_cause(alloc, plan, lengths, guards, cell, links)? {
        Some(cause) => Ok(Some(Flaw::Cell { cell, cause })),
        None => Ok(None),
    }
}

/// The first flaw of the cells, in order.
fn first_cell_flaw(
    alloc: Global,
    plan: &Plan,
    lengths: &[u64],
    into: &ByRank,
    guards: &[bool],
) -> Result<Option<Flaw>, NoMemory>
    requires sized { IsSized plan.now lengths.now }
    requires table { into.now ≡ map (in_links plan.now) (all_cells plan.now) }
    requires guards { guards.now ≡ guarded_below plan.now (length plan.now.cells) }
    ensures { IfOk result (λ flaw. flaw ≡ first_found (cell_flaw plan.now lengths.now) (all_cells plan.now)) }
{
    for c in 0..cell_count(plan) {
        let flaw = cell_flaw(alloc, plan, lengths, guards, c, links_to(plan, into, c))?;
        if flaw.is_some() {
            return Ok(flaw);
        }
    }
    Ok(None)
}

/// What is wrong with a link. The cells below `others` are go cells or hold inputs.
fn link_flaw(plan: &Plan, lengths: &[u64], others: u128, link: u32) -> Option<Flaw>
    requires others { others ≡ first_other plan.now lengths.now }
    requires link { link < length plan.now.links }
    ensures { result ≡ link_flaw plan.now lengths.now link }
{
    let cause = link_cause(plan, others, link)?;
    Some(Flaw::Link { link, cause })
}

/// The first flaw of the links, in order.
fn first_link_flaw(plan: &Plan, lengths: &[u64]) -> Option<Flaw>
    requires sized { IsSized plan.now lengths.now }
    ensures { result ≡ first_found (link_flaw plan.now lengths.now) (all_links plan.now) }
{
    let others = first_other(plan, lengths);
    for l in 0..link_count(plan) {
        let flaw = link_flaw(plan, lengths, others, l);
        if flaw.is_some() {
            return flaw;
        }
    }
    None
}

/// The first flaw of a plan for inputs, each of whose lists has so many bytes at every rank: of the plan as a whole, then of its
/// cells in order, then of its links. None: the plan is sound, each of its inputs' cells is guarded, and the inputs fit.
///
/// It takes a number of steps in the order of the cells and links, and for each cell that of sorting the puts to it.
///
/// # Errors
///
/// There was no memory for the tables.
pub fn judge(alloc: Global, plan: &Plan, lengths: &[u64]) -> Result<Option<Flaw>, NoMemory>
    ensures { IfOk result (λ flaw. flaw ≡ judged plan.now lengths.now) }
{
    if let Some(cause) = plan_cause(plan, lengths) {
        return Ok(Some(Flaw::Plan { cause }));
    }
    let into = links_by_target(alloc, plan)?;
    let guards = guards(alloc, plan, &into)?;
    let flaw = first_cell_flaw(alloc, plan, lengths, &into, guards.as_slice())?;
    if flaw.is_some() {
        return Ok(flaw);
    }
    Ok(first_link_flaw(plan, lengths))
}
