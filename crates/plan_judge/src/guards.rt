//! Which cells can't be reached before their own rank's start.

ghost use Rattle.std.specs.Prelude.{◌≡◌, ◌<◌, ◌+◌, ◌-◌, ◌^◌, IfOk, length, map};
ghost use Rattle.plan_core.specs.Plan.{all_cells, in_links};
ghost use Rattle.plan_judge.specs.Guards.{guarded_below, is_guard, next_guarded};

use crate::incoming::links_to;
use crate::kinds::is_bump;
use plan_core::Plan;
use plan_core::reading::{cell_at, cell_count, link_at};
use plan_tables::ByRank;
use ptl_types::NoMemory;
use std::alloc::{AllocError, Global};

/// Whether a link is a bump that guards its target: from the go cell of this cell's rank, or from a guarded cell before it.
fn is_guard(plan: &Plan, before: &[bool], c: u32, l: u32) -> bool
    requires cell { c < length plan.now.cells }
    requires link { l < length plan.now.links }
    ensures { result ≡ is_guard plan.now before.now c l }
{
    let link = link_at(plan, l);
    is_bump(link.kind)
        && (link.source == cell_at(plan, c).rank
            || before.get(link.source as usize).copied().unwrap_or(false))
}

/// Whether a cell is guarded, from those before it. These links come to it.
fn next_guarded(plan: &Plan, before: &[bool], c: u32, links: &[u32]) -> bool
    requires cell { c < length plan.now.cells }
    requires links { links.now ≡ in_links plan.now c }
    ensures { result ≡ next_guarded plan.now before.now c }
{
    for l in links {
        if is_guard(plan, before, c, *l) {
            return true;
        }
    }
    false
}

/// Of each cell whether it is guarded.
fn guard_list(alloc: Global, plan: &Plan, into: &ByRank) -> Result<Vec<bool>, AllocError>
    requires at_most { length plan.now.cells + length plan.now.links < 2 ^ 32 - 1 }
    requires table { into.now ≡ map (in_links plan.now) (all_cells plan.now) }
    ensures { IfOk result (λ guards. guards.items ≡ guarded_below plan.now (length plan.now.cells)) }
{
    let mut guards = Vec::new(alloc);
    for c in 0..cell_count(plan) {
        let guarded = next_guarded(plan, guards.as_slice(), c, links_to(plan, into, c));
        guards.push(guarded)?;
    }
    Ok(guards)
}

/// Of each cell whether it is guarded, in one pass.
///
/// # Errors
///
/// There was no memory for the list.
pub(crate) fn guards(alloc: Global, plan: &Plan, into: &ByRank) -> Result<Vec<bool>, NoMemory>
    requires at_most { length plan.now.cells + length plan.now.links < 2 ^ 32 - 1 }
    requires table { into.now ≡ map (in_links plan.now) (all_cells plan.now) }
    ensures { IfOk result (λ guards. guards.items ≡ guarded_below plan.now (length plan.now.cells)) }
{
    match guard_list(alloc, plan, into) {
        Ok(guards) => Ok(guards),
        Err(_) => Err(NoMemory),
    }
}
