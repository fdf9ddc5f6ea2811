//! The links that come to each cell.

ghost use Rattle.std.specs.Prelude.{◌≡◌, ◌<◌, ◌+◌, ◌-◌, ◌^◌, ◌++◌, ◌∷◌, [], nat_lt, if◌then◌else◌, IfOk, get_or, length, map, set};
ghost use Rattle.plan_core.specs.Plan.{all_cells, in_links, link};

use plan_core::Plan;
use plan_core::reading::{cell_count, link_at, link_count};
use plan_tables::ByRank;
use ptl_types::NoMemory;
use std::alloc::Global;

/// Adds a link to those that come to its target, if that is a cell of the plan.
fn add_link(into: &mut ByRank, cells: u32, plan: &Plan, l: u32) -> Result<(), NoMemory>
    requires cells { length into.old ≡ cells }
    requires link { l < length plan.now.links }
    ensures { IfOk result (λ u. into.new ≡
        (if nat_lt (link plan.now l).target cells
        then set into.old (link plan.now l).target (get_or into.old (link plan.now l).target [] ++ l ∷ [])
        else into.old)) }
{
    let target = link_at(plan, l).target;
    if target < cells {
        into.add(target, l)
    } else {
        Ok(())
    }
}

/// The numbers of the links that come to each cell, rising, one list a cell. In one pass.
///
/// # Errors
///
/// There was no memory for them.
pub fn links_by_target(alloc: Global, plan: &Plan) -> Result<ByRank, NoMemory>
    requires { length plan.now.cells + length plan.now.links < 2 ^ 32 - 1 }
    ensures { IfOk result (λ into. into ≡ map (in_links plan.now) (all_cells plan.now)) }
{
    let cells = cell_count(plan);
    let mut into = ByRank::open(alloc, cells)?;
    for l in 0..link_count(plan) {
        add_link(&mut into, cells, plan, l)?;
    }
    Ok(into)
}

/// The links that come to one cell, out of the table of all.
pub fn links_to<'a>(plan: &Plan, into: &'a ByRank, c: u32) -> &'a [u32]
    requires cell { c < length plan.now.cells }
    requires table { into.now ≡ map (in_links plan.now) (all_cells plan.now) }
    ensures { result.now ≡ in_links plan.now c }
{
    into.at(c)
}
