//! The plan of a slice.

ghost use Rattle.std.specs.Prelude.{◌≡◌, ◌<◌, ◌+◌, ◌^◌, ◌-◌, ℕ, IfOk, length, map};
ghost use Rattle.number_lists.specs.Numbers.{from_to};
ghost use Rattle.plan_core.specs.Plan.{cell, link};
ghost use Rattle.plan_slices.specs.Slices.{AreCuts, cut_at, sliced, sliced_cell, sliced_link};

use crate::cut::{Cut, cut_at};
use plan_core::reading::{cell_at, link_at};
use plan_core::{Cell, Link, Plan};
use ptl_types::NoMemory;
use std::alloc::{AllocError, Global};

/// A cell of a slice's plan.
fn sliced_cell(cut: Cut, cell: Cell) -> Cell
    requires { 0 < cut.count }
    ensures { result ≡ sliced_cell cut cell }
{
    Cell {
        rank: cell.rank,
        ty: cell.ty,
        op: cell.op,
        length: cell.length / cut.count,
        needs: cell.needs,
    }
}

/// A link of a slice's plan, whose target is cut so.
fn sliced_link(cut: Cut, link: Link) -> Link
    requires { 0 < cut.count }
    ensures { result ≡ sliced_link cut link }
{
    Link {
        source: link.source,
        source_offset: link.source_offset / cut.count,
        length: link.length / cut.count,
        target: link.target,
        target_offset: link.target_offset / cut.count,
        kind: link.kind,
    }
}

/// The cells of a slice's plan.
fn sliced_cells(alloc: Global, plan: &Plan, cuts: &[Cut]) -> Result<Vec<Cell>, AllocError>
    requires few { length plan.now.cells < 4294967296 }
    requires cuts { AreCuts plan.now cuts.now }
    ensures { IfOk result (λ v. v.items ≡ (sliced plan.now cuts.now).cells) }
{
    let count = plan.cells().len() as u32;
    let mut cells = Vec::with_capacity(alloc, count as usize)?;
    for c in 0..count {
        cells.push(sliced_cell(cut_at(cuts, c), cell_at(plan, c)))?;
    }
    Ok(cells)
}

/// The links of a slice's plan.
fn sliced_links(alloc: Global, plan: &Plan, cuts: &[Cut]) -> Result<Vec<Link>, AllocError>
    requires few { length plan.now.links < 4294967296 }
    requires cuts { AreCuts plan.now cuts.now }
    requires targets { (l : ℕ) → l < length plan.now.links → (link plan.now l).target < length plan.now.cells }
    ensures { IfOk result (λ v. v.items ≡ (sliced plan.now cuts.now).links) }
{
    let count = plan.links().len() as u32;
    let mut links = Vec::with_capacity(alloc, count as usize)?;
    for l in 0..count {
        let link = link_at(plan, l);
        links.push(sliced_link(cut_at(cuts, link.target), link))?;
    }
    Ok(links)
}

/// The plan of a slice, where a plan's cells are cut so.
///
/// # Errors
///
/// There was no memory.
pub fn sliced(alloc: Global, plan: &Plan, cuts: &[Cut]) -> Result<Plan, NoMemory>
    requires few { length plan.now.cells + length plan.now.links < 2 ^ 32 - 1 }
    requires cuts { AreCuts plan.now cuts.now }
    requires targets { (l : ℕ) → l < length plan.now.links → (link plan.now l).target < length plan.now.cells }
    ensures { IfOk result (λ q. q ≡ sliced plan.now cuts.now) }
{
    match (
        sliced_cells(alloc, plan, cuts),
        sliced_links(alloc, plan, cuts),
    ) {
        (Ok(cells), Ok(links)) => Ok(Plan::of(plan.ranks(), plan.remote(), cells, links)),
        _ => Err(NoMemory),
    }
}
