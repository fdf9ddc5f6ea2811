//! Whether the slices of a plan are changed by themselves.

ghost use Rattle.std.specs.Prelude.{◌≡◌, ◌<◌, ◌%◌, true, length};
ghost use Rattle.plan_core.specs.Plan.{cell, link};
ghost use Rattle.plan_slices.specs.Slices.{AreCuts, IsCutCell, IsCutLink, cut_at};
ghost use Rattle.plan_slices.specs.Checked.{AreCutCells, AreCutLinks, HasPieces, IsCutIfMoved};

use crate::cut::{Cut, cut_at};
use plan_core::{Cell, Link, LinkKind, Plan};

/// Whether the pieces of a cell in which bytes are combined are whole elements, or its blocks have one piece.
fn has_elements(cut: Cut, cell: &Cell) -> bool
    ensures { result ≡ true → HasPieces cut cell.now }
{
    match cell.op {
        None => true,
        Some(_op) => cut.count == 1 || cut.width % cell.ty.size() == 0,
    }
}

/// Whether a cell can be cut so.
fn is_cut_cell(cut: Cut, cell: &Cell) -> bool
    ensures { result ≡ true → IsCutCell cut cell.now }
{
    if cut.width == 0 || cut.count == 0 {
        return false;
    }
    match cut.block() {
        Some(block) => block > 0 && cell.length % block == 0 && has_elements(cut, cell),
        None => false,
    }
}

/// Whether a link that carries bytes goes from blocks to blocks.
fn is_cut_link(source: Cut, target: Cut, link: &Link) -> bool
    ensures { result ≡ true → IsCutLink source target link.now }
{
    match target.block() {
        Some(block) => {
            source.is(target)
                && block > 0
                && link.source_offset % block == 0
                && link.target_offset % block == 0
                && link.length % block == 0
        }
        None => false,
    }
}

/// Whether a link carries nothing, or goes from blocks to blocks.
fn is_cut_if_moved(source: Cut, target: Cut, link: &Link) -> bool
    ensures { result ≡ true → IsCutIfMoved source target link.now }
{
    match link.kind {
        LinkKind::Bump => true,
        LinkKind::Put => is_cut_link(source, target, link),
        LinkKind::Atomic => is_cut_link(source, target, link),
    }
}

/// Whether all cells can be cut so.
fn are_cut_cells(plan: &Plan, cuts: &[Cut]) -> bool
    requires { length plan.now.cells < 4294967296 }
    ensures { result ≡ true → AreCutCells plan.now cuts.now (length plan.now.cells) }
{
    let cells = plan.cells();
    for c in 0..cells.len() {
        if !is_cut_cell(cut_at(cuts, c as u32), &cells[c]) {
            return false;
        }
    }
    true
}

/// Whether all links that carry bytes go from blocks to blocks.
fn are_cut_links(plan: &Plan, cuts: &[Cut]) -> bool
    ensures { result ≡ true → AreCutLinks plan.now cuts.now (length plan.now.links) }
{
    let links = plan.links();
    for l in 0..links.len() {
        let link = &links[l];
        if !is_cut_if_moved(cut_at(cuts, link.source), cut_at(cuts, link.target), link) {
            return false;
        }
    }
    true
}

/// Whether the slices of a plan whose cells are cut so are changed by themselves: all cells have whole blocks, and what is carried goes
/// by whole blocks between cells that are cut alike.
pub fn are_cuts(plan: &Plan, cuts: &[Cut]) -> bool
    requires { length plan.now.cells < 4294967296 }
    ensures { result ≡ true → AreCuts plan.now cuts.now }
{
    are_cut_cells(plan, cuts) && are_cut_links(plan, cuts)
}
