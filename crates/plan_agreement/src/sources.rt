//! From which inputs the bytes of a cell come.

ghost use Rattle.std.specs.Prelude.{◌≡◌, ◌<◌, ◌+◌, ◌-◌, ◌^◌, None, length, map};
ghost use Rattle.plan_core.specs.Plan.{all_cells, in_links};
ghost use Rattle.schedule_compiler.specs.shapes.Drawing.{drawing_of, plan_of};
ghost use Rattle.schedule_compiler.specs.shapes.Footprint.{refusal};
ghost use Rattle.plan_agreement.specs.Agreement.{IsPlanFor};

use crate::comparing::{Unlike, due_cell, is_known};
use crate::witness::list_count;
use coll_shape::Shape;
use given_lines::Mark;
use mark_judge::all_false;
use plan_core::reading::cell_count;
use plan_core::{LinkKind, Plan};
use plan_judge::{links_by_target, links_to};
use plan_tables::ByRank;
use ptl_types::NoMemory;
use schedule_compiler::shapes::DrawnShape;
use std::alloc::Global;

/// No list has this number.
pub(crate) const NO_LIST: u32 = u32::MAX;

/// Whether a cell is noted.
fn is_noted(noted: &[bool], c: u64) -> bool {
    match noted.get(c as usize) {
        Some(so) => *so,
        None => false,
    }
}

/// Notes a cell, if there is one of that number.
fn note(noted: &mut Vec<bool>, c: u32) {
    if (c as usize) < noted.len() {
        noted[c as usize] = true;
    }
}

/// Notes the source of a link that carries bytes.
fn note_source(noted: &mut Vec<bool>, plan: &Plan, l: u32) {
    if let Some(link) = plan.links().get(l as usize) {
        match link.kind {
            LinkKind::Put | LinkKind::Atomic => note(noted, link.source),
            LinkKind::Bump => {}
        }
    }
}

/// Notes the cells from which bytes come into a cell, if it is noted itself.
fn note_sources(noted: &mut Vec<bool>, plan: &Plan, into: &ByRank, c: u32)
    requires cell { c < length plan.now.cells }
    requires table { into.now ≡ map (in_links plan.now) (all_cells plan.now) }
{
    if is_noted(noted.as_slice(), u64::from(c)) {
        for l in links_to(plan, into, c) {
            note_source(noted, plan, *l);
        }
    }
}

/// Of each cell whether bytes of it come into this one, by links that rise.
fn sources_of(alloc: Global, plan: &Plan, cell: u32) -> Result<Vec<bool>, NoMemory>
    requires { length plan.now.cells + length plan.now.links < 2 ^ 32 - 1 }
{
    let into = links_by_target(alloc, plan)?;
    let Ok(mut noted) = all_false(alloc, plan.cells().len()) else {
        return Err(NoMemory);
    };
    note(&mut noted, cell);
    let cells = cell_count(plan);
    for k in 0..cells {
        note_sources(&mut noted, plan, &into, cells - 1 - k);
    }
    Ok(noted)
}

/// The first list of an input that only one of two notes has, of so many lists at so many ranks together.
fn first_other(one: &[bool], other: &[bool], ranks: u32, lists: u32) -> u32 {
    for i in 0..lists {
        let cell = u64::from(ranks) + u64::from(i);
        if is_noted(one, cell) != is_noted(other, cell) {
            return i;
        }
    }
    NO_LIST
}

/// The first list of an input of which bytes come into the cell of this mark and none into the cell that holds its buffer in the shape's
/// own plan, or the other way round. Lists are counted input by input, and by rank in each.
///
/// # Errors
///
/// There was no memory.
pub(crate) fn other_list(
    alloc: Global,
    plan: &Plan,
    shape: &Shape,
    drawn: &DrawnShape,
    marks: &[Mark],
    unlike: Option<Unlike>,
) -> Result<u32, NoMemory>
    requires fits { IsPlanFor plan.now shape.now }
    requires accepted { refusal shape.now ≡ None }
    requires plan { drawn.now.plan ≡ plan_of shape.now }
    requires held { drawn.now.held ≡ (drawing_of shape.now).held }
{
    shape.recall_form();
    let Some(Unlike { mark, .. }) = unlike else {
        return Ok(NO_LIST);
    };
    let Some(Mark::Result { buffer, rank, cell }) = marks.get(mark as usize).copied() else {
        return Ok(NO_LIST);
    };
    if !is_known(plan, shape, buffer, rank, cell) {
        return Ok(NO_LIST);
    }
    let Some(due) = due_cell(shape, &drawn.held, buffer, rank) else {
        return Ok(NO_LIST);
    };
    let own = sources_of(alloc, &drawn.plan, due)?;
    let given = sources_of(alloc, plan, cell)?;
    Ok(first_other(
        own.as_slice(),
        given.as_slice(),
        shape.ranks(),
        list_count(shape),
    ))
}
