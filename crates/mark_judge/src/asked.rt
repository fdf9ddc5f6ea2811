//! Which lines a description asks for, and which cells they may name.

ghost use Rattle.std.specs.Prelude.{◌≡◌, ◌<◌, ◌≤◌, ◌==◌, ◌&&◌, true, length};
ghost use Rattle.coll_shape.specs.Collectives.{is_in};
ghost use Rattle.coll_shape.specs.Outline.{buffer_at, group_at};
ghost use Rattle.mark_judge.specs.Due.{cell_of, does_fit, due_of, is_barrier, is_barrier_at, is_due, is_good, is_list_of, is_on, mark_at};

use crate::flaw::Due;
use coll_shape::{CollStep, Shape, is_in};
use given_lines::Mark;
use plan_core::Plan;
use plan_judge::same_type;
use ptl_types::Rank;

/// The line at a place.
pub(crate) fn mark_at(marks: &[Mark], i: usize) -> Mark
    requires { i < length marks.now }
    ensures { result ≡ mark_at marks.now i }
{
    marks[i]
}

/// What a line is for.
pub(crate) fn due_of(mark: Mark) -> Due
    ensures { result ≡ due_of mark }
{
    match mark {
        Mark::Result { buffer, rank, .. } => Due::Result { buffer, rank },
        Mark::Enter { step, rank, .. } => Due::Enter { step, rank },
        Mark::Leave { step, rank, .. } => Due::Leave { step, rank },
    }
}

/// The cell that a line names.
fn cell_of(mark: Mark) -> u32
    ensures { result ≡ cell_of mark }
{
    match mark {
        Mark::Result { cell, .. } | Mark::Enter { cell, .. } | Mark::Leave { cell, .. } => cell,
    }
}

/// Whether a step is a barrier.
fn is_barrier(step: CollStep) -> bool
    ensures { result ≡ is_barrier step }
{
    match step {
        CollStep::Barrier => true,
        _ => false,
    }
}

/// Whether there is a step of that number, and it is a barrier.
pub(crate) fn is_barrier_at(shape: &Shape, s: u32) -> bool
    ensures { result ≡ is_barrier_at shape.now s }
{
    let steps = shape.steps();
    (s as usize) < steps.len() && is_barrier(steps[s as usize])
}

/// Whether a rank holds a list of a buffer, if there is one of that number.
fn is_held(shape: &Shape, b: u32, r: Rank) -> bool
    ensures { result ≡ is_in r (buffer_at shape.now b).spread.holders }
{
    match shape.buffers().get(b as usize) {
        Some(buffer) => is_in(r, buffer.spread.holders.as_slice()),
        None => false,
    }
}

/// Whether a buffer is printed and a rank holds a list of it.
fn is_result(shape: &Shape, b: u32, r: Rank) -> bool
    ensures { result ≡ (is_in b shape.now.prints && is_in r (buffer_at shape.now b).spread.holders) }
{
    is_in(b, shape.prints()) && is_held(shape, b, r)
}

/// Whether a rank is a member of a barrier of that number.
fn is_member(shape: &Shape, s: u32, r: Rank) -> bool
    ensures { result ≡ (is_barrier_at shape.now s && is_in r (group_at shape.now s)) }
{
    is_barrier_at(shape, s) && is_in(r, shape.group(s))
}

/// Whether the description asks for it.
fn is_due(shape: &Shape, due: Due) -> bool
    ensures { result ≡ is_due shape.now due }
{
    match due {
        Due::Result { buffer, rank } => is_result(shape, buffer, rank),
        Due::Enter { step, rank } => is_member(shape, step, rank),
        Due::Leave { step, rank } => is_member(shape, step, rank),
    }
}

/// Whether a cell is one of the plan, and lies on a rank.
fn is_on(plan: &Plan, r: Rank, c: u32) -> bool
    ensures { result ≡ is_on plan.now r c }
{
    let cells = plan.cells();
    (c as usize) < cells.len() && cells[c as usize].rank == r
}

/// Whether a cell has the type of a buffer and the bytes of a list of it.
fn is_list_of(plan: &Plan, shape: &Shape, b: u32, c: u32) -> bool
    requires buffer { b < length shape.now.buffers }
    requires cell { c < length plan.now.cells }
    ensures { result ≡ is_list_of plan.now shape.now b c }
{
    shape.recall_form();
    let buffer = &shape.buffers()[b as usize];
    let cell = plan.cells()[c as usize];
    same_type(cell.ty, buffer.ty) && cell.length == buffer.list_bytes()
}

/// Whether a cell may be named for what the description asks for.
fn does_fit(plan: &Plan, shape: &Shape, due: Due, c: u32) -> bool
    requires { is_due shape.now due ≡ true }
    ensures { result ≡ does_fit plan.now shape.now due c }
{
    match due {
        Due::Result { buffer, rank } => is_on(plan, rank, c) && is_list_of(plan, shape, buffer, c),
        Due::Enter { rank, .. } => is_on(plan, rank, c),
        Due::Leave { rank, .. } => is_on(plan, rank, c),
    }
}

/// Whether the description asks for a line, and the line names a cell that fits.
pub(crate) fn is_good(plan: &Plan, shape: &Shape, mark: Mark) -> bool
    ensures { result ≡ is_good plan.now shape.now mark }
{
    let due = due_of(mark);
    is_due(shape, due) && does_fit(plan, shape, due, cell_of(mark))
}
