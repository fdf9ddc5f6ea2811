//! Whether the cells of results hold what the description means.

ghost use Rattle.std.specs.Prelude.{◌≡◌, ◌<◌, ◌+◌, ◌-◌, ◌^◌, [], IfOk, get_or, length};
ghost use Rattle.ptl_types.specs.Operations.{bytes_of};
ghost use Rattle.coll_shape.specs.Outline.{buffer_at};
ghost use Rattle.mark_judge.specs.Due.{mark_at};
ghost use Rattle.given_verdicts.specs.Answers.{at_line, first_wrong, unlike, wrong_list};
ghost use Rattle.given_verdicts.specs.Differences.{difference_from};

use crate::answer::{GivenCause, WrongResult};
use crate::differing::difference;
use coll_meaning::Buffers;
use coll_shape::{Name, Shape};
use given_lines::{GivenPlan, Mark};
use mark_judge::{MarkFlaw, line_of};
use plan_judge::values::CellValues;
use ptl_types::Rank;
use std::alloc::{AllocError, Global};

/// What a cell holds; nothing, where there is no such cell.
#[tactic(auto, using(std::proofs::lemmas::List::get_or_past))]
fn held_in(values: &CellValues, cell: u32) -> &[u8]
    ensures { result.now ≡ get_or values.now cell [] }
{
    if (cell as usize) < values.len() {
        values.cell(cell)
    } else {
        &[]
    }
}

/// The bytes of an element of a buffer; 1, where there is no such buffer.
pub fn element_size(shape: &Shape, buffer: u32) -> u64
    ensures value { result ≡ bytes_of (buffer_at shape.now buffer).ty }
    ensures some { 0 < result }
{
    match shape.buffers().get(buffer as usize) {
        Some(buffer) => buffer.ty.size(),
        None => 1,
    }
}

/// A copy of a buffer's name; of none, where there is no such buffer.
///
/// # Errors
///
/// There was no memory.
pub fn name_of(alloc: Global, shape: &Shape, buffer: u32) -> Result<Name, AllocError>
    ensures { IfOk result (λ name. name ≡ (buffer_at shape.now buffer).name) }
{
    match shape.buffers().get(buffer as usize) {
        Some(buffer) => Name::copied(alloc, buffer.name.as_slice()),
        None => Name::copied(alloc, &[]),
    }
}

/// That two lists of a buffer at a rank differ, where they first do so at this byte.
fn unlike(
    alloc: Global,
    shape: &Shape,
    buffer: u32,
    rank: Rank,
    place: Option<usize>,
) -> Result<Option<GivenCause>, AllocError>
    ensures { IfOk result (λ cause. cause ≡ unlike shape.now buffer rank place) }
{
    match place {
        None => Ok(None),
        Some(place) => Ok(Some(GivenCause::Value {
            name: name_of(alloc, shape, buffer)?,
            rank,
            place: place as u64 / element_size(shape, buffer),
        })),
    }
}

/// What is wrong with what a named cell holds, if it is that of a result.
fn wrong_list(
    alloc: Global,
    shape: &Shape,
    values: &CellValues,
    meant: &Buffers,
    mark: Mark,
) -> Result<Option<GivenCause>, AllocError>
    ensures { IfOk result (λ cause. cause ≡ wrong_list shape.now values.now meant.now mark) }
{
    match mark {
        Mark::Result { buffer, rank, cell } => {
            let place = difference(held_in(values, cell), meant.list(buffer, rank));
            unlike(alloc, shape, buffer, rank, place)
        }
        _ => Ok(None),
    }
}

/// What is wrong with what the cell of a mark holds, if it is that of a result.
fn wrong_mark(
    alloc: Global,
    shape: &Shape,
    given: &GivenPlan,
    values: &CellValues,
    meant: &Buffers,
    mark: u32,
) -> Result<Option<GivenCause>, AllocError>
    requires mark { mark < length given.now.marks }
    ensures { IfOk result (λ cause. cause ≡ wrong_list shape.now values.now meant.now (mark_at given.now.marks mark)) }
{
    let marks = given.marks();
    wrong_list(alloc, shape, values, meant, marks[mark as usize])
}

/// What is wrong with the result that a mark names, with the mark's line in a text whose plan begins at the line `first`.
fn at_line(
    first: u32,
    given: &GivenPlan,
    mark: u32,
    cause: Option<GivenCause>,
) -> Option<WrongResult>
    requires at_most { length given.now.plan.cells + length given.now.plan.links < 2 ^ 32 - 1 }
    requires few_marks { length given.now.marks < 2 ^ 32 }
    requires mark { mark < length given.now.marks }
    ensures { result ≡ at_line first given.now.plan given.now.marks mark cause }
{
    let cause = cause?;
    let line = line_of(
        first,
        given.plan(),
        given.marks(),
        MarkFlaw::BadResult { mark },
    );
    Some(WrongResult { line, cause })
}

/// The first named cell that holds another list than is meant, in the order of their lines.
pub(crate) fn first_wrong(
    alloc: Global,
    shape: &Shape,
    first: u32,
    given: &GivenPlan,
    values: &CellValues,
    meant: &Buffers,
) -> Result<Option<WrongResult>, AllocError>
    requires at_most { length given.now.plan.cells + length given.now.plan.links < 2 ^ 32 - 1 }
    requires few_marks { length given.now.marks < 2 ^ 32 }
    ensures { IfOk result (λ wrong. wrong ≡ first_wrong first given.now.plan shape.now values.now meant.now given.now.marks) }
{
    let count = given.marks().len() as u32;
    for mark in 0..count {
        let cause = wrong_mark(alloc, shape, given, values, meant, mark)?;
        let wrong = at_line(first, given, mark, cause);
        if wrong.is_some() {
            return Ok(wrong);
        }
    }
    Ok(None)
}
