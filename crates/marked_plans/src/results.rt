//! The cells of the results.

ghost use Rattle.std.specs.Prelude.{◌≡◌, ◌<◌, ◌++◌, IfOk, length};
ghost use Rattle.marked_plans.specs.Marks.{buffer_marks, print_marks, result_mark, result_marks};
ghost use Rattle.plan_core.specs.Draw.{held_cell};

use coll_shape::{Shape, is_in};
use given_lines::Mark;
use plan_core::BufferCells;
use ptl_types::Rank;
use std::alloc::AllocError;

/// Adds the cell that holds a buffer at a rank, if one does.
fn mark_held(
    marks: &mut Vec<Mark>,
    buffer: u32,
    rank: Rank,
    held: Option<u32>,
) -> Result<(), AllocError>
    ensures { IfOk result (λ u. marks.new.items ≡ marks.old.items ++ result_mark buffer rank held) }
{
    if let Some(cell) = held {
        marks.push(Mark::Result { buffer, rank, cell })?;
    }
    Ok(())
}

/// Adds the cells that hold a buffer, by ranks.
fn mark_buffer(
    marks: &mut Vec<Mark>,
    ranks: u32,
    held: &BufferCells,
    buffer: u32,
) -> Result<(), AllocError>
    requires buffer { buffer < held.now.buffers }
    requires ranks { held.now.ranks ≡ ranks }
    ensures { IfOk result (λ u. marks.new.items ≡ marks.old.items ++ buffer_marks ranks held.now buffer) }
{
    for rank in 0..ranks {
        mark_held(marks, buffer, rank, held.cell(buffer, rank))?;
    }
    Ok(())
}

/// Adds the cells of the buffer that a print names, unless an earlier one names it.
fn mark_print(
    marks: &mut Vec<Mark>,
    shape: &Shape,
    held: &BufferCells,
    print: usize,
) -> Result<(), AllocError>
    requires print { print < length shape.now.prints }
    requires buffers { held.now.buffers ≡ length shape.now.buffers }
    requires ranks { held.now.ranks ≡ shape.now.ranks }
    ensures { IfOk result (λ u. marks.new.items ≡ marks.old.items ++ print_marks shape.now held.now print) }
{
    shape.recall_form();
    let prints = shape.prints();
    let buffer = prints[print];
    if is_in(buffer, &prints[..print]) {
        return Ok(());
    }
    mark_buffer(marks, shape.ranks(), held, buffer)
}

/// Adds the cells of all results, by the order of prints and by ranks.
pub(crate) fn mark_results(
    marks: &mut Vec<Mark>,
    shape: &Shape,
    held: &BufferCells,
) -> Result<(), AllocError>
    requires buffers { held.now.buffers ≡ length shape.now.buffers }
    requires ranks { held.now.ranks ≡ shape.now.ranks }
    ensures { IfOk result (λ u. marks.new.items ≡ marks.old.items ++ result_marks shape.now held.now) }
{
    for print in 0..shape.prints().len() {
        mark_print(marks, shape, held, print)?;
    }
    Ok(())
}
