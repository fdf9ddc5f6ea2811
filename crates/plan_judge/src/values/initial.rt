//! What a cell holds at the beginning.

ghost use Rattle.std.specs.Prelude.{◌≡◌, ◌<◌, ◌+◌, ◌*◌, ◌%◌, ◌&&◌, IfOk, length, nat_le, nat_lt};
ghost use Rattle.ptl_types.specs.Elements.{starting};
ghost use Rattle.ptl_types.specs.Operations.{bytes_of};
ghost use Rattle.plan_core.specs.Values.{blank, initial, input_bytes};
ghost use Rattle.plan_judge.specs.values.Given.{IsGiven};

use coll_shape::Inputs;
use lane_ops::start_values;
use plan_core::reading::cell_at;
use plan_core::{Cell, Plan};
use ptl_types::{AtomicOp, ElemType};
use std::alloc::{AllocError, Global};

/// Whether a cell is one of the input cells, of which there are so many a rank after the go cells.
fn is_input(ranks: u32, inputs: u32, c: u32) -> bool
    ensures { result ≡ (nat_le ranks c && nat_lt c (ranks + inputs * ranks)) }
{
    ranks <= c && u64::from(c) < u64::from(ranks) + u64::from(inputs) * u64::from(ranks)
}

/// The list of an input cell, counted over all inputs, rank 0 first in each.
fn input_bytes<'a>(plan: &Plan, inputs: &'a Inputs, i: u32) -> &'a [u8]
    requires given { IsGiven plan.now inputs.now }
    requires input { i < length inputs.now * plan.now.ranks }
    ensures { result.now ≡ input_bytes plan.now inputs.now i }
{
    let ranks = plan.ranks();
    inputs.list(i / ranks, i % ranks)
}

/// So many bytes, the starting values of an operation.
fn starting(alloc: Global, op: AtomicOp, ty: ElemType, n: u64) -> Result<Vec<u8>, AllocError>
    requires { n % bytes_of ty ≡ 0 }
    ensures { IfOk result (λ bytes. bytes.items ≡ starting op ty n) }
{
    let mut bytes = vec![in alloc; 0u8; n as usize]?;
    start_values(op, ty, &mut bytes);
    Ok(bytes)
}

/// Starting values where something is combined in the cell, else zeros.
fn blank(alloc: Global, cell: &Cell) -> Result<Vec<u8>, AllocError>
    requires { cell.now.length % bytes_of cell.now.ty ≡ 0 }
    ensures { IfOk result (λ bytes. bytes.items ≡ blank cell.now) }
{
    match cell.op {
        Some(op) => starting(alloc, op, cell.ty, cell.length),
        None => Ok(vec![in alloc; 0u8; cell.length as usize]?),
    }
}

/// What a cell holds at the beginning: an input's list, or nothing yet.
pub(crate) fn first_bytes(
    alloc: Global,
    plan: &Plan,
    inputs: &Inputs,
    count: u32,
    c: u32,
) -> Result<Vec<u8>, AllocError>
    requires given { IsGiven plan.now inputs.now }
    requires count { count ≡ length inputs.now }
    requires cell { c < length plan.now.cells }
    ensures { IfOk result (λ bytes. bytes.items ≡ initial plan.now inputs.now c) }
{
    let ranks = plan.ranks();
    if is_input(ranks, count, c) {
        Vec::from_slice(alloc, input_bytes(plan, inputs, c - ranks))
    } else {
        blank(alloc, &cell_at(plan, c))
    }
}
