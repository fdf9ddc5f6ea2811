//! The own cells of a rank, as its start reads them.

ghost use Rattle.std.specs.Prelude.{ℕ, Some, ◌≡◌, ◌<◌, IfOk, length};
ghost use Rattle.plan_core.specs.calls.Calls.{append_call, late_calls, own_cell, own_cells};

use plan_core::Plan;
use plan_core::calls::OwnCell;
use ptl_types::{Call, NoMemory, Rank};
use schedule_compiler::Schedule;
use std::alloc::Global;

/// The cell that a start appends an entry for, with its operation and the type of its elements. `None` only for another call.
fn own_cell(plan: &Plan, call: &Call) -> Option<OwnCell>
    ensures { (r c : ℕ) → c < length plan.now.cells → call.now ≡ append_call plan.now r c →
        result ≡ Some (own_cell plan.now r c) }
{
    match *call {
        Call::MeAppend {
            cell,
            start,
            length,
            match_bits,
            ignore_bits,
        } => {
            let part = plan.cells().get(cell as usize)?;
            Some(OwnCell {
                number: cell,
                start,
                length,
                op: part.op,
                ty: part.ty,
                match_bits,
                ignore_bits,
            })
        }
        _ => None,
    }
}

/// The own cells of a rank, by their numbers, rising, from the calls of its start.
pub(crate) fn own_cells(
    alloc: Global,
    schedule: &Schedule,
    r: Rank,
    late: &[Call],
) -> Result<Vec<OwnCell>, NoMemory>
    requires rank { r < schedule.now.plan.ranks }
    requires late { late.now ≡ late_calls schedule.now.plan r }
    ensures { IfOk result (λ cells. cells.items ≡ own_cells schedule.now.plan r) }
{
    let plan = schedule.plan();
    let _ = r;
    let mut cells = Vec::with_capacity(alloc, late.len())?;
    for call in late {
        if let Some(cell) = own_cell(plan, call) {
            cells.push(cell)?;
        }
    }
    Ok(cells)
}
