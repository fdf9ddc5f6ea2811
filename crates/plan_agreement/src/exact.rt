//! Whether given inputs show that a result isn't what is meant.

ghost use Rattle.std.specs.Prelude.{◌≡◌, true, false, IfOk};
ghost use Rattle.coll_shape.specs.Meaning.{AreInputs};
ghost use Rattle.plan_agreement.specs.Agreement.{HasCell, IsMeant, IsPlanFor};

use coll_meaning::buffers_of;
use coll_shape::{Inputs, Shape};
use given_lines::Mark;
use plan_core::Plan;
use plan_judge::values::values;
use ptl_types::NoMemory;
use std::alloc::Global;

/// Whether two lists aren't the same.
fn are_unlike(a: &[u8], b: &[u8]) -> bool
    ensures unlike { result ≡ true → a.now ≡ b.now → ⊥ }
    ensures same { result ≡ false → a.now ≡ b.now }
{
    a != b
}

/// Whether a result's cell holds another list than the shape means of these inputs.
pub(crate) fn differs(
    alloc: Global,
    plan: &Plan,
    shape: &Shape,
    inputs: &Inputs,
    mark: Mark,
) -> Result<bool, NoMemory>
    requires fits { IsPlanFor plan.now shape.now }
    requires inputs { AreInputs shape.now inputs.now }
    ensures unlike { IfOk result (λ found. found ≡ true → IsMeant plan.now shape.now inputs.now mark → ⊥) }
    ensures like { IfOk result (λ found. found ≡ false → HasCell plan.now mark → IsMeant plan.now shape.now inputs.now mark) }
{
    shape.recall_form();
    let Mark::Result { buffer, rank, cell } = mark else {
        return Ok(false);
    };
    let values = values(alloc, plan, inputs, shape.input_count())?;
    if cell as usize >= values.len() {
        return Ok(false);
    }
    let meant = buffers_of(alloc, shape, inputs)?;
    Ok(are_unlike(values.cell(cell), meant.list(buffer, rank)))
}
