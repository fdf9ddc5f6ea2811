//! From a shape to its plan with the counts.

ghost use Rattle.std.specs.Prelude.{◌≡◌, None};
ghost use Rattle.schedule_compiler.specs.shapes.Drawing.{plan_of};
ghost use Rattle.schedule_compiler.specs.shapes.Footprint.{refusal};
ghost use Rattle.schedule_compiler.specs.done.Shapes.{Counts};

use crate::done::counted::CountedPlan;
use crate::shapes::{CompileFault, drawn_shape, plan_sound};
use coll_shape::Shape;
use plan_core::Plan;
use plan_tables::sound_plans;
use std::alloc::Global;

/// The plan of a shape that isn't refused, with its counts.
fn counted(alloc: Global, shape: &Shape, plan: Plan) -> Result<CountedPlan, CompileFault>
    requires accepted { refusal shape.now ≡ None }
    requires plan { plan ≡ plan_of shape.now }
    ensures { Counts shape.now result }
{
    shape.recall_form();
    plan_sound();
    sound_plans();
    match CountedPlan::of(alloc, plan) {
        Ok(counted) => Ok(counted),
        Err(_) => Err(CompileFault::NoMemory),
    }
}

/// The plan of a shape, and where each rank of it is done. It makes nothing of what the ranks install.
///
/// # Errors
///
/// `TooMany` and `TooLarge` come exactly where the shape is refused, before any memory is taken. `NoMemory` comes of no shape that
/// is refused.
pub fn counted_shape(alloc: Global, shape: &Shape) -> Result<CountedPlan, CompileFault>
    ensures { Counts shape.now result }
{
    match drawn_shape(alloc, shape) {
        Ok(drawn) => counted(alloc, shape, drawn.plan),
        Err(fault) => Err(fault),
    }
}
