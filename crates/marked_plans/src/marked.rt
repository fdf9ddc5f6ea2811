//! A plan with the cells that its lines name.

ghost use Rattle.std.specs.Prelude.{◌≡◌, IfOk, None};
ghost use Rattle.marked_plans.specs.Marks.{marked_of, marks_of};
ghost use Rattle.schedule_compiler.specs.shapes.Compiling.{Answers};
ghost use Rattle.schedule_compiler.specs.shapes.Drawing.{drawing_of, plan_of};
ghost use Rattle.schedule_compiler.specs.shapes.Footprint.{refusal};

use crate::barriers::mark_barriers;
use crate::results::mark_results;
use coll_shape::Shape;
use given_lines::Mark;
use plan_core::{BufferCells, Plan};
use plan_tables::sound_plans;
use schedule_compiler::done::CountedPlan;
use schedule_compiler::shapes::{CompileFault, DrawnShape, drawn_shape, plan_sound};
use std::alloc::{AllocError, Global};
use std::marker::Model;

/// A plan of which it is known where each rank's done counter stands when all is done, and the cells that its lines name.
#[derive(Debug, Drop)]
pub struct MarkedPlan {
    plan: CountedPlan,
    marks: Vec<Mark>,
}

impl Model for MarkedPlan {
    ghost use Rattle.marked_plans.specs.Marks.{Marked};

    ghost Value = { Marked };

    ghost view = { λ m. record { plan = m.plan; marks = m.marks.items } };
}

impl MarkedPlan {
    /// The plan, with its counts.
    pub fn plan(&self) -> &CountedPlan
        ensures { result.now ≡ self.now.plan }
    {
        &self.plan
    }

    /// The cells of the results and barriers, in the order of their lines.
    pub fn marks(&self) -> &[Mark]
        ensures { result.now ≡ self.now.marks }
    {
        self.marks.as_slice()
    }
}

/// The cells that the lines of a shape's plan name.
fn marks_of(
    alloc: Global,
    shape: &Shape,
    plan: &Plan,
    held: &BufferCells,
) -> Result<Vec<Mark>, AllocError>
    requires accepted { refusal shape.now ≡ None }
    requires plan { plan.now ≡ plan_of shape.now }
    requires held { held.now ≡ (drawing_of shape.now).held }
    ensures { IfOk result (λ marks. marks.items ≡ marks_of shape.now) }
{
    shape.recall_form();
    let mut marks = Vec::new(alloc);
    mark_results(&mut marks, shape, held)?;
    mark_barriers(&mut marks, shape, plan)?;
    Ok(marks)
}

/// A drawn shape that isn't refused, with what its lines name.
fn marked(alloc: Global, shape: &Shape, drawn: DrawnShape) -> Result<MarkedPlan, CompileFault>
    requires accepted { refusal shape.now ≡ None }
    requires plan { drawn.plan ≡ plan_of shape.now }
    requires held { drawn.held ≡ (drawing_of shape.now).held }
    ensures { Answers shape.now (λ m. m ≡ marked_of shape.now) result }
{
    shape.recall_form();
    plan_sound();
    sound_plans();
    let DrawnShape { plan, held } = drawn;
    let Ok(marks) = marks_of(alloc, shape, &plan, &held) else {
        return Err(CompileFault::NoMemory);
    };
    match CountedPlan::of(alloc, plan) {
        Ok(plan) => Ok(MarkedPlan { plan, marks }),
        Err(_) => Err(CompileFault::NoMemory),
    }
}

/// The plan of a shape, where each rank of it is done, and the cells that hold the results and at which barriers are entered and left.
///
/// # Errors
///
/// `TooMany` and `TooLarge` come exactly where the shape is refused, before any memory is taken. `NoMemory` comes of no shape that
/// is refused.
pub fn marked_shape(alloc: Global, shape: &Shape) -> Result<MarkedPlan, CompileFault>
    ensures { Answers shape.now (λ m. m ≡ marked_of shape.now) result }
{
    match drawn_shape(alloc, shape) {
        Ok(drawn) => marked(alloc, shape, drawn),
        Err(fault) => Err(fault),
    }
}
