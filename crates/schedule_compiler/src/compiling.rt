//! From a shape to its schedule, and to its job: that of its plan.

ghost use Rattle.std.specs.Prelude.{◌≡◌, None, IfOk, length};
ghost use Rattle.coll_shape.specs.Meaning.{AreInputs, Lists};
ghost use Rattle.coll_shape.specs.Outline.{Outline};
ghost use Rattle.coll_shape.specs.WellFormed.{IsWellFormed};
ghost use Rattle.schedule_compiler.specs.shapes.Drawing.{drawing_of, plan_of};
ghost use Rattle.schedule_compiler.specs.shapes.Footprint.{refusal};
ghost use Rattle.schedule_compiler.specs.Answers.{Compiles};
ghost use Rattle.schedule_compiler.specs.Jobs.{AreInputsFor, job_of};
ghost use Rattle.schedule_compiler.specs.Keeping.{CanRun};
ghost use Rattle.schedule_compiler.specs.Schedules.{schedule_of};

use crate::job::Job;
use crate::schedule::Schedule;
use crate::shapes::{CompileFault, DrawnShape, drawn_shape};
use coll_shape::{Inputs, Shape};
use ptl_types::NoMemory;
use std::alloc::Global;

/// The schedule of a shape whose plan is drawn.
fn drawn_schedule(alloc: Global, shape: &Shape, drawn: DrawnShape) -> Result<Schedule, NoMemory>
    requires accepted { refusal shape.now ≡ None }
    requires plan { drawn.plan ≡ plan_of shape.now }
    requires held { drawn.held ≡ (drawing_of shape.now).held }
    ensures { IfOk result (λ schedule. schedule ≡ schedule_of shape.now) }
{
    shape.recall_form();
    let buffers = shape.buffers().len() as u32;
    Schedule::of(alloc, drawn.plan, drawn.held, shape.input_count(), buffers)
}

/// Compiles a shape into its schedule. It sees no values of inputs.
///
/// # Errors
///
/// `TooMany` and `TooLarge` come exactly where the shape is refused, before any memory is taken: they name the first step at which
/// the plan has more than 500,000 links, or more than 134,217,728 bytes. `NoMemory` comes of no shape that is refused.
pub fn compile(alloc: Global, shape: &Shape) -> Result<Schedule, CompileFault>
    ensures { Compiles shape.now result }
{
    match drawn_shape(alloc, shape) {
        Ok(drawn) => match drawn_schedule(alloc, shape, drawn) {
            Ok(schedule) => Ok(schedule),
            Err(_) => Err(CompileFault::NoMemory),
        },
        Err(fault) => Err(fault),
    }
}

/// The job of a shape: that of its plan. The schedule is the shape's, and the inputs are.
///
/// # Errors
///
/// There was no memory. The schedule and the inputs are then gone.
pub fn shape_job(
    alloc: Global,
    shape: &Shape,
    schedule: Schedule,
    inputs: Inputs,
) -> Result<Job, NoMemory>
    requires schedule { schedule ≡ schedule_of shape.now }
    requires inputs { AreInputs shape.now inputs }
    ensures { IfOk result (λ job. job ≡ job_of shape.now inputs) }
{
    shape.recall_form();
    Job::new(alloc, schedule, inputs)
}

/// The schedule of a shape that isn't refused: it can run, takes inputs of the shape, and has the shape's ranks and buffers.
pub fn shape_schedules()
    ensures can { (o : Outline) → IsWellFormed o → refusal o ≡ None → CanRun (schedule_of o) }
    ensures inputs { (o : Outline) (inputs : Lists) → IsWellFormed o → AreInputs o inputs → AreInputsFor (schedule_of o) inputs }
    ensures ranks { (o : Outline) → IsWellFormed o → (plan_of o).ranks ≡ o.ranks }
    ensures buffers { (o : Outline) → IsWellFormed o → (drawing_of o).held.buffers ≡ length o.buffers }
{}
