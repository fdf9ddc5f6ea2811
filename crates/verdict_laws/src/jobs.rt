//! The job of a given plan.

ghost use Rattle.std.specs.Prelude.{◌≡◌, ◌<◌, ◌^◌, IfOk, length};
ghost use Rattle.coll_shape.specs.Meaning.{AreInputs, Lists};
ghost use Rattle.coll_shape.specs.Outline.{Outline};
ghost use Rattle.coll_shape.specs.WellFormed.{IsWellFormed};
ghost use Rattle.given_lines.specs.Given.{Given};
ghost use Rattle.given_verdicts.specs.Answers.{IsFlawless as IsFlawlessText};
ghost use Rattle.verdict_laws.specs.Flawless.{IsFlawless};
ghost use Rattle.verdict_laws.specs.GivenJobs.{AreWithin, FitsShape, flawless_job, given_job, results_of};

use crate::flawless_plans_can_run;
use coll_shape::{Inputs, Shape};
use given_lines::Mark;
use given_verdicts::FlawlessText;
use plan_core::{BufferCells, Plan};
use ptl_types::NoMemory;
use schedule_compiler::{Job, Schedule};
use std::alloc::Global;

/// The cells that the lines `result` name.
fn results_of(alloc: Global, shape: &Shape, marks: &[Mark]) -> Result<BufferCells, NoMemory>
    requires { AreWithin shape.now marks.now }
    ensures { IfOk result (λ held. held ≡ results_of shape.now marks.now) }
{
    shape.recall_form();
    let mut held = BufferCells::open(alloc, shape.buffers().len() as u32, shape.ranks())?;
    for i in 0..marks.len() {
        match marks[i] {
            Mark::Result { buffer, rank, cell } => held.set(buffer, rank, cell),
            Mark::Enter { .. } => {}
            Mark::Leave { .. } => {}
        }
    }
    Ok(held)
}

/// The job of a plan that is given for a description and in which nothing is at fault: the plan's schedule, with these inputs. Its
/// results are the cells that the lines `result` name. `done` is where each rank's done counter is said to stand when it is done.
///
/// # Errors
///
/// There was no memory for the tables of the plan.
pub fn given_job(
    alloc: Global,
    shape: &Shape,
    plan: Plan,
    done: &[u64],
    marks: &[Mark],
    inputs: Inputs,
) -> Result<Job, NoMemory>
    requires flawless { IsFlawless plan shape.now done.now marks.now }
    requires at_most { length plan.links < 2 ^ 26 }
    requires inputs { AreInputs shape.now inputs }
    ensures { IfOk result (λ job. job ≡ given_job shape.now (record { plan = plan; done = done.now; marks = marks.now }) inputs) }
{
    let _ = done;
    shape.recall_form();
    flawless_plans_can_run();
    let held = results_of(alloc, shape, marks)?;
    let (count, buffers) = (shape.input_count(), shape.buffers().len() as u32);
    let schedule = Schedule::of(alloc, plan, held, count, buffers)?;
    Job::new(alloc, schedule, inputs)
}

/// The schedule of a given plan in which nothing is at fault is for as many buffers as its description has, and as many ranks; each of its
/// results is a cell of the plan on the result's rank.
pub fn given_jobs()
    ensures { (o : Outline) (g : Given) (inputs : Lists) → IsWellFormed o → IsFlawless g.plan o g.done g.marks →
        FitsShape o (given_job o g inputs).schedule }
{}

/// The shape of a text in which no flaw was found, and the job of its plan.
///
/// # Errors
///
/// There was no memory for the tables of the plan.
pub fn flawless_job(alloc: Global, found: FlawlessText) -> Result<(Shape, Job), NoMemory>
    requires flawless { IsFlawlessText found }
    requires at_most { length found.given.plan.links < 2 ^ 26 }
    ensures shape { IfOk result (λ parts. parts.0 ≡ found.description.shape) }
    ensures job { IfOk result (λ parts. parts.1 ≡ flawless_job found) }
    ensures fits { IfOk result (λ parts. FitsShape found.description.shape parts.1.schedule) }
{
    let FlawlessText {
        line: _,
        description,
        given,
    } = found;
    let (shape, inputs) = description.into_parts();
    shape.recall_form();
    let (plan, done, marks) = given.into_parts();
    given_jobs();
    let job = given_job(
        alloc,
        &shape,
        plan,
        done.as_slice(),
        marks.as_slice(),
        inputs,
    )?;
    Ok((shape, job))
}
