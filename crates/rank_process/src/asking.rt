//! From a text to what ranks are to run.

ghost use Rattle.std.specs.Prelude.{ℕ, List, ◌≡◌, ◌<◌, ◌^◌, Ok, Err, None, IfOk, IfErr, length};
ghost use Rattle.coll_lang.specs.Language.{read};
ghost use Rattle.coll_lang.specs.declared.fault.Refusal.{Refusal};
ghost use Rattle.coll_shape.specs.Meaning.{AreInputs};
ghost use Rattle.given_verdicts.specs.Answers.{IsFlawless};
ghost use Rattle.given_verdicts.specs.declared.answer.Judged.TheVariants.{Flawless};
ghost use Rattle.schedule_compiler.specs.Answers.{Compiles};
ghost use Rattle.schedule_compiler.specs.Jobs.{job_of};
ghost use Rattle.schedule_compiler.specs.Schedules.{schedule_of};
ghost use Rattle.schedule_compiler.specs.shapes.Footprint.{refusal};
ghost use Rattle.rank_process.specs.Opening.{IsAskedBy, work_of};
ghost use Rattle.rank_process.specs.lines.Rank.{given_work};
ghost use Rattle.rank_process.specs.Refused.{FailsToAsk, FailsToPlan, refused};

use crate::status::Status;
use coll_lang::{Description, ParseFault, Refusal, parse};
use coll_shape::{Inputs, Shape};
use given_verdicts::{FlawlessText, GivenAnswer, Judged, TextRefusal, judge_text};
use ptl_types::NoMemory;
use run_text::step_line;
use schedule_compiler::{CompileFault, Job, Schedule, compile, shape_job};
use std::alloc::Global;
use verdict_laws::jobs::flawless_job;

/// What ranks are to run: a job, and the shape that names what is printed.
#[derive(Drop)]
pub(crate) struct Asked {
    /// The shape.
    pub(crate) shape: Shape,
    /// The job.
    pub(crate) job: Job,
}

/// The refusal of a line as one of a description.
pub(crate) fn refused(line: u32, name: Refusal) -> GivenAnswer
    ensures { result ≡ refused line name }
{
    GivenAnswer::Refused {
        line,
        name: TextRefusal::Description(name),
    }
}

/// Why a plan is too large, unless there was no memory.
fn plan_fault(shape: &Shape, fault: CompileFault) -> Status
    requires { Compiles shape.now (Err fault) }
    ensures { FailsToPlan shape.now result }
{
    match fault {
        CompileFault::TooMany { step } => {
            Status::Answered(refused(step_line(shape, step), Refusal::TooMany))
        }
        CompileFault::TooLarge { step } => {
            Status::Answered(refused(step_line(shape, step), Refusal::TooLarge))
        }
        CompileFault::NoMemory => Status::NoMemory,
    }
}

/// The schedule of a shape, unless its plan is too large.
fn scheduled(alloc: Global, shape: &Shape) -> Result<Schedule, Status>
    ensures schedule { IfOk result (λ s. s ≡ schedule_of shape.now) }
    ensures accepted { IfOk result (λ s. refusal shape.now ≡ None) }
    ensures fails { IfErr result (λ e. FailsToPlan shape.now e) }
{
    match compile(alloc, shape) {
        Ok(schedule) => Ok(schedule),
        Err(fault) => Err(plan_fault(shape, fault)),
    }
}

/// The job of a description's own plan, unless the plan is too large.
fn own_job(alloc: Global, shape: &Shape, inputs: Inputs) -> Result<Job, Status>
    requires { AreInputs shape.now inputs }
    ensures job { IfOk result (λ j. j ≡ job_of shape.now inputs) }
    ensures accepted { IfOk result (λ j. refusal shape.now ≡ None) }
    ensures fails { IfErr result (λ e. FailsToPlan shape.now e) }
{
    let schedule = scheduled(alloc, shape)?;
    match shape_job(alloc, shape, schedule, inputs) {
        Ok(job) => Ok(job),
        Err(NoMemory) => Err(Status::NoMemory),
    }
}

/// A description, unless it is a choice text, which has no plan.
fn planned(d: Description) -> Result<Description, Status>
    ensures same { IfOk result (λ e. e ≡ d) }
    ensures planned { IfOk result (λ e. e.choices ≡ None) }
    ensures fails { IfErr result (λ e. (text : List ℕ) → read text ≡ Ok d → FailsToAsk text e) }
{
    if d.choices().is_some() {
        return Err(Status::Answered(refused(0, Refusal::OneThread)));
    }
    Ok(d)
}

/// What a description asks for: its own plan, unless it is a choice text.
fn own(alloc: Global, d: Description) -> Result<Asked, Status>
    ensures asks { IfOk result (λ x. (text : List ℕ) → read text ≡ Ok d → IsAskedBy text x) }
    ensures fails { IfErr result (λ e. (text : List ℕ) → read text ≡ Ok d → FailsToAsk text e) }
{
    let (shape, inputs) = planned(d)?.into_parts();
    shape.recall_form();
    let job = own_job(alloc, &shape, inputs)?;
    Ok(Asked { shape, job })
}

/// What a text asks for in which no flaw was found: the plan that it gives.
fn flawless(alloc: Global, found: FlawlessText) -> Result<Asked, NoMemory>
    requires flawless { IsFlawless found }
    requires at_most { length found.given.plan.links < 2 ^ 26 }
    ensures work { IfOk result (λ x. work_of x ≡ given_work found) }
    ensures buffers { IfOk result (λ x. x.job.schedule.held.buffers ≡ length x.shape.buffers) }
{
    let (shape, job) = flawless_job(alloc, found)?;
    Ok(Asked { shape, job })
}

/// What a text asks for that is none of a description: the plan after the description, unless there is a flaw.
fn given(alloc: Global, text: &[u8]) -> Result<Asked, Status>
    ensures asks { IfOk result (λ x. (why : ℕ × Refusal) → read text.now ≡ Err why → IsAskedBy text.now x) }
    ensures fails { IfErr result (λ e. (why : ℕ × Refusal) → read text.now ≡ Err why → FailsToAsk text.now e) }
{
    match judge_text(alloc, text) {
        Ok(Judged::Flawless(found)) => match flawless(alloc, found) {
            Ok(asked) => Ok(asked),
            Err(NoMemory) => Err(Status::NoMemory),
        },
        Ok(Judged::Answered(answer)) => Err(Status::Answered(answer)),
        Err(NoMemory) => Err(Status::NoMemory),
    }
}

/// What a text asks ranks to run: a description its own plan, and any other text the plan that it gives for the description before it.
pub(crate) fn asked_by(alloc: Global, text: &[u8]) -> Result<Asked, Status>
    ensures asks { IfOk result (λ x. IsAskedBy text.now x) }
    ensures fails { IfErr result (λ e. FailsToAsk text.now e) }
{
    match parse(alloc, text) {
        Ok(d) => own(alloc, d),
        Err(ParseFault::Refused { .. }) => given(alloc, text),
        Err(ParseFault::NoMemory) => Err(Status::NoMemory),
    }
}
