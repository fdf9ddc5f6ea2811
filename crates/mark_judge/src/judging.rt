//! The first flaw of the lines after the links of a plan.

ghost use Rattle.std.specs.Prelude.{◌≡◌, ◌<◌, ◌^◌, IfOk, length};
ghost use Rattle.mark_judge.specs.Judged.{marks_flaw, marks_judged};
ghost use Rattle.plan_core.specs.Sound.{SoundPlan};

use crate::barriers::first_barrier_flaw;
use crate::done::first_done_flaw;
use crate::flaw::MarkFlaw;
use crate::lines::first_line_flaw;
use crate::missing::{missing_barriers, missing_results};
use crate::named::no_names;
use coll_shape::Shape;
use given_lines::Mark;
use plan_core::Plan;
use plan_tables::sound_plans;
use ptl_types::NoMemory;
use std::alloc::Global;

/// The first flaw of the lines that name cells.
fn marks_flaw(
    alloc: Global,
    plan: &Plan,
    shape: &Shape,
    marks: &[Mark],
) -> Result<Option<MarkFlaw>, NoMemory>
    requires sound { SoundPlan plan.now shape.now.inputs }
    requires few_marks { length marks.now < 2 ^ 32 }
    ensures { IfOk result (λ flaw. flaw ≡ marks_flaw plan.now shape.now marks.now) }
{
    sound_plans();
    let mut named = no_names(alloc)?;
    let line = first_line_flaw(&mut named, plan, shape, marks);
    if line.is_some() {
        return Ok(line);
    }
    let result = missing_results(named.as_slice(), shape);
    if result.is_some() {
        return Ok(result);
    }
    let barrier = missing_barriers(named.as_slice(), shape);
    if barrier.is_some() {
        return Ok(barrier);
    }
    first_barrier_flaw(alloc, plan, marks)
}

/// The first flaw of what a sound plan's text says after its links, for a description: of the lines `done` by rank; then of the lines
/// `result`, `enter` and `leave` one by one, in order; then what the description asks for and no line is for, results before barriers;
/// then the first `enter` whose cell may be reached before its rank's start; then the first `leave` to which not each `enter` of its step
/// leads. None: `no_mark_flaw` says what then holds.
///
/// It takes a number of steps in the order of the plan's cells and links and of the lines, once for each 256 lines `enter`, of which a
/// description asks for 16,384 at most; past the first time over a cell to which one link comes, and where no rank enters, one look.
///
/// # Errors
///
/// There was no memory for the tables.
pub fn judge_marks(
    alloc: Global,
    plan: &Plan,
    shape: &Shape,
    done: &[u64],
    marks: &[Mark],
) -> Result<Option<MarkFlaw>, NoMemory>
    requires sound { SoundPlan plan.now shape.now.inputs }
    requires few_marks { length marks.now < 2 ^ 32 }
    ensures { IfOk result (λ flaw. flaw ≡ marks_judged plan.now shape.now done.now marks.now) }
{
    sound_plans();
    let flaw = first_done_flaw(alloc, plan, done)?;
    if flaw.is_some() {
        return Ok(flaw);
    }
    marks_flaw(alloc, plan, shape, marks)
}
