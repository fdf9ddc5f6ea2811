//! The times of a plan, or why there are none.

ghost use Rattle.std.specs.Prelude.{ℕ, ◌≤◌};
ghost use Rattle.plan_core.specs.Plan.{Plan};
ghost use Rattle.plan_core.specs.Sound.{SoundPlan};
ghost use Rattle.plan_costs.specs.Answers.{IsAnswered};
ghost use Rattle.plan_costs.specs.Times.{IsTimed};

use crate::numbers::{LogGp, in_turn};
use crate::pass::pass;
use crate::times::Times;
use plan_core::Plan;
use std::alloc::Global;

/// Why no times are answered.
#[derive(Clone, Copy, Debug)]
pub enum CostFault {
    /// All messages, one after the other, would take 2^64 picoseconds or more.
    TooLong,
    /// There was no memory.
    NoMemory,
}

/// When each cell of a plan is reached under LogGP, if every host starts at 0, in one pass in the order of time. Of n cells and links it
/// takes the order of n log n steps.
///
/// # Errors
///
/// `TooLong` where all messages, one after the other, would take 2^64 picoseconds or more, and only there: else no sum passes that.
pub fn times_of(alloc: Global, plan: &Plan, numbers: &LogGp) -> Result<Times, CostFault>
    requires timed { IsTimed plan.now }
    requires some { 1 ≤ numbers.now.overhead }
    ensures { IsAnswered numbers.now plan.now result }
{
    if in_turn(numbers, plan).is_none() {
        return Err(CostFault::TooLong);
    }
    match pass(alloc, plan, numbers) {
        Ok(times) => Ok(times),
        Err(_) => Err(CostFault::NoMemory),
    }
}

/// Each sound plan has times.
pub fn sound_plans_are_timed()
    ensures { (p : Plan) (inputs : ℕ) → SoundPlan p inputs → IsTimed p }
{}
