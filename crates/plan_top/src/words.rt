//! What is asked of a text.

ghost use Rattle.std.specs.Prelude.{◌≡◌, ◌<◌, ◌^◌};
ghost use Rattle.plan_top.specs.Owed.{longest};

use coll_lang::LONGEST_TEXT;
use given_verdicts::LONGEST_GIVEN;

/// What is asked for.
#[derive(Clone, Copy, Debug, PartialEq, Eq)]
pub enum PlanRequest {
    /// `draw`: the plan that a description is compiled to, with the lines that name its cells.
    Draw,
    /// `verify`: is the plan that follows a description right for all inputs of its shape?
    Verify,
    /// `verify given`: is the plan that follows a description right for the inputs that the description gives?
    VerifyGiven,
}

impl PlanRequest {
    /// The most bytes of a text that is read for it.
    pub(crate) fn longest(&self) -> usize
        ensures value { result ≡ longest self.now }
        ensures at_most { result < 2 ^ 32 }
    {
        match self {
            PlanRequest::Draw => LONGEST_TEXT,
            PlanRequest::Verify | PlanRequest::VerifyGiven => LONGEST_GIVEN,
        }
    }
}
