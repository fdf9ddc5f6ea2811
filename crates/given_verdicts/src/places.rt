//! The lines of a given plan's text.

ghost use Rattle.std.specs.Prelude.{◌≡◌};
ghost use Rattle.given_verdicts.specs.Answers.{cause_of, flaw_line};

use crate::answer::GivenCause;
use plan_core::Plan;
use plan_judge::Flaw;

/// The line of what has a flaw, in a text whose plan begins with this line.
pub(crate) fn flaw_line(first: u32, plan: &Plan, flaw: Flaw) -> u64
    ensures { result ≡ flaw_line first plan.now flaw }
{
    match flaw {
        Flaw::Plan { .. } => u64::from(first),
        Flaw::Cell { cell, .. } => u64::from(first) + 1 + u64::from(cell),
        Flaw::Link { link, .. } => {
            u64::from(first) + 1 + plan.cells().len() as u64 + u64::from(link)
        }
    }
}

/// The cause of a flaw.
pub(crate) fn cause_of(flaw: Flaw) -> GivenCause
    ensures { result ≡ cause_of flaw }
{
    match flaw {
        Flaw::Plan { cause } => GivenCause::Plan(cause),
        Flaw::Cell { cause, .. } => GivenCause::Cell(cause),
        Flaw::Link { cause, .. } => GivenCause::Link(cause),
    }
}
