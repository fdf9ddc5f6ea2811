//! What is at fault in the lines after the links of a plan.

ghost use Rattle.std.specs.Prelude.{◌≡◌, ◌+◌, ◌-◌, ◌<◌, ◌^◌, length};
ghost use Rattle.mark_judge.specs.Words.{line_of};

use given_lines::Mark;
use plan_core::Plan;
use ptl_types::Rank;
use std::fmt;

/// What a line after the `done` lines is for.
#[derive(Clone, Copy, Debug, PartialEq, Eq)]
pub enum Due {
    /// A buffer's list at a rank.
    Result {
        /// The number of the buffer.
        buffer: u32,
        /// The rank.
        rank: Rank,
    },
    /// Where a rank enters a barrier.
    Enter {
        /// The number of the step.
        step: u32,
        /// The rank.
        rank: Rank,
    },
    /// Where a rank leaves it.
    Leave {
        /// The number of the step.
        step: u32,
        /// The rank.
        rank: Rank,
    },
}

/// What is the first at fault in the lines after the links of a plan. A mark is named by its place among the lines `result`, `enter`
/// and `leave`, from 0.
#[derive(Clone, Copy, Debug, PartialEq, Eq)]
pub enum MarkFlaw {
    /// The rank's done counter stands elsewhere when the rank is done.
    BadDone {
        /// The rank.
        rank: Rank,
    },
    /// The description doesn't ask for what the line is for, an earlier line is for the same, or the line's cell is none of the plan,
    /// lies on another rank or, for a result, hasn't the buffer's type or the bytes of its list.
    BadResult {
        /// The line.
        mark: u32,
    },
    /// The description asks for it, and no line is for it.
    NoResult {
        /// What is missing.
        due: Due,
    },
    /// The line names a cell where a rank enters a barrier, which may be reached before that rank's start: it isn't the rank's go cell,
    /// no message comes to it, and no bump comes to it from a cell that isn't reached before the start either.
    EarlyEntry {
        /// The line.
        mark: u32,
    },
    /// From some cell where a rank enters the barrier no chain of links leads to the cell where this line says that a rank leaves it.
    BarrierOpen {
        /// The line.
        mark: u32,
    },
}

impl fmt::Display for MarkFlaw {
    fn fmt<W: fmt::Write>(&self, f: &mut fmt::Formatter<W>) -> fmt::Result {
        f.write_str(match self {
            MarkFlaw::BadDone { .. } => "BadDone",
            MarkFlaw::BadResult { .. } => "BadResult",
            MarkFlaw::NoResult { .. } => "NoResult",
            MarkFlaw::EarlyEntry { .. } => "EarlyEntry",
            MarkFlaw::BarrierOpen { .. } => "BarrierOpen",
        })
    }
}

/// The number of the first line `done`, of a plan whose text begins with line `first`.
fn first_done(first: u32, plan: &Plan) -> u64
    requires { length plan.now.cells + length plan.now.links < 2 ^ 32 - 1 }
    ensures value { result ≡ first + 1 + length plan.now.cells + length plan.now.links }
    ensures at_most { result < 2 ^ 34 }
{
    u64::from(first) + 1 + plan.cells().len() as u64 + plan.links().len() as u64
}

/// The number of the line at fault, of a plan whose text begins with line `first`: what is missing is missing at the line `end`.
pub fn line_of(first: u32, plan: &Plan, marks: &[Mark], flaw: MarkFlaw) -> u64
    requires at_most { length plan.now.cells + length plan.now.links < 2 ^ 32 - 1 }
    requires few_marks { length marks.now < 2 ^ 32 }
    ensures { result ≡ line_of first plan.now marks.now flaw }
{
    let done = first_done(first, plan);
    let ranks = u64::from(plan.ranks());
    match flaw {
        MarkFlaw::BadDone { rank } => done + u64::from(rank),
        MarkFlaw::BadResult { mark }
        | MarkFlaw::EarlyEntry { mark }
        | MarkFlaw::BarrierOpen { mark } => done + ranks + u64::from(mark),
        MarkFlaw::NoResult { .. } => done + ranks + marks.len() as u64,
    }
}
