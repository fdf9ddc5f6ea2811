//! What the text of a given plan says.

ghost use Rattle.std.specs.Prelude.{◌≡◌};

use plan_core::Plan;
use ptl_types::Rank;
use std::marker::Model;

/// What the first line says beside the number of ranks.
#[derive(Clone, Copy, Debug)]
pub struct Counts {
    /// How many cells follow.
    pub cells: u32,
    /// How many links follow.
    pub links: u32,
    /// Whether completion also waits for every acknowledgement.
    pub remote: bool,
}

/// A cell that a line names after the plan itself.
#[derive(Clone, Copy, Debug, PartialEq, Eq)]
pub enum Mark {
    /// The cell that holds a printed buffer's list at a rank in the end.
    Result {
        /// The number of the buffer.
        buffer: u32,
        /// The rank.
        rank: Rank,
        /// The number of the cell.
        cell: u32,
    },
    /// The cell at which a rank enters a barrier.
    Enter {
        /// The number of the step.
        step: u32,
        /// The rank.
        rank: Rank,
        /// The number of the cell.
        cell: u32,
    },
    /// The cell at which a rank has left it.
    Leave {
        /// The number of the step.
        step: u32,
        /// The rank.
        rank: Rank,
        /// The number of the cell.
        cell: u32,
    },
}

/// A plan, with what stands in its text after it.
#[derive(Debug, Drop)]
pub struct GivenPlan {
    pub(crate) plan: Plan,
    pub(crate) done: Vec<u64>,
    pub(crate) marks: Vec<Mark>,
}

impl Model for GivenPlan {
    ghost use Rattle.given_lines.specs.Given.{Given};

    ghost Value = { Given };

    ghost view = { λ g. record { plan = g.plan; done = g.done.items; marks = g.marks.items } };
}

impl GivenPlan {
    /// The plan. Nothing is said of it beyond its words: it need not be a sound one.
    pub fn plan(&self) -> &Plan
        ensures { result.now ≡ self.now.plan }
    {
        &self.plan
    }

    /// Where each rank's done counter is said to stand when it is done, by rank.
    pub fn done(&self) -> &[u64]
        ensures { result.now ≡ self.now.done }
    {
        self.done.as_slice()
    }

    /// The cells of the results and barriers, in the order of their lines.
    pub fn marks(&self) -> &[Mark]
        ensures { result.now ≡ self.now.marks }
    {
        self.marks.as_slice()
    }

    /// The plan, where each rank's done counter is said to stand when it is done, and the cells of the results and barriers.
    pub fn into_parts(self) -> (Plan, Vec<u64>, Vec<Mark>)
        ensures plan { result.0 ≡ self.plan }
        ensures done { result.1.items ≡ self.done }
        ensures marks { result.2.items ≡ self.marks }
    {
        (self.plan, self.done, self.marks)
    }
}
