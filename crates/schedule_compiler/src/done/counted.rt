//! A plan with its counts.

ghost use Rattle.std.specs.Prelude.{◌≡◌, ◌<◌, ◌+◌, ◌^◌, IfOk, length};
ghost use Rattle.plan_core.specs.calls.RankOps.{done_threshold};
ghost use Rattle.plan_tables.specs.Tables.{IsTabled};
ghost use Rattle.schedule_compiler.specs.done.Counts.{AreCounted, AreSent};

use crate::done::counting::{count_cells, count_messages};
use plan_core::Plan;
use plan_tables::Tallies;
use ptl_types::{NoMemory, Rank};
use std::alloc::Global;
use std::marker::Model;

/// A plan of which it is known where each rank's done counter stands when all is done. It means the plan.
#[derive(Debug, Drop)]
pub struct CountedPlan {
    plan: Plan,
    /// How many cells each rank has.
    cells: Tallies,
    /// How many messages each rank sends, where completion waits for acknowledgements.
    sent: Tallies,
}

impl Model for CountedPlan {
    ghost use Rattle.plan_core.specs.Plan.{Plan};
    ghost use Rattle.schedule_compiler.specs.done.Counts.{AreCounted};

    ghost Value = { Plan };

    ghost view = { λ c. c.plan };

    ghost invariant = { λ c. AreCounted c.plan c.cells c.sent };
}

/// The messages of each rank, where they are waited for.
fn waited(alloc: Global, plan: &Plan) -> Result<Tallies, NoMemory>
    requires { IsTabled plan.now }
    ensures { IfOk result (λ sent. AreSent plan.now sent) }
{
    if plan.remote() {
        count_messages(alloc, plan)
    } else {
        Tallies::open(alloc, 0)
    }
}

impl CountedPlan {
    /// A plan with its counts.
    ///
    /// # Errors
    ///
    /// There was no memory for the counts. The plan is then gone.
    pub fn of(alloc: Global, plan: Plan) -> Result<CountedPlan, NoMemory>
        requires { IsTabled plan }
        ensures { IfOk result (λ counted. counted ≡ plan) }
    {
        let cells = count_cells(alloc, &plan)?;
        let sent = waited(alloc, &plan)?;
        Ok(CountedPlan { plan, cells, sent })
    }

    /// The plan.
    pub fn plan(&self) -> &Plan
        ensures value { result.now ≡ self.now }
        // This holds of every such plan.
        ensures at_most { length self.now.cells + length self.now.links < 2 ^ 32 }
    {
        &self.plan
    }

    /// Where a rank's done counter stands when all is done.
    pub fn done(&self, r: Rank) -> u64
        requires { r < self.now.ranks }
        ensures { result ≡ done_threshold self.now r }
    {
        let cells = self.cells.at(r as usize);
        if self.plan.remote() {
            cells + self.sent.at(r as usize)
        } else {
            cells
        }
    }
}
