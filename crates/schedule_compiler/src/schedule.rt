//! What the ranks of a plan install.

ghost use Rattle.std.specs.Prelude.{ℕ, Some, ◌≡◌, ◌<◌, ◌≤◌, ◌+◌, ◌^◌, IfOk, length};
ghost use Rattle.ptl_types.specs.declared.headers.Lane.TheVariants.{Request};
ghost use Rattle.plan_core.specs.Draw.{held_cell};
ghost use Rattle.plan_core.specs.Sound.{SoundPlan};
ghost use Rattle.plan_core.specs.calls.Lanes.{lane_bytes, lane_messages};
ghost use Rattle.plan_core.specs.calls.RankOps.{done_threshold};
ghost use Rattle.plan_tables.specs.Installed.{installed};
ghost use Rattle.plan_tables.specs.Ranks.{IsTables};
ghost use Rattle.schedule_compiler.specs.Answers.{place_of};
ghost use Rattle.schedule_compiler.specs.Keeping.{CanRun, IsCellOn, Keeps};
ghost use Rattle.schedule_compiler.specs.Schedules.{scheduled};

use plan_core::{BufferCells, Plan};
use plan_tables::{RankTable, Tables};
use ptl_types::{Lane, NoMemory, Rank};
use std::alloc::Global;
use std::marker::Model;

/// Where a cell lies.
#[derive(Clone, Copy, Debug, PartialEq, Eq)]
pub struct Place {
    /// The rank whose region it lies in.
    pub rank: Rank,
    /// Where it begins there, in bytes.
    pub start: u64,
    /// Its length in bytes.
    pub length: u64,
}

/// The schedule of a plan: what each rank installs, and which cell holds each result. Contracts see it as the plan, the cells of its
/// results, and the number of its inputs. It keeps that the plan is sound for so many inputs and can be installed.
#[derive(Debug)]
pub struct Schedule {
    plan: Plan,
    held: BufferCells,
    inputs: u32,
    buffers: u32,
    tables: Tables,
}

impl Model for Schedule {
    ghost use Rattle.schedule_compiler.specs.Keeping.{Keeps};
    ghost use Rattle.schedule_compiler.specs.Schedules.{ScheduleOf, scheduled};

    ghost Value = { ScheduleOf };

    ghost view = { λ s. scheduled s.plan s.held s.inputs };

    ghost invariant = { λ s. Keeps (scheduled s.plan s.held s.inputs) s.buffers s.tables };
}

// Written out, so that letting one go is one call: docs/DECISIONS.md, "Large types have a drop of their own".
impl Drop for Schedule {
    fn drop(self) {
        let Schedule {
            plan: _,
            held: _,
            inputs: _,
            buffers: _,
            tables: _,
        } = self;
    }
}

impl Schedule {
    /// The schedule of these parts. It takes no memory.
    fn from_parts(
        plan: Plan,
        held: BufferCells,
        inputs: u32,
        buffers: u32,
        tables: Tables,
    ) -> Schedule
        requires { Keeps (scheduled plan held inputs) buffers tables }
        ensures { result ≡ scheduled plan held inputs }
    {
        Schedule {
            plan,
            held,
            inputs,
            buffers,
            tables,
        }
    }

    /// The schedule of a plan with so many inputs, whose results are of so many buffers and lie in these cells. Conditions: the plan is
    /// sound for so many inputs, has fewer than 2^27 cells and links, and the cells of its results at a rank lie on that rank.
    ///
    /// # Errors
    ///
    /// There was no memory for it. The plan is then gone.
    pub fn of(
        alloc: Global,
        plan: Plan,
        held: BufferCells,
        inputs: u32,
        buffers: u32,
    ) -> Result<Schedule, NoMemory>
        requires can { CanRun (scheduled plan held inputs) }
        requires buffers { buffers ≡ held.buffers }
        ensures { IfOk result (λ schedule. schedule ≡ scheduled plan held inputs) }
    {
        let tables = Tables::of(alloc, &plan)?;
        Ok(Schedule::from_parts(plan, held, inputs, buffers, tables))
    }

    /// The plan.
    pub fn plan(&self) -> &Plan
        ensures value { result.now ≡ self.now.plan }
        // These hold of every schedule, whichever call tells them.
        ensures sound { SoundPlan self.now.plan self.now.inputs }
        ensures at_most { length self.now.plan.cells + length self.now.plan.links < 2 ^ 27 }
    {
        &self.plan
    }

    /// How many ranks there are, 1 to 256.
    pub fn ranks(&self) -> u32
        ensures value { result ≡ self.now.plan.ranks }
        ensures some { 1 ≤ result }
        ensures at_most { result ≤ 256 }
    {
        self.plan.ranks()
    }

    /// For how many inputs the plan is.
    pub fn input_count(&self) -> u32
        ensures { result ≡ self.now.inputs }
    {
        self.inputs
    }

    /// How many buffers the cells of the results are of.
    pub fn buffers(&self) -> u32
        ensures { result ≡ self.now.held.buffers }
    {
        self.buffers
    }

    /// What a rank installs, made anew: nothing keeps it beside the rank.
    ///
    /// # Errors
    ///
    /// There was no memory for it.
    pub fn rank(&self, alloc: Global, r: Rank) -> Result<RankTable, NoMemory>
        requires { r < self.now.plan.ranks }
        ensures { IfOk result (λ t. t ≡ installed self.now.plan r) }
    {
        self.tables.rank(alloc, &self.plan, r)
    }

    /// The tables of the plan.
    pub(crate) fn tables(&self) -> &Tables
        ensures { IsTables self.now.plan result.now }
    {
        &self.tables
    }

    /// Where a rank's done counter stands when all is done.
    pub fn done(&self, r: Rank) -> u64
        requires { r < self.now.plan.ranks }
        ensures { result ≡ done_threshold self.now.plan r }
    {
        self.tables.done(&self.plan, r)
    }

    /// How many requests go from one rank to another.
    fn requests(&self, s: Rank, d: Rank) -> u64
        requires source { s < self.now.plan.ranks }
        requires target { d < self.now.plan.ranks }
        ensures { result ≡ lane_messages self.now.plan s d Request }
    {
        self.tables.lanes.messages(&self.plan, s, d)
    }

    /// How many messages go on a lane from rank s to rank d; 0 on an unused lane. Answers go the other way than the requests that
    /// they answer, and only where completion waits for acknowledgements.
    pub fn lane(&self, s: Rank, d: Rank, lane: Lane) -> u64
        requires source { s < self.now.plan.ranks }
        requires target { d < self.now.plan.ranks }
        ensures { result ≡ lane_messages self.now.plan s d lane }
    {
        match lane {
            Lane::Request => self.requests(s, d),
            Lane::Answer => {
                if self.plan.remote() {
                    self.requests(d, s)
                } else {
                    0
                }
            }
        }
    }

    /// The bytes of the requests from rank s to rank d together. Answers carry none.
    pub fn lane_bytes(&self, s: Rank, d: Rank) -> u64
        requires source { s < self.now.plan.ranks }
        requires target { d < self.now.plan.ranks }
        ensures { result ≡ lane_bytes self.now.plan s d }
    {
        self.tables.lanes.sent_bytes(&self.plan, s, d)
    }

    /// Where a cell lies.
    pub fn place(&self, cell: u32) -> Place
        requires { cell < length self.now.plan.cells }
        ensures { result ≡ place_of self.now.plan cell }
    {
        let part = self.plan.cells()[cell as usize];
        Place {
            rank: part.rank,
            start: self.tables.start(&self.plan, cell),
            length: part.length,
        }
    }

    /// The cell that holds a buffer at a rank, a cell of that rank. `None`: none does.
    pub fn result(&self, buffer: u32, r: Rank) -> Option<u32>
        requires buffer { buffer < self.now.held.buffers }
        requires rank { r < self.now.plan.ranks }
        ensures value { result ≡ held_cell self.now.held buffer r }
        ensures cell { (c : ℕ) → held_cell self.now.held buffer r ≡ Some c → IsCellOn self.now.plan r c }
    {
        self.held.cell(buffer, r)
    }
}
