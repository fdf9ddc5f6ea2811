//! All tables of a plan together.

ghost use Rattle.std.specs.Prelude.{◌≡◌, ◌<◌, ◌≤◌, IfOk, length};
ghost use Rattle.plan_core.specs.calls.Areas.{area_length};
ghost use Rattle.plan_core.specs.calls.Calls.{cell_start};
ghost use Rattle.plan_core.specs.calls.RankOps.{done_threshold};
ghost use Rattle.plan_tables.specs.Tables.{IsTabled};
ghost use Rattle.plan_tables.specs.Installed.{installed};
ghost use Rattle.plan_tables.specs.Ranks.{IsTables};

use crate::calls::start_at;
use crate::index::Index;
use crate::lanes::{Lanes, find_lanes};
use crate::ranks::{RankTable, done, rank_table};
use crate::reading::recall_ranks;
use plan_core::Plan;
use ptl_types::{NoMemory, Rank};
use std::alloc::Global;

/// What the ranks of a plan install, and where its cells and areas lie.
#[derive(Debug, Drop)]
pub struct Tables {
    // By rank, by cell, and by rank and class.
    index: Index,
    /// The messages and bytes of each pair of ranks.
    pub lanes: Lanes,
}

impl Tables {
    /// The tables of a plan, in a few passes over its cells and links.
    ///
    /// # Errors
    ///
    /// There was no memory for them.
    pub fn of(alloc: Global, plan: &Plan) -> Result<Tables, NoMemory>
        requires { IsTabled plan.now }
        ensures { IfOk result (λ tables. IsTables plan.now tables) }
    {
        let index = Index::of(alloc, plan)?;
        let lanes = find_lanes(alloc, plan)?;
        Ok(Tables { index, lanes })
    }

    /// What a rank installs, made anew.
    ///
    /// # Errors
    ///
    /// There was no memory for it.
    pub fn rank(&self, alloc: Global, plan: &Plan, r: Rank) -> Result<RankTable, NoMemory>
        requires tabled { IsTabled plan.now }
        requires tables { IsTables plan.now self.now }
        requires rank { r < plan.now.ranks }
        ensures { IfOk result (λ t. t ≡ installed plan.now r) }
    {
        rank_table(alloc, plan, &self.index, r)
    }

    /// Where the done counter of a rank stands when all is done.
    pub fn done(&self, plan: &Plan, r: Rank) -> u64
        requires tabled { IsTabled plan.now }
        requires tables { IsTables plan.now self.now }
        requires rank { r < plan.now.ranks }
        ensures { result ≡ done_threshold plan.now r }
    {
        done(plan, &self.index, r)
    }

    /// Where a cell begins in its rank's region, in bytes.
    pub fn start(&self, plan: &Plan, cell: u32) -> u64
        requires tables { IsTables plan.now self.now }
        requires cell { cell < length plan.now.cells }
        ensures { result ≡ cell_start plan.now cell }
    {
        start_at(plan, self.index.starts.as_slice(), cell)
    }

    /// The bytes of the area of a class at a rank: those of the class's messages that come to the rank together.
    pub fn area(&self, plan: &Plan, r: Rank, class: u32) -> u64
        requires tables { IsTables plan.now self.now }
        requires rank { r < plan.now.ranks }
        requires at_most { plan.now.ranks ≤ 256 }
        requires class { class < 81 }
        ensures { result ≡ area_length plan.now r class }
    {
        recall_ranks(plan);
        self.index.areas.bytes.at(r as usize * 81 + class as usize)
    }
}
