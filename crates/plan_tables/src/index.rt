//! The tables over a whole plan from which each rank's calls are made.

ghost use Rattle.std.specs.Prelude.{ℕ, ◌≡◌, ◌<◌, ◌≤◌, IfOk, get_or, length};
ghost use Rattle.plan_core.specs.Plan.{cell, out_links, own};
ghost use Rattle.plan_core.specs.calls.Areas.{links_to, region_length};
ghost use Rattle.plan_tables.specs.Tables.{IsTabled};
ghost use Rattle.plan_tables.specs.Ranks.{IsIndex};

use crate::all_areas::{Areas, find_areas};
use crate::by_rank::ByRank;
use crate::owners::{cells_by_rank, links_by_rank, messages_by_rank};
use crate::reading::recall_ranks;
use crate::starts::cell_starts;
use crate::tallies::Tallies;
use plan_core::Plan;
use ptl_types::{NoMemory, Rank};
use std::alloc::Global;

/// Tables over a whole plan, by rank, by cell, and by rank and class.
#[derive(Debug, Drop)]
pub struct Index {
    /// The cells of each rank.
    pub own: ByRank,
    /// The links that each rank fires.
    pub out: ByRank,
    /// The links along which messages come to each rank.
    pub into: ByRank,
    /// Where each cell begins in its rank's region, in bytes.
    pub starts: Vec<u64>,
    /// The bytes of each rank's cells.
    pub lengths: Tallies,
    /// The messages and bytes of each area.
    pub areas: Areas,
}

impl Index {
    /// The tables, each in one pass over the cells or the links.
    ///
    /// # Errors
    ///
    /// There was no memory for them.
    pub(crate) fn of(alloc: Global, plan: &Plan) -> Result<Index, NoMemory>
        requires { IsTabled plan.now }
        ensures { IfOk result (λ index. IsIndex plan.now index) }
    {
        let own = cells_by_rank(alloc, plan)?;
        let out = links_by_rank(alloc, plan)?;
        let into = messages_by_rank(alloc, plan)?;
        let placed = cell_starts(alloc, plan)?;
        let areas = find_areas(alloc, plan)?;
        Ok(Index {
            own,
            out,
            into,
            starts: placed.starts,
            lengths: placed.lengths,
            areas,
        })
    }

    /// The cells of a rank, rising.
    pub(crate) fn own_at(&self, plan: &Plan, r: Rank) -> &[u32]
        requires tabled { IsTabled plan.now }
        requires index { IsIndex plan.now self.now }
        requires rank { r < plan.now.ranks }
        ensures value { result.now ≡ own plan.now r }
        ensures cells { (i : ℕ) → i < length result.now → get_or result.now i 0 < length plan.now.cells }
        ensures ranks { (i : ℕ) → i < length result.now → (cell plan.now (get_or result.now i 0)).rank ≡ r }
        ensures at_most { length result.now ≤ length plan.now.cells }
    {
        recall_ranks(plan);
        self.own.at(r)
    }

    /// The links that a rank fires, rising.
    pub(crate) fn out_at(&self, plan: &Plan, r: Rank) -> &[u32]
        requires tabled { IsTabled plan.now }
        requires index { IsIndex plan.now self.now }
        requires rank { r < plan.now.ranks }
        ensures value { result.now ≡ out_links plan.now r }
        ensures links { (i : ℕ) → i < length result.now → get_or result.now i 0 < length plan.now.links }
        ensures at_most { length result.now ≤ length plan.now.links }
    {
        recall_ranks(plan);
        self.out.at(r)
    }

    /// The links along which messages come to a rank, rising.
    pub(crate) fn into_at(&self, plan: &Plan, r: Rank) -> &[u32]
        requires tabled { IsTabled plan.now }
        requires index { IsIndex plan.now self.now }
        requires rank { r < plan.now.ranks }
        ensures value { result.now ≡ links_to plan.now r }
        ensures links { (i : ℕ) → i < length result.now → get_or result.now i 0 < length plan.now.links }
        ensures at_most { length result.now ≤ length plan.now.links }
    {
        recall_ranks(plan);
        self.into.at(r)
    }

    /// The bytes of a rank's cells.
    pub(crate) fn after_cells(&self, plan: &Plan, r: Rank) -> u64
        requires index { IsIndex plan.now self.now }
        requires rank { r < plan.now.ranks }
        ensures { result ≡ region_length plan.now r }
    {
        recall_ranks(plan);
        self.lengths.at(r as usize)
    }
}
