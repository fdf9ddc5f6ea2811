//! The triggered operations of each rank.

ghost use Rattle.std.specs.Prelude.{◌≡◌, ◌<◌, ◌≤◌, ◌^◌, IfOk, length, map};
ghost use Rattle.plan_core.specs.Plan.{own, out_links};
ghost use Rattle.plan_tables.specs.Tables.{IsTabled, all_ranks, from_rank, rank_of};
ghost use Rattle.plan_words.specs.Words.{IsOps};

use plan_core::Plan;
use plan_core::reading::{cell_at, cell_count, link_at, link_count};
use plan_tables::ByRank;
use ptl_types::{NoMemory, Rank};
use std::alloc::Global;

/// The links that each rank fires, and its cells: an operation for each, in this order.
#[derive(Debug, Drop)]
pub struct OpTables {
    pub(crate) out: ByRank,
    pub(crate) own: ByRank,
}

/// What holds of the number of ranks, whatever is done with the plan.
fn recall_ranks(plan: &Plan)
    ensures { plan.now.ranks < 2 ^ 32 }
{
    let _ = plan.ranks();
}

/// The rank that a cell lies on.
fn rank_of(plan: &Plan, c: u32) -> Rank
    requires tabled { IsTabled plan.now }
    requires cell { c < length plan.now.cells }
    ensures value { result ≡ rank_of plan.now c }
    ensures rank { result < plan.now.ranks }
{
    recall_ranks(plan);
    cell_at(plan, c).rank
}

/// The rank that fires a link.
fn from_rank(plan: &Plan, l: u32) -> Rank
    requires tabled { IsTabled plan.now }
    requires link { l < length plan.now.links }
    ensures value { result ≡ from_rank plan.now l }
    ensures rank { result < plan.now.ranks }
{
    rank_of(plan, link_at(plan, l).source)
}

/// The links that each rank fires, rising.
fn links_by_rank(alloc: Global, plan: &Plan) -> Result<ByRank, NoMemory>
    requires { IsTabled plan.now }
    ensures { IfOk result (λ table. table ≡ map (out_links plan.now) (all_ranks plan.now)) }
{
    let mut out = ByRank::open(alloc, plan.ranks())?;
    for l in 0..link_count(plan) {
        out.add(from_rank(plan, l), l)?;
    }
    Ok(out)
}

/// The cells of each rank, rising.
fn cells_by_rank(alloc: Global, plan: &Plan) -> Result<ByRank, NoMemory>
    requires { IsTabled plan.now }
    ensures { IfOk result (λ table. table ≡ map (own plan.now) (all_ranks plan.now)) }
{
    let mut own = ByRank::open(alloc, plan.ranks())?;
    for c in 0..cell_count(plan) {
        own.add(rank_of(plan, c), c)?;
    }
    Ok(own)
}

impl OpTables {
    /// Those of a plan, in one pass over its links and one over its cells.
    ///
    /// # Errors
    ///
    /// There was no memory for them.
    pub fn of(alloc: Global, plan: &Plan) -> Result<OpTables, NoMemory>
        requires { IsTabled plan.now }
        ensures { IfOk result (λ tables. IsOps plan.now tables) }
    {
        let out = links_by_rank(alloc, plan)?;
        let own = cells_by_rank(alloc, plan)?;
        Ok(OpTables { out, own })
    }

    /// The links that a rank fires.
    pub(crate) fn links(&self, plan: &Plan, r: Rank) -> &[u32]
        requires tables { IsOps plan.now self.now }
        requires rank { r < plan.now.ranks }
        ensures value { result.now ≡ out_links plan.now r }
        ensures at_most { length result.now ≤ length plan.now.links }
    {
        recall_ranks(plan);
        self.out.at(r)
    }

    /// The cells of a rank.
    pub(crate) fn cells(&self, plan: &Plan, r: Rank) -> &[u32]
        requires tables { IsOps plan.now self.now }
        requires rank { r < plan.now.ranks }
        ensures value { result.now ≡ own plan.now r }
        ensures at_most { length result.now ≤ length plan.now.cells }
    {
        recall_ranks(plan);
        self.own.at(r)
    }
}
