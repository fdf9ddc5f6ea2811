//! Between which ranks a link goes.

ghost use Rattle.std.specs.Prelude.{◌≡◌, ◌<◌, ◌+◌, ◌*◌, ◌^◌, length};
ghost use Rattle.plan_tables.specs.Tables.{IsTabled, from_rank, lane_key, rank_of, to_rank};

use plan_core::reading::{cell_at, link_at};
use plan_core::{LinkKind, Plan};
use ptl_types::Rank;

/// Tells in a proof how many ranks a plan may have; it does nothing.
pub(crate) fn recall_ranks(plan: &Plan)
    ensures { plan.now.ranks < 2 ^ 32 }
{
    let _ = plan.ranks();
}

/// Tells in a proof how many cells a plan may have; it does nothing.
pub(crate) fn recall_cells(plan: &Plan)
    ensures { length plan.now.cells < 2 ^ 63 }
{
    let _ = plan.cells();
}

/// The rank of a cell.
pub(crate) fn rank_of(plan: &Plan, c: u32) -> Rank
    requires tabled { IsTabled plan.now }
    requires cell { c < length plan.now.cells }
    ensures value { result ≡ rank_of plan.now c }
    ensures rank { result < plan.now.ranks }
{
    cell_at(plan, c).rank
}

/// The rank that fires a link.
pub(crate) fn from_rank(plan: &Plan, l: u32) -> Rank
    requires tabled { IsTabled plan.now }
    requires link { l < length plan.now.links }
    ensures value { result ≡ from_rank plan.now l }
    ensures rank { result < plan.now.ranks }
{
    rank_of(plan, link_at(plan, l).source)
}

/// The rank that a link comes to.
pub(crate) fn to_rank(plan: &Plan, l: u32) -> Rank
    requires tabled { IsTabled plan.now }
    requires link { l < length plan.now.links }
    ensures value { result ≡ to_rank plan.now l }
    ensures rank { result < plan.now.ranks }
{
    rank_of(plan, link_at(plan, l).target)
}

/// Where a link is counted in a table of all pairs of ranks: by source and then by target, and past the end where it is no
/// message.
pub(crate) fn lane_of(plan: &Plan, l: u32) -> usize
    requires tabled { IsTabled plan.now }
    requires link { l < length plan.now.links }
    ensures { result ≡ lane_key plan.now l }
{
    let ranks = plan.ranks() as usize;
    match link_at(plan, l).kind {
        LinkKind::Bump => ranks * ranks,
        _ => from_rank(plan, l) as usize * ranks + to_rank(plan, l) as usize,
    }
}
