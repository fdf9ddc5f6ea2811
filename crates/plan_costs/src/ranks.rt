//! When each rank is done.

ghost use Rattle.std.specs.Prelude.{◌≡◌, ◌<◌, IfOk, get_or, length, max, replicate, set};
ghost use Rattle.plan_tables.specs.Tables.{rank_of};
ghost use Rattle.plan_costs.specs.Ranks.{AreRankTimes};
ghost use Rattle.plan_costs.specs.Times.{IsTimed};

use crate::state::zeros;
use crate::times::Times;
use plan_core::Plan;
use plan_core::reading::{cell_at, cell_count};
use ptl_types::NoMemory;
use std::alloc::{AllocError, Global};

/// The time of a rank is at least that of one more of its cells.
fn reach(ranks: &mut Vec<u64>, rank: u32, time: u64)
    requires { rank < length ranks.old.items }
    ensures { ranks.new.items ≡ set ranks.old.items rank (max (get_or ranks.old.items rank 0) time) }
{
    let place = rank as usize;
    ranks[place] = ranks[place].max(time);
}

/// The times of all ranks.
fn by_rank(alloc: Global, plan: &Plan, times: &Times) -> Result<Vec<u64>, AllocError>
    requires timed { IsTimed plan.now }
    requires cells { length times.now.cells ≡ length plan.now.cells }
    ensures { IfOk result (λ ranks. AreRankTimes plan.now times.now (length plan.now.cells) ranks.items) }
{
    let mut ranks = zeros(alloc, plan.ranks() as usize)?;
    for c in 0..cell_count(plan) {
        reach(&mut ranks, cell_at(plan, c).rank, times.cell(c));
    }
    Ok(ranks)
}

/// When each rank is done: its last cell is reached.
///
/// # Errors
///
/// There was no memory for it.
pub fn rank_times(alloc: Global, plan: &Plan, times: &Times) -> Result<Vec<u64>, NoMemory>
    requires timed { IsTimed plan.now }
    requires cells { length times.now.cells ≡ length plan.now.cells }
    ensures { IfOk result (λ ranks. AreRankTimes plan.now times.now (length plan.now.cells) ranks.items) }
{
    match by_rank(alloc, plan, times) {
        Ok(ranks) => Ok(ranks),
        Err(_) => Err(NoMemory),
    }
}
