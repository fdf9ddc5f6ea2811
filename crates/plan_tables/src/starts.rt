//! Where the cells lie in the memory of their ranks.

ghost use Rattle.std.specs.Prelude.{◌≡◌, ◌<◌, ◌+◌, ◌^◌, ◌++◌, ◌∷◌, [], IfOk, get_or, length, map, set};
ghost use Rattle.plan_core.specs.Plan.{all_cells, cell};
ghost use Rattle.plan_core.specs.calls.Areas.{region_length};
ghost use Rattle.plan_core.specs.calls.Calls.{cell_start};
ghost use Rattle.plan_tables.specs.Tables.{IsTabled, all_ranks, rank_of};

use crate::reading::rank_of;
use crate::tallies::Tallies;
use plan_core::Plan;
use plan_core::reading::cell_at;
use ptl_types::NoMemory;
use std::alloc::Global;

/// Where each cell begins in its rank's memory, and how many bytes each rank's cells have. In bytes.
#[derive(Debug, Drop)]
pub(crate) struct Starts {
    /// By cell.
    pub starts: Vec<u64>,
    /// By rank.
    pub lengths: Tallies,
}

/// Places a cell after those of its rank that are placed.
fn place(starts: &mut Vec<u64>, lengths: &mut Tallies, plan: &Plan, c: u32) -> Result<(), NoMemory>
    requires tabled { IsTabled plan.now }
    requires cell { c < length plan.now.cells }
    requires ranks { length lengths.old ≡ plan.now.ranks }
    requires fits { get_or lengths.old (rank_of plan.now c) 0 + (cell plan.now c).length < 2 ^ 64 }
    ensures starts { IfOk result (λ u. starts.new.items ≡ starts.old.items ++ get_or lengths.old (rank_of plan.now c) 0 ∷ []) }
    ensures lengths { IfOk result (λ u. lengths.new ≡ set lengths.old (rank_of plan.now c)
        (get_or lengths.old (rank_of plan.now c) 0 + (cell plan.now c).length)) }
{
    let rank = rank_of(plan, c) as usize;
    let start = lengths.at(rank);
    lengths.add(rank, cell_at(plan, c).length);
    match starts.push(start) {
        Ok(()) => Ok(()),
        Err(_) => Err(NoMemory),
    }
}

/// Each rank's cells lie one after the other, without gaps, in the order of their numbers. One pass.
///
/// # Errors
///
/// There was no memory for the tables.
pub(crate) fn cell_starts(alloc: Global, plan: &Plan) -> Result<Starts, NoMemory>
    requires { IsTabled plan.now }
    ensures starts { IfOk result (λ s. s.starts.items ≡ map (cell_start plan.now) (all_cells plan.now)) }
    ensures lengths { IfOk result (λ s. s.lengths ≡ map (region_length plan.now) (all_ranks plan.now)) }
{
    let mut starts = Vec::new(alloc);
    let mut lengths = Tallies::open(alloc, plan.ranks())?;
    for c in 0..plan.cells().len() as u32 {
        place(&mut starts, &mut lengths, plan, c)?;
    }
    Ok(Starts { starts, lengths })
}
