//! What is compiled for a rank of a job.

ghost use Rattle.std.specs.Prelude.{◌<◌, IfOk};
ghost use Rattle.rank_node.specs.Node.{task_of};
ghost use Rattle.rank_node.specs.Plans.{IsCompiledFor};

use crate::tasks::own::own_cells;
use crate::tasks::receipts::{bytes_to, receipts_of};
use ptl_types::{NoMemory, Rank};
use rank_node::Compiled;
use schedule_compiler::{Job, load};
use std::alloc::Global;

/// What is compiled for a rank: the calls and limits that the job's plan says, room for the messages that come to the rank, and the
/// bytes of its region, with the rank's own lists of the inputs in it.
///
/// # Errors
///
/// There was no memory for it. The job is as it was.
pub fn task_of(alloc: Global, job: &Job, r: Rank) -> Result<Compiled, NoMemory>
    requires { r < job.now.schedule.plan.ranks }
    ensures { IfOk result (λ c. IsCompiledFor job.now.schedule.plan job.now.inputs r (task_of c)) }
{
    let schedule = job.schedule();
    let table = schedule.rank(alloc, r)?;
    let region = load(alloc, schedule, &table, job.inputs(), r)?;
    let own = own_cells(alloc, schedule, r, table.late())?;
    let receipts = receipts_of(schedule, r, &table);
    let limits = *table.limits();
    let longest = table.longest();
    let (cells, calls) = table.into_lists();
    Ok(Compiled {
        rank: r,
        ranks: schedule.plan().ranks(),
        limits,
        region,
        cells,
        calls,
        own,
        go: r,
        longest,
        receipts,
        bytes: bytes_to(schedule, r),
    })
}
