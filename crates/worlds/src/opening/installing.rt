//! The nodes of a world before its first step.

ghost use Rattle.std.specs.Prelude.{ℕ, ◌≡◌, ◌<◌, IfOk, length};
ghost use Rattle.worlds.specs.parts.Layout.{node_at};
ghost use Rattle.worlds.specs.opening.Fresh.{IsFresh};

use crate::tasks::install;
use ptl_types::NoMemory;
use rank_node::Node;
use schedule_compiler::Job;
use std::alloc::Global;

/// The nodes of a job by rank, each installed with room for so many strays.
///
/// # Errors
///
/// There was no memory for it. The job is as it was.
pub fn install_all(alloc: Global, job: &Job, strays: u32) -> Result<Vec<Node>, NoMemory>
    ensures size { IfOk result (λ v. length v.items ≡ job.now.schedule.plan.ranks) }
    ensures fresh { IfOk result (λ v. (r : ℕ) → r < job.now.schedule.plan.ranks →
        IsFresh job.now.schedule.plan job.now.inputs job.now.schedule.plan.ranks strays r (node_at v.items r)) }
{
    let ranks = job.schedule().ranks();
    let mut nodes = Vec::with_capacity(alloc, ranks as usize)?;
    for r in 0..ranks {
        let node = install(alloc, job, r, strays)?;
        nodes.push(node)?;
    }
    Ok(nodes)
}
