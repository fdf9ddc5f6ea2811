//! The nodes of a job.

ghost use Rattle.std.specs.Prelude.{ℕ, [], false, ◌≡◌, ◌<◌, IfOk, replicate};
ghost use Rattle.cuts.specs.histories.Plans.{system_of};
ghost use Rattle.cuts.specs.view.Slots.{Slots};
ghost use Rattle.rank_node.specs.Handles.{Agrees};
ghost use Rattle.rank_node.specs.Node.{IsNode};
ghost use Rattle.rank_node.specs.Plans.{IsCompiledFor};

use crate::tasks::tasks::task_of;
use ptl_types::{NoMemory, Rank};
use rank_node::Node;
use schedule_compiler::Job;
use std::alloc::Global;

/// The node of a rank: its interface is prepared, and the rank hasn't started. It has the memory for a whole run of the job, with
/// room for so many messages beside the plan's, of at most 64 bytes each. Its interface is the one that the rank begins with in the
/// plan's system, under any slots that are those that its tables gave.
///
/// # Errors
///
/// There was no memory for it. The job is as it was.
pub fn install(alloc: Global, job: &Job, r: Rank, strays: u32) -> Result<Node, NoMemory>
    requires { r < job.now.schedule.plan.ranks }
    ensures compiled { IfOk result (λ n. IsCompiledFor job.now.schedule.plan job.now.inputs r n.task) }
    ensures node { IfOk result (λ n. IsNode n) }
    ensures history { IfOk result (λ n. n.diary.locals ≡ []) }
    ensures steps { IfOk result (λ n. n.diary.steps ≡ []) }
    ensures strays { IfOk result (λ n. n.strays ≡ strays) }
    ensures gates { IfOk result (λ n. n.closed ≡ replicate job.now.schedule.plan.ranks false) }
    ensures first { IfOk result (λ n. (slots : ℕ → Slots) → Agrees (slots r) n.kept →
        n.nic ≡ (system_of job.now.schedule.plan job.now.inputs slots).first r) }
{
    let _ = job.schedule().plan();
    let _ = job.inputs();
    let compiled = task_of(alloc, job, r)?;
    let node = Node::install(alloc, compiled, strays)?;
    node.recall_history();
    Ok(node)
}
