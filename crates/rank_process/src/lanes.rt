//! What comes to a rank in a whole run.

ghost use Rattle.std.specs.Prelude.{◌<◌, IfOk};
ghost use Rattle.rank_process.specs.Opening.{IsDueTo};

use crate::recalling::recall_schedule;
use ptl_types::{Lane, NoMemory, Rank};
use rank_frames::Due;
use schedule_compiler::Schedule;
use std::alloc::Global;
use worlds::tasks::bytes_to;

/// So many messages on each lane to the rank, and so many bytes in all, as the plan has.
pub(crate) fn due_to(alloc: Global, schedule: &Schedule, me: Rank) -> Result<Due, NoMemory>
    requires { me < schedule.now.plan.ranks }
    ensures { IfOk result (λ due. IsDueTo schedule.now.plan me due) }
{
    recall_schedule(schedule);
    let ranks = schedule.ranks();
    let mut requests = Vec::with_capacity(alloc, ranks as usize)?;
    let mut answers = Vec::with_capacity(alloc, ranks as usize)?;
    let mut messages = 0;
    for source in 0..ranks {
        let asked = schedule.lane(source, me, Lane::Request);
        let answered = schedule.lane(source, me, Lane::Answer);
        requests.push(asked)?;
        answers.push(answered)?;
        messages += asked + answered;
    }
    Ok(Due::of(requests, answers, messages, bytes_to(schedule, me)))
}
