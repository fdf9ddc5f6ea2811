//! What holds of every value of a type, whatever was done with it.

ghost use Rattle.std.specs.Prelude.{◌≡◌, ◌≤◌, ◌<◌, ◌+◌, ◌^◌, length, map};
ghost use Rattle.plan_core.specs.Sound.{SoundPlan};
ghost use Rattle.rank_node.specs.Copies.{listed};
ghost use Rattle.rank_node.specs.Node.{IsNode};
ghost use Rattle.schedule_compiler.specs.Jobs.{AreInputsFor};

use rank_frames::Place;
use schedule_compiler::{Job, Schedule};

/// What holds of every schedule.
pub(crate) fn recall_schedule(schedule: &Schedule)
    ensures sound { SoundPlan schedule.now.plan schedule.now.inputs }
    ensures at_most { length schedule.now.plan.cells + length schedule.now.plan.links < 2 ^ 27 }
    ensures few { schedule.now.plan.ranks ≤ 256 }
{
    schedule.plan();
    schedule.ranks();
}

/// What holds of every job.
pub(crate) fn recall_job(job: &Job)
    ensures inputs { AreInputsFor job.now.schedule job.now.inputs }
    ensures sound { SoundPlan job.now.schedule.plan (length job.now.inputs) }
    ensures few { job.now.schedule.plan.ranks ≤ 256 }
{
    recall_schedule(job.schedule());
    job.inputs();
}

/// What holds of every place.
pub(crate) fn recall_place(place: &Place)
    ensures node { IsNode place.now.node }
    ensures listed { map listed place.now.node.diary.locals ≡ place.now.node.diary.steps }
{
    place.node().recall_history();
}
