//! What every job is.

ghost use Rattle.rank_slots.specs.Sound.{IsSound};

use schedule_compiler::Job;

/// Tells that a job's plan is sound, and that its inputs are of the plan. The call does nothing.
pub fn recall_soundness(job: &Job)
    ensures { IsSound job.now }
{
    let schedule = job.schedule();
    let _ = schedule.plan();
    let _ = job.inputs();
}
