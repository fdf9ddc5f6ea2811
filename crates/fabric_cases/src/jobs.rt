//! Jobs of texts.

ghost use Rattle.std.specs.Prelude.{true, ◌≡◌, IsTrue};
ghost use Rattle.ptl_types.specs.declared.headers.Lane.TheVariants.{Request};
ghost use Rattle.plan_core.specs.calls.Lanes.{is_used_lane};

use coll_lang::parse;
use ptl_types::Lane;
use schedule_compiler::{Job, compile, shape_job};
use std::alloc::Global;
use std::process::Abort;

/// Two ranks meet.
pub(crate) const TWO_RANKS: &[u8] = b"coll 1\nranks 2\nbarrier\nend\n";

/// Four ranks meet.
pub(crate) const FOUR_RANKS: &[u8] = b"coll 1\nranks 4\nbarrier\nend\n";

/// Two ranks add two numbers each.
pub(crate) const TWO_SUMS: &[u8] =
    b"coll 1\nranks 2\ninput a u8 2\n200 2\n100 255\nallreduce sum a b\nprint b\nend\n";

/// The job of a text.
pub(crate) fn job_of<A: Abort>(rt: &A, alloc: Global, text: &[u8]) -> Job {
    let Ok(description) = parse(alloc, text) else {
        panic!(rt; "a description")
    };
    let (shape, inputs) = description.into_parts();
    let Ok(schedule) = compile(alloc, &shape) else {
        panic!(rt; "a schedule")
    };
    let Ok(job) = shape_job(alloc, &shape, schedule, inputs) else {
        panic!(rt; "a job")
    };
    job
}

/// Whether there are two ranks, of which the first sends requests to the second.
fn is_pair(job: &Job) -> bool
    ensures ranks { IsTrue result → job.now.schedule.plan.ranks ≡ 2 }
    ensures lane { IsTrue result → is_used_lane job.now.schedule.plan 0 1 Request ≡ true }
{
    let schedule = job.schedule();
    if schedule.ranks() != 2 {
        return false;
    }
    0 < schedule.lane(0, 1, Lane::Request)
}

/// The job of a text of two ranks, of which the first sends requests to the second.
pub(crate) fn pair_of<A: Abort>(rt: &A, alloc: Global, text: &[u8]) -> Job
    ensures ranks { result.schedule.plan.ranks ≡ 2 }
    ensures lane { is_used_lane result.schedule.plan 0 1 Request ≡ true }
{
    let job = job_of(rt, alloc, text);
    assert!(rt; is_pair(&job));
    job
}
