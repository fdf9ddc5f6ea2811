//! Worlds that a frame makes of nodes: closed around nodes of which nothing was done, a frame is what a world under its window is at
//! its opening, and it runs to the same results.

ghost use Rattle.std.specs.Prelude.{true, ◌≡◌, ◌<◌, IfOk, IfSome, length};
ghost use Rattle.plan_core.specs.calls.Lanes.{is_used_lane};
ghost use Rattle.worlds.specs.Frames.{lane_in};
ghost use Rattle.worlds.specs.Later.{IsOpened};

use crate::scene::{check_bytes, job_of, run};
use ptl_types::{Lane, NoMemory, Rank};
use schedule_compiler::Job;
use std::alloc::Global;
use worlds::opening::install_all;
use worlds::{Frame, World};

const TEXT: &[u8] =
    b"coll 1\nranks 3\ncomplete remote\ninput a u8 1\n1\n2\n3\nallreduce sum a b\nallgather b c\nend\n";

/// How many messages lie in a lane that is lent; the frame is as it was.
fn held(frame: &mut Frame, s: Rank, d: Rank, lane: Lane) -> u32
    requires source { s < frame.old.schedule.plan.ranks }
    requires target { d < frame.old.schedule.plan.ranks }
    requires used { is_used_lane frame.old.schedule.plan s d lane ≡ true }
    ensures count { result ≡ length (lane_in frame.old s d lane).messages }
    ensures same { frame.new ≡ frame.old }
{
    frame.lane(s, d, lane).len()
}

/// How many messages lie in the lane from rank 0 to rank 1 as a frame is opened. `None`: the job has no such lane, or there is no
/// memory.
fn held_first(alloc: Global, job: &Job) -> Option<u32>
    ensures { IfSome result (λ n. n ≡ 0) }
{
    let Ok(mut frame) = Frame::open(alloc, job) else {
        return None;
    };
    let schedule = job.schedule();
    if schedule.ranks() < 2 || schedule.lane(0, 1, Lane::Request) == 0 {
        return None;
    }
    Some(held(&mut frame, 0, 1, Lane::Request))
}

/// The world of a job that a frame makes of its nodes before the first step.
fn closed(alloc: Global, job: &Job) -> Result<World, NoMemory>
    ensures { IfOk result (λ world. IsOpened job.now 4 0 world) }
{
    let frame = Frame::open(alloc, job)?;
    let nodes = install_all(alloc, job, 0)?;
    Ok(frame.into_world(nodes))
}

/// The world of a text that a frame makes before the first step. `None`: the text is refused, or there is no memory.
fn closed_world(alloc: Global, text: &[u8]) -> Option<World> {
    let job = job_of(alloc, text)?;
    match closed(alloc, &job) {
        Ok(world) => Some(world),
        Err(_) => None,
    }
}

#[test]
fn a_frame_before_the_first_step_runs_to_rest(rt: HostRuntime) {
    let mut world = closed_world(rt.alloc(), TEXT);
    assert!(rt; world.is_some());
    if let Some(world) = &mut world {
        run(world);
        for r in 0..3 {
            check_bytes(&rt, world, (0, 1, r), &[6]);
            check_bytes(&rt, world, (0, 2, r), &[6, 6, 6]);
        }
    }
}

#[test]
fn a_lane_is_lent_empty(rt: HostRuntime) {
    let job = job_of(rt.alloc(), TEXT);
    assert!(rt; job.is_some());
    if let Some(job) = &job {
        assert_eq!(rt; held_first(rt.alloc(), job), Some(0));
    }
}
