//! The lanes of a job, each with what it may carry in all.

ghost use Rattle.std.specs.Prelude.{◌≡◌, ◌<◌, ◌++◌, IfOk, length};
ghost use Rattle.rank_wiring.specs.Fans.{AreFans};
ghost use Rattle.rank_slots.specs.Lanes.{bounds_if_used, bounds_on, lanes_from};

use pair_wires::Bounds;
use ptl_types::{Lane, NoMemory, Rank};
use schedule_compiler::Schedule;
use std::alloc::Global;

/// What goes on a lane in all.
fn bounds(schedule: &Schedule, s: Rank, d: Rank, lane: Lane) -> Bounds
    requires source { s < schedule.now.plan.ranks }
    requires target { d < schedule.now.plan.ranks }
    ensures { result ≡ bounds_on schedule.now.plan s d lane }
{
    let _ = schedule.plan();
    let bytes = match lane {
        Lane::Request => schedule.lane_bytes(s, d),
        Lane::Answer => 0,
    };
    Bounds {
        source: s,
        target: d,
        lane,
        messages: schedule.lane(s, d, lane) as u32,
        bytes,
    }
}

/// Puts a lane after these, if messages go on it.
fn push_lane(
    lanes: &mut Vec<Bounds>,
    schedule: &Schedule,
    s: Rank,
    d: Rank,
    lane: Lane,
) -> Result<(), NoMemory>
    requires source { s < schedule.now.plan.ranks }
    requires target { d < schedule.now.plan.ranks }
    ensures { IfOk result (λ _. lanes.new.items ≡ lanes.old.items ++ bounds_if_used schedule.now.plan s d lane) }
{
    if 0 < schedule.lane(s, d, lane) {
        lanes.push(bounds(schedule, s, d, lane))?;
    }
    Ok(())
}

/// The lanes from a rank that messages go on, by target, requests before answers.
fn lanes_from(alloc: Global, schedule: &Schedule, s: Rank) -> Result<Vec<Bounds>, NoMemory>
    requires { s < schedule.now.plan.ranks }
    ensures { IfOk result (λ v. v.items ≡ lanes_from schedule.now.plan s) }
{
    let _ = schedule.plan();
    let ranks = schedule.ranks();
    let mut lanes = Vec::new(alloc);
    for d in 0..ranks {
        push_lane(&mut lanes, schedule, s, d, Lane::Request)?;
        push_lane(&mut lanes, schedule, s, d, Lane::Answer)?;
    }
    Ok(lanes)
}

/// The lanes from a rank that messages go on.
#[derive(Drop)]
pub(crate) struct OutLanes {
    /// How many there are from the ranks before it.
    pub(crate) first: u32,
    /// The lanes.
    pub(crate) lanes: Vec<Bounds>,
}

/// The lanes from each rank.
pub(crate) fn all_fans(alloc: Global, schedule: &Schedule) -> Result<Vec<OutLanes>, NoMemory>
    ensures count { IfOk result (λ v. length v.items ≡ schedule.now.plan.ranks) }
    ensures fans { IfOk result (λ v. AreFans schedule.now.plan v.items) }
{
    let _ = schedule.plan();
    let ranks = schedule.ranks();
    let mut fans = Vec::with_capacity(alloc, ranks as usize)?;
    let mut first = 0;
    for s in 0..ranks {
        let lanes = lanes_from(alloc, schedule, s)?;
        let many = lanes.len() as u32;
        fans.push(OutLanes { first, lanes })?;
        first += many;
    }
    Ok(fans)
}
