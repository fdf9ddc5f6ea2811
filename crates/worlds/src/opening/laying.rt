//! The lanes of a world before its first step.

ghost use Rattle.std.specs.Prelude.{ℕ, ◌≡◌, ◌<◌, ◌+◌, ◌*◌, ◌^◌, IfOk, length};
ghost use Rattle.ptl_types.specs.declared.headers.Lane.{Lane};
ghost use Rattle.cuts.specs.windows.Places.{lane_place};
ghost use Rattle.worlds.specs.parts.Layout.{lane_at};
ghost use Rattle.worlds.specs.opening.Laying.{FitLanes, laid_lane, room_of, strays_of};

use pair_wires::PlainLane;
use ptl_types::{Lane, NoMemory, Rank};
use schedule_compiler::Schedule;
use std::alloc::Global;

/// How much room lanes have.
#[derive(Clone, Copy)]
pub enum Room {
    /// For the plan's messages, and on a request lane for so many strays.
    Whole(u32),
    /// For so many messages, or for the plan's where these are fewer.
    Window(u32),
}

/// How many messages a lane of this kind may hold on which the plan sends so many.
fn capacity(room: Room, messages: u64, lane: Lane) -> u32
    requires { messages + strays_of room < 2 ^ 32 }
    ensures { result ≡ room_of room messages lane }
{
    let messages = messages as u32;
    match room {
        Room::Whole(strays) => match lane {
            Lane::Request => messages + strays,
            Lane::Answer => messages,
        },
        Room::Window(at_most) => at_most.min(messages),
    }
}

/// An empty lane.
fn open_lane(
    alloc: Global,
    schedule: &Schedule,
    room: Room,
    s: Rank,
    d: Rank,
    lane: Lane,
) -> Result<PlainLane, NoMemory>
    requires source { s < schedule.now.plan.ranks }
    requires target { d < schedule.now.plan.ranks }
    requires at_most { FitLanes schedule.now.plan (strays_of room) }
    ensures { IfOk result (λ l. l ≡ laid_lane schedule.now.plan room s d lane) }
{
    let many = capacity(room, schedule.lane(s, d, lane), lane);
    PlainLane::open(alloc, many)
}

/// The lanes of a schedule by their places, empty.
pub(crate) fn lay_all(
    alloc: Global,
    schedule: &Schedule,
    room: Room,
) -> Result<Vec<PlainLane>, NoMemory>
    requires { FitLanes schedule.now.plan (strays_of room) }
    ensures size { IfOk result (λ v. length v.items ≡ 2 * (schedule.now.plan.ranks * schedule.now.plan.ranks)) }
    ensures laid { IfOk result (λ v. (s d : ℕ) (lane : Lane) → s < schedule.now.plan.ranks → d < schedule.now.plan.ranks →
        lane_at v.items (lane_place schedule.now.plan.ranks s d lane) ≡ laid_lane schedule.now.plan room s d lane) }
{
    let ranks = schedule.ranks();
    let _ = schedule.plan();
    let pairs = ranks * ranks;
    let places = 2 * pairs as usize;
    let mut lanes = Vec::with_capacity(alloc, places)?;
    for pair in 0..pairs {
        let s = pair / ranks;
        let d = pair % ranks;
        let request = open_lane(alloc, schedule, room, s, d, Lane::Request)?;
        lanes.push(request)?;
        let answer = open_lane(alloc, schedule, room, s, d, Lane::Answer)?;
        lanes.push(answer)?;
    }
    Ok(lanes)
}
