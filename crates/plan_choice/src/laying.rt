//! The parts of a choice world before its first step.

ghost use Rattle.std.specs.Prelude.{ℕ, ◌≡◌, ◌<◌, ◌≤◌, ◌*◌, IfOk, length, if◌then◌else◌};
ghost use Rattle.ptl_types.specs.declared.headers.Lane.{Lane};
ghost use Rattle.cuts.specs.windows.Places.{lane_place};
ghost use Rattle.worlds.specs.parts.Layout.{lane_at};
ghost use Rattle.plan_choice.specs.ranks.Seats.{IsInstalled};
ghost use Rattle.plan_choice.specs.Acts.{seat_at};
ghost use Rattle.plan_choice.specs.Laying.{laid_lane};

use crate::ranks::{ChoiceRank, install};
use coll_lang::ChoiceKind;
use pair_wires::PlainLane;
use ptl_types::NoMemory;
use std::alloc::Global;

/// The seats of all ranks, by rank.
pub(crate) fn seat_all(
    alloc: Global,
    ranks: u32,
    kinds: &[ChoiceKind],
) -> Result<Vec<ChoiceRank>, NoMemory>
    requires { length kinds.now ≤ 64 }
    ensures size { IfOk result (λ v. length v.items ≡ ranks) }
    ensures seats { IfOk result (λ v. (r : ℕ) → r < ranks → IsInstalled ranks kinds.now r (seat_at v.items r)) }
{
    let mut seats = Vec::with_capacity(alloc, ranks as usize)?;
    for r in 0..ranks {
        let seat = install(alloc, r, ranks, kinds)?;
        seats.push(seat)?;
    }
    Ok(seats)
}

/// How many messages a lane has room for: one of each step where it is used.
fn room_for(used: bool, steps: u32) -> u32
    ensures { result ≡ (if used then steps else 0) }
{
    if used { steps } else { 0 }
}

/// Empty lanes by their places, with room for one message of each step where they are used: requests to rank 0, and its answers.
pub(crate) fn lay_all(alloc: Global, ranks: u32, steps: u32) -> Result<Vec<PlainLane>, NoMemory>
    requires { ranks ≤ 256 }
    ensures size { IfOk result (λ v. length v.items ≡ 2 * (ranks * ranks)) }
    ensures laid { IfOk result (λ v. (s d : ℕ) (lane : Lane) → s < ranks → d < ranks →
        lane_at v.items (lane_place ranks s d lane) ≡ laid_lane steps s d lane) }
{
    let pairs = ranks * ranks;
    let mut lanes = Vec::with_capacity(alloc, 2 * pairs as usize)?;
    for pair in 0..pairs {
        let s = pair / ranks;
        let d = pair % ranks;
        let requests = room_for(d == 0, steps);
        let request = PlainLane::open(alloc, requests)?;
        lanes.push(request)?;
        let answers = room_for(s == 0, steps);
        let answer = PlainLane::open(alloc, answers)?;
        lanes.push(answer)?;
    }
    Ok(lanes)
}
