//! How a wave is opened.

ghost use Rattle.std.specs.Prelude.{false, ◌≡◌, ◌<◌, ◌++◌, IfOk};
ghost use mathlib.Core.Option.{some};
ghost use lib.ListN.{get_elem?};
ghost use Rattle.plan_core.specs.calls.Lanes.{is_used_lane};
ghost use Rattle.rest_probe.specs.declared.notes.RankNote.{RankNote};
ghost use Rattle.rest_probe.specs.Lanes.{lane_if, lanes_from, lanes_to, pair_lanes};
ghost use Rattle.rest_probe.specs.Waves.{IsFor};

use crate::notes::{Counts, LaneCount, ProbeNote, RankNote};
use crate::partners::Partners;
use crate::waves::Wave;
use ptl_types::{Lane, NoMemory, Rank};
use schedule_compiler::Schedule;
use std::alloc::Global;

// Puts a lane after these, if messages go on it.
fn push_lane(
    counts: &mut Vec<LaneCount>,
    used: bool,
    rank: Rank,
    lane: Lane,
) -> Result<(), NoMemory>
    ensures { IfOk result (λ _. counts.new.items ≡ counts.old.items ++ lane_if used rank lane) }
{
    if used {
        counts.push(LaneCount {
            rank,
            lane,
            number: 0,
        })?;
    }
    Ok(())
}

// Whether messages go on a lane.
fn is_used(schedule: &Schedule, s: Rank, d: Rank, lane: Lane) -> bool
    requires source { s < schedule.now.plan.ranks }
    requires target { d < schedule.now.plan.ranks }
    ensures { result ≡ is_used_lane schedule.now.plan s d lane }
{
    0 < schedule.lane(s, d, lane)
}

// Puts the lanes between two ranks after these.
fn push_pair(
    counts: &mut Vec<LaneCount>,
    schedule: &Schedule,
    s: Rank,
    d: Rank,
    other: Rank,
) -> Result<(), NoMemory>
    requires source { s < schedule.now.plan.ranks }
    requires target { d < schedule.now.plan.ranks }
    ensures { IfOk result (λ _. counts.new.items ≡ counts.old.items ++ pair_lanes schedule.now.plan s d other) }
{
    let requests = is_used(schedule, s, d, Lane::Request);
    let answers = is_used(schedule, s, d, Lane::Answer);
    push_lane(counts, requests, other, Lane::Request)?;
    push_lane(counts, answers, other, Lane::Answer)?;
    Ok(())
}

// The lanes from a rank.
fn counts_from(alloc: Global, schedule: &Schedule, r: Rank) -> Result<Counts, NoMemory>
    requires { r < schedule.now.plan.ranks }
    ensures { IfOk result (λ c. c ≡ lanes_from schedule.now.plan r) }
{
    let ranks = schedule.ranks();
    let mut counts = Vec::new(alloc);
    for d in 0..ranks {
        push_pair(&mut counts, schedule, r, d, d)?;
    }
    Ok(Counts::of(counts))
}

// The lanes to a rank.
fn counts_to(alloc: Global, schedule: &Schedule, r: Rank) -> Result<Counts, NoMemory>
    requires { r < schedule.now.plan.ranks }
    ensures { IfOk result (λ c. c ≡ lanes_to schedule.now.plan r) }
{
    let ranks = schedule.ranks();
    let mut counts = Vec::new(alloc);
    for s in 0..ranks {
        push_pair(&mut counts, schedule, s, r, s)?;
    }
    Ok(Counts::of(counts))
}

// The room of a rank's note.
fn bare(alloc: Global, schedule: &Schedule, r: Rank) -> Result<RankNote, NoMemory>
    requires { r < schedule.now.plan.ranks }
    ensures there { IfOk result (λ x. x.there ≡ false) }
    ensures sent { IfOk result (λ x. x.note.sent ≡ lanes_from schedule.now.plan r) }
    ensures got { IfOk result (λ x. x.note.got ≡ lanes_to schedule.now.plan r) }
{
    let sent = counts_from(alloc, schedule, r)?;
    let got = counts_to(alloc, schedule, r)?;
    Ok(RankNote {
        there: false,
        note: ProbeNote {
            started: false,
            ready: None,
            sent,
            got,
        },
    })
}

impl Wave {
    /// The room of a note for each rank of a job. No rank has its note yet.
    ///
    /// # Errors
    ///
    /// There was no memory for it.
    pub fn open(alloc: Global, schedule: &Schedule) -> Result<Wave, NoMemory>
        ensures lanes { IfOk result (λ w. IsFor schedule.now.plan w) }
        ensures empty { IfOk result (λ w. (r : _) (x : RankNote) → get_elem? w r ≡ some x → x.there ≡ false) }
    {
        let ranks = schedule.ranks();
        let mut notes = Vec::with_capacity(alloc, ranks as usize)?;
        for r in 0..ranks {
            notes.push(bare(alloc, schedule, r)?)?;
        }
        let partners = Partners::of(alloc, &notes)?;
        Ok(Wave {
            ranks: notes,
            partners,
        })
    }
}
