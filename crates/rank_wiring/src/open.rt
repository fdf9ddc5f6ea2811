//! How the ranks of a job and their wires are made.

ghost use Rattle.std.specs.Prelude.{◌≡◌, ◌<◌, ◌^◌, ◌++◌, ◌∷◌, [], IfOk, IfSome, length, map};
ghost use Rattle.pair_wires.specs.declared.bounds.Bounds.{Bounds};
ghost use Rattle.rank_slots.specs.Joints.{joint, out_joint};
ghost use Rattle.rank_wiring.specs.Fans.{AreFans, IsFan};
ghost use Rattle.rank_slots.specs.Lanes.{IsLane};
ghost use Rattle.rank_wiring.specs.Opening.{AllFanned, AreBuilt, AreFirst, AreLines, AreWired, HasNoOut, IsBare, IsFanned};
ghost use Rattle.rank_wiring.specs.Opening.{IsFresh, IsHanded, IsLine, SameOuts, wires_in};
ghost use Rattle.rank_slots.specs.Moves.{Slotwise};
ghost use Rattle.rank_slots.specs.Sound.{IsSound};

use crate::lanes::{OutLanes, all_fans};
use pair_wires::{Bounds, Wire};
use ptl_types::{NoMemory, Rank};
use rank_slots::{Hints, InPort, OutPort, TurnRank, put_in, recall_soundness};
use schedule_compiler::Job;
use std::alloc::Global;
use std::thread::Threads;
use work_sharing::map_indices;
use worlds::tasks::install;

/// How many messages the queue of a wire holds, or all that may ever be sent on the wire where these are fewer; one more may wait at its
/// out end.
const WIRE_ROOM: u32 = 3;

// A wire with its in end, which is for the rank that it leads to.
#[derive(Drop)]
struct WireEnd {
    wire: Wire,
    into: InPort,
}

// The wires from a rank.
#[derive(Drop)]
struct OutWires {
    lines: Vec<WireEnd>,
}

// What the thread of a rank makes for it: its slot, with the out ends of its wires, and the wires.
#[derive(Drop)]
struct BuiltRank {
    slot: TurnRank,
    load: OutWires,
}

// A rank with no wires, and with room for the ends of so many. There are as many to a rank as from it where answers are sent.
fn bare_slot(alloc: Global, job: &Job, rank: Rank, ends: usize) -> Result<TurnRank, NoMemory>
    requires { rank < job.now.schedule.plan.ranks }
    ensures { IfOk result (λ x. IsBare job.now rank x) }
{
    let shared = job.share()?;
    let node = Box::new(alloc, install(alloc, job, rank, 0)?)?;
    let ranks = job.schedule().ranks();
    let hints = Box::new(alloc, Hints::open(alloc, ranks, node.nic().pending())?)?;
    let outs = Vec::with_capacity(alloc, ends)?;
    let ins = Vec::with_capacity(alloc, ends)?;
    Ok(TurnRank {
        job: shared,
        node,
        outs,
        ins,
        hints,
    })
}

// One wire more from a rank, whose out end goes into the rank's slot.
fn lay_line(
    alloc: Global,
    job: &Job,
    lane: Bounds,
    number: u32,
    slot: &mut TurnRank,
) -> Result<WireEnd, NoMemory>
    requires lane { IsLane job.now.schedule.plan lane }
    requires fresh { IsFresh job.now lane.source slot.old }
    requires apart { HasNoOut lane slot.old.outs.items }
    ensures fresh { IsFresh job.now lane.source slot.new }
    ensures ins { slot.new.ins.items ≡ slot.old.ins.items }
    ensures line { IfOk result (λ l. IsLine number l × (l.wire.bounds ≡ lane)) }
    ensures out { IfOk result (λ l. map out_joint slot.new.outs.items ≡ map out_joint slot.old.outs.items ++ joint number l.wire ∷ []) }
{
    let (wire, out, into) = Wire::open(alloc, WIRE_ROOM.min(lane.messages), lane)?;
    let out = OutPort {
        end: out,
        wire: number,
        target: lane.target,
        lane: lane.lane,
    };
    let into = InPort {
        end: into,
        wire: number,
        source: lane.source,
        lane: lane.lane,
    };
    slot.add_out(out)?;
    Ok(WireEnd { wire, into })
}

// A wire for each lane from a rank.
fn lay_fan(
    alloc: Global,
    job: &Job,
    rank: Rank,
    fan: &OutLanes,
    slot: &mut TurnRank,
) -> Result<OutWires, NoMemory>
    requires sound { IsSound job.now }
    requires rank { rank < job.now.schedule.plan.ranks }
    requires fan { IsFan job.now.schedule.plan rank fan.now }
    requires bare { IsBare job.now rank slot.old }
    ensures { IfOk result (λ x. IsFanned job.now rank slot.new x) }
{
    let mut lines = Vec::with_capacity(alloc, fan.lanes.len())?;
    for k in 0..fan.lanes.len() {
        let line = lay_line(alloc, job, fan.lanes[k], fan.first + k as u32, slot)?;
        lines.push(line)?;
    }
    Ok(OutWires { lines })
}

// A rank with its wires.
fn build_rank(alloc: Global, job: &Job, rank: Rank, fan: &OutLanes) -> Result<BuiltRank, NoMemory>
    requires rank { rank < job.now.schedule.plan.ranks }
    requires fan { IsFan job.now.schedule.plan rank fan.now }
    ensures { IfOk result (λ b. IsFanned job.now rank b.slot b.load) }
{
    recall_soundness(job);
    let mut slot = bare_slot(alloc, job, rank, fan.lanes.len())?;
    let load = lay_fan(alloc, job, rank, fan, &mut slot)?;
    Ok(BuiltRank { slot, load })
}

// What a thread makes for a rank. There is nothing where there was no memory for it.
fn built_rank_of(alloc: Global, job: &Job, fans: &[OutLanes], rank: usize) -> Option<BuiltRank>
    requires count { length fans.now ≡ job.now.schedule.plan.ranks }
    requires at_most { length fans.now < 2 ^ 32 }
    requires fans { AreFans job.now.schedule.plan fans.now }
    requires rank { rank < length fans.now }
    ensures { IfSome result (λ b. IsFanned job.now rank b.slot b.load) }
{
    match build_rank(alloc, job, rank as Rank, &fans[rank]) {
        Ok(built) => Some(built),
        Err(_) => None,
    }
}

// All ranks, made by so many threads, of which each takes the next rank that none has taken.
fn build_ranks<R: Threads + Sync>(
    rt: &R,
    alloc: Global,
    job: &Job,
    fans: &[OutLanes],
    threads: usize,
) -> Result<Vec<Option<BuiltRank>>, NoMemory>
    requires nonempty { 0 < threads }
    requires count { length fans.now ≡ job.now.schedule.plan.ranks }
    requires at_most { length fans.now < 2 ^ 32 }
    requires fans { AreFans job.now.schedule.plan fans.now }
    ensures count { IfOk result (λ v. length v.items ≡ job.now.schedule.plan.ranks) }
    ensures built { IfOk result (λ v. AreBuilt job.now 0 v.items) }
{
    let places = map_indices(
        rt,
        alloc,
        threads,
        fans.len(),
        &|rank: usize|
            requires { (length fans.now < 2 ^ 32) × (length fans.now ≡ job.now.schedule.plan.ranks) ×
                AreFans job.now.schedule.plan fans.now × (rank < length fans.now) }
            ensures { IfSome result (λ b. IsFanned job.entry.now rank b.slot b.load) }
        { built_rank_of(alloc, job, fans, rank) },
    )?;
    Ok(places)
}

// What was made for a rank, or else what is made now: so nothing but want of memory leaves a rank out.
fn made_or_make(
    alloc: Global,
    job: &Job,
    fans: &[OutLanes],
    rank: usize,
    place: Option<BuiltRank>,
) -> Result<BuiltRank, NoMemory>
    requires count { length fans.now ≡ job.now.schedule.plan.ranks }
    requires at_most { length fans.now < 2 ^ 32 }
    requires fans { AreFans job.now.schedule.plan fans.now }
    requires rank { rank < length fans.now }
    requires place { IfSome place (λ b. IsFanned job.now rank b.slot b.load) }
    ensures { IfOk result (λ b. IsFanned job.now rank b.slot b.load) }
{
    match place {
        Some(built) => Ok(built),
        None => build_rank(alloc, job, rank as Rank, &fans[rank]),
    }
}

// All ranks in order, and their wires. The caller makes those that no thread made.
fn in_order(
    alloc: Global,
    job: &Job,
    fans: &[OutLanes],
    places: Vec<Option<BuiltRank>>,
) -> Result<(Vec<TurnRank>, Vec<OutWires>), NoMemory>
    requires ranks { length fans.now ≡ job.now.schedule.plan.ranks }
    requires at_most { length fans.now < 2 ^ 32 }
    requires fans { AreFans job.now.schedule.plan fans.now }
    requires count { length places.items ≡ job.now.schedule.plan.ranks }
    requires built { AreBuilt job.now 0 places.items }
    ensures count { IfOk result (λ r. (length r.0.items ≡ length places.items) × (length r.1.items ≡ length places.items)) }
    ensures fanned { IfOk result (λ r. AllFanned job.now r.0.items r.1.items) }
{
    let mut slots = Vec::with_capacity(alloc, places.len())?;
    let mut loads = Vec::with_capacity(alloc, places.len())?;
    for place in places {
        let rank = slots.len();
        let built = made_or_make(alloc, job, fans, rank, place)?;
        let BuiltRank { slot, load } = built;
        slots.push(slot)?;
        loads.push(load)?;
    }
    Ok((slots, loads))
}

// The wires from a rank come after the others, and their in ends to the ranks that they lead to.
fn hand_load(
    job: &Job,
    load: OutWires,
    wires: &mut Vec<Wire>,
    slots: &mut [TurnRank],
) -> Result<(), NoMemory>
    requires sound { IsSound job.now }
    requires handed { IsHanded job.now wires.old.items slots.old }
    requires lines { AreLines (length wires.old.items) load.lines.items }
    requires lanes { AreFirst job.now (wires.old.items ++ wires_in load.lines.items) }
    ensures count { length slots.new ≡ length slots.old }
    ensures wires { IfOk result (λ _. wires.new.items ≡ wires.old.items ++ wires_in load.lines.items) }
    ensures handed { IfOk result (λ _. IsHanded job.now wires.new.items slots.new) }
    ensures outs { IfOk result (λ _. Slotwise SameOuts slots.old slots.new) }
{
    let OutWires { lines } = load;
    for line in lines {
        let WireEnd { wire, into } = line;
        put_in(slots, wire.bounds().target, into)?;
        wires.push(wire)?;
    }
    Ok(())
}

// All wires, whose in ends come to their ranks.
fn hand_all(
    alloc: Global,
    job: &Job,
    many: usize,
    loads: Vec<OutWires>,
    slots: &mut [TurnRank],
) -> Result<Vec<Wire>, NoMemory>
    requires sound { IsSound job.now }
    requires count { (length slots.old ≡ job.now.schedule.plan.ranks) × (length loads.items ≡ job.now.schedule.plan.ranks) }
    requires fanned { AllFanned job.now slots.old loads.items }
    ensures count { length slots.new ≡ length slots.old }
    ensures wired { IfOk result (λ v. AreWired job.now slots.new v.items) }
{
    let mut wires = Vec::with_capacity(alloc, many)?;
    for load in loads {
        hand_load(job, load, &mut wires, slots)?;
    }
    Ok(wires)
}

// How many lanes there are in all.
fn count(fans: &[OutLanes]) -> usize {
    match fans.last() {
        Some(fan) => fan.lanes.len().wrapping_add(fan.first as usize),
        None => 0,
    }
}

/// All ranks of a job in their order, in which nothing was done, and a wire for each lane that messages go on, from the lowest rank
/// that one comes from to the highest. So many threads make them, one at least and no more than ranks; where one can't be started, the
/// call does its part itself.
///
/// # Errors
///
/// There was no memory for it. The job is as it was.
pub fn wired_slots<R: Threads + Sync>(
    rt: &R,
    alloc: Global,
    job: &Job,
    threads: u32,
) -> Result<(Vec<TurnRank>, Vec<Wire>), NoMemory>
    requires { IsSound job.now }
    ensures { IfOk result (λ r. AreWired job.now r.0.items r.1.items) }
{
    let threads = threads.max(1) as usize;
    let fans = all_fans(alloc, job.schedule())?;
    let places = build_ranks(rt, alloc, job, &fans, threads)?;
    let (mut slots, loads) = in_order(alloc, job, &fans, places)?;
    let wires = hand_all(alloc, job, count(&fans), loads, &mut slots)?;
    Ok((slots, wires))
}
