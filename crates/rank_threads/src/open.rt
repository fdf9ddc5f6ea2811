//! How a fabric is opened.

ghost use denote.Param.Send.{IsSync};
ghost use Rattle.std.specs.Prelude.{◌≡◌, ◌<◌, ◌^◌, All, IfOk, length};
ghost use Rattle.turn_table.specs.Hands.{IsNew, parts_of};
ghost use Rattle.worlds.specs.Frames.{IsFrameOf};
ghost use Rattle.rank_wiring.specs.Opening.{AllFresh, AreWired};
ghost use Rattle.rank_slots.specs.Sound.{IsSound};

use crate::fabric::{Fabric, Hand};
use pair_wires::Wire;
use ptl_types::NoMemory;
use rank_slots::{Gate, Mail, TurnRank, recall_soundness};
use rank_wiring::wired_slots;
use schedule_compiler::Job;
use std::alloc::Global;
use std::thread;
use std::thread::Threads;
use turn_table::Turns;
use work_sharing::reach_ahead;
use worlds::Frame;

// The frame of the world that the ranks end as, and the ranks and their wires. Where there are more threads than one, another opens
// the frame meanwhile.
fn frame_and_slots<R: Threads + Sync>(
    rt: &R,
    alloc: Global,
    job: &Job,
    threads: u32,
) -> (
    Result<Frame, NoMemory>,
    Result<(Vec<TurnRank>, Vec<Wire>), NoMemory>,
)
    requires { IsSound job.now }
    ensures frame { IfOk result.0 (λ f. IsFrameOf job.now f) }
    ensures wired { IfOk result.1 (λ r. AreWired job.now r.0.items r.1.items) }
{
    if threads < 2 {
        let frame = Frame::open(alloc, job);
        return (frame, wired_slots(rt, alloc, job, threads));
    }
    thread::join(
        rt,
        move ||
            ensures { IfOk result (λ f. IsFrameOf job.entry.now f) }
        {
            reach_ahead(alloc);
            Frame::open(alloc, job)
        },
        move ||
            requires { IsSync R.row × IsSound job.now }
            ensures { IfOk result (λ r. AreWired job.entry.now r.0.items r.1.items) }
        { wired_slots(rt, alloc, job, threads) },
    )
}

// The ranks and their wires, and the frame, if there was memory for all.
fn framed_slots<R: Threads + Sync>(
    rt: &R,
    alloc: Global,
    job: &Job,
    threads: u32,
) -> Result<(Vec<TurnRank>, Vec<Wire>, Frame), NoMemory>
    requires { IsSound job.now }
    ensures wired { IfOk result (λ r. AreWired job.now r.0.items r.1.items) }
    ensures frame { IfOk result (λ r. IsFrameOf job.now r.2) }
{
    let (frame, made) = frame_and_slots(rt, alloc, job, threads);
    let (slots, wires) = made?;
    Ok((slots, wires, frame?))
}

impl<G: Gate + Drop> Fabric<G> {
    /// A fabric of a job, in which nothing was done, with this many hands. All the memory that it needs is taken here, and that of the
    /// world that it ends as. The gate is passed at each step. As many threads as there are hands make the ranks and their wires, and
    /// where there are two or more, one more makes that world's lanes, which changes nothing of the fabric; where no thread can be started,
    /// the call does its part itself.
    ///
    /// # Errors
    ///
    /// There was no memory for it. The job is as it was.
    pub fn open<R: Threads + Sync>(
        rt: &R,
        alloc: Global,
        job: &Job,
        hands: u32,
        gate: G,
    ) -> Result<(Fabric<G>, Vec<Hand>), NoMemory>
        requires { 0 < hands }
        ensures job { IfOk result (λ r. r.0.job ≡ job.now) }
        ensures ranks { IfOk result (λ r. length r.0.turns.start ≡ job.now.schedule.plan.ranks) }
        ensures fresh { IfOk result (λ r. AllFresh job.now r.0.turns.start) }
        ensures hands { IfOk result (λ r. (length r.1.items ≡ hands) × All (λ h. IsNew r.0.turns h) r.1.items ×
            (parts_of r.1.items ≡ 2 ^ 32)) }
    {
        recall_soundness(job);
        let ranks = job.schedule().ranks();
        let shared = job.share()?;
        let (slots, wires, frame) = framed_slots(rt, alloc, job, hands)?;
        let room = Vec::with_capacity(alloc, ranks as usize)?;
        let (turns, hands) = Turns::open(alloc, slots, hands)?;
        let mail = Mail::open(alloc, ranks)?;
        let fabric = Fabric {
            turns,
            wires,
            mail,
            gate,
            job: shared,
            ranks,
            frame,
            room,
        };
        Ok((fabric, hands))
    }
}
