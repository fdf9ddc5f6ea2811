//! Workers that run on until a wave of probes has found the job at rest.

ghost use Rattle.std.specs.Prelude.{◌≡◌, ◌<◌, ◌≤◌, ◌-◌, ◌^◌, length, All};
ghost use mathlib.Core.Option.{some};
ghost use lib.ListN.{get_elem?};
ghost use Rattle.cuts.specs.histories.System.{Histories};
ghost use Rattle.rest_probe.specs.declared.answers.WaveAnswer.TheVariants.{Rest};
ghost use Rattle.rest_probe.specs.Answered.{Answered};
ghost use Rattle.rest_probe.specs.Waves.{AllThere, IsFor};
ghost use Rattle.turn_table.specs.Hands.{IsFree, parts_of};
ghost use Rattle.rank_slots.specs.declared.turn_rank.TurnRank.{TurnRank};
ghost use Rattle.rank_threads.specs.Resting.{AreFronts, Led};
ghost use Rattle.turn_table.specs.States.{HandState};
ghost use denote.Param.Send.{IsSync};

use crate::fabric::{Fabric, Hand};
use crate::workers::block_start;
use ptl_types::Rank;
use rank_slots::Gate;
use rest_probe::{Wave, WaveAnswer};
use std::sync::Wait;
use std::sync::atomic::{AtomicBool, Ordering};
use std::thread;
use std::thread::{Threads, join_mut};

/// How many sweeps in a row without a step end a worker that isn't the first one.
const IDLE_SWEEPS: u32 = 1_000;

impl<G: Gate + Drop> Fabric<G> {
    /// Makes one wave of probes, from the lowest rank on. The notes that the wave had are taken out before.
    pub fn probe_all<R: Wait>(&self, rt: &R, hand: &mut Hand, wave: &mut Wave)
        requires hand { IsFree self.now.turns hand.old }
        requires lanes { IsFor self.now.job.schedule.plan wave.old }
        ensures hand { IsFree self.now.turns hand.new }
        ensures parts { hand.new.knows.parts ≡ hand.old.knows.parts }
        ensures lanes { IsFor self.now.job.schedule.plan wave.new }
        ensures all { AllThere wave.new }
        ensures noted { (fronts : Histories) × AreFronts self.now.job hand.new.knows fronts wave.new }
    {
        wave.clear();
        for rank in 0..self.ranks {
            self.probe(rt, hand, rank, wave);
        }
    }

    // Works until a sweep makes no step, and then makes a wave of probes, until a wave has found the job at rest. Then the others are
    // told to end.
    fn lead<R: Wait>(&self, rt: &R, hand: &mut Hand, wave: &mut Wave, end: Rank, done: &AtomicBool)
        requires hand { IsFree self.now.turns hand.old }
        requires lanes { IsFor self.now.job.schedule.plan wave.old }
        requires end { end ≤ self.now.job.schedule.plan.ranks }
        ensures { Led self.now hand.old hand.new wave.new }
    {
        for _ in rt.forever() {
            self.run(rt, hand, 0, end);
            self.probe_all(rt, hand, wave);
            if let WaveAnswer::Rest = wave.answer() {
                done.store(true, Ordering::SeqCst);
                return;
            }
        }
        unreachable!()
    }

    // Follows the hints and then sweeps all ranks, and answers whether the sweep made a step.
    fn work_once<R: Wait>(&self, rt: &R, hand: &mut Hand, first: Rank, end: Rank) -> bool
        requires hand { IsFree self.now.turns hand.old }
        requires first { first ≤ self.now.job.schedule.plan.ranks }
        requires end { end ≤ self.now.job.schedule.plan.ranks }
        ensures hand { IsFree self.now.turns hand.new }
        ensures parts { hand.new.knows.parts ≡ hand.old.knows.parts }
    {
        self.visit_all(rt, hand, first, end);
        self.sweep(rt, hand, first)
    }

    // Works until it is told to end, or has made so many sweeps in a row without a step. No clause says so: where it does nothing, the
    // first worker makes all steps.
    fn assist<R: Wait>(&self, rt: &R, hand: &mut Hand, first: Rank, end: Rank, done: &AtomicBool)
        requires hand { IsFree self.now.turns hand.old }
        requires first { first ≤ self.now.job.schedule.plan.ranks }
        requires end { end ≤ self.now.job.schedule.plan.ranks }
        ensures hand { IsFree self.now.turns hand.new }
        ensures parts { hand.new.knows.parts ≡ hand.old.knows.parts }
    {
        let mut left = IDLE_SWEEPS;
        for _ in rt.forever() {
            if left == 0 || done.load(Ordering::SeqCst) {
                return;
            }
            let worked = self.work_once(rt, hand, first, end);
            left = sweeps_left(left, worked);
            thread::yield_now();
        }
        unreachable!()
    }
}

// How many sweeps without a step are left to a worker after one more sweep.
fn sweeps_left(left: u32, worked: bool) -> u32 {
    if worked {
        IDLE_SWEEPS
    } else {
        left.saturating_sub(1)
    }
}

// The other workers assist the first one.
fn assist_all<G: Gate + Drop, R: Threads + Wait + Sync>(
    rt: &R,
    fabric: &Fabric<G>,
    done: &AtomicBool,
    hands: &mut [Hand],
)
    requires hands { All (λ h. IsFree fabric.now.turns h) hands.old }
    requires at_most { length hands.old < 2 ^ 32 - 1 }
    ensures hands { All (λ h. IsFree fabric.now.turns h) hands.new }
    ensures parts { parts_of hands.new ≡ parts_of hands.old }
{
    let ranks = fabric.ranks;
    let threads = hands.len();
    if threads == 0 {
        return;
    }
    thread::for_each_mut(
        rt,
        hands,
        threads,
        &|i: usize, hand: &mut Hand|
            requires { IsFree fabric.now.turns hand.now × (ranks ≡ fabric.now.job.schedule.plan.ranks) × (i < threads) ×
                (threads < 2 ^ 32 - 1) }
            ensures { IsFree fabric.entry.now.turns hand.exit.now × (hand.exit.now.knows.parts ≡ hand.entry.now.knows.parts) }
        {
            let worker = i as u64 + 1;
            let workers = threads as u64 + 1;
            let first = block_start(worker, workers, ranks);
            let end = block_start(worker + 1, workers, ranks);
            fabric.assist(rt, hand, first, end, done)
        },
    );
}

// The first worker leads, and the others assist it.
fn run_all<G: Gate + Drop, R: Threads + Wait + Sync>(
    rt: &R,
    fabric: &Fabric<G>,
    leader: &mut Hand,
    wave: &mut Wave,
    others: &mut [Hand],
)
    requires leader { IsFree fabric.now.turns leader.old }
    requires lanes { IsFor fabric.now.job.schedule.plan wave.old }
    requires others { All (λ h. IsFree fabric.now.turns h) others.old }
    requires at_most { length others.old < 2 ^ 32 - 1 }
    ensures leader { IsFree fabric.now.turns leader.new }
    ensures part { leader.new.knows.parts ≡ leader.old.knows.parts }
    ensures lanes { IsFor fabric.now.job.schedule.plan wave.new }
    ensures answer { Answered wave.new Rest }
    ensures noted { (fronts : Histories) × AreFronts fabric.now.job leader.new.knows fronts wave.new }
    ensures others { All (λ h. IsFree fabric.now.turns h) others.new }
    ensures parts { parts_of others.new ≡ parts_of others.old }
{
    let done = &AtomicBool::new(false);
    let end = block_start(1, others.len() as u64 + 1, fabric.ranks);
    let mut lead = ||
        requires { IsFree fabric.now.turns leader.now × IsFor fabric.now.job.schedule.plan wave.now ×
            (end ≤ fabric.now.job.schedule.plan.ranks) }
        ensures { Led fabric.entry.now leader.entry.now leader.exit.now wave.exit.now }
    { fabric.lead(rt, leader, wave, end, done) };
    let mut assist = ||
        requires { IsSync R.row × All (λ h. IsFree fabric.now.turns h) others.now × (length others.now < 2 ^ 32 - 1) }
        ensures { All (λ h. IsFree fabric.entry.now.turns h) others.exit.now × (parts_of others.exit.now ≡ parts_of others.entry.now) }
    { assist_all(rt, fabric, done, others) };
    // Where no thread can be started the closure that stands last is called first, and the others find that they are told to end.
    join_mut(rt, &mut assist, &mut lead);
}

/// One worker for each hand makes steps of all ranks. The first one makes waves of probes, and ends once a wave has found the job at rest.
/// The wave is left with that answer; its note of each rank says what a beginning of the history says that the first hand has seen there.
/// The call may wait for ever.
///
/// What the others do is said by no clause: they make steps until the first one tells them to end, or until a thousand sweeps in a row
/// made none. Where no thread can be started the first one works alone, and the others then end at once.
pub fn run_steady<G: Gate + Drop, R: Threads + Wait + Sync>(
    rt: &R,
    fabric: &Fabric<G>,
    hands: &mut [Hand],
    wave: &mut Wave,
)
    requires hands { All (λ h. IsFree fabric.now.turns h) hands.old }
    requires nonempty { 0 < length hands.old }
    requires at_most { length hands.old < 2 ^ 32 }
    requires lanes { IsFor fabric.now.job.schedule.plan wave.old }
    ensures hands { All (λ h. IsFree fabric.now.turns h) hands.new }
    ensures parts { parts_of hands.new ≡ parts_of hands.old }
    ensures lanes { IsFor fabric.now.job.schedule.plan wave.new }
    ensures answer { Answered wave.new Rest }
    ensures noted { (h : HandState TurnRank) → get_elem? hands.new 0 ≡ some h → (fronts : Histories) ×
        AreFronts fabric.now.job h.knows fronts wave.new }
{
    let Some((leader, others)) = hands.split_first_mut() else {
        unreachable!()
    };
    run_all(rt, fabric, leader, wave, others);
}
