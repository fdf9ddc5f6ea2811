//! Workers that sweep all ranks until a sweep makes no step.

ghost use Rattle.std.specs.Prelude.{◌≡◌, ◌≢◌, ◌<◌, ◌≤◌, ◌⊎◌, ◌^◌, ◌*◌, ◌/◌, ℕ, length, All, IsFalse};
ghost use Rattle.cuts.specs.view.Slots.{Slots};
ghost use Rattle.cuts.specs.cells.Cells.{AreRoundsKept};
ghost use Rattle.turn_table.specs.Hands.{IsFree, parts_of};
ghost use Rattle.worlds.specs.Standing.{IsStanding};
ghost use Rattle.worlds.specs.World.{AreSlots, histories_in};
ghost use Rattle.rank_threads.specs.Closing.{IsWorked};
ghost use Rattle.rank_threads.specs.Fabrics.{HasSwept};
ghost use Rattle.rank_threads.specs.Turns.{FoundIdle, MadeNone};

use crate::close::SpentWires;
use crate::fabric::{Fabric, Hand};
use ptl_types::Rank;
use rank_slots::Gate;
use std::sync::Wait;
use std::thread;
use std::thread::Threads;
use worlds::World;

impl<G: Gate + Drop> Fabric<G> {
    // Makes steps of a rank until there is none, and answers whether there was one.
    fn work<R: Wait>(&self, rt: &R, hand: &mut Hand, rank: Rank) -> bool
        requires hand { IsFree self.now.turns hand.old }
        requires rank { rank < self.now.job.schedule.plan.ranks }
        ensures hand { IsFree self.now.turns hand.new }
        ensures parts { hand.new.knows.parts ≡ hand.old.knows.parts }
        ensures idle { FoundIdle self.now.job hand.new.knows rank }
        ensures others { (r : ℕ) → r ≢ rank → FoundIdle self.now.job hand.old.knows r → FoundIdle self.now.job hand.new.knows r }
        ensures none { IsFalse result → MadeNone hand.old.knows hand.new.knows }
    {
        let mut worked = false;
        for _ in rt.forever() {
            if self.step(rt, hand, rank).is_none() {
                return worked;
            }
            worked = true;
        }
        unreachable!()
    }

    // Works once at each rank from `first` to before `end`, and answers whether there was a step.
    fn sweep_part<R: Wait>(&self, rt: &R, hand: &mut Hand, first: Rank, end: Rank) -> bool
        requires hand { IsFree self.now.turns hand.old }
        requires end { end ≤ self.now.job.schedule.plan.ranks }
        ensures hand { IsFree self.now.turns hand.new }
        ensures parts { hand.new.knows.parts ≡ hand.old.knows.parts }
        ensures idle { (r : ℕ) → first ≤ r → r < end → FoundIdle self.now.job hand.new.knows r }
        ensures others { (r : ℕ) → (r < first ⊎ end ≤ r) → FoundIdle self.now.job hand.old.knows r →
            FoundIdle self.now.job hand.new.knows r }
        ensures none { IsFalse result → MadeNone hand.old.knows hand.new.knows }
    {
        let mut worked = false;
        for rank in first..end {
            if self.work(rt, hand, rank) {
                worked = true;
            }
        }
        worked
    }

    // Works once at each rank, beginning at `first`, and answers whether there was a step.
    pub(crate) fn sweep<R: Wait>(&self, rt: &R, hand: &mut Hand, first: Rank) -> bool
        requires hand { IsFree self.now.turns hand.old }
        requires first { first ≤ self.now.job.schedule.plan.ranks }
        ensures hand { IsFree self.now.turns hand.new }
        ensures swept { HasSwept self.now hand.new }
        ensures parts { hand.new.knows.parts ≡ hand.old.knows.parts }
        ensures none { IsFalse result → MadeNone hand.old.knows hand.new.knows }
    {
        let above = self.sweep_part(rt, hand, first, self.ranks);
        let below = self.sweep_part(rt, hand, 0, first);
        above | below
    }

    // Makes steps of a rank that the hints lead to, each in a turn of its own, until there is none, and answers whether there was one. A
    // rank that there is no word for is left, and one that another worker has too: that one goes on with it.
    fn visit<R: Wait>(&self, rt: &R, hand: &mut Hand, rank: Rank) -> bool
        requires hand { IsFree self.now.turns hand.old }
        requires rank { rank < self.now.job.schedule.plan.ranks }
        ensures hand { IsFree self.now.turns hand.new }
        ensures parts { hand.new.knows.parts ≡ hand.old.knows.parts }
    {
        if !self.mail.any(rank) {
            return false;
        }
        let mut made = false;
        for _ in rt.forever() {
            if self.follow(rt, hand, rank).is_none() {
                return made;
            }
            made = true;
        }
        unreachable!()
    }

    // Visits each rank from `first` to before `end`, and answers whether there was a step.
    fn round<R: Wait>(&self, rt: &R, hand: &mut Hand, first: Rank, end: Rank) -> bool
        requires hand { IsFree self.now.turns hand.old }
        requires end { end ≤ self.now.job.schedule.plan.ranks }
        ensures hand { IsFree self.now.turns hand.new }
        ensures parts { hand.new.knows.parts ≡ hand.old.knows.parts }
    {
        let mut worked = false;
        for rank in first..end {
            if self.visit(rt, hand, rank) {
                worked = true;
            }
        }
        worked
    }

    // Visits the worker's own ranks, from `first` to before `end`, until a round over them makes no step. Then a rank seldom moves from
    // one core to another.
    fn visit_own<R: Wait>(&self, rt: &R, hand: &mut Hand, first: Rank, end: Rank)
        requires hand { IsFree self.now.turns hand.old }
        requires end { end ≤ self.now.job.schedule.plan.ranks }
        ensures hand { IsFree self.now.turns hand.new }
        ensures parts { hand.new.knows.parts ≡ hand.old.knows.parts }
    {
        for _ in rt.forever() {
            if !self.round(rt, hand, first, end) {
                return;
            }
        }
        unreachable!()
    }

    /// Makes steps as the hints lead, until there is no word for a rank and nobody is at work who may leave some. It visits its own ranks,
    /// from `first` to before `end`, before all. That no step is left isn't said: hints are guesses. It may wait for ever.
    pub fn visit_all<R: Wait>(&self, rt: &R, hand: &mut Hand, first: Rank, end: Rank)
        requires hand { IsFree self.now.turns hand.old }
        requires end { end ≤ self.now.job.schedule.plan.ranks }
        ensures hand { IsFree self.now.turns hand.new }
        ensures parts { hand.new.knows.parts ≡ hand.old.knows.parts }
    {
        for _ in rt.forever() {
            let alone = self.mail.is_quiet();
            if !self.mail.has_word() {
                if alone {
                    return;
                }
                thread::yield_now();
                continue;
            }
            self.mail.begin();
            self.visit_own(rt, hand, first, end);
            let worked = self.round(rt, hand, 0, self.ranks);
            self.mail.end();
            if !worked {
                if alone {
                    return;
                }
                thread::yield_now();
            }
        }
        unreachable!()
    }

    // Follows the hints, and then sweeps all ranks, until a sweep makes no step. The sweep heeds no hint.
    pub(crate) fn run<R: Wait>(&self, rt: &R, hand: &mut Hand, first: Rank, end: Rank)
        requires hand { IsFree self.now.turns hand.old }
        requires first { first ≤ self.now.job.schedule.plan.ranks }
        requires end { end ≤ self.now.job.schedule.plan.ranks }
        ensures hand { IsFree self.now.turns hand.new }
        ensures swept { HasSwept self.now hand.new }
        ensures parts { hand.new.knows.parts ≡ hand.old.knows.parts }
    {
        for _ in rt.forever() {
            self.visit_all(rt, hand, first, end);
            if !self.sweep(rt, hand, first) {
                return;
            }
        }
        unreachable!()
    }
}

// The first of a worker's own ranks: each worker's ranks end where the next one's begin, and the last one's end is the number of ranks.
pub(crate) fn block_start(worker: u64, workers: u64, ranks: u32) -> u32
    requires nonempty { 0 < workers }
    requires at_most { workers < 2 ^ 32 }
    requires worker { worker ≤ workers }
    ensures exact { result ≡ worker * ranks / workers }
    ensures within { result ≤ ranks }
{
    (worker * u64::from(ranks) / workers) as u32
}

/// One worker for each hand makes steps of all ranks. It ends once its last turn at each rank found that rank idle.
pub fn run_workers<G: Gate + Drop, R: Threads + Wait + Sync>(
    rt: &R,
    fabric: &Fabric<G>,
    hands: &mut [Hand],
)
    requires hands { All (λ h. IsFree fabric.now.turns h) hands.old }
    requires nonempty { 0 < length hands.old }
    requires at_most { length hands.old < 2 ^ 32 }
    ensures hands { All (λ h. IsFree fabric.now.turns h) hands.new }
    ensures swept { All (λ h. HasSwept fabric.now h) hands.new }
    ensures parts { parts_of hands.new ≡ parts_of hands.old }
{
    let ranks = fabric.ranks;
    let threads = hands.len();
    thread::for_each_mut(
        rt,
        hands,
        threads,
        &|i: usize, hand: &mut Hand|
            requires { IsFree fabric.now.turns hand.now × (ranks ≡ fabric.now.job.schedule.plan.ranks) × (i < threads) ×
                (threads < 2 ^ 32) }
            ensures { IsFree fabric.entry.now.turns hand.exit.now × HasSwept fabric.entry.now hand.exit.now ×
                (hand.exit.now.knows.parts ≡ hand.entry.now.knows.parts) }
        {
            let worker = i as u64;
            let workers = threads as u64;
            let first = block_start(worker, workers, ranks);
            let end = block_start(worker + 1, workers, ranks);
            fabric.run(rt, hand, first, end)
        },
    );
}

/// Runs and closes a fabric as `run_and_close` does, and hands over its wires beside the world: their memory is given back when the
/// caller lets them go.
pub fn run_keeping<G: Gate + Drop, R: Threads + Wait + Sync>(
    rt: &R,
    fabric: Fabric<G>,
    hands: Vec<Hand>,
) -> (World, SpentWires)
    requires hands { All (λ h. IsFree fabric.turns h) hands.items }
    requires all { parts_of hands.items ≡ 2 ^ 32 }
    requires nonempty { 0 < length hands.items }
    requires at_most { length hands.items < 2 ^ 32 }
    ensures world { IsWorked fabric (length hands.items) result.0 }
    ensures kept { IsStanding result.0 }
    ensures barriers { (slots : ℕ → Slots) → AreSlots result.0 slots →
        AreRoundsKept result.0.schedule.plan result.0.inputs slots (histories_in result.0) }
{
    let mut hands = hands;
    run_workers(rt, &fabric, &mut hands);
    fabric.close_keeping(rt, hands)
}

/// Lets one worker for each hand make steps until a sweep over all ranks makes none, and closes the fabric: the world is of the same
/// job, and what the hands saw and made at each rank is what its history tells.
pub fn run_and_close<G: Gate + Drop, R: Threads + Wait + Sync>(
    rt: &R,
    fabric: Fabric<G>,
    hands: Vec<Hand>,
) -> World
    requires hands { All (λ h. IsFree fabric.turns h) hands.items }
    requires all { parts_of hands.items ≡ 2 ^ 32 }
    requires nonempty { 0 < length hands.items }
    requires at_most { length hands.items < 2 ^ 32 }
    ensures world { IsWorked fabric (length hands.items) result }
    ensures kept { IsStanding result }
    ensures barriers { (slots : ℕ → Slots) → AreSlots result slots →
        AreRoundsKept result.schedule.plan result.inputs slots (histories_in result) }
{
    let (world, _wires) = run_keeping(rt, fabric, hands);
    world
}
