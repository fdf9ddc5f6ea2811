//! Workers on threads.

ghost use Rattle.std.specs.Prelude.{◌≡◌, ◌<◌};
ghost use Rattle.turn_table.specs.Hands.{IsFree};

use crate::answers::gives;
use crate::gates::{Counting, Meeting};
use crate::hands::{close_with, must_open, two_hands};
use crate::jobs::{FOUR_RANKS, TWO_RANKS, job_of, pair_of};
use rank_threads::{Fabric, Gate, Hand, run_and_close};
use std::sync::Wait;
use std::thread;
use std::thread::Threads;
use worlds::World;

/// How many steps the ranks of a world made.
fn steps(world: &World) -> u64 {
    let mut steps = 0u64;
    for rank in 0..world.schedule().ranks() {
        steps = steps.wrapping_add(world.history(rank).len() as u64);
    }
    steps
}

#[test]
fn one_worker_makes_every_step(rt: HostRuntime) {
    let alloc = rt.alloc();
    let job = job_of(&rt, alloc, FOUR_RANKS);
    let gate = Counting::new();
    let (fabric, hands) = must_open(&rt, alloc, &job, 1, &gate);
    let world = run_and_close(&rt, fabric, hands);
    gives!(&rt; world.at_rest(), true);
    gives!(&rt; gate.passes(), steps(&world));
}

#[test]
fn four_workers_and_then_one(rt: HostRuntime) {
    let alloc = rt.alloc();
    let job = job_of(&rt, alloc, FOUR_RANKS);
    let gate = Counting::new();
    let (fabric, hands) = must_open(&rt, alloc, &job, 4, &gate);
    let mut world = run_and_close(&rt, fabric, hands);
    gives!(&rt; gate.passes(), steps(&world));
    world.run_to_rest();
    gives!(&rt; world.at_rest(), true);
}

// Each thread starts a rank.
fn start_both<R: Threads + Wait + Sync, G: Gate + Drop>(
    rt: &R,
    fabric: &Fabric<G>,
    one: Hand,
    two: Hand,
) -> (Hand, Hand)
    requires hands { IsFree fabric.now.turns one × IsFree fabric.now.turns two }
    requires ranks { 1 < fabric.now.job.schedule.plan.ranks }
    ensures hands { IsFree fabric.now.turns result.0 × IsFree fabric.now.turns result.1 }
    ensures parts { (result.0.knows.parts ≡ one.knows.parts) × (result.1.knows.parts ≡ two.knows.parts) }
{
    thread::join(
        rt,
        move ||
            requires { IsFree fabric.now.turns one × (1 < fabric.now.job.schedule.plan.ranks) }
            ensures { IsFree fabric.entry.now.turns result × (result.knows.parts ≡ one.knows.parts) }
        { start(rt, fabric, one, 0) },
        move ||
            requires { IsFree fabric.now.turns two × (1 < fabric.now.job.schedule.plan.ranks) }
            ensures { IsFree fabric.entry.now.turns result × (result.knows.parts ≡ two.knows.parts) }
        { start(rt, fabric, two, 1) },
    )
}

// Starts a rank.
fn start<R: Wait, G: Gate + Drop>(rt: &R, fabric: &Fabric<G>, hand: Hand, rank: u32) -> Hand
    requires hand { IsFree fabric.now.turns hand }
    requires rank { rank < fabric.now.job.schedule.plan.ranks }
    ensures hand { IsFree fabric.now.turns result }
    ensures parts { result.knows.parts ≡ hand.knows.parts }
{
    let mut hand = hand;
    fabric.start(rt, &mut hand, rank);
    hand
}

#[test]
fn two_interfaces_at_once(rt: HostRuntime) {
    let alloc = rt.alloc();
    let job = pair_of(&rt, alloc, TWO_RANKS);
    let gate = Meeting::new();
    let (fabric, hands) = must_open(&rt, alloc, &job, 2, &gate);
    let (one, two) = two_hands(&fabric, hands);
    let (one, two) = start_both(&rt, &fabric, one, two);
    let world = close_with(&rt, alloc, fabric, one, two);
    gives!(&rt; gate.met(), true);
    gives!(&rt; steps(&world), 2);
}
