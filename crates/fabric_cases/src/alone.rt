//! Scripts that one hand makes alone: every step of both ranks is its own.

ghost use Rattle.std.specs.Prelude.{◌≡◌, ◌<◌, length};
ghost use Rattle.turn_table.specs.Hands.{IsFree};

use crate::answers::gives;
use crate::hands::{close_with_one, must_open, one_hand};
use crate::jobs::{TWO_RANKS, TWO_SUMS, pair_of};
use crate::scripts::check_rest;
use ptl_types::{Lane, LocalStep, Rank};
use rank_threads::{Fabric, Hand, OpenGate};
use std::alloc::Global;
use std::process::Abort;
use std::sync::Wait;
use worlds::World;

/// Makes a step of a rank, if there is one.
fn step_at<R: Wait>(
    rt: &R,
    fabric: &Fabric<OpenGate>,
    hand: &mut Hand,
    rank: Rank,
) -> Option<LocalStep>
    requires hand { IsFree fabric.now.turns hand.old }
    requires rank { rank < fabric.now.job.schedule.plan.ranks }
    ensures hand { IsFree fabric.now.turns hand.new }
    ensures parts { hand.new.knows.parts ≡ hand.old.knows.parts }
{
    fabric.step(rt, hand, rank)
}

/// The steps that a rank makes until there is none, twenty at most.
fn steps_at<R: Wait + Abort>(
    rt: &R,
    alloc: Global,
    fabric: &Fabric<OpenGate>,
    hand: &mut Hand,
    rank: Rank,
) -> Vec<LocalStep>
    requires hand { IsFree fabric.now.turns hand.old }
    requires ranks { fabric.now.job.schedule.plan.ranks ≡ 2 }
    requires rank { rank < 2 }
    ensures hand { IsFree fabric.now.turns hand.new }
    ensures parts { hand.new.knows.parts ≡ hand.old.knows.parts }
{
    let mut steps = Vec::new(alloc);
    for _ in 0..20 {
        let Some(step) = step_at(rt, fabric, hand, rank) else {
            return steps;
        };
        if steps.push(step).is_err() {
            panic!(rt; "room for a step")
        }
    }
    steps
}

/// How many steps a hand made at each of two ranks.
fn made(fabric: &Fabric<OpenGate>, hand: &Hand) -> [u64; 2]
    requires hand { IsFree fabric.now.turns hand.now }
    requires slots { length fabric.now.turns.start ≡ 2 }
{
    [hand.made(0), hand.made(1)]
}

/// Whether a rank began with its start and the firings of the operations 0 to 4, in some order.
fn begins(steps: &[LocalStep]) -> bool {
    if steps.len() < 6 || steps[0] != LocalStep::Start {
        return false;
    }
    for number in 0..5u32 {
        if !steps[1..6].contains(&LocalStep::Fire { number }) {
            return false;
        }
    }
    true
}

/// What is left for a rank after that: the receipt of the other rank's message, here of rank 0, and the firing of the last operation.
const ENDS_AFTER_0: &[LocalStep] = &[
    LocalStep::Receive {
        source: 0,
        lane: Lane::Request,
    },
    LocalStep::Fire { number: 5 },
];

/// The same after the message of rank 1.
const ENDS_AFTER_1: &[LocalStep] = &[
    LocalStep::Receive {
        source: 1,
        lane: Lane::Request,
    },
    LocalStep::Fire { number: 5 },
];

/// The steps after the first six.
fn after_six(steps: &[LocalStep]) -> &[LocalStep] {
    if 6 <= steps.len() { &steps[6..] } else { &[] }
}

/// So many steps: the first six of a barrier, and these.
fn check_begun(rt: &impl Abort, steps: &[LocalStep], count: usize, rest: &[LocalStep]) {
    gives!(rt; steps.len(), count);
    gives!(rt; begins(steps), true);
    gives!(rt; after_six(steps), rest);
}

/// Every step of a barrier, made by one hand.
fn make_barrier<R: Wait + Abort>(rt: &R, alloc: Global, fabric: &Fabric<OpenGate>, hand: &mut Hand)
    requires hand { IsFree fabric.now.turns hand.old }
    requires ranks { fabric.now.job.schedule.plan.ranks ≡ 2 }
    ensures hand { IsFree fabric.now.turns hand.new }
    ensures parts { hand.new.knows.parts ≡ hand.old.knows.parts }
{
    let first = steps_at(rt, alloc, fabric, hand, 0);
    check_begun(rt, &first, 6, &[]);
    let second = steps_at(rt, alloc, fabric, hand, 1);
    check_begun(rt, &second, 8, ENDS_AFTER_0);
    let last = steps_at(rt, alloc, fabric, hand, 0);
    gives!(rt; last.as_slice(), ENDS_AFTER_1);
}

#[test]
fn one_hand_makes_every_step_of_a_barrier(rt: HostRuntime) {
    let alloc = rt.alloc();
    let job = pair_of(&rt, alloc, TWO_RANKS);
    let (fabric, hands) = must_open(&rt, alloc, &job, 1, OpenGate);
    let mut hand = one_hand(&fabric, hands);
    make_barrier(&rt, alloc, &fabric, &mut hand);
    gives!(&rt; made(&fabric, &hand), [8, 8]);
    let world = close_with_one(&rt, alloc, fabric, hand);
    check_rest(&rt, &world, 3);
}

/// Lets each of two ranks in turn make the steps that it has, three times.
fn sweep<R: Wait + Abort>(rt: &R, alloc: Global, fabric: &Fabric<OpenGate>, hand: &mut Hand)
    requires hand { IsFree fabric.now.turns hand.old }
    requires ranks { fabric.now.job.schedule.plan.ranks ≡ 2 }
    ensures hand { IsFree fabric.now.turns hand.new }
    ensures parts { hand.new.knows.parts ≡ hand.old.knows.parts }
{
    for _ in 0..3 {
        let _ = steps_at(rt, alloc, fabric, hand, 0);
        let _ = steps_at(rt, alloc, fabric, hand, 1);
    }
}

/// Whether a buffer of a world holds these bytes at each rank.
fn holds(world: &World, buffer: u32, bytes: &[u8]) -> bool {
    let schedule = world.schedule();
    if schedule.buffers() <= buffer {
        return false;
    }
    for rank in 0..schedule.ranks() {
        if world.result(buffer, rank) != bytes {
            return false;
        }
    }
    true
}

#[test]
fn one_hand_makes_every_step_of_a_sum(rt: HostRuntime) {
    let alloc = rt.alloc();
    let job = pair_of(&rt, alloc, TWO_SUMS);
    let (fabric, hands) = must_open(&rt, alloc, &job, 1, OpenGate);
    let mut hand = one_hand(&fabric, hands);
    sweep(&rt, alloc, &fabric, &mut hand);
    gives!(&rt; made(&fabric, &hand), [16, 15]);
    let world = close_with_one(&rt, alloc, fabric, hand);
    check_rest(&rt, &world, 5);
    gives!(&rt; holds(&world, 1, &[44, 1]), true);
}

/// Ten gathers of two ranks: each has ten messages for the other at once, and a wire between them holds three.
const TEN_GATHERS: &[u8] = b"coll 1
ranks 2
input a u8 1
1
2
allgather a b0
allgather a b1
allgather a b2
allgather a b3
allgather a b4
allgather a b5
allgather a b6
allgather a b7
allgather a b8
allgather a b9
print b9
end
";

/// Makes steps as the hints lead until there is no word. Then the step that is left at each rank.
fn left_by_hints<R: Wait>(
    rt: &R,
    fabric: &Fabric<OpenGate>,
    hand: &mut Hand,
) -> [Option<LocalStep>; 2]
    requires hand { IsFree fabric.now.turns hand.old }
    requires ranks { fabric.now.job.schedule.plan.ranks ≡ 2 }
    ensures hand { IsFree fabric.now.turns hand.new }
    ensures parts { hand.new.knows.parts ≡ hand.old.knows.parts }
{
    fabric.visit_all(rt, hand, 0, 2);
    let first = step_at(rt, fabric, hand, 0);
    let second = step_at(rt, fabric, hand, 1);
    [first, second]
}

#[test]
fn hints_lead_one_hand_to_every_step(rt: HostRuntime) {
    let alloc = rt.alloc();
    let job = pair_of(&rt, alloc, TEN_GATHERS);
    let (fabric, hands) = must_open(&rt, alloc, &job, 1, OpenGate);
    let mut hand = one_hand(&fabric, hands);
    let left = left_by_hints(&rt, &fabric, &mut hand);
    let world = close_with_one(&rt, alloc, fabric, hand);
    gives!(&rt; left, [None, None]);
    gives!(&rt; world.at_rest(), true);
}
