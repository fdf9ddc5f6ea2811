//! Scripts whose calls one caller makes.

ghost use Rattle.std.specs.Prelude.{true, ◌≡◌, length};
ghost use Rattle.ptl_types.specs.declared.headers.Lane.TheVariants.{Request};
ghost use Rattle.plan_core.specs.calls.Lanes.{is_used_lane};
ghost use Rattle.turn_table.specs.Hands.{IsFree};

use crate::answers::gives;
use crate::hands::{close_with, must_open, two_hands};
use crate::jobs::{TWO_RANKS, pair_of};
use ptl_types::Lane;
use rank_threads::{Fabric, Hand, OpenGate, StartAnswer};
use std::process::Abort;
use std::sync::Wait;
use worlds::World;

/// What the calls of the script answered, and how many steps each hand then had made at rank 0.
#[derive(Drop)]
pub(crate) struct Answers {
    starts: [StartAnswer; 2],
    fired_early: Option<u32>,
    moved_early: bool,
    fired: Option<u32>,
    made: [u64; 2],
}

pub(crate) fn script<R: Wait>(
    rt: &R,
    fabric: &Fabric<OpenGate>,
    one: &mut Hand,
    two: &mut Hand,
) -> Answers
    requires one { IsFree fabric.now.turns one.old }
    requires two { IsFree fabric.now.turns two.old }
    requires ranks { fabric.now.job.schedule.plan.ranks ≡ 2 }
    requires slots { length fabric.now.turns.start ≡ 2 }
    requires lane { is_used_lane fabric.now.job.schedule.plan 0 1 Request ≡ true }
    ensures one { IsFree fabric.now.turns one.new × (one.new.knows.parts ≡ one.old.knows.parts) }
    ensures two { IsFree fabric.now.turns two.new × (two.new.knows.parts ≡ two.old.knows.parts) }
{
    let first = fabric.start(rt, one, 0);
    let second = fabric.start(rt, two, 0);
    let fired_early = fabric.fire(rt, two, 1);
    let moved_early = fabric.deliver(rt, one, 0, 1, Lane::Request);
    let fired = fabric.fire(rt, one, 0);
    Answers {
        starts: [first, second],
        fired_early,
        moved_early,
        fired,
        made: [one.made(0), two.made(0)],
    }
}

/// Whether each rank counted so many successes, and no failure.
pub(crate) fn all_done(world: &World, count: u64) -> bool {
    for rank in 0..world.schedule().ranks() {
        let done = world.done(rank);
        if done.success != count || done.failure != 0 {
            return false;
        }
    }
    true
}

/// A world is at rest, and each rank counted so many successes.
pub(crate) fn check_rest(rt: &impl Abort, world: &World, count: u64) {
    gives!(rt; world.at_rest(), true);
    gives!(rt; all_done(world, count), true);
}

/// What the script answers by hand.
fn check_answers(rt: &impl Abort, answers: &Answers) {
    gives!(rt; answers.starts, [StartAnswer::Started, StartAnswer::AlreadyStarted]);
    gives!(rt; answers.fired_early, None);
    gives!(rt; answers.moved_early, false);
    gives!(rt; answers.fired == Some(0) || answers.fired == Some(3), true);
    gives!(rt; answers.made, [2, 0]);
}

#[test]
fn two_hands_take_turns(rt: HostRuntime) {
    let alloc = rt.alloc();
    let job = pair_of(&rt, alloc, TWO_RANKS);
    let (fabric, hands) = must_open(&rt, alloc, &job, 2, OpenGate);
    let (mut one, mut two) = two_hands(&fabric, hands);
    let answers = script(&rt, &fabric, &mut one, &mut two);
    check_answers(&rt, &answers);
    let mut world = close_with(&rt, alloc, fabric, one, two);
    world.run_to_rest();
    check_rest(&rt, &world, 3);
}
