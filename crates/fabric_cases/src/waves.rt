//! Waves of probes between the calls of a script.

ghost use Rattle.std.specs.Prelude.{true, ◌≡◌, IfOk, length};
ghost use Rattle.ptl_types.specs.declared.headers.Lane.TheVariants.{Request};
ghost use Rattle.plan_core.specs.calls.Lanes.{is_used_lane};
ghost use Rattle.rest_probe.specs.Waves.{IsFor};
ghost use Rattle.turn_table.specs.Hands.{IsFree};

use crate::answers::gives;
use crate::hands::{must_open, two_hands};
use crate::jobs::{TWO_RANKS, pair_of};
use crate::scripts::script;
use ptl_types::{NoMemory, Rank};
use rank_threads::{Fabric, Hand, OpenGate};
use rest_probe::{Wave, WaveAnswer};
use schedule_compiler::Job;
use std::alloc::Global;
use std::sync::Wait;

/// The room of a wave for a fabric of this job.
fn room(alloc: Global, fabric: &Fabric<OpenGate>, job: &Job) -> Result<Wave, NoMemory>
    requires { fabric.now.job ≡ job.now }
    ensures { IfOk result (λ w. IsFor fabric.now.job.schedule.plan w) }
{
    Wave::open(alloc, job.schedule())
}

/// What a wave answers after the script, and what one answers once both ranks have started.
fn waves<R: Wait>(
    rt: &R,
    fabric: &Fabric<OpenGate>,
    one: &mut Hand,
    two: &mut Hand,
    wave: &mut Wave,
) -> [WaveAnswer; 2]
    requires one { IsFree fabric.now.turns one.old }
    requires two { IsFree fabric.now.turns two.old }
    requires ranks { fabric.now.job.schedule.plan.ranks ≡ 2 }
    requires slots { length fabric.now.turns.start ≡ 2 }
    requires lane { is_used_lane fabric.now.job.schedule.plan 0 1 Request ≡ true }
    requires wave { IsFor fabric.now.job.schedule.plan wave.old }
{
    let _ = script(rt, fabric, one, two);
    fabric.probe_all(rt, one, wave);
    let first = wave.answer();
    fabric.start(rt, two, 1);
    fabric.probe_all(rt, one, wave);
    [first, wave.answer()]
}

/// The rank whose operation is ready, if the answer is that there is one.
fn ready_rank(answer: &WaveAnswer) -> Option<Rank> {
    match answer {
        WaveAnswer::Ready { rank, .. } => Some(*rank),
        _ => None,
    }
}

#[test]
fn waves_name_what_is_left(rt: HostRuntime) {
    let alloc = rt.alloc();
    let job = pair_of(&rt, alloc, TWO_RANKS);
    let (fabric, hands) = must_open(&rt, alloc, &job, 2, OpenGate);
    let Ok(empty) = room(alloc, &fabric, &job) else {
        panic!(rt; "room for a wave")
    };
    let mut wave = empty;
    let (mut one, mut two) = two_hands(&fabric, hands);
    let [first, second] = waves(&rt, &fabric, &mut one, &mut two, &mut wave);
    gives!(&rt; first, WaveAnswer::NotStarted(1));
    gives!(&rt; ready_rank(&second), Some(0));
}
