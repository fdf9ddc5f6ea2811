//! The hands of a fabric, apart and together.

ghost use Rattle.std.specs.Prelude.{◌≡◌, ◌+◌, ◌<◌, ◌^◌, All, IfOk, length};
ghost use Rattle.turn_table.specs.Hands.{IsFree, parts_of};

use ptl_types::NoMemory;
use rank_threads::{Fabric, Gate, Hand};
use schedule_compiler::Job;
use std::alloc::Global;
use std::process::Abort;
use std::sync::Wait;
use std::thread::Threads;
use worlds::World;

/// A fabric of a job, and its hands.
fn opened<R: Threads + Sync, G: Gate + Drop>(
    rt: &R,
    alloc: Global,
    job: &Job,
    count: u32,
    gate: G,
) -> Result<(Fabric<G>, Vec<Hand>), NoMemory>
    requires { 0 < count }
    ensures job { IfOk result (λ r. r.0.job ≡ job.now) }
    ensures ranks { IfOk result (λ r. length r.0.turns.start ≡ job.now.schedule.plan.ranks) }
    ensures count { IfOk result (λ r. length r.1.items ≡ count) }
    ensures hands { IfOk result (λ r. All (λ h. IsFree r.0.turns h) r.1.items) }
    ensures parts { IfOk result (λ r. parts_of r.1.items ≡ 2 ^ 32) }
{
    Fabric::open(rt, alloc, job, count, gate)
}

/// A fabric of a job, and its hands, where there is memory for it.
pub(crate) fn must_open<R: Threads + Sync + Abort, G: Gate + Drop>(
    rt: &R,
    alloc: Global,
    job: &Job,
    count: u32,
    gate: G,
) -> (Fabric<G>, Vec<Hand>)
    requires { 0 < count }
    ensures job { result.0.job ≡ job.now }
    ensures ranks { length result.0.turns.start ≡ job.now.schedule.plan.ranks }
    ensures count { length result.1.items ≡ count }
    ensures hands { All (λ h. IsFree result.0.turns h) result.1.items }
    ensures parts { parts_of result.1.items ≡ 2 ^ 32 }
{
    let Ok(both) = opened(rt, alloc, job, count, gate) else {
        panic!(rt; "a fabric")
    };
    both
}

/// The two hands of a fabric.
pub(crate) fn two_hands<G: Gate + Drop>(fabric: &Fabric<G>, hands: Vec<Hand>) -> (Hand, Hand)
    requires hands { (length hands.items ≡ 2) × All (λ h. IsFree fabric.now.turns h) hands.items }
    ensures hands { IsFree fabric.now.turns result.0 × IsFree fabric.now.turns result.1 }
    ensures parts { result.0.knows.parts + result.1.knows.parts ≡ parts_of hands.items }
{
    let mut hands = hands;
    let (Some(two), Some(one)) = (hands.pop(), hands.pop()) else {
        unreachable!()
    };
    (one, two)
}

/// Closes a fabric with its two hands.
pub(crate) fn close_with<R: Wait + Abort, G: Gate + Drop>(
    rt: &R,
    alloc: Global,
    fabric: Fabric<G>,
    one: Hand,
    two: Hand,
) -> World
    requires hands { IsFree fabric.turns one × IsFree fabric.turns two }
    requires all { one.knows.parts + two.knows.parts ≡ 2 ^ 32 }
{
    let Ok(room) = Vec::with_capacity(alloc, 2) else {
        panic!(rt; "room for two hands")
    };
    let mut both = room;
    both.push_reserved(one);
    both.push_reserved(two);
    fabric.close(rt, both)
}

/// The one hand of a fabric.
pub(crate) fn one_hand<G: Gate + Drop>(fabric: &Fabric<G>, hands: Vec<Hand>) -> Hand
    requires hands { (length hands.items ≡ 1) × All (λ h. IsFree fabric.now.turns h) hands.items }
    ensures hand { IsFree fabric.now.turns result }
    ensures parts { result.knows.parts ≡ parts_of hands.items }
{
    let mut hands = hands;
    let Some(one) = hands.pop() else {
        unreachable!()
    };
    one
}

/// Closes a fabric with its one hand.
pub(crate) fn close_with_one<R: Wait + Abort, G: Gate + Drop>(
    rt: &R,
    alloc: Global,
    fabric: Fabric<G>,
    one: Hand,
) -> World
    requires hand { IsFree fabric.turns one }
    requires all { one.knows.parts ≡ 2 ^ 32 }
{
    let Ok(room) = Vec::with_capacity(alloc, 1) else {
        panic!(rt; "room for a hand")
    };
    let mut hands = room;
    hands.push_reserved(one);
    fabric.close(rt, hands)
}
