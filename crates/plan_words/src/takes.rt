//! What a rank of a plan takes of an interface, and how many messages it exchanges with others.

ghost use Rattle.std.specs.Prelude.{◌≡◌, ◌<◌, ◌≤◌, ◌^◌, IfOk, length, map, sum_by};
ghost use Rattle.number_lists.specs.Numbers.{from_to};
ghost use Rattle.plan_core.specs.Plan.{Plan};
ghost use Rattle.plan_core.specs.Sound.{AreInputsOf, SoundPlan};
ghost use Rattle.plan_core.specs.Values.{Inputs};
ghost use Rattle.plan_words.specs.Installing.{AreTaken};
ghost use Rattle.plan_words.specs.Takes.{takes_of, to_other};

use ptl_types::{Lane, NoMemory, Rank};
use schedule_compiler::Schedule;
use std::alloc::Global;
use worlds::tasks::bytes_to;

/// What a rank of a plan takes of an interface (Portals 4.3, network interface limits), and how many messages it exchanges.
#[derive(Clone, Copy, Debug, PartialEq, Eq)]
pub struct Takes {
    /// Triggered operations.
    pub triggered: u32,
    /// Counting events.
    pub counting: u32,
    /// Match entries.
    pub entries: u32,
    /// Unexpected headers at most: the messages that come to the rank, all of which may come before its start.
    pub headers: u32,
    /// The bytes of these messages together.
    pub early: u64,
    /// Memory descriptors.
    pub descriptors: u32,
    /// The bytes of its region.
    pub region: u64,
    /// The bytes of the longest message that it sends.
    pub longest: u64,
    /// How many messages it sends to other ranks.
    pub sent: u64,
    /// How many come to it from other ranks.
    pub received: u64,
    /// How many it sends to itself.
    pub own: u64,
}

/// How many messages go from one rank to another; not those that a rank sends to itself.
fn to_other(schedule: &Schedule, s: Rank, d: Rank) -> u64
    requires source { s < schedule.now.plan.ranks }
    requires target { d < schedule.now.plan.ranks }
    ensures value { result ≡ to_other schedule.now.plan s d }
    ensures at_most { result < 2 ^ 27 }
{
    let _ = schedule.plan();
    if s == d {
        0
    } else {
        schedule.lane(s, d, Lane::Request)
    }
}

/// How many messages a rank sends to others.
fn sent(schedule: &Schedule, r: Rank) -> u64
    requires { r < schedule.now.plan.ranks }
    ensures { result ≡ sum_by (to_other schedule.now.plan r) (from_to 0 schedule.now.plan.ranks) }
{
    let mut sent = 0u64;
    for d in 0..schedule.ranks() {
        sent += to_other(schedule, r, d);
    }
    sent
}

/// How many messages come to a rank from others.
fn received(schedule: &Schedule, r: Rank) -> u64
    requires { r < schedule.now.plan.ranks }
    ensures { result ≡ sum_by (λ s. to_other schedule.now.plan s r) (from_to 0 schedule.now.plan.ranks) }
{
    let mut received = 0u64;
    for s in 0..schedule.ranks() {
        received += to_other(schedule, s, r);
    }
    received
}

/// What a rank takes.
fn takes_of(alloc: Global, schedule: &Schedule, r: Rank) -> Result<Takes, NoMemory>
    requires { r < schedule.now.plan.ranks }
    ensures { IfOk result (λ takes. takes ≡ takes_of schedule.now.plan r) }
{
    let table = schedule.rank(alloc, r)?;
    let limits = *table.limits();
    Ok(Takes {
        triggered: limits.triggered,
        counting: limits.cts,
        entries: limits.entries,
        headers: limits.unexpected,
        early: bytes_to(schedule, r),
        descriptors: limits.mds,
        region: table.region(),
        longest: limits.msg,
        sent: sent(schedule, r),
        received: received(schedule, r),
        own: schedule.lane(r, r, Lane::Request),
    })
}

/// What each rank takes, by rank.
///
/// # Errors
///
/// There was no memory for a rank's table.
pub fn takes_of_ranks(alloc: Global, schedule: &Schedule) -> Result<Vec<Takes>, NoMemory>
    ensures { IfOk result (λ takes. takes.items ≡ map (takes_of schedule.now.plan) (from_to 0 schedule.now.plan.ranks)) }
{
    let mut takes = Vec::new(alloc);
    for r in 0..schedule.ranks() {
        let next = takes_of(alloc, schedule, r)?;
        takes.push(next)?;
    }
    Ok(takes)
}

/// What is told of the ranks of a sound plan is so much as the calls make that are compiled for them, whatever the inputs; for just so
/// much their interfaces are opened; and no run sends a rank more messages, or more bytes, than are told.
pub fn takes_are_installed()
    ensures { (p : Plan) (inputs : Inputs) → SoundPlan p (length inputs) → AreInputsOf p inputs → AreTaken p inputs (takes_of p) }
{}
