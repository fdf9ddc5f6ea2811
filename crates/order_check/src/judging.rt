//! The verdict, read off what was taken.

ghost use Rattle.std.specs.Prelude.{ℕ, ◌+◌, ◌<◌, ◌≡◌, length, IfOk, MatchOption};
ghost use Rattle.cuts.specs.view.Slots.{Slots};
ghost use Rattle.cuts.specs.histories.Plans.{system_of};
ghost use Rattle.cuts.specs.orders.Verdict.{IsVerdict, IsWhole, cause_of};
ghost use Rattle.cuts.specs.declared.orders.Verdict.TheVariants.{Fails};
ghost use Rattle.worlds.specs.World.{histories_in};
ghost use Rattle.order_check.specs.Listing.{lists_of};
ghost use Rattle.worlds.specs.Standing.{IsStanding};
ghost use Rattle.order_check.specs.Open.{IsQuiet, widest};
ghost use Rattle.order_check.specs.Work.{IsDriven, IsUnfinished};

use crate::allowing::{is_quiet, ranks};
use crate::taking::{next_listed, take_all};
use cuts::orders::Verdict;
use order_lines::Orders;
use ptl_types::{Cause, LocalStep, NoMemory, Rank};
use schedule_compiler::Job;
use std::alloc::Global;
use worlds::World;

/// Why a listed step isn't taken.
fn cause(step: LocalStep) -> Cause
    ensures { result ≡ cause_of step }
{
    match step {
        LocalStep::Start => Cause::StartedTwice,
        LocalStep::Receive { .. } => Cause::NotSent,
        LocalStep::Fire { .. } => Cause::NotReady,
    }
}

/// A failure at the place after the steps that a rank made.
fn fails(world: &World, r: Rank, cause: Cause) -> Verdict
    requires { r < world.now.schedule.plan.ranks }
    ensures { result ≡ Fails r (length (histories_in world.now r) + 1) cause }
{
    Verdict::Fails {
        rank: r,
        place: world.history(r).len() as u64 + 1,
        cause,
    }
}

/// The failure of the lowest rank whose list isn't wholly taken.
fn unfinished(world: &World, orders: &Orders) -> Option<Verdict>
    requires lists { length orders.now ≡ world.now.schedule.plan.ranks }
    requires driven { IsDriven world.now (lists_of orders.now) }
    ensures { MatchOption result ((r : ℕ) → r < world.now.schedule.plan.ranks → IsWhole (lists_of orders.now) (histories_in world.now) r)
        (λ v. IsUnfinished world.now (lists_of orders.now) v) }
{
    for r in 0..ranks(world) {
        if let Some(step) = next_listed(world, orders, r) {
            return Some(fails(world, r, cause(step)));
        }
    }
    None
}

/// The lowest rank that hasn't started, has a ready operation, or has a message that waits for it.
fn restless(world: &World) -> Option<Rank>
    requires standing { IsStanding world.now }
    requires wide { world.now.window ≡ widest }
    ensures { MatchOption result ((r : ℕ) → r < world.now.schedule.plan.ranks → IsQuiet world.now r)
        (λ r. (r < world.now.schedule.plan.ranks) × ((q : ℕ) → q < r → IsQuiet world.now q) × (IsQuiet world.now r → ⊥)) }
{
    for r in 0..ranks(world) {
        if !is_quiet(world, r) {
            return Some(r);
        }
    }
    None
}

/// The verdict on given orders of a job: from its ranks before their first step, each rank's next listed step is taken whenever it is
/// enabled, until no rank's next step is.
///
/// # Errors
///
/// There was no memory for the job's world, or for the ranks to look at.
pub fn check(alloc: Global, job: &Job, orders: &Orders) -> Result<Verdict, NoMemory>
    requires { length orders.now ≡ job.now.schedule.plan.ranks }
    // It is so whatever slots the tables of the interfaces give out.
    ensures exact { IfOk result (λ verdict. (slots : ℕ → Slots) →
        IsVerdict (system_of job.now.schedule.plan job.now.inputs slots) (lists_of orders.now) verdict) }
{
    let mut world = World::open(alloc, job)?;
    take_all(alloc, &mut world, orders)?;
    if let Some(verdict) = unfinished(&world, orders) {
        return Ok(verdict);
    }
    match restless(&world) {
        None => Ok(Verdict::Holds),
        Some(r) => Ok(fails(&world, r, Cause::NotAtRest)),
    }
}
