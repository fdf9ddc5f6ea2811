//! Taking: a list of the ranks to look at; each look takes a rank's next listed step where it is enabled.

ghost use Rattle.std.specs.Prelude.{ℕ, ◌<◌, ◌≡◌, ◌⊎◌, [], ◌∷◌, ◌++◌, length, IfOk, IfSome, MatchOption, Some};
ghost use Rattle.ptl_types.specs.declared.headers.Lane.{Lane};
ghost use Rattle.ptl_types.specs.declared.steps.LocalStep.TheVariants.{Receive};
ghost use Rattle.plan_core.specs.Members.{In};
ghost use Rattle.cuts.specs.orders.Chosen.{first_scene};
ghost use Rattle.cuts.specs.orders.Taking.{IsNext};
ghost use Rattle.cuts.specs.orders.Verdict.{IsWhole};
ghost use Rattle.worlds.specs.Later.{IsLater};
ghost use Rattle.worlds.specs.Standing.{IsStanding};
ghost use Rattle.worlds.specs.World.{histories_in, scene_in};
ghost use Rattle.order_check.specs.Listing.{IsListed, lists_of};
ghost use Rattle.order_check.specs.Open.{IsOpen, widest};
ghost use Rattle.order_check.specs.Work.{IsDriven, IsStuckIn, IsWork, is_from, work_left};

use crate::allowing::{is_open, message_for, ranks, step_at};
use order_lines::Orders;
use ptl_types::{LocalStep, NoMemory, Rank};
use std::alloc::Global;
use worlds::World;

/// The next step of a rank's list; none where the list is wholly taken.
pub fn next_listed(world: &World, orders: &Orders, r: Rank) -> Option<LocalStep>
    requires rank { r < world.now.schedule.plan.ranks }
    requires lists { length orders.now ≡ world.now.schedule.plan.ranks }
    requires listed { IsListed (lists_of orders.now) (histories_in world.now) r }
    ensures { MatchOption result (IsWhole (lists_of orders.now) (histories_in world.now) r)
        (λ e. IsNext (lists_of orders.now) (histories_in world.now) r e) }
{
    let steps = orders.steps(r);
    let place = world.history(r).len();
    if place < steps.len() {
        Some(steps[place])
    } else {
        None
    }
}

/// The next step of a rank's list, where it is enabled.
fn next_enabled(world: &World, orders: &Orders, r: Rank) -> Option<LocalStep>
    requires rank { r < world.now.schedule.plan.ranks }
    requires lists { length orders.now ≡ world.now.schedule.plan.ranks }
    requires driven { IsDriven world.now (lists_of orders.now) }
    ensures { MatchOption result (IsStuckIn world.now (lists_of orders.now) r)
        (λ e. IsNext (lists_of orders.now) (histories_in world.now) r e × IsOpen world.now r e) }
{
    match next_listed(world, orders, r) {
        None => None,
        Some(step) => {
            if is_open(world, r, step) {
                Some(step)
            } else {
                None
            }
        }
    }
}

/// Whether the step is the receipt of a message from this rank.
fn is_from(r: Rank, step: LocalStep) -> bool
    ensures { result ≡ is_from r step }
{
    match step {
        LocalStep::Receive { source, .. } => source == r,
        _ => false,
    }
}

/// Of the rank to which a message of rank r went: itself, if its next listed step is a receipt from rank r.
fn waiter(world: &World, orders: &Orders, r: Rank, to: Option<Rank>) -> Option<Rank>
    requires lists { length orders.now ≡ world.now.schedule.plan.ranks }
    requires driven { IsDriven world.now (lists_of orders.now) }
    ensures known { IfSome result (λ d. d < world.now.schedule.plan.ranks) }
    ensures others { (q : ℕ) → q < world.now.schedule.plan.ranks → to ≡ Some q → ((result ≡ Some q)
        ⊎ ((lane : Lane) → IsNext (lists_of orders.now) (histories_in world.now) q (Receive r lane) → ⊥)) }
{
    match to {
        None => None,
        Some(d) => {
            if d < ranks(world) {
                match next_listed(world, orders, d) {
                    None => None,
                    Some(step) => { if is_from(r, step) { Some(d) } else { None } }
                }
            } else {
                None
            }
        }
    }
}

/// Puts a rank at the end of the list of ranks to look at.
fn look_again(queue: &mut Vec<Rank>, r: Rank) -> Result<(), NoMemory>
    ensures { IfOk result (λ _. queue.new.items ≡ queue.old.items ++ r ∷ []) }
{
    match queue.push(r) {
        Ok(()) => Ok(()),
        Err(_) => Err(NoMemory),
    }
}

/// Looks at a rank: takes its next listed step where it is enabled, and queues it again, and the rank that waited for its message.
fn look(world: &mut World, orders: &Orders, r: Rank, queue: &mut Vec<Rank>) -> Result<(), NoMemory>
    requires lists { length orders.now ≡ world.old.schedule.plan.ranks }
    requires work { IsWork world.old (lists_of orders.now) (queue.old.items ++ r ∷ []) }
    ensures later { IsLater world.old world.new }
    ensures work { IfOk result (λ _. IsWork world.new (lists_of orders.now) queue.new.items) }
    ensures less { IfOk result (λ _. work_left world.new (lists_of orders.now) queue.new.items
        < work_left world.old (lists_of orders.now) (queue.old.items ++ r ∷ [])) }
{
    match next_enabled(world, orders, r) {
        None => Ok(()),
        Some(step) => {
            let to = message_for(world, r, step);
            world.step(step_at(r, step));
            look_again(queue, r)?;
            let woken = waiter(world, orders, r, to);
            match woken {
                None => Ok(()),
                Some(d) => look_again(queue, d),
            }
        }
    }
}

/// All ranks.
fn all_ranks(alloc: Global, count: u32) -> Result<Vec<Rank>, NoMemory>
    ensures all { IfOk result (λ queue. (r : ℕ) → r < count → In r queue.items) }
    ensures known { IfOk result (λ queue. (r : ℕ) → In r queue.items → r < count) }
{
    let mut queue = Vec::new(alloc);
    for r in 0..count {
        look_again(&mut queue, r)?;
    }
    Ok(queue)
}

/// Tells in a proof what holds of a world whatever was done with it; it does nothing.
fn recall_standing(world: &World)
    ensures { IsStanding world.now }
{
    let _ = world.enabled();
}

/// Takes of each list what can be taken, in a world in which nothing was done.
pub fn take_all(alloc: Global, world: &mut World, orders: &Orders) -> Result<(), NoMemory>
    requires lists { length orders.now ≡ world.old.schedule.plan.ranks }
    requires wide { world.old.window ≡ widest }
    requires fresh { scene_in world.old ≡ first_scene }
    ensures later { IsLater world.old world.new }
    ensures taken { IfOk result (λ _. IsWork world.new (lists_of orders.now) []) }
{
    recall_standing(world);
    let mut queue = all_ranks(alloc, ranks(world))?;
    while let Some(r) = queue.pop() {
        look(world, orders, r, &mut queue)?;
    }
    Ok(())
}
