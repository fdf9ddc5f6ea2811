//! What a world allows of a rank.

ghost use Rattle.std.specs.Prelude.{◌<◌, ◌≡◌, ◌↔◌, IsTrue};
ghost use Rattle.ptl_types.specs.declared.steps.LocalStep.TheVariants.{Receive};
ghost use Rattle.worlds.specs.Standing.{IsStanding};
ghost use Rattle.order_check.specs.Open.{HearsNoneOf, HearsNothing, IsOpen, IsQuiet, step_at, message_for, widest};

use cuts::orders::Step;
use ptl_types::{Lane, LocalStep, Rank};
use worlds::World;

/// How many ranks there are.
pub fn ranks(world: &World) -> u32
    ensures { result ≡ world.now.schedule.plan.ranks }
{
    world.schedule().ranks()
}

/// The step of a world that a rank's local step is.
pub fn step_at(r: Rank, step: LocalStep) -> Step
    ensures { result ≡ step_at r step }
{
    match step {
        LocalStep::Start => Step::Start(r),
        LocalStep::Receive { source, lane } => Step::Deliver(source, r, lane),
        LocalStep::Fire { number } => Step::Fire(r, number),
    }
}

/// Whether the world allows a rank's local step.
pub fn is_open(world: &World, r: Rank, step: LocalStep) -> bool
    requires rank { r < world.now.schedule.plan.ranks }
    requires standing { IsStanding world.now }
    requires wide { world.now.window ≡ widest }
    ensures { IsTrue result ↔ IsOpen world.now r step }
{
    world.is_enabled(step_at(r, step))
}

/// The rank that the message of a step is for, if it makes one: an answer goes back to the source.
pub fn message_for(world: &World, r: Rank, step: LocalStep) -> Option<Rank>
    requires { r < world.now.schedule.plan.ranks }
    ensures { result ≡ message_for world.now r step }
{
    match step {
        LocalStep::Start => None,
        LocalStep::Receive { source, .. } => Some(source),
        LocalStep::Fire { number } => world.nic(r).lane_of(number),
    }
}

/// The receipt of a message.
fn receipt(source: Rank, lane: Lane) -> LocalStep
    ensures { result ≡ Receive source lane }
{
    LocalStep::Receive { source, lane }
}

/// Whether no message from a rank waits for another.
fn hears_none_of(world: &World, r: Rank, source: Rank) -> bool
    requires rank { r < world.now.schedule.plan.ranks }
    requires source { source < world.now.schedule.plan.ranks }
    requires standing { IsStanding world.now }
    requires wide { world.now.window ≡ widest }
    ensures { IsTrue result ↔ HearsNoneOf world.now r source }
{
    if is_open(world, r, receipt(source, Lane::Request)) {
        return false;
    }
    if is_open(world, r, receipt(source, Lane::Answer)) {
        return false;
    }
    true
}

/// Whether no message waits for the rank.
fn hears_nothing(world: &World, r: Rank) -> bool
    requires rank { r < world.now.schedule.plan.ranks }
    requires standing { IsStanding world.now }
    requires wide { world.now.window ≡ widest }
    ensures { IsTrue result ↔ HearsNothing world.now r world.now.schedule.plan.ranks }
{
    for source in 0..ranks(world) {
        if !hears_none_of(world, r, source) {
            return false;
        }
    }
    true
}

/// Whether the rank has started, no operation is ready there, and no message waits for it.
pub fn is_quiet(world: &World, r: Rank) -> bool
    requires rank { r < world.now.schedule.plan.ranks }
    requires standing { IsStanding world.now }
    requires wide { world.now.window ≡ widest }
    ensures { IsTrue result ↔ IsQuiet world.now r }
{
    if is_open(world, r, LocalStep::Start) {
        return false;
    }
    match world.nic(r).ready() {
        Some(_) => false,
        None => hears_nothing(world, r),
    }
}
