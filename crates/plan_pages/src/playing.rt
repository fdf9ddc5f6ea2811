//! An interleaving of the orders of all ranks: one after the other, rank by rank, each makes its next step, if that can be made.

ghost use Rattle.std.specs.Prelude.{◌≡◌, ◌++◌, ◌∷◌, ◌+◌, ◌<◌, [], IfOk, IfSome, get_or, length, set, take};
ghost use Rattle.plan_pages.specs.Played.{ArePlayed, order_of};

use crate::scene::{Deed, Scene};
use plan_core::Plan;
use plan_pictures::lines::Order;
use ptl_types::{LocalStep, Rank};
use std::alloc::{AllocError, Global};

/// One local step of the interleaving.
#[derive(Clone, Copy, Debug)]
pub struct Turn {
    /// The rank that makes it.
    pub rank: Rank,
    /// The step, as the rank's order names it.
    pub step: LocalStep,
    /// What it did.
    pub deed: Deed,
    /// How many changes there are up to it, and with it.
    pub changes: (usize, usize),
}

/// What was played.
#[derive(Drop)]
pub struct Play<'a> {
    /// The steps in the order of the interleaving.
    pub turns: Vec<Turn>,
    /// Of each rank how many steps of its order were made.
    pub made: Vec<usize>,
    /// What stands where after the last step, and all changes on the way.
    pub scene: Scene<'a>,
}

/// The next step of a rank's order, of which so many are made, and how many are made with it. `None`: there is none.
fn next_of(made: &[usize], orders: &[Order], rank: Rank) -> Option<(LocalStep, usize)>
    ensures rank { IfSome result (λ _. rank < length made.now) }
    ensures more { IfSome result (λ n. n.1 ≡ get_or made.now rank 0 + 1) }
    ensures next { IfSome result (λ n. take (get_or made.now rank 0 + 1) (order_of orders.now rank) ≡
        take (get_or made.now rank 0) (order_of orders.now rank) ++ n.0 ∷ []) }
{
    let place = made.get(rank as usize).copied()?;
    let order = orders.get(rank as usize)?;
    let step = order.steps.get(place).copied()?;
    Some((step, place.checked_add(1)?))
}

/// A rank makes the next step of its order, if there is one and it can be made: then that is told.
#[tactic(auto, using(crate::proofs::Turns::one_more))]
fn take_turn(play: &mut Play, orders: &[Order], rank: Rank) -> Result<bool, AllocError>
    requires { ArePlayed orders.now play.old.turns.items play.old.made.items }
    ensures { IfOk result (λ _. ArePlayed orders.now play.new.turns.items play.new.made.items) }
{
    let Some((step, more)) = next_of(play.made.as_slice(), orders, rank) else {
        return Ok(false);
    };
    let before = play.scene.changes.len();
    let Some(deed) = play.scene.make(rank, step)? else {
        return Ok(false);
    };
    let after = play.scene.changes.len();
    play.turns.push(Turn {
        rank,
        step,
        deed,
        changes: (before, after),
    })?;
    play.made[rank as usize] = more;
    Ok(true)
}

/// Each rank takes a turn. Whether one made a step.
fn take_turns(play: &mut Play, orders: &[Order]) -> Result<bool, AllocError>
    requires { ArePlayed orders.now play.old.turns.items play.old.made.items }
    ensures { IfOk result (λ _. ArePlayed orders.now play.new.turns.items play.new.made.items) }
{
    let mut any = false;
    for rank in 0..play.scene.registers.ranks {
        any = take_turn(play, orders, rank)? || any;
    }
    Ok(any)
}

/// Plays orders of a plan's ranks as far as they can be played. Which steps can be made doesn't rest on how the ranks take turns.
#[tactic(auto, using(crate::proofs::Turns::none_played))]
pub fn played<'a>(alloc: Global, plan: &'a Plan, orders: &[Order]) -> Result<Play<'a>, AllocError>
    ensures { IfOk result (λ p. ArePlayed orders.now p.turns.items p.made.items) }
{
    let mut shown = Play {
        turns: Vec::new(alloc),
        made: vec![in alloc; 0; orders.len()]?,
        scene: Scene::of(alloc, plan)?,
    };
    for _ in 0..u64::MAX {
        if !take_turns(&mut shown, orders)? {
            break;
        }
    }
    Ok(shown)
}
