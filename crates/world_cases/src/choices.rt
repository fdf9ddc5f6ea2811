//! Runs of choice worlds in several orders: what is decided, and that orders differ.

use crate::answers::gives;
use crate::choosing::Linear;
use crate::texts::put_number;
use coll_lang::{Description, parse};
use plan_choice::{ChoiceWorld, LocalStep, Step};
use std::alloc::{AllocError, Global};
use std::process::Abort;
use std::test::Fail;

/// The world of a description that chooses.
fn opened(rt: &impl Abort, alloc: Global, description: &Description) -> ChoiceWorld {
    let Some(choices) = description.choices() else {
        panic!(rt; "choices")
    };
    let ranks = description.shape().ranks();
    if ranks == 0 || 256 < ranks {
        panic!(rt; "1 to 256 ranks")
    }
    let Ok(world) = ChoiceWorld::open(alloc, ranks, choices) else {
        panic!(rt; "a world")
    };
    world
}

/// The world of a choice text.
fn world_of(rt: &impl Abort, alloc: Global, text: &[u8]) -> ChoiceWorld {
    let Ok(description) = parse(alloc, text) else {
        panic!(rt; "a description")
    };
    opened(rt, alloc, &description)
}

// Each of the next functions is one call of a world, without what its contract says of the whole world.

fn enabled(world: &ChoiceWorld) -> u64 {
    world.enabled()
}

fn first_step(world: &ChoiceWorld) -> Option<Step> {
    if 0 < world.enabled() {
        Some(world.enabled_step(0))
    } else {
        None
    }
}

fn at_rest(world: &ChoiceWorld) -> bool {
    world.at_rest()
}

fn run(world: &mut ChoiceWorld) {
    world.run_to_rest();
}

fn run_by(world: &mut ChoiceWorld, seed: u64) {
    let mut chooser = Linear { state: seed };
    world.run_chosen(&mut chooser);
}

/// The result of a step at a rank, where there are both.
fn value_at(world: &ChoiceWorld, step: u32, r: u32) -> Option<u64> {
    if (step as usize) < world.kinds().len() && r < world.ranks() {
        Some(world.value(step, r))
    } else {
        None
    }
}

/// Whether every rank has the same rank as the result of a step.
fn is_elected(world: &ChoiceWorld, step: u32) -> bool {
    let winner = value_at(world, step, 0);
    for r in 0..world.ranks() {
        if value_at(world, step, r) != winner {
            return false;
        }
    }
    match winner {
        Some(rank) => rank < u64::from(world.ranks()),
        None => false,
    }
}

/// How many ranks have this result.
fn holders(world: &ChoiceWorld, step: u32, value: u32) -> u32 {
    let mut count = 0_u32;
    for r in 0..world.ranks() {
        if value_at(world, step, r) == Some(u64::from(value)) {
            count = count.saturating_add(1);
        }
    }
    count
}

/// Whether each number below that of the ranks is the result of one rank.
fn are_tickets(world: &ChoiceWorld, step: u32) -> bool {
    for value in 0..world.ranks() {
        if holders(world, step, value) != 1 {
            return false;
        }
    }
    true
}

/// The steps of a rank, where there is such a rank.
fn steps_of(world: &ChoiceWorld, r: u32) -> &[LocalStep] {
    if r < world.ranks() {
        world.history(r)
    } else {
        &[]
    }
}

/// A world of one rank, before its steps and after them.
fn check_alone(rt: &impl Abort, world: &mut ChoiceWorld) {
    gives!(rt; enabled(world), 1);
    gives!(rt; first_step(world), Some(Step::Start(0)));
    gives!(rt; at_rest(world), false);
    run(world);
    gives!(rt; at_rest(world), true);
    gives!(rt; value_at(world, 0, 0), Some(0));
    gives!(rt; value_at(world, 1, 0), Some(0));
    let steps = steps_of(world, 0);
    gives!(rt; steps.len(), 12);
    gives!(rt; steps.get(0).copied(), Some(LocalStep::Start));
    gives!(rt; steps.get(1).copied(), Some(LocalStep::Fire { number: 0 }));
}

#[test]
fn one_rank_elects_itself_and_has_ticket_0(rt: HostRuntime) {
    let text = b"coll 2\nranks 1\nelect e\ntickets t\nprint e\nprint t\nend\n";
    let mut world = world_of(&rt, rt.alloc(), text);
    check_alone(&rt, &mut world);
}

/// The world of a choice text after the steps that a chooser names.
fn chosen(rt: &impl Abort, alloc: Global, text: &[u8], seed: u64) -> ChoiceWorld {
    let mut world = world_of(rt, alloc, text);
    run_by(&mut world, seed);
    world
}

/// Each of five ranks has a ticket.
fn check_tickets(rt: &impl Abort, alloc: Global, seed: u64) {
    let text = b"coll 2\nranks 5\ntickets t\nprint t\nend\n";
    let world = chosen(rt, alloc, text, seed);
    gives!(rt; at_rest(&world), true);
    gives!(rt; are_tickets(&world, 0), true);
}

#[test]
fn five_ranks_have_a_ticket_each_in_every_order(rt: HostRuntime) {
    for seed in 1..21 {
        check_tickets(&rt, rt.alloc(), seed);
    }
}

/// Whether the first election of a run names rank 0. Both elections agree, and the tickets between them are right.
fn elects_first(rt: &impl Abort, alloc: Global, seed: u64) -> bool {
    let text = b"coll 2\nranks 5\nelect a\ntickets t\nelect b\nprint a\nend\n";
    let world = chosen(rt, alloc, text, seed);
    gives!(rt; is_elected(&world, 0), true);
    gives!(rt; are_tickets(&world, 1), true);
    gives!(rt; is_elected(&world, 2), true);
    value_at(&world, 0, 3) == Some(0)
}

#[test]
fn elections_differ_by_the_order_and_agree_in_each(rt: HostRuntime) {
    let mut first = 0_u32;
    for seed in 1..21 {
        if elects_first(&rt, rt.alloc(), seed) {
            first = first.saturating_add(1);
        }
    }
    assert!(rt; 0 < first && first < 20);
}

/// Adds a text of so many ranks and steps, elects and tickets by turns.
fn put_text(alloc: Global, text: &mut Vec<u8>, ranks: u32, steps: u32) -> Result<(), AllocError> {
    put_number(alloc, text, "coll 2\nranks ", ranks, "\n")?;
    for i in 0..steps {
        let word = if i % 2 == 0 { "elect s" } else { "tickets s" };
        put_number(alloc, text, word, i, "\n")?;
    }
    text.extend_from_slice(b"print s0\nend\n")
}

/// Whether a step of such a text has right results.
fn is_right(world: &ChoiceWorld, step: u32) -> bool {
    if step % 2 == 0 {
        is_elected(world, step)
    } else {
        are_tickets(world, step)
    }
}

/// All 64 steps have right results.
fn check_decided(rt: &impl Abort, world: &ChoiceWorld) {
    for step in 0..64 {
        gives!(rt; is_right(world, step), true);
    }
}

/// A text in its own order, and in that of a chooser.
fn check_two_orders(rt: &impl Abort, alloc: Global, text: &[u8]) {
    let mut own = world_of(rt, alloc, text);
    run(&mut own);
    check_decided(rt, &own);
    let other = chosen(rt, alloc, text, 1);
    check_decided(rt, &other);
}

#[test]
fn the_largest_text_is_decided_in_two_orders(rt: HostRuntime) -> Result<(), Fail> {
    let mut text = Vec::new(rt.alloc());
    put_text(rt.alloc(), &mut text, 256, 64)?;
    check_two_orders(&rt, rt.alloc(), &text);
    Ok(())
}
