//! The possible steps of small worlds, and what their ranks did.

use crate::answers::{gives, same_at};
use crate::scene::{
    at_rest, check_history, check_rest, done_at, enabled, is_enabled, must_make, nth_step,
    successes, world_of,
};
use ptl_types::{Lane, LocalStep};
use std::process::Abort;
use worlds::{Step, World};

/// This step is possible, at this place.
fn check_step(rt: &impl Abort, world: &World, i: u64, step: Step) {
    gives!(rt; nth_step(world, i), Some(step));
    assert!(rt; is_enabled(world, step), "{step:?}");
}

/// These steps are possible, in this order, and no others.
fn check_steps(rt: &impl Abort, world: &World, steps: &[Step]) {
    gives!(rt; enabled(world), steps.len() as u64);
    for (i, step) in steps.iter().enumerate() {
        check_step(rt, world, i as u64, *step);
    }
    gives!(rt; at_rest(world), steps.is_empty());
}

/// None of these steps is possible.
fn check_not(rt: &impl Abort, world: &World, steps: &[Step]) {
    for step in steps.iter() {
        assert!(rt; !is_enabled(world, *step), "{step:?}");
    }
}

/// Makes steps, each of which is possible.
fn make_steps(rt: &impl Abort, world: &mut World, steps: &[Step]) {
    for step in steps.iter() {
        must_make(rt, world, *step);
    }
}

/// One broadcast of a byte over two ranks.
const TEXT: &[u8] = b"coll 1\nranks 2\ninput a u8 1\n7\n9\nbroadcast 0 a b\nend\n";

/// Steps that are made one after the other, and which steps are possible then.
const SCENES: &[(&[Step], &[Step])] = &[
    (&[], &[Step::Start(0), Step::Start(1)]),
    (
        &[Step::Start(1)],
        &[
            Step::Start(0),
            Step::Fire(1, 0),
            Step::Fire(1, 1),
            Step::Fire(1, 3),
        ],
    ),
    (
        &[Step::Start(0), Step::Fire(0, 0), Step::Fire(0, 2)],
        &[
            Step::Deliver(0, 0, Lane::Request),
            Step::Fire(0, 1),
            Step::Fire(0, 5),
            Step::Fire(0, 6),
            Step::Fire(1, 0),
            Step::Fire(1, 1),
            Step::Fire(1, 3),
        ],
    ),
    (
        &[
            Step::Deliver(0, 0, Lane::Request),
            Step::Fire(0, 1),
            Step::Fire(0, 3),
            Step::Deliver(0, 0, Lane::Request),
            Step::Fire(0, 4),
        ],
        &[
            Step::Deliver(0, 1, Lane::Request),
            Step::Fire(0, 5),
            Step::Fire(0, 6),
            Step::Fire(0, 7),
            Step::Fire(0, 8),
            Step::Fire(1, 0),
            Step::Fire(1, 1),
            Step::Fire(1, 3),
        ],
    ),
];

/// Makes the steps of each scene, and looks at what is possible then.
fn check_scenes(rt: &impl Abort, world: &mut World) {
    for (made, possible) in SCENES {
        make_steps(rt, world, made);
        check_steps(rt, world, possible);
    }
}

#[test]
fn possible_steps_have_an_order(rt: HostRuntime) {
    let mut world = world_of(&rt, rt.alloc(), TEXT);
    check_scenes(&rt, &mut world);
}

/// Steps that aren't possible before the first one.
const NONE_OF: &[Step] = &[
    Step::Start(2),
    Step::Start(u32::MAX),
    // No message was sent.
    Step::Deliver(0, 1, Lane::Request),
    // No message goes there.
    Step::Deliver(1, 0, Lane::Request),
    Step::Deliver(0, 1, Lane::Answer),
    // No such rank.
    Step::Deliver(2, 0, Lane::Request),
    Step::Deliver(0, 2, Lane::Request),
    Step::Fire(2, 0),
    // Not ready, and not pending.
    Step::Fire(0, 0),
    Step::Fire(0, 9),
    Step::Fire(0, u32::MAX),
];

/// Steps that aren't possible after three steps of rank 0: made already, or not ready yet.
const NO_MORE: &[Step] = &[
    Step::Start(0),
    Step::Fire(0, 0),
    Step::Fire(0, 3),
    Step::Fire(1, 2),
];

#[test]
fn other_steps_are_impossible(rt: HostRuntime) {
    let mut world = world_of(&rt, rt.alloc(), TEXT);
    check_not(&rt, &world, NONE_OF);
    make_steps(
        &rt,
        &mut world,
        &[Step::Start(0), Step::Fire(0, 0), Step::Fire(0, 2)],
    );
    check_not(&rt, &world, NO_MORE);
}

/// Each of two ranks made these local steps, and counted so many successes.
fn check_both(rt: &impl Abort, world: &World, histories: &[&[LocalStep]; 2], done: u64) {
    check_history(rt, world, 0, histories[0]);
    check_history(rt, world, 1, histories[1]);
    same_at(rt, (0, 0), done_at(world, 0), successes(done));
    same_at(rt, (0, 1), done_at(world, 1), successes(done));
}

/// Makes the first possible step so often.
fn make_first(rt: &impl Abort, world: &mut World, count: u32) {
    for _ in 0..count {
        let Some(step) = nth_step(world, 0) else {
            panic!(rt; "at rest")
        };
        must_make(rt, world, step);
    }
}

/// What the two ranks of a barrier did in the end.
const MET: &[&[LocalStep]; 2] = &[
    &[
        LocalStep::Start,
        LocalStep::Fire { number: 0 },
        LocalStep::Fire { number: 1 },
        LocalStep::Fire { number: 2 },
        LocalStep::Fire { number: 3 },
        LocalStep::Fire { number: 4 },
        LocalStep::Receive {
            source: 1,
            lane: Lane::Request,
        },
        LocalStep::Fire { number: 5 },
    ],
    &[
        LocalStep::Start,
        LocalStep::Receive {
            source: 0,
            lane: Lane::Request,
        },
        LocalStep::Fire { number: 0 },
        LocalStep::Fire { number: 1 },
        LocalStep::Fire { number: 2 },
        LocalStep::Fire { number: 3 },
        LocalStep::Fire { number: 4 },
        LocalStep::Fire { number: 5 },
    ],
];

#[test]
fn a_barrier_step_by_step(rt: HostRuntime) {
    let mut world = world_of(&rt, rt.alloc(), b"coll 1\nranks 2\nbarrier\nend\n");
    check_both(&rt, &world, &[&[], &[]], 0);
    // A start, six firings and a receipt at each rank.
    make_first(&rt, &mut world, 16);
    check_rest(&rt, &world, 0);
    check_both(&rt, &world, MET, 3);
}
