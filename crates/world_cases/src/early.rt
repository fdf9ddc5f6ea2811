//! Messages that come before a rank's start: they lie in the areas after its cells until it starts.

use crate::answers::same_at;
use crate::scene::{
    check_history, check_lists, check_memory, first_header_at, must_make, nth_step, run_and_check,
    world_of,
};
use ptl_types::{Lane, LocalStep, Rank};
use std::process::Abort;
use worlds::{Step, World};

/// Whether a step is a firing of a rank, or a delivery from it to itself.
fn is_of(step: Step, r: Rank) -> bool {
    match step {
        Step::Start(_) => false,
        Step::Deliver(s, d, _) => s == r && d == r,
        Step::Fire(at, _) => at == r,
    }
}

/// The first possible step that is a firing of a rank, or a delivery from it to itself.
fn next_of(world: &World, r: Rank) -> Option<Step> {
    for i in 0..1_000u64 {
        let step = nth_step(world, i)?;
        if is_of(step, r) {
            return Some(step);
        }
    }
    None
}

/// Starts a rank, and makes all of its steps that need no other rank.
fn run_alone(rt: &impl Abort, world: &mut World, r: Rank) {
    must_make(rt, world, Step::Start(r));
    for _ in 0..1_000u32 {
        match next_of(world, r) {
            Some(step) => must_make(rt, world, step),
            None => return,
        }
    }
}

/// The memory of a rank has these bytes, and its oldest unexpected header is of so many bytes, if there is one.
fn check_seen(rt: &impl Abort, world: &World, r: Rank, bytes: &[u8], header: Option<u64>) {
    check_memory(rt, world, r, bytes);
    same_at(rt, (0, r), first_header_at(world, r), header);
}

/// A message comes from a rank that ran alone to one that hasn't started, which then starts. The memory of the second rank is given
/// before the message, after it, and after the start.
fn come_early(rt: &impl Abort, world: &mut World, lane: (Rank, Rank), memories: [&[u8]; 3]) {
    let (from, to) = lane;
    let [before, early, started] = memories;
    run_alone(rt, world, from);
    check_seen(rt, world, to, before, None);
    must_make(rt, world, Step::Deliver(from, to, Lane::Request));
    check_seen(rt, world, to, early, Some(1));
    must_make(rt, world, Step::Start(to));
    check_seen(rt, world, to, started, None);
    let begins = [
        LocalStep::Receive {
            source: from,
            lane: Lane::Request,
        },
        LocalStep::Start,
    ];
    check_history(rt, world, to, &begins);
}

#[test]
fn a_put_comes_before_the_start(rt: HostRuntime) {
    let mut world = world_of(
        &rt,
        rt.alloc(),
        b"coll 1\nranks 2\ninput a u8 1\n7\n9\nbroadcast 0 a b\nend\n",
    );
    // The input, what is broadcast, and the area of puts.
    come_early(
        &rt,
        &mut world,
        (0, 1),
        [&[9, 0, 0], &[9, 0, 7], &[9, 7, 7]],
    );
    run_and_check(&rt, &mut world, 0);
    check_lists(&rt, &world, &[&[&[7], &[9]], &[&[7], &[7]]], 0);
}

#[test]
fn an_atomic_comes_before_the_start(rt: HostRuntime) {
    let mut world = world_of(
        &rt,
        rt.alloc(),
        b"coll 1\nranks 2\ninput a u8 1\n7\n9\nallreduce sum a b\nend\n",
    );
    // The input, its copy, the sum, what is broadcast, the area of two puts, and that of two sums.
    come_early(
        &rt,
        &mut world,
        (1, 0),
        [
            &[7, 0, 0, 0, 0, 0, 0, 0],
            &[7, 0, 0, 0, 0, 0, 9, 0],
            &[7, 0, 9, 0, 0, 0, 9, 0],
        ],
    );
    run_and_check(&rt, &mut world, 0);
    check_memory(&rt, &world, 0, &[7, 7, 16, 16, 0, 0, 9, 0]);
    check_lists(&rt, &world, &[&[&[7], &[9]], &[&[16], &[16]]], 0);
}
