//! The same text in many orders: by twenty choosers, and under windows.

use crate::cases::{CASES, Case};
use crate::choosing::Linear;
use crate::scene::{check_lists, check_rest, run_and_check, windowed, world_of};
use std::alloc::Global;
use std::process::Abort;
use worlds::World;

fn run_by(world: &mut World, seed: u32) {
    let mut chooser = Linear {
        state: u64::from(seed),
    };
    world.run_chosen(&mut chooser);
}

/// The world of a case in the order of a chooser.
fn check_chosen(rt: &impl Abort, world: &mut World, case: &Case, seed: u32, name: u64) {
    run_by(world, seed);
    check_lists(rt, world, case.lists, name);
    check_rest(rt, world, name);
}

/// The world of a case in its own order.
fn check_own(rt: &impl Abort, world: &mut World, case: &Case, name: u64) {
    run_and_check(rt, world, name);
    check_lists(rt, world, case.lists, name);
}

/// A case in the order of a chooser.
fn in_chosen_order(rt: &impl Abort, alloc: Global, case: &Case, seed: u32, name: u64) {
    let mut world = world_of(rt, alloc, case.text);
    check_chosen(rt, &mut world, case, seed, name);
}

/// A case under a window, in its own order and in that of a chooser.
fn under_window(rt: &impl Abort, alloc: Global, case: &Case, window: u32, name: u64) {
    let mut own = windowed(rt, alloc, case.text, window);
    check_own(rt, &mut own, case, name);
    let mut chosen = windowed(rt, alloc, case.text, window);
    check_chosen(rt, &mut chosen, case, window, name);
}

#[test]
fn all_choosers_end_alike(rt: HostRuntime) {
    for (i, case) in CASES.iter().enumerate() {
        for seed in 0..20u32 {
            in_chosen_order(&rt, rt.alloc(), case, seed, i as u64);
        }
    }
}

#[test]
fn all_windows_end_alike(rt: HostRuntime) {
    for (i, case) in CASES.iter().enumerate() {
        for window in [1u32, 2, 4] {
            under_window(&rt, rt.alloc(), case, window, i as u64);
        }
    }
}
