//! The worlds of texts, and what is asked of them. A call answers `None` or `false` where its condition doesn't hold.

ghost use Rattle.std.specs.Prelude.{◌≡◌};

use crate::answers::{same_at, same_in};
use coll_lang::parse;
use portals_ni::Nic;
use ptl_types::{Count, LocalStep, Rank};
use schedule_compiler::{Job, compile, shape_job};
use std::alloc::Global;
use std::process::Abort;
use worlds::{Step, World};

/// The job of a text. `None`: it is refused, or there is no memory.
pub fn job_of(alloc: Global, text: &[u8]) -> Option<Job> {
    let Ok(description) = parse(alloc, text) else {
        return None;
    };
    let (shape, inputs) = description.into_parts();
    let Ok(schedule) = compile(alloc, &shape) else {
        return None;
    };
    match shape_job(alloc, &shape, schedule, inputs) {
        Ok(job) => Some(job),
        Err(_) => None,
    }
}

/// The job of a text that has one.
pub fn must_job(rt: &impl Abort, alloc: Global, text: &[u8]) -> Job {
    let Some(job) = job_of(alloc, text) else {
        panic!(rt; "a job")
    };
    job
}

/// The world of a text that has one.
pub fn world_of(rt: &impl Abort, alloc: Global, text: &[u8]) -> World {
    let job = must_job(rt, alloc, text);
    let Ok(world) = World::open(alloc, &job) else {
        panic!(rt; "a world")
    };
    world
}

/// The world of a text that has one, under a window.
pub fn windowed(rt: &impl Abort, alloc: Global, text: &[u8], window: u32) -> World {
    if window == 0 {
        panic!(rt; "a window")
    }
    let job = must_job(rt, alloc, text);
    let Ok(world) = World::open_windowed(alloc, &job, window) else {
        panic!(rt; "a world")
    };
    world
}

// Each of the next functions is one call of a world, without what its contract says of the whole world: so the functions after
// them have nothing of it to prove.

/// How many links the plan of a job has.
pub fn links(job: &Job) -> usize {
    job.schedule().plan().links().len()
}

/// How many ranks a world has.
pub fn ranks(world: &World) -> u32 {
    world.schedule().ranks()
}

/// How many buffers its description has, the inputs among them.
pub fn buffers(world: &World) -> usize {
    world.schedule().buffers() as usize
}

/// How many steps are possible.
pub fn enabled(world: &World) -> u64 {
    world.enabled()
}

/// The possible step of this number, from 0. `None`: there are not so many.
pub fn nth_step(world: &World, i: u64) -> Option<Step> {
    if i < world.enabled() {
        Some(world.enabled_step(i))
    } else {
        None
    }
}

/// Whether a step is possible.
pub fn is_enabled(world: &World, step: Step) -> bool {
    world.is_enabled(step)
}

/// Makes a step, if it is possible, and answers whether it was.
pub fn make_step(world: &mut World, step: Step) -> bool {
    if world.is_enabled(step) {
        world.step(step);
        true
    } else {
        false
    }
}

/// Whether no step is possible.
pub fn at_rest(world: &World) -> bool {
    world.at_rest()
}

/// Makes steps until none is possible.
pub fn run(world: &mut World)
    ensures { world.new.strays ≡ world.old.strays }
{
    world.run_to_rest();
}

/// The bytes of a buffer's list at a rank. `None`: there is no such buffer or rank.
pub fn bytes_at(world: &World, buffer: u32, r: Rank) -> Option<&[u8]> {
    let schedule = world.schedule();
    if buffer < schedule.buffers() && r < schedule.ranks() {
        Some(world.result(buffer, r))
    } else {
        None
    }
}

/// The interface of a rank. `None`: there is no such rank.
pub fn nic_at(world: &World, r: Rank) -> Option<&Nic> {
    if r < world.schedule().ranks() {
        Some(world.nic(r))
    } else {
        None
    }
}

/// The local steps that a rank made. `None`: there is no such rank.
pub fn history_at(world: &World, r: Rank) -> Option<&[LocalStep]> {
    if r < world.schedule().ranks() {
        Some(world.history(r))
    } else {
        None
    }
}

/// Where the done counter of a rank stands. `None`: there is no such rank.
pub fn done_at(world: &World, r: Rank) -> Option<Count> {
    if r < world.schedule().ranks() {
        Some(world.done(r))
    } else {
        None
    }
}

/// Where the done counter of a rank stands when it is done. `None`: there is no such rank.
pub fn due_at(world: &World, r: Rank) -> Option<Count> {
    let schedule = world.schedule();
    if r < schedule.ranks() {
        successes(schedule.done(r))
    } else {
        None
    }
}

/// How often a rank dropped a message, and how often an entry didn't allow one.
pub fn registers_at(world: &World, r: Rank) -> Option<(u64, u64)> {
    let nic = nic_at(world, r)?;
    Some((nic.drops(), nic.violations()))
}

/// The length of the oldest unexpected header of a rank. `None`: there is none.
pub fn first_header_at(world: &World, r: Rank) -> Option<u64> {
    let header = nic_at(world, r)?.header(0, 0)?;
    Some(header.delivered)
}

/// The bytes of a rank's region. `None`: there is no such rank.
pub fn memory_at(world: &World, r: Rank) -> Option<&[u8]> {
    let nic = nic_at(world, r)?;
    Some(nic.memory())
}

/// So many successes and no failure.
pub fn successes(success: u64) -> Option<Count> {
    Some(Count {
        success,
        failure: 0,
    })
}

/// Makes a step, which is possible.
pub fn must_make(rt: &impl Abort, world: &mut World, step: Step) {
    assert!(rt; make_step(world, step), "{step:?}");
}

/// A buffer of a case has these bytes at a rank.
pub fn check_bytes(rt: &impl Abort, world: &World, place: (u64, u32, Rank), bytes: &[u8]) {
    let (name, buffer, r) = place;
    assert_eq!(rt;
        bytes_at(world, buffer, r),
        Some(bytes),
        "case {name}, buffer {buffer} at rank {r}"
    );
}

/// The memory of a rank has these bytes.
pub fn check_memory(rt: &impl Abort, world: &World, r: Rank, bytes: &[u8]) {
    same_at(rt, (0, r), memory_at(world, r), Some(bytes));
}

/// A rank made these local steps.
pub fn check_history(rt: &impl Abort, world: &World, r: Rank, steps: &[LocalStep]) {
    same_at(rt, (0, r), history_at(world, r), Some(steps));
}

/// A buffer at the ranks is these lists.
fn check_buffer(rt: &impl Abort, world: &World, place: (u64, u32), lists: &[&[u8]]) {
    let (name, buffer) = place;
    let mut r = 0u32;
    for list in lists.iter() {
        check_bytes(rt, world, (name, buffer, r), list);
        r = r.saturating_add(1);
    }
    same_at(rt, (name, r), r, ranks(world));
}

/// The buffers at the ranks are these lists.
pub fn check_lists(rt: &impl Abort, world: &World, lists: &[&[&[u8]]], name: u64) {
    same_in(rt, name, buffers(world), lists.len());
    let mut buffer = 0u32;
    for at_ranks in lists.iter() {
        check_buffer(rt, world, (name, buffer), at_ranks);
        buffer = buffer.saturating_add(1);
    }
}

/// The counting event of a rank stands at its threshold, nothing was dropped or refused there, and no header is left.
fn check_rank(rt: &impl Abort, world: &World, name: u64, r: Rank) {
    same_at(rt, (name, r), done_at(world, r), due_at(world, r));
    same_at(rt, (name, r), registers_at(world, r), Some((0, 0)));
    same_at(rt, (name, r), first_header_at(world, r), None);
}

/// No step is possible, each rank's counting event stands at its threshold, nothing was dropped or refused, and no header is left.
pub fn check_rest(rt: &impl Abort, world: &World, name: u64) {
    same_in(rt, name, enabled(world), 0);
    same_in(rt, name, at_rest(world), true);
    for r in 0..ranks(world) {
        check_rank(rt, world, name, r);
    }
}

/// Makes steps until none is possible; then all is as at rest.
pub fn run_and_check(rt: &impl Abort, world: &mut World, name: u64) {
    run(world);
    check_rest(rt, world, name);
}
