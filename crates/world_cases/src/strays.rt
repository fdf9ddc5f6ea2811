//! Strays: messages of another job, which are dropped.

ghost use Rattle.std.specs.Prelude.{◌≡◌, ◌<◌, ◌-◌};

use crate::answers::{gives, same_at, same_in};
use crate::scene::{
    at_rest, check_lists, done_at, enabled, must_job, registers_at, run, successes,
};
use ptl_types::{Bytes, Header, Lane, Message};
use std::alloc::Global;
use std::process::Abort;
use worlds::World;

/// The header of a put of one byte of job 2 from rank 0 to rank 1.
const STRAY: Header = Header {
    target: 1,
    match_bits: 0x0002_0000_0000_0000,
    length: 1,
    ..Header::PLAIN
};

/// Puts a stray of one byte at the end of the lane of requests from rank 0 to rank 1, which the job uses.
fn inject(rt: &impl Abort, alloc: Global, world: &mut World)
    requires { 0 < world.old.strays }
    ensures { world.new.strays ≡ world.old.strays - 1 }
{
    let schedule = world.schedule();
    if schedule.ranks() < 2 || schedule.lane(0, 1, Lane::Request) == 0 {
        panic!(rt; "the lane is used")
    }
    let Ok(bytes) = Bytes::of(alloc, &[1]) else {
        panic!(rt; "a byte")
    };
    world.inject(0, 1, Message::new(STRAY, bytes));
}

/// A world with room for two strays.
fn opened(rt: &impl Abort, alloc: Global, text: &[u8]) -> World
    ensures { result.strays ≡ 2 }
{
    let job = must_job(rt, alloc, text);
    let _ = job.schedule().plan();
    let Ok(world) = World::open_with_strays(alloc, &job, 2) else {
        panic!(rt; "a world")
    };
    world
}

/// Runs a world with two strays, one before any step and one at rest.
fn run_with_strays(rt: &impl Abort, alloc: Global, world: &mut World)
    requires { world.old.strays ≡ 2 }
{
    inject(rt, alloc, world);
    run(world);
    gives!(rt; at_rest(world), true);
    gives!(rt; registers_at(world, 1), Some((1, 0)));
    inject(rt, alloc, world);
    gives!(rt; enabled(world), 1);
    run(world);
}

/// Two ranks whose lane from rank 0 to rank 1 is used, the lists of the buffers, and where the counting events end.
const CASES: &[(&[u8], &[&[&[u8]]], u64)] = &[
    (b"coll 1\nranks 2\nbarrier\nend\n", &[], 3),
    (
        b"coll 1\nranks 2\ninput a u8 1\n7\n9\nbroadcast 0 a b\nend\n",
        &[&[&[7], &[9]], &[&[7], &[7]]],
        4,
    ),
    (
        b"coll 1\nranks 2\ninput a u8 1\n7\n9\nallreduce sum a b\nend\n",
        &[&[&[7], &[9]], &[&[16], &[16]]],
        5,
    ),
];

/// What is seen of such a world in the end.
fn check_end(rt: &impl Abort, world: &World, lists: &[&[&[u8]]], done: u64, name: u64) {
    same_in(rt, name, at_rest(world), true);
    check_lists(rt, world, lists, name);
    same_at(rt, (name, 0), done_at(world, 0), successes(done));
    same_at(rt, (name, 1), done_at(world, 1), successes(done));
    same_at(rt, (name, 0), registers_at(world, 0), Some((0, 0)));
    same_at(rt, (name, 1), registers_at(world, 1), Some((2, 0)));
}

/// One case.
fn check_case(rt: &impl Abort, alloc: Global, case: &(&[u8], &[&[&[u8]]], u64), name: u64) {
    let (text, lists, done) = *case;
    let mut world = opened(rt, alloc, text);
    run_with_strays(rt, alloc, &mut world);
    check_end(rt, &world, lists, done, name);
}

#[test]
fn strays_are_dropped(rt: HostRuntime) {
    for (i, case) in CASES.iter().enumerate() {
        check_case(&rt, rt.alloc(), case, i as u64);
    }
}
