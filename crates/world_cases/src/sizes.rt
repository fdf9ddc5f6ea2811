//! Larger worlds: sixteen ranks under a window of one, and 256 ranks; and a plan with nearly as many links as a plan may have.

use crate::answers::{gives, same_at};
use crate::scene::{
    check_bytes, done_at, job_of, links, ranks, run_and_check, successes, windowed, world_of,
};
use crate::texts::put_number;
use std::alloc::{AllocError, Global};
use std::process::Abort;
use std::test::Fail;
use worlds::World;

/// A rank's value at a place: 100 r, and the place.
fn value(r: u32, i: u32) -> u32 {
    r.saturating_mul(100).saturating_add(i)
}

/// Adds the line of a rank's 8 values.
fn put_rank(alloc: Global, text: &mut Vec<u8>, r: u32) -> Result<(), AllocError> {
    put_number(alloc, text, "", value(r, 0), "")?;
    for i in 1..8u32 {
        put_number(alloc, text, " ", value(r, i), "")?;
    }
    text.extend_from_slice(b"\n")
}

/// Adds sixteen ranks that wait for acknowledgements, each with 8 values.
fn put_sixteen(alloc: Global, text: &mut Vec<u8>) -> Result<(), AllocError> {
    text.extend_from_slice(b"coll 1\nranks 16\ncomplete remote\ninput load u64 8\n")?;
    for r in 0..16u32 {
        put_rank(alloc, text, r)?;
    }
    text.extend_from_slice(
        b"allreduce max load peak\nallgather load all\nbarrier\nprint peak\nprint all\nend\n",
    )
}

/// The bytes of the lists of the ranks from one on.
fn loads(alloc: Global, from: u32, to: u32) -> Result<Vec<u8>, AllocError> {
    let mut bytes = Vec::new(alloc);
    for r in from..to {
        for i in 0..8u32 {
            bytes.extend_from_slice(&u64::from(value(r, i)).to_le_bytes())?;
        }
    }
    Ok(bytes)
}

/// The two results of each of sixteen ranks.
fn check_loads(rt: &impl Abort, world: &World, peak: &[u8], all: &[u8]) {
    for r in 0..16u32 {
        check_bytes(rt, world, (0, 1, r), peak);
        check_bytes(rt, world, (0, 2, r), all);
    }
}

/// The world of this text, under a window of one.
fn check_sixteen(rt: &impl Abort, alloc: Global, text: &[u8], peak: &[u8], all: &[u8]) {
    let mut world = windowed(rt, alloc, text, 1);
    run_and_check(rt, &mut world, 0);
    check_loads(rt, &world, peak, all);
}

#[test]
fn sixteen_ranks_under_a_window_of_one(rt: HostRuntime) -> Result<(), Fail> {
    let mut text = Vec::new(rt.alloc());
    put_sixteen(rt.alloc(), &mut text)?;
    let peak = loads(rt.alloc(), 15, 16)?;
    let all = loads(rt.alloc(), 0, 16)?;
    check_sixteen(&rt, rt.alloc(), &text, &peak, &all);
    Ok(())
}

#[test]
fn a_barrier_on_256_ranks(rt: HostRuntime) {
    let mut world = world_of(&rt, rt.alloc(), b"coll 2\nranks 256\nbarrier\nend\n");
    gives!(&rt; ranks(&world), 256);
    run_and_check(&rt, &mut world, 0);
    // At each rank one cell of its start, one of the barrier's entry, and one of each of its 8 rounds.
    for r in 0..256u32 {
        same_at(&rt, (0, r), done_at(&world, r), successes(10));
    }
}

/// Adds so many allgathers of one byte on 64 ranks.
fn put_allgathers(alloc: Global, text: &mut Vec<u8>, count: u32) -> Result<(), AllocError> {
    text.extend_from_slice(b"coll 1\nranks 64\ninput a u8 1\n")?;
    for _ in 0..64u32 {
        text.extend_from_slice(b"7\n")?;
    }
    for k in 0..count {
        put_number(alloc, text, "allgather a b", k, "\n")?;
    }
    text.extend_from_slice(b"end\n")
}

/// How many links the plan of a text has. `None`: it is refused.
fn links_of(alloc: Global, text: &[u8]) -> Option<usize> {
    let job = job_of(alloc, text)?;
    Some(links(&job))
}

/// How many links so many allgathers have.
fn allgathers(alloc: Global, count: u32) -> Result<Option<usize>, AllocError> {
    let mut text = Vec::new(alloc);
    put_allgathers(alloc, &mut text, count)?;
    Ok(links_of(alloc, &text))
}

#[test]
fn sixty_allgathers_on_64_ranks_are_compiled(rt: HostRuntime) -> Result<(), Fail> {
    // 64 of the input, and 8,320 of each step.
    gives!(&rt; allgathers(rt.alloc(), 60)?, Some(499_264));
    gives!(&rt; allgathers(rt.alloc(), 61)?, None);
    Ok(())
}
