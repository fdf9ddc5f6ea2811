//! Pending operations from the first post to the last firing.

ghost use Rattle.std.specs.Prelude.{◌<◌};

use crate::answers::gives;
use ptl_types::Handle;
use std::alloc::Global;
use std::process::Abort;
use std::test::Fail;
use triggered_ops::Pending;

const GO: Handle = Handle { slot: 0, stamp: 4 };

const AGAIN: Handle = Handle { slot: 0, stamp: 5 };

/// A call, and what it answers. A test is a list of these: made in its own function, each call would be part of its proof.
#[derive(Clone, Copy)]
enum Act {
    /// Posts an operation, where there is room: its deed, its counting event, its threshold and what is counted. Its number.
    Post(u8, Handle, u64, u64, Option<u32>),
    /// What a counting event stands at.
    Reached(Handle, u64),
    Take(u32, Option<u8>),
    Cancel(Handle, u32),
    Len(u32),
    Given(u32),
    IsFull(bool),
    Ready(Option<u32>),
    IsReady(u32, bool),
    ReadyCount(u32),
    /// The position among the ready ones. The number, where there are more than that.
    ReadyAt(u32, Option<u32>),
    FirstOn(Handle, Option<u32>),
    Get(u32, Option<(u8, Handle, u64)>),
    At(u32, Option<(u32, u8, Handle, u64)>),
    /// From this number on. The number of the next.
    Next(u32, Option<u32>),
}

use Act::*;

/// Posts an operation where there is room.
fn posted(
    pending: &mut Pending<u8>,
    deed: u8,
    ct: Handle,
    threshold: u64,
    sum: u64,
) -> Option<u32> {
    if pending.is_full() || pending.given() == u32::MAX {
        return None;
    }
    pending.post(deed, ct, threshold, sum).ok()
}

fn ready_at(pending: &Pending<u8>, i: u32) -> Option<u32> {
    if i < pending.ready_count() {
        Some(pending.ready_at(i))
    } else {
        None
    }
}

fn got(pending: &Pending<u8>, number: u32) -> Option<(u8, Handle, u64)> {
    let (deed, ct, threshold) = pending.get(number)?;
    Some((*deed, ct, threshold))
}

fn stands_at(pending: &Pending<u8>, i: u32) -> Option<(u32, u8, Handle, u64)> {
    let (number, deed, ct, threshold) = pending.at(i)?;
    Some((number, *deed, ct, threshold))
}

fn next(pending: &Pending<u8>, from: u32) -> Option<u32> {
    let (number, _, _, _) = pending.next(from)?;
    Some(number)
}

/// Makes a call that changes nothing, and compares its answer.
fn reads(rt: &impl Abort, pending: &Pending<u8>, act: &Act) {
    match act {
        Len(wanted) => gives!(rt; pending.len(), *wanted),
        Given(wanted) => gives!(rt; pending.given(), *wanted),
        IsFull(wanted) => gives!(rt; pending.is_full(), *wanted),
        Ready(wanted) => gives!(rt; pending.ready(), *wanted),
        IsReady(number, wanted) => gives!(rt; pending.is_ready(*number), *wanted),
        ReadyCount(wanted) => gives!(rt; pending.ready_count(), *wanted),
        ReadyAt(i, wanted) => gives!(rt; ready_at(pending, *i), *wanted),
        FirstOn(ct, wanted) => gives!(rt; pending.first_on(*ct), *wanted),
        Get(number, wanted) => gives!(rt; got(pending, *number), *wanted),
        At(i, wanted) => gives!(rt; stands_at(pending, *i), *wanted),
        Next(from, wanted) => gives!(rt; next(pending, *from), *wanted),
        _ => panic!(rt; "a call that no arm makes"),
    }
}

/// Makes a call, and compares its answer.
fn does(rt: &impl Abort, pending: &mut Pending<u8>, act: &Act) {
    match act {
        Post(deed, ct, threshold, sum, wanted) => {
            gives!(rt; posted(pending, *deed, *ct, *threshold, *sum), *wanted)
        }
        Reached(ct, sum) => pending.reached(*ct, *sum),
        Take(number, wanted) => gives!(rt; pending.take(*number), *wanted),
        Cancel(ct, wanted) => gives!(rt; pending.cancel(*ct), *wanted),
        act => reads(rt, pending, act),
    }
}

fn play(rt: &impl Abort, pending: &mut Pending<u8>, acts: &[Act]) {
    for act in acts {
        does(rt, pending, act);
    }
}

/// Makes the calls where so many may wait, on one counting event.
fn play_among<R: Abort + Alloc<A = Global>>(rt: &R, limit: u32, acts: &[Act]) -> Result<(), Fail>
    requires { limit < 100 }
{
    let mut pending = Pending::open(rt.alloc(), limit, 1)?;
    play(rt, &mut pending, acts);
    Ok(())
}

#[test]
fn none_pends_at_first(rt: HostRuntime) -> Result<(), Fail> {
    const ACTS: &[Act] = &[
        Len(0),
        Given(0),
        IsFull(false),
        Ready(None),
        Get(0, None),
        At(0, None),
        Next(0, None),
        Take(0, None),
        FirstOn(GO, None),
        Cancel(GO, 0),
    ];
    play_among(&rt, 2, ACTS)
}

#[test]
fn an_operation_is_ready_while_its_sum_is_at_its_threshold(rt: HostRuntime) -> Result<(), Fail> {
    const ACTS: &[Act] = &[
        Post(7, GO, 2, 0, Some(0)),
        Post(8, AGAIN, 2, 0, Some(1)),
        IsFull(true),
        FirstOn(AGAIN, Some(1)),
        Reached(GO, 3),
        Ready(Some(0)),
        IsReady(0, true),
        IsReady(1, false),
        Reached(GO, 1),
        Ready(None),
        Reached(GO, 2),
        Ready(Some(0)),
        IsReady(1, false),
        Take(0, Some(7)),
        Ready(None),
        Len(1),
        Post(9, GO, 0, 2, Some(2)),
        Ready(Some(2)),
        Given(3),
    ];
    play_among(&rt, 2, ACTS)
}

#[test]
fn a_walk_passes_those_that_were_cancelled(rt: HostRuntime) -> Result<(), Fail> {
    const ACTS: &[Act] = &[
        Post(7, GO, 1, 0, Some(0)),
        Post(8, AGAIN, 1, 0, Some(1)),
        Post(9, GO, 1, 0, Some(2)),
        Reached(AGAIN, 1),
        Reached(GO, 1),
        Cancel(AGAIN, 1),
        Next(0, Some(0)),
        Next(1, Some(2)),
        Next(3, None),
        At(1, Some((2, 9, GO, 1))),
        Get(2, Some((9, GO, 1))),
        IsReady(1, false),
        IsReady(2, true),
        Cancel(GO, 2),
        Len(0),
    ];
    play_among(&rt, 3, ACTS)
}

#[test]
fn the_ready_ones_are_told_in_order_of_their_numbers(rt: HostRuntime) -> Result<(), Fail> {
    const ACTS: &[Act] = &[
        Post(7, GO, 2, 0, Some(0)),
        Post(8, AGAIN, 1, 0, Some(1)),
        Post(9, GO, 1, 0, Some(2)),
        ReadyCount(0),
        Reached(GO, 2),
        ReadyCount(2),
        ReadyAt(0, Some(0)),
        ReadyAt(1, Some(2)),
    ];
    play_among(&rt, 3, ACTS)
}

/// One is ready, and others come and go.
fn come_and_go(rt: &impl Abort, pending: &mut Pending<u8>) {
    play(rt, pending, &[Post(7, GO, 1, 0, Some(0)), Reached(GO, 1)]);
    for number in 1..20 {
        does(rt, pending, &Post(8, AGAIN, 0, 0, Some(number)));
        does(rt, pending, &ReadyCount(2));
        does(rt, pending, &Ready(Some(0)));
        does(rt, pending, &Take(number, Some(8)));
    }
    does(rt, pending, &ReadyCount(1));
}

#[test]
fn one_stays_ready_while_many_come_and_go(rt: HostRuntime) -> Result<(), Fail> {
    let mut pending = Pending::open(rt.alloc(), 2, 1)?;
    come_and_go(&rt, &mut pending);
    Ok(())
}

#[test]
fn a_change_makes_ready_what_its_sum_reaches(rt: HostRuntime) -> Result<(), Fail> {
    const ACTS: &[Act] = &[
        Post(7, GO, 3, 2, Some(0)),
        Post(7, GO, 1, 2, Some(1)),
        Post(7, GO, 3, 2, Some(2)),
        Post(7, GO, 2, 2, Some(3)),
        Post(7, GO, 5, 2, Some(4)),
        Post(8, AGAIN, 4, 3, Some(5)),
        Reached(GO, 0),
        ReadyCount(0),
        Reached(GO, 1),
        ReadyCount(1),
        Reached(GO, 2),
        ReadyCount(2),
        Reached(GO, 3),
        ReadyCount(4),
        Reached(GO, 9),
        ReadyCount(5),
        Reached(GO, 2),
        ReadyCount(2),
        Reached(GO, u64::MAX),
        ReadyCount(5),
        Reached(GO, 0),
        ReadyCount(0),
        Reached(GO, 3),
        IsReady(0, true),
        IsReady(1, true),
        IsReady(2, true),
        IsReady(3, true),
        IsReady(4, false),
        IsReady(5, false),
    ];
    play_among(&rt, 6, ACTS)
}
