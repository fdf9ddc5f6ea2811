//! What no clause says: verdicts on the orders of small jobs, from outside.

use crate::answers::gives;
use order_check::{Cause, Verdict, check};
use order_lines::parse_check;
use schedule_compiler::{Job, compile, shape_job, shape_schedules};
use std::alloc::Global;
use std::process::Abort;

/// The verdict on an input that has one.
fn verdict(rt: &impl Abort, alloc: Global, text: &[u8]) -> Verdict {
    let Ok((description, orders)) = parse_check(alloc, text) else {
        panic!(rt; "an input")
    };
    let (shape, inputs) = description.into_parts();
    // What the check asks for: as many orders as the plan has ranks.
    shape.recall_form();
    shape_schedules();
    let Ok(schedule) = compile(alloc, &shape) else {
        panic!(rt; "a schedule")
    };
    let Ok(job) = shape_job(alloc, &shape, schedule, inputs) else {
        panic!(rt; "a job")
    };
    let Ok(verdict) = check(alloc, &job, &orders) else {
        panic!(rt; "a verdict")
    };
    verdict
}

/// Each input has the verdict beside it.
fn check_verdicts(rt: &impl Abort, alloc: Global, cases: &[(&[u8], Verdict)]) {
    for (text, wanted) in cases.iter() {
        gives!(rt; verdict(rt, alloc, text), *wanted);
    }
}

/// Orders of one barrier on two ranks.
const TWO_RANKS: &[(&[u8], Verdict)] = &[
    (
        b"coll 1\nranks 2\nbarrier\nend\norder 0 s f0 f1 f2 f3 f4 r1 f5\norder 1 s f0 f1 f2 f3 f4 r0 f5\n",
        Verdict::Holds,
    ),
    (
        b"coll 1\nranks 2\nbarrier\nend\norder 0 s f0 f1 f2 f3 f4 f5 r1\norder 1 s f0 f1 f2 f3 f4 r0 f5\n",
        Verdict::Fails {
            rank: 0,
            place: 7,
            cause: Cause::NotReady,
        },
    ),
    (
        b"coll 1\nranks 2\nbarrier\nend\norder 0 s f0 f1 f2 f3 f4 f5 r1\norder 1 s s\n",
        Verdict::Fails {
            rank: 0,
            place: 7,
            cause: Cause::NotReady,
        },
    ),
    (
        b"coll 1\nranks 2\nbarrier\nend\norder 0 s\norder 1 s s\n",
        Verdict::Fails {
            rank: 1,
            place: 2,
            cause: Cause::StartedTwice,
        },
    ),
    (
        b"coll 1\nranks 2\nbarrier\nend\norder 0 s f0 f1 f2 f3 f4 r1 f5\norder 1 s f0 f1 f2 f3 f4\n",
        Verdict::Fails {
            rank: 1,
            place: 7,
            cause: Cause::NotAtRest,
        },
    ),
    (
        b"coll 1\nranks 2\nbarrier\nend\norder 0\norder 1\n",
        Verdict::Fails {
            rank: 0,
            place: 1,
            cause: Cause::NotAtRest,
        },
    ),
    (
        b"coll 1\nranks 2\nbarrier\nend\norder 0 s f0 f1 f2 f3 f4 r1 f5\norder 1 r0 s f0 f1 f2 f3 f4 f5\n",
        Verdict::Holds,
    ),
];

/// Orders of one barrier on one rank.
const ONE_RANK: &[(&[u8], Verdict)] = &[
    (
        b"coll 1\nranks 1\nbarrier\nend\norder 0 s f0 f1\n",
        Verdict::Fails {
            rank: 0,
            place: 4,
            cause: Cause::NotAtRest,
        },
    ),
    (
        b"coll 1\nranks 1\nbarrier\nend\norder 0 s f1 f0 f2\n",
        Verdict::Holds,
    ),
    (
        b"coll 1\nranks 1\nbarrier\nend\norder 0 s s f0 f1 f2\n",
        Verdict::Fails {
            rank: 0,
            place: 2,
            cause: Cause::StartedTwice,
        },
    ),
    (
        b"coll 1\nranks 1\nbarrier\nend\norder 0 s r0\n",
        Verdict::Fails {
            rank: 0,
            place: 2,
            cause: Cause::NotSent,
        },
    ),
];

/// Orders of a barrier whose messages are acknowledged.
const ACKNOWLEDGED: &[(&[u8], Verdict)] = &[
    (
        b"coll 1\nranks 2\ncomplete remote\nbarrier\nend\norder 0 s f0 f1 f2 f3 f4 r1 f5\norder 1 s f0 f1 f2 f3 f4 r0 f5\n",
        Verdict::Fails {
            rank: 0,
            place: 9,
            cause: Cause::NotAtRest,
        },
    ),
    (
        b"coll 1\nranks 2\ncomplete remote\nbarrier\nend\norder 0 s f0 f1 f2 f3 f4 r1 f5 a1\norder 1 s f0 f1 f2 f3 f4 r0 f5 a0\n",
        Verdict::Holds,
    ),
    (
        b"coll 1\nranks 2\ncomplete remote\nbarrier\nend\norder 0 s f0 f1 a1 f2 f3 f4 r1 f5\norder 1 s f0 f1 f2 f3 f4 r0 f5 a0\n",
        Verdict::Fails {
            rank: 0,
            place: 4,
            cause: Cause::NotSent,
        },
    ),
];

#[test]
fn orders_of_one_barrier_on_two_ranks(rt: HostRuntime) {
    check_verdicts(&rt, rt.alloc(), TWO_RANKS);
}

#[test]
fn orders_of_one_barrier_on_one_rank(rt: HostRuntime) {
    check_verdicts(&rt, rt.alloc(), ONE_RANK);
}

#[test]
fn acknowledgements_wait_too(rt: HostRuntime) {
    check_verdicts(&rt, rt.alloc(), ACKNOWLEDGED);
}
