//! Replies at the initiator (Portals 4.3, get and fetch-atomic).

use crate::scene::plays;
use crate::steps::Answer::*;
use crate::steps::Call::*;
use crate::steps::Step::{self, *};
use crate::values::{DESCRIPTOR, ENTRY, EVENT, FIRST, GET, PUT, SECOND};
use ptl_types::{
    AtomicOp, Descriptor, ElemType, Event, EventKind, GetArgs, List, Outcome, PutArgs, TriggeredOp,
};

/// Rank 1 has an entry at index 0 over its first bytes, which are 7 and 8.
const TARGET: &[Step] = &[
    There(PtAlloc(0, None), Done),
    There(WriteMemory(0, &[7, 8]), Done),
    There(MeAppend(0, List::Priority, ENTRY), Linked(0)),
];

/// A descriptor that counts starts and replies on the first counting event.
const COUNTS: Descriptor = Descriptor {
    ct: Some(FIRST),
    count_send: true,
    count_reply: true,
    ..DESCRIPTOR
};

const EIGHT: Descriptor = Descriptor {
    start: 4,
    length: 8,
    eq: Some(FIRST),
    ..COUNTS
};

/// A get of two bytes to offset 2 of that descriptor.
const ASKS: GetArgs = GetArgs {
    local_offset: 2,
    length: 2,
    target: 1,
    ..GET
};

const START_TOLD: Event = Event {
    kind: EventKind::Send,
    requested: 2,
    ..EVENT
};

const REPLY_TOLD: Event = Event {
    kind: EventKind::Reply,
    source: 1,
    delivered: 2,
    place: 6,
    ..EVENT
};

const FAILED: Event = Event {
    delivered: 0,
    place: 0,
    ok: false,
    ..REPLY_TOLD
};

fn a_reply_is_written_counted_and_told() -> &'static [&'static [Step]] {
    const SCRIPT: &[Step] = &[
        Here(EqAlloc(4), Made(0)),
        Here(CtAlloc, Made(0)),
        Here(MdBind(EIGHT), Made(0)),
        Here(Start(TriggeredOp::Get(ASKS)), Sent),
        Here(Awaits(FIRST), Number(1)),
        There(Deliver, Replies(Outcome::Matched)),
        Here(Deliver, Became(Outcome::Answered)),
        Here(Awaits(FIRST), Number(0)),
        HereHolds(&[0, 0, 0, 0, 0, 0, 7, 8, 0, 0, 0, 0, 0, 0, 0, 0]),
        Here(CtGet(FIRST), Counts(2, 0)),
        HereTells(FIRST, &[START_TOLD, REPLY_TOLD]),
        // The same where the target has no entry any more.
        There(MeUnlink(FIRST), Done),
        Here(Start(TriggeredOp::Get(ASKS)), Sent),
        Here(Awaits(FIRST), Number(1)),
        There(Deliver, Replies(Outcome::Dropped)),
        Here(Deliver, Became(Outcome::Answered)),
        Here(Awaits(FIRST), Number(0)),
        HereHolds(&[0, 0, 0, 0, 0, 0, 7, 8, 0, 0, 0, 0, 0, 0, 0, 0]),
        Here(CtGet(FIRST), Counts(3, 1)),
        HereTells(FIRST, &[START_TOLD, FAILED]),
    ];
    const SCRIPTS: &[&[Step]] = &[TARGET, SCRIPT];
    SCRIPTS
}

fn a_fetching_start_counts_on_its_put_arguments_alone() -> &'static [&'static [Step]] {
    const BYTE: PutArgs = PutArgs {
        length: 1,
        target: 1,
        ..PUT
    };
    const BACK: GetArgs = GetArgs {
        md: SECOND,
        length: 1,
        target: 1,
        ..GET
    };
    const FETCH: TriggeredOp = TriggeredOp::FetchAtomic(BACK, BYTE, AtomicOp::Sum, ElemType::U8);
    const COUNTS_SECOND: Descriptor = Descriptor {
        ct: Some(SECOND),
        ..COUNTS
    };
    const SCRIPT: &[Step] = &[
        Here(CtAlloc, Made(0)),
        Here(CtAlloc, Made(1)),
        Here(MdBind(COUNTS), Made(0)),
        Here(MdBind(COUNTS_SECOND), Made(1)),
        Here(Start(FETCH), Sent),
        Here(CtGet(FIRST), Counts(1, 0)),
        Here(CtGet(SECOND), Counts(0, 0)),
        Here(Awaits(FIRST), Number(0)),
        Here(Awaits(SECOND), Number(1)),
        There(Deliver, Replies(Outcome::Matched)),
        Here(Deliver, Became(Outcome::Answered)),
        Here(CtGet(FIRST), Counts(1, 0)),
        Here(CtGet(SECOND), Counts(1, 0)),
        Here(Awaits(FIRST), Number(0)),
        Here(Awaits(SECOND), Number(0)),
    ];
    const SCRIPTS: &[&[Step]] = &[TARGET, SCRIPT];
    SCRIPTS
}

#[test]
fn each_script(rt: HostRuntime) {
    plays!(&rt;
        a_reply_is_written_counted_and_told,
        a_fetching_start_counts_on_its_put_arguments_alone
    );
}
