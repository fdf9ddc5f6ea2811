//! Triggered operations of each kind (Portals 4.3, triggered operations).

use crate::scene::plays;
use crate::steps::Answer::*;
use crate::steps::Call::*;
use crate::steps::Step::{self, *};
use crate::values::{DESCRIPTOR, EVENT, FIRST, GET, HEADER, PUT, SECOND};
use ptl_types::NiFault::InUse;
use ptl_types::{
    AckRequest, AtomicOp, Count, Descriptor, ElemType, Event, EventKind, GetArgs, Header,
    MessageKind, Outcome, PutArgs, SwapOp, TriggeredOp,
};

/// A put of the first two bytes, and its message's header.
const TWO: PutArgs = PutArgs { length: 2, ..PUT };

const TWO_BYTES: Header = Header {
    source: 0,
    length: 2,
    ..HEADER
};

/// A descriptor that tells and counts its starts.
const COUNTS: Descriptor = Descriptor {
    eq: Some(FIRST),
    ct: Some(SECOND),
    count_send: true,
    ..DESCRIPTOR
};

const START_TOLD: Event = Event {
    kind: EventKind::Send,
    requested: 2,
    ..EVENT
};

fn a_put_reads_its_bytes_when_it_fires() -> &'static [&'static [Step]] {
    const SCRIPT: &[Step] = &[
        Here(EqAlloc(1), Made(0)),
        Here(CtAlloc, Made(0)),
        Here(CtAlloc, Made(1)),
        Here(MdBind(COUNTS), Made(0)),
        Here(WriteMemory(0, &[1, 2]), Done),
        Here(Triggered(TriggeredOp::Put(TWO), FIRST, 1), Number(0)),
        Here(CtGet(SECOND), Counts(0, 0)),
        Here(WriteMemory(0, &[3, 4]), Done),
        Here(CtInc(FIRST, 0, 1), Done),
        Here(Fire(0), Sent),
        Here(Carries(TWO_BYTES, &[3, 4]), Yes),
        Here(CtGet(SECOND), Counts(1, 0)),
        HereTells(FIRST, &[START_TOLD]),
        Here(IsReady(0), No),
    ];
    const SCRIPTS: &[&[Step]] = &[SCRIPT];
    SCRIPTS
}

/// The other starts, of one byte from rank 0 to itself that comes back to byte 8, and the headers of their messages.
const BYTE: PutArgs = PutArgs { length: 1, ..PUT };

const BACK: GetArgs = GetArgs {
    local_offset: 8,
    length: 1,
    ..GET
};

const SUM: TriggeredOp = TriggeredOp::Atomic(BYTE, AtomicOp::Sum, ElemType::U8);

const FETCH: TriggeredOp = TriggeredOp::FetchAtomic(BACK, BYTE, AtomicOp::Sum, ElemType::U8);

const SWAP: TriggeredOp = TriggeredOp::Swap(BACK, BYTE, SwapOp::Swap, ElemType::U8, 0);

const SUM_HEADER: Header = Header {
    kind: MessageKind::Atomic,
    source: 0,
    length: 1,
    op: Some(AtomicOp::Sum),
    ..HEADER
};

const GET_HEADER: Header = Header {
    kind: MessageKind::Get,
    source: 0,
    length: 1,
    home: Some(FIRST),
    home_offset: 8,
    ..HEADER
};

const FETCH_HEADER: Header = Header {
    kind: MessageKind::FetchAtomic,
    op: Some(AtomicOp::Sum),
    ..GET_HEADER
};

const SWAP_HEADER: Header = Header {
    kind: MessageKind::Swap,
    swap: Some(SwapOp::Swap),
    ..GET_HEADER
};

fn the_other_starts_fire_too() -> &'static [&'static [Step]] {
    const SCRIPT: &[Step] = &[
        Here(CtAlloc, Made(0)),
        Here(MdBind(DESCRIPTOR), Made(0)),
        Here(WriteMemory(0, &[6]), Done),
        Here(Triggered(TriggeredOp::Get(BACK), FIRST, 0), Number(0)),
        Here(Fire(0), Sent),
        Here(Carries(GET_HEADER, &[]), Yes),
        Here(Triggered(SUM, FIRST, 0), Number(1)),
        Here(Fire(1), Sent),
        Here(Carries(SUM_HEADER, &[6]), Yes),
        Here(Triggered(FETCH, FIRST, 0), Number(2)),
        Here(Fire(2), Sent),
        Here(Carries(FETCH_HEADER, &[6]), Yes),
        Here(Triggered(SWAP, FIRST, 0), Number(3)),
        Here(Fire(3), Sent),
        Here(Carries(SWAP_HEADER, &[6]), Yes),
        Here(Pending, Number(0)),
    ];
    const SCRIPTS: &[&[Step]] = &[SCRIPT];
    SCRIPTS
}

fn a_set_replaces_and_an_increment_stops_at_the_end() -> &'static [&'static [Step]] {
    const LAST_BUT_ONE: Count = Count {
        success: u64::MAX - 1,
        failure: 0,
    };
    const THREE_AND_THREE: Count = Count {
        success: 3,
        failure: 3,
    };
    const SET: TriggeredOp = TriggeredOp::Set(SECOND, LAST_BUT_ONE);
    const RAISE: TriggeredOp = TriggeredOp::Inc(SECOND, THREE_AND_THREE);
    const SCRIPT: &[Step] = &[
        Here(CtAlloc, Made(0)),
        Here(CtAlloc, Made(1)),
        Here(Triggered(SET, FIRST, 0), Number(0)),
        Here(Triggered(RAISE, SECOND, u64::MAX - 1), Number(1)),
        Here(Ready, Number(0)),
        Here(Fire(0), Nothing),
        Here(CtGet(SECOND), Counts(u64::MAX - 1, 0)),
        Here(Ready, Number(1)),
        Here(Fire(1), Nothing),
        Here(CtGet(SECOND), Counts(u64::MAX, 0)),
    ];
    const SCRIPTS: &[&[Step]] = &[SCRIPT];
    SCRIPTS
}

fn a_triggered_put_awaits_its_acknowledgement_from_its_firing() -> &'static [&'static [Step]] {
    const ASKS: PutArgs = PutArgs {
        ack: AckRequest::CtAck,
        target: 1,
        ..PUT
    };
    const SCRIPT: &[Step] = &[
        Here(CtAlloc, Made(0)),
        Here(MdBind(DESCRIPTOR), Made(0)),
        Here(Triggered(TriggeredOp::Put(ASKS), FIRST, 0), Number(0)),
        Here(Awaits(FIRST), Number(0)),
        Here(MdRelease(FIRST), Refused(InUse)),
        Here(Fire(0), Sent),
        Here(Awaits(FIRST), Number(1)),
        Here(MdRelease(FIRST), Refused(InUse)),
        There(Deliver, Replies(Outcome::Dropped)),
        Here(Deliver, Became(Outcome::Answered)),
        Here(Awaits(FIRST), Number(0)),
        Here(MdRelease(FIRST), Done),
    ];
    const SCRIPTS: &[&[Step]] = &[SCRIPT];
    SCRIPTS
}

#[test]
fn each_script(rt: HostRuntime) {
    plays!(&rt;
        a_put_reads_its_bytes_when_it_fires,
        the_other_starts_fire_too,
        a_set_replaces_and_an_increment_stops_at_the_end,
        a_triggered_put_awaits_its_acknowledgement_from_its_firing
    );
}
