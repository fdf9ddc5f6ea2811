//! Acknowledgements at the initiator (Portals 4.3, acknowledgements).

use crate::scene::plays;
use crate::steps::Answer::*;
use crate::steps::Call::*;
use crate::steps::Step::{self, *};
use crate::values::{DESCRIPTOR, ENTRY, EVENT, FIRST, HEADER, NOTHING, PUT};
use ptl_types::NiFault::InUse;
use ptl_types::{
    AckRequest, Descriptor, Event, EventKind, Header, List, MessageKind, Outcome, PutArgs,
    TriggeredOp,
};

/// Rank 0 has a descriptor with a queue that counts acknowledgements, and rank 1 an entry at index 0.
const PAIR: &[Step] = &[
    There(PtAlloc(0, None), Done),
    There(MeAppend(0, List::Priority, ENTRY), Linked(0)),
    Here(EqAlloc(4), Made(0)),
    Here(CtAlloc, Made(0)),
    Here(MdBind(COUNTS), Made(0)),
];

const COUNTS: Descriptor = Descriptor {
    eq: Some(FIRST),
    ct: Some(FIRST),
    count_ack: true,
    ..DESCRIPTOR
};

/// A put of two bytes to rank 1 that asks for an acknowledgement.
const ASKS: PutArgs = PutArgs {
    length: 2,
    ack: AckRequest::Ack,
    target: 1,
    ..PUT
};

/// The event of its start.
const START_TOLD: Event = Event {
    kind: EventKind::Send,
    requested: 2,
    ..EVENT
};

/// The event of its acknowledgement.
const ACK_TOLD: Event = Event {
    kind: EventKind::Ack,
    source: 1,
    delivered: 2,
    ..EVENT
};

fn an_acknowledgement_is_counted_and_told() -> &'static [&'static [Step]] {
    const ACK: Header = Header {
        kind: MessageKind::Ack,
        length: 2,
        ack: AckRequest::Ack,
        home: Some(FIRST),
        ..HEADER
    };
    const SCRIPT: &[Step] = &[
        Here(Start(TriggeredOp::Put(ASKS)), Sent),
        Here(MdRelease(FIRST), Refused(InUse)),
        There(Deliver, Replies(Outcome::Matched)),
        Here(Carries(ACK, &[]), Yes),
        Here(Deliver, Became(Outcome::Answered)),
        Here(CtGet(FIRST), Counts(1, 0)),
        HereTells(FIRST, &[START_TOLD, ACK_TOLD]),
        Here(MdRelease(FIRST), Done),
    ];
    const SCRIPTS: &[&[Step]] = &[PAIR, SCRIPT];
    SCRIPTS
}

fn an_acknowledgement_of_what_was_dropped_counts_a_failure() -> &'static [&'static [Step]] {
    const FAILED: Event = Event {
        delivered: 0,
        ok: false,
        ..ACK_TOLD
    };
    const SCRIPT: &[Step] = &[
        Here(Start(TriggeredOp::Put(ASKS)), Sent),
        There(Deliver, Replies(Outcome::Matched)),
        Here(Deliver, Became(Outcome::Answered)),
        HereTells(FIRST, &[START_TOLD, ACK_TOLD]),
        There(MeUnlink(FIRST), Done),
        Here(Start(TriggeredOp::Put(ASKS)), Sent),
        There(Deliver, Replies(Outcome::Dropped)),
        Here(Deliver, Became(Outcome::Answered)),
        Here(CtGet(FIRST), Counts(1, 1)),
        HereTells(FIRST, &[START_TOLD, FAILED]),
    ];
    const SCRIPTS: &[&[Step]] = &[PAIR, SCRIPT];
    SCRIPTS
}

fn a_counted_acknowledgement_raises_no_event() -> &'static [&'static [Step]] {
    const COUNTED: PutArgs = PutArgs {
        ack: AckRequest::CtAck,
        ..ASKS
    };
    const SCRIPT: &[Step] = &[
        Here(Start(TriggeredOp::Put(COUNTED)), Sent),
        There(Deliver, Replies(Outcome::Matched)),
        Here(Deliver, Became(Outcome::Answered)),
        Here(CtGet(FIRST), Counts(1, 0)),
        HereTells(FIRST, &[START_TOLD]),
    ];
    const SCRIPTS: &[&[Step]] = &[PAIR, SCRIPT];
    SCRIPTS
}

fn an_answer_that_nobody_awaits_is_dropped() -> &'static [&'static [Step]] {
    const SCRIPT: &[Step] = &[
        Here(ForgeAck(FIRST), Sent),
        Here(Deliver, Became(Outcome::Dropped)),
        Here(ForgeAck(NOTHING), Sent),
        Here(Deliver, Became(Outcome::Dropped)),
        Here(Drops, Number(2)),
        Here(CtGet(FIRST), Counts(0, 0)),
        HereTells(FIRST, &[]),
    ];
    const SCRIPTS: &[&[Step]] = &[PAIR, SCRIPT];
    SCRIPTS
}

#[test]
fn each_script(rt: HostRuntime) {
    plays!(&rt;
        an_acknowledgement_is_counted_and_told,
        an_acknowledgement_of_what_was_dropped_counts_a_failure,
        a_counted_acknowledgement_raises_no_event,
        an_answer_that_nobody_awaits_is_dropped
    );
}
