//! A triggered operation becomes ready by whatever raises its counting event: an arrival, a start, an answer, or an append
//! that takes a header (Portals 4.3, triggered operations). By the firing of another: `firing`.

use crate::scene::plays;
use crate::steps::Answer::*;
use crate::steps::Call::*;
use crate::steps::Step::{self, *};
use crate::values::{DESCRIPTOR, ENTRY, FIRST, HEADER, ONCE, ONE, PUT};
use ptl_types::{
    AckRequest, Descriptor, Entry, Header, List, Outcome, PutArgs, TriggeredOp, UnexpectedHeader,
};

/// Rank 0 has a triggered operation that waits for the first count of a counting event, on which it counts itself.
const WAITING: &[Step] = &[
    Here(CtAlloc, Made(0)),
    Here(Triggered(TriggeredOp::Inc(FIRST, ONE), FIRST, 1), Number(0)),
    Here(Ready, Nothing),
];

/// The operation is ready, and fires.
const WOKEN: &[Step] = &[
    Here(Ready, Number(0)),
    Here(Fire(0), Nothing),
    Here(CtGet(FIRST), Counts(2, 0)),
];

fn by_an_arrival() -> &'static [&'static [Step]] {
    const COUNTS: Entry = Entry {
        ct: Some(FIRST),
        count_comm: true,
        ..ENTRY
    };
    const SCRIPT: &[Step] = &[
        Here(MeAppend(0, List::Priority, COUNTS), Linked(0)),
        Here(Ready, Nothing),
        Comes(PUT, &[1], Outcome::Matched),
    ];
    const SCRIPTS: &[&[Step]] = &[WAITING, SCRIPT, WOKEN];
    SCRIPTS
}

fn by_an_append_that_takes_a_header() -> &'static [&'static [Step]] {
    const COUNTS: Entry = Entry {
        ct: Some(FIRST),
        count_overflow: true,
        ..ONCE
    };
    const HEADER_TAKEN: UnexpectedHeader = UnexpectedHeader {
        entry: FIRST,
        place: 0,
        delivered: 1,
        header: Header {
            length: 1,
            ..HEADER
        },
    };
    const SCRIPT: &[Step] = &[
        Here(MeAppend(0, List::Overflow, ENTRY), Linked(0)),
        Comes(PUT, &[1], Outcome::Overflow),
        Here(Ready, Nothing),
        Here(MeAppend(0, List::Priority, COUNTS), Consumed(HEADER_TAKEN)),
    ];
    const SCRIPTS: &[&[Step]] = &[WAITING, SCRIPT, WOKEN];
    SCRIPTS
}

fn by_a_start() -> &'static [&'static [Step]] {
    const COUNTS: Descriptor = Descriptor {
        ct: Some(FIRST),
        count_send: true,
        ..DESCRIPTOR
    };
    const SCRIPT: &[Step] = &[
        Here(MdBind(COUNTS), Made(0)),
        Here(Ready, Nothing),
        Here(Start(TriggeredOp::Put(PUT)), Sent),
    ];
    const SCRIPTS: &[&[Step]] = &[WAITING, SCRIPT, WOKEN];
    SCRIPTS
}

fn by_an_answer() -> &'static [&'static [Step]] {
    const COUNTS: Descriptor = Descriptor {
        ct: Some(FIRST),
        count_ack: true,
        ..DESCRIPTOR
    };
    const ASKS: PutArgs = PutArgs {
        ack: AckRequest::CtAck,
        target: 1,
        ..PUT
    };
    const SCRIPT: &[Step] = &[
        Here(MdBind(COUNTS), Made(0)),
        Here(Start(TriggeredOp::Put(ASKS)), Sent),
        There(Deliver, Replies(Outcome::Dropped)),
        Here(Ready, Nothing),
        Here(Deliver, Became(Outcome::Answered)),
        Here(CtGet(FIRST), Counts(0, 1)),
        Here(Ready, Number(0)),
    ];
    const SCRIPTS: &[&[Step]] = &[WAITING, SCRIPT];
    SCRIPTS
}

#[test]
fn each_script(rt: HostRuntime) {
    plays!(&rt;
        by_an_arrival,
        by_an_append_that_takes_a_header,
        by_a_start,
        by_an_answer
    );
}
