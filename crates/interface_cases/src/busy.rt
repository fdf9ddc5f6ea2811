//! An interface in which everything is in use: where calls are refused, and what shows afterwards that nothing changed.

use crate::steps::Answer::*;
use crate::steps::Call::*;
use crate::steps::Step::{self, *};
use crate::values::{DESCRIPTOR, ENTRY, EVENT, FIRST, HEADER, LINKED, ONE, PUT, SECOND, THIRD};
use ptl_types::{
    AckRequest, Descriptor, Entry, Event, EventKind, Header, List, Outcome, PutArgs, TriggeredOp,
    UnexpectedHeader,
};

/// The first descriptor has the queue and the first counting event, and awaits an acknowledgement; a triggered put names the
/// second, which covers the second half of the region. Both triggered operations wait on the first counting event. The second
/// has the entry of index 1, whose queue is the one queue, and an increment counts on it. The overflow entry of index 0 has
/// a header.
pub const BUSY: &[Step] = &[
    Here(EqAlloc(4), Made(0)),
    Here(PtAlloc(1, Some(FIRST)), Done),
    Here(CtAlloc, Made(0)),
    Here(CtAlloc, Made(1)),
    Here(MdBind(FIRST_HALF), Made(0)),
    Here(MdBind(SECOND_HALF), Made(1)),
    Here(MeAppend(0, List::Overflow, ENTRY), Linked(0)),
    Here(MeAppend(1, List::Priority, COUNTS), Linked(1)),
    Comes(PUT, &[9], Outcome::Overflow),
    Here(Start(TriggeredOp::Put(ASKS)), Sent),
    Here(
        Triggered(TriggeredOp::Inc(SECOND, ONE), FIRST, 5),
        Number(0),
    ),
    Here(Triggered(TriggeredOp::Put(NAMES), FIRST, 0), Number(1)),
];

const FIRST_HALF: Descriptor = Descriptor {
    length: 8,
    eq: Some(FIRST),
    ct: Some(FIRST),
    ..DESCRIPTOR
};

/// The second descriptor.
pub const SECOND_HALF: Descriptor = Descriptor {
    start: 8,
    length: 8,
    ..DESCRIPTOR
};

const COUNTS: Entry = Entry {
    ct: Some(SECOND),
    count_comm: true,
    ..ENTRY
};

const ASKS: PutArgs = PutArgs {
    ack: AckRequest::CtAck,
    target: 1,
    ..PUT
};

const NAMES: PutArgs = PutArgs {
    md: SECOND,
    length: 1,
    hdr_data: 3,
    ..PUT
};

/// The header of its message.
const NAMED: Header = Header {
    source: 0,
    length: 1,
    hdr_data: 3,
    ..HEADER
};

/// The header that the overflow entry of index 0 has.
pub const HELD: UnexpectedHeader = UnexpectedHeader {
    entry: FIRST,
    place: 0,
    delivered: 1,
    header: Header {
        length: 1,
        ..HEADER
    },
};

/// The event of the start.
pub const START_TOLD: Event = Event {
    kind: EventKind::Send,
    ..EVENT
};

/// The event of a put of one byte to index 1.
const PUT_TOLD: Event = Event {
    kind: EventKind::Put,
    source: 1,
    requested: 1,
    delivered: 1,
    ..LINKED
};

/// Nothing was told but what was made and started, and the first descriptor still has its queue; index 0 has one header; both
/// entries are linked, each at its index and with what it counts, and no other is.
pub const LISTS_STAND: &[Step] = &[
    HereTells(FIRST, &[LINKED, START_TOLD]),
    Here(Start(TriggeredOp::Put(PUT)), Sent),
    HereTells(FIRST, &[START_TOLD]),
    Here(MeSearch(0, ENTRY, true), Found(HELD)),
    Here(MeSearch(0, ENTRY, true), Nothing),
    Comes(PUT, &[8], Outcome::Overflow),
    Here(MeSearch(0, ENTRY, true), Found(HELD)),
    Comes(PutArgs { pt: 1, ..PUT }, &[7], Outcome::Matched),
    HereTells(FIRST, &[PUT_TOLD]),
    Here(CtGet(SECOND), Counts(1, 0)),
    HereHolds(&[7, 0, 0, 0, 0, 0, 0, 0, 0, 0, 0, 0, 0, 0, 0, 0]),
    Here(MeUnlink(FIRST), Done),
    Here(MeUnlink(SECOND), Done),
    Here(PtFree(0), Done),
    Here(PtFree(1), Done),
];

/// After that: the two operations that were posted wait on the first counting event, and no other does. The put is of the second
/// descriptor; the increment counts on the second counting event, which the list's put counted on once.
pub const DEEDS_STAND: &[Step] = &[
    Here(Fire(1), Sent),
    Here(Carries(NAMED, &[0]), Yes),
    Here(CtSet(FIRST, 4, 0), Done),
    Here(Ready, Nothing),
    Here(CtSet(FIRST, 5, 0), Done),
    Here(Fire(0), Nothing),
    Here(CtGet(SECOND), Counts(2, 0)),
    Here(CtCancel(FIRST), Number(0)),
    Here(CtFree(SECOND), Done),
    Here(MdRelease(SECOND), Done),
];
