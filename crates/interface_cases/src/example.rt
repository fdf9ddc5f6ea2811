//! A worked example: a put with its acknowledgement, between two interfaces.

use crate::scene::play_between;
use crate::steps::Answer::*;
use crate::steps::Call::*;
use crate::steps::Step::{self, *};
use crate::values::FIRST;
use ptl_types::{
    AckRequest, Descriptor, Entry, HiddenDescriptorEvents, HiddenEntryEvents, List, Outcome,
    PutArgs, TriggeredOp,
};

/// An entry over the whole region, for match bits 5 from any rank.
const ENTRY: Entry = Entry {
    start: 0,
    length: 4,
    ct: None,
    match_id: None,
    match_bits: 5,
    ignore_bits: 0,
    min_free: 0,
    allow_put: true,
    allow_get: false,
    use_once: false,
    manage_local: false,
    no_truncate: false,
    count_comm: false,
    count_overflow: false,
    hidden: HiddenEntryEvents::NONE,
};

/// A descriptor over the whole region, which counts acknowledgements.
const ACKNOWLEDGED: Descriptor = Descriptor {
    start: 0,
    length: 4,
    eq: None,
    ct: Some(FIRST),
    count_send: false,
    count_reply: false,
    count_ack: true,
    hidden: HiddenDescriptorEvents::NONE,
};

/// The last two bytes, to the start of the entry.
const PUT: PutArgs = PutArgs {
    md: FIRST,
    local_offset: 2,
    length: 2,
    ack: AckRequest::CtAck,
    target: 1,
    pt: 0,
    match_bits: 5,
    remote_offset: 0,
    hdr_data: 0,
};

#[test]
fn a_put_with_its_acknowledgement(rt: HostRuntime) {
    const SCRIPT: &[Step] = &[
        // Rank 1 is the target, and waits at portal table index 0.
        There(PtAlloc(0, None), Done),
        There(MeAppend(0, List::Priority, ENTRY), Linked(0)),
        // Rank 0 is the initiator. Its descriptor awaits one answer from the start on.
        Here(CtAlloc, Made(0)),
        Here(MdBind(ACKNOWLEDGED), Made(0)),
        Here(Start(TriggeredOp::Put(PUT)), Sent),
        Here(Awaits(FIRST), Number(1)),
        // The message arrives, and its answer comes home.
        There(Deliver, Replies(Outcome::Matched)),
        ThereHolds(&[3, 4, 0, 0]),
        Here(Deliver, Became(Outcome::Answered)),
        Here(CtGet(FIRST), Counts(1, 0)),
        Here(Awaits(FIRST), Number(0)),
    ];
    play_between(&rt, &[1, 2, 3, 4], &[0; 4], SCRIPT);
}
