//! Every refusal of the calls on indices, counting events, event queues and descriptors: each leaves what the interface
//! tells as it was.

use crate::busy::{BUSY, DEEDS_STAND, LISTS_STAND};
use crate::deeds::{FETCH_BYTE, GET_BYTE, SUM_BYTE, SWAP_BYTE};
use crate::scene::plays;
use crate::steps::Answer::*;
use crate::steps::Call::*;
use crate::steps::Step::{self, *};
use crate::values::{DESCRIPTOR, ENTRY, FIRST, NOTHING, ONE, SECOND, THIRD};
use ptl_types::NiFault::{CountFull, InUse, NoSpace, OutOfRegion, Stale};
use ptl_types::{Count, Descriptor, Entry, List, TriggeredOp};

fn a_refused_call_on_an_index_changes_nothing() -> &'static [&'static [Step]] {
    const SCRIPT: &[Step] = &[
        Here(PtAlloc(2, Some(NOTHING)), Refused(Stale)),
        Here(PtAlloc(2, None), Refused(NoSpace)),
        Here(PtAlloc(1, None), Refused(InUse)),
        Here(PtFree(2), Refused(Stale)),
        Here(PtFree(0), Refused(InUse)),
        Here(PtFree(1), Refused(InUse)),
    ];
    const SCRIPTS: &[&[Step]] = &[BUSY, SCRIPT, LISTS_STAND, DEEDS_STAND];
    SCRIPTS
}

fn a_refused_call_on_a_counter_changes_nothing() -> &'static [&'static [Step]] {
    const SCRIPT: &[Step] = &[
        Here(CtAlloc, Refused(NoSpace)),
        Here(CtFree(NOTHING), Refused(Stale)),
        Here(CtFree(FIRST), Refused(InUse)),
        Here(CtFree(SECOND), Refused(InUse)),
        Here(CtGet(NOTHING), Refused(Stale)),
        Here(CtSet(NOTHING, u64::MAX, 1), Refused(Stale)),
        Here(CtSet(FIRST, u64::MAX, 1), Refused(CountFull)),
        Here(CtInc(NOTHING, u64::MAX, 1), Refused(Stale)),
        Here(CtInc(FIRST, u64::MAX, 1), Refused(CountFull)),
        Here(CtCancel(NOTHING), Refused(Stale)),
    ];
    const SCRIPTS: &[&[Step]] = &[BUSY, SCRIPT, LISTS_STAND, DEEDS_STAND];
    SCRIPTS
}

fn a_refused_call_on_a_queue_changes_nothing() -> &'static [&'static [Step]] {
    const SCRIPT: &[Step] = &[
        Here(EqAlloc(1), Refused(NoSpace)),
        Here(EqFree(NOTHING), Refused(Stale)),
        Here(EqFree(FIRST), Refused(InUse)),
        Here(EqGet(NOTHING), Refused(Stale)),
    ];
    const SCRIPTS: &[&[Step]] = &[BUSY, SCRIPT, LISTS_STAND, DEEDS_STAND];
    SCRIPTS
}

/// A descriptor that reaches past the end of the region.
const PAST: Descriptor = Descriptor {
    start: u64::MAX,
    ..DESCRIPTOR
};

fn a_refused_call_on_a_descriptor_changes_nothing() -> &'static [&'static [Step]] {
    const STALE_QUEUE: Descriptor = Descriptor {
        eq: Some(NOTHING),
        ..PAST
    };
    const STALE_COUNTER: Descriptor = Descriptor {
        ct: Some(NOTHING),
        ..PAST
    };
    const SCRIPT: &[Step] = &[
        Here(MdBind(STALE_QUEUE), Refused(Stale)),
        Here(MdBind(STALE_COUNTER), Refused(Stale)),
        Here(MdBind(PAST), Refused(NoSpace)),
        Here(MdRelease(NOTHING), Refused(Stale)),
        Here(MdRelease(FIRST), Refused(InUse)),
        Here(MdRelease(SECOND), Refused(InUse)),
        Here(Awaits(NOTHING), Refused(Stale)),
    ];
    const SCRIPTS: &[&[Step]] = &[BUSY, SCRIPT, LISTS_STAND, DEEDS_STAND];
    SCRIPTS
}

fn a_descriptor_lies_in_the_region() -> &'static [&'static [Step]] {
    // The second descriptor goes and comes again, so that there is room for one in between.
    const AGAIN: Descriptor = Descriptor {
        start: 8,
        length: 8,
        ..DESCRIPTOR
    };
    const ONE_PAST: Descriptor = Descriptor {
        start: 1,
        ..DESCRIPTOR
    };
    const SCRIPT: &[Step] = &[
        Here(CtCancel(FIRST), Number(2)),
        Here(MdRelease(SECOND), Done),
        Here(MdBind(PAST), Refused(OutOfRegion)),
        Here(MdBind(ONE_PAST), Refused(OutOfRegion)),
        Here(MdBind(AGAIN), Made(2)),
        Here(MdRelease(THIRD), Done),
    ];
    const COUNTERS_GO: &[Step] = &[
        Here(CtCancel(FIRST), Number(0)),
        Here(CtFree(SECOND), Done),
        Here(CtFree(FIRST), Refused(InUse)),
    ];
    const SCRIPTS: &[&[Step]] = &[BUSY, SCRIPT, LISTS_STAND, COUNTERS_GO];
    SCRIPTS
}

fn an_operation_that_waits_holds_each_of_its_descriptors() -> &'static [&'static [Step]] {
    const SCRIPT: &[Step] = &[
        Here(CtAlloc, Made(0)),
        Here(MdBind(DESCRIPTOR), Made(0)),
        Here(MdBind(DESCRIPTOR), Made(1)),
        Here(Triggered(FETCH_BYTE, FIRST, 1), Number(0)),
        Here(MdRelease(FIRST), Refused(InUse)),
        Here(MdRelease(SECOND), Refused(InUse)),
        Here(CtCancel(FIRST), Number(1)),
        Here(Triggered(SWAP_BYTE, FIRST, 1), Number(1)),
        Here(MdRelease(FIRST), Refused(InUse)),
        Here(MdRelease(SECOND), Refused(InUse)),
        Here(CtCancel(FIRST), Number(1)),
        Here(Triggered(SUM_BYTE, FIRST, 1), Number(2)),
        Here(MdRelease(FIRST), Refused(InUse)),
        Here(CtCancel(FIRST), Number(1)),
        // A get names the second alone.
        Here(Triggered(GET_BYTE, FIRST, 1), Number(3)),
        Here(MdRelease(SECOND), Refused(InUse)),
        Here(MdRelease(FIRST), Done),
        Here(CtCancel(FIRST), Number(1)),
        Here(MdRelease(SECOND), Done),
    ];
    const SCRIPTS: &[&[Step]] = &[SCRIPT];
    SCRIPTS
}

fn a_counter_is_in_use_for_each_reason_alone() -> &'static [&'static [Step]] {
    const COUNTS: Entry = Entry {
        ct: Some(FIRST),
        ..ENTRY
    };
    const ZERO: Count = Count {
        success: 0,
        failure: 0,
    };
    const NAMES: Descriptor = Descriptor {
        ct: Some(FIRST),
        ..DESCRIPTOR
    };
    const SCRIPT: &[Step] = &[
        Here(CtAlloc, Made(0)),
        Here(CtAlloc, Made(1)),
        Here(MdBind(NAMES), Made(0)),
        Here(CtFree(FIRST), Refused(InUse)),
        Here(MdRelease(FIRST), Done),
        Here(MeAppend(0, List::Priority, COUNTS), Linked(0)),
        Here(CtFree(FIRST), Refused(InUse)),
        Here(MeUnlink(FIRST), Done),
        Here(MeAppend(0, List::Overflow, COUNTS), Linked(1)),
        Here(CtFree(FIRST), Refused(InUse)),
        Here(MeUnlink(SECOND), Done),
        Here(
            Triggered(TriggeredOp::Set(SECOND, ZERO), FIRST, 1),
            Number(0),
        ),
        Here(CtFree(FIRST), Refused(InUse)),
        Here(CtFree(SECOND), Refused(InUse)),
        Here(CtCancel(SECOND), Number(0)),
        Here(CtCancel(FIRST), Number(1)),
        Here(
            Triggered(TriggeredOp::Inc(SECOND, ONE), FIRST, 1),
            Number(1),
        ),
        Here(CtFree(SECOND), Refused(InUse)),
        Here(CtCancel(FIRST), Number(1)),
        Here(CtFree(SECOND), Done),
        Here(CtFree(FIRST), Done),
    ];
    const SCRIPTS: &[&[Step]] = &[SCRIPT];
    SCRIPTS
}

fn a_queue_is_in_use_for_each_reason_alone() -> &'static [&'static [Step]] {
    const NAMES: Descriptor = Descriptor {
        eq: Some(FIRST),
        ..DESCRIPTOR
    };
    const SCRIPT: &[Step] = &[
        Here(EqAlloc(1), Made(0)),
        Here(PtAlloc(1, Some(FIRST)), Done),
        Here(EqFree(FIRST), Refused(InUse)),
        Here(PtFree(1), Done),
        Here(MdBind(NAMES), Made(0)),
        Here(EqFree(FIRST), Refused(InUse)),
        Here(MdRelease(FIRST), Done),
        Here(EqFree(FIRST), Done),
    ];
    const SCRIPTS: &[&[Step]] = &[SCRIPT];
    SCRIPTS
}

fn a_refused_call_uses_up_no_stamp() -> &'static [&'static [Step]] {
    const SCRIPT: &[Step] = &[
        Here(EqAlloc(1), Made(0)),
        Here(CtAlloc, Made(0)),
        Here(CtAlloc, Made(1)),
        Here(MdBind(DESCRIPTOR), Made(0)),
        Here(MdBind(DESCRIPTOR), Made(1)),
        Here(EqAlloc(1), Refused(NoSpace)),
        Here(CtAlloc, Refused(NoSpace)),
        Here(MdBind(DESCRIPTOR), Refused(NoSpace)),
        Here(EqFree(FIRST), Done),
        Here(CtFree(SECOND), Done),
        Here(MdRelease(SECOND), Done),
        Here(EqAlloc(1), Made(1)),
        Here(CtAlloc, Made(2)),
        Here(MdBind(DESCRIPTOR), Made(2)),
        Here(CtGet(THIRD), Counts(0, 0)),
    ];
    const SCRIPTS: &[&[Step]] = &[SCRIPT];
    SCRIPTS
}

#[test]
fn each_script(rt: HostRuntime) {
    plays!(&rt;
        a_refused_call_on_an_index_changes_nothing,
        a_refused_call_on_a_counter_changes_nothing,
        a_refused_call_on_a_queue_changes_nothing,
        a_refused_call_on_a_descriptor_changes_nothing,
        a_descriptor_lies_in_the_region,
        an_operation_that_waits_holds_each_of_its_descriptors,
        a_counter_is_in_use_for_each_reason_alone,
        a_queue_is_in_use_for_each_reason_alone,
        a_refused_call_uses_up_no_stamp
    );
}
