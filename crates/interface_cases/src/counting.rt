//! Counting events and the triggered operations that wait on them (Portals 4.3, counting events and triggered operations).

use crate::scene::plays;
use crate::steps::Answer::*;
use crate::steps::Call::*;
use crate::steps::Step::{self, *};
use crate::values::{DESCRIPTOR, ENTRY, FIRST, HEADER, ONE, PUT, SECOND};
use ptl_types::NiFault::{CountFull, InUse, NoSpace, OutOfRegion, Stale};
use ptl_types::{Count, Descriptor, Entry, Header, List, Outcome, PutArgs, TriggeredOp};

fn an_increment_waits_for_its_threshold() -> &'static [&'static [Step]] {
    const RAISE: TriggeredOp = TriggeredOp::Inc(SECOND, ONE);
    const SCRIPT: &[Step] = &[
        Here(CtAlloc, Made(0)),
        Here(CtAlloc, Made(1)),
        Here(CtSet(FIRST, 2, 0), Done),
        Here(Triggered(RAISE, FIRST, 3), Number(0)),
        Here(Ready, Nothing),
        Here(CtInc(FIRST, 1, 0), Done),
        Here(Ready, Number(0)),
        Here(Fire(0), Nothing),
        Here(CtGet(SECOND), Counts(1, 0)),
        Here(Ready, Nothing),
        Here(Triggered(RAISE, FIRST, 3), Number(1)),
        Here(Triggered(RAISE, FIRST, 4), Number(2)),
        Here(IsReady(1), Yes),
        Here(IsReady(2), No),
        Here(Pending, Number(2)),
        Here(CtFree(FIRST), Refused(InUse)),
        Here(CtCancel(FIRST), Number(2)),
        Here(Pending, Number(0)),
        Here(CtFree(FIRST), Done),
    ];
    const SCRIPTS: &[&[Step]] = &[SCRIPT];
    SCRIPTS
}

fn an_operation_is_ready_only_while_its_sum_is_reached() -> &'static [&'static [Step]] {
    const SCRIPT: &[Step] = &[
        Here(CtAlloc, Made(0)),
        Here(CtAlloc, Made(1)),
        Here(
            Triggered(TriggeredOp::Inc(SECOND, ONE), FIRST, 3),
            Number(0),
        ),
        Here(CtSet(FIRST, 3, 0), Done),
        Here(IsReady(0), Yes),
        Here(Ready, Number(0)),
        Here(CtSet(FIRST, 2, 0), Done),
        Here(IsReady(0), No),
        Here(Ready, Nothing),
        // Successes and failures count together.
        Here(CtSet(FIRST, 1, 2), Done),
        Here(IsReady(0), Yes),
        Here(Ready, Number(0)),
        Here(Fire(0), Nothing),
        Here(CtGet(SECOND), Counts(1, 0)),
    ];
    const SCRIPTS: &[&[Step]] = &[SCRIPT];
    SCRIPTS
}

fn tables_fill_and_handles_go() -> &'static [&'static [Step]] {
    const PAST: Descriptor = Descriptor {
        start: 10,
        length: 7,
        ..DESCRIPTOR
    };
    const INSIDE: PutArgs = PutArgs {
        local_offset: 4,
        length: 2,
        ..PUT
    };
    const OUTSIDE: PutArgs = PutArgs {
        local_offset: 5,
        ..INSIDE
    };
    const TWO: Header = Header {
        source: 0,
        length: 2,
        ..HEADER
    };
    const SCRIPT: &[Step] = &[
        Here(CtAlloc, Made(0)),
        Here(CtAlloc, Made(1)),
        Here(CtAlloc, Refused(NoSpace)),
        Here(PtAlloc(2, None), Refused(NoSpace)),
        Here(PtAlloc(0, None), Refused(InUse)),
        Here(MdBind(PAST), Refused(OutOfRegion)),
        Here(MdBind(Descriptor { length: 6, ..PAST }), Made(0)),
        Here(Start(TriggeredOp::Put(OUTSIDE)), Refused(OutOfRegion)),
        Here(Start(TriggeredOp::Put(INSIDE)), Sent),
        Here(Carries(TWO, &[0, 0]), Yes),
        Here(CtSet(FIRST, u64::MAX, 0), Done),
        Here(CtInc(FIRST, 0, 1), Refused(CountFull)),
        Here(CtGet(FIRST), Counts(u64::MAX, 0)),
        Here(CtFree(SECOND), Done),
        Here(CtGet(SECOND), Refused(Stale)),
        Here(MdRelease(FIRST), Done),
        Here(Start(TriggeredOp::Put(INSIDE)), Refused(Stale)),
    ];
    const SCRIPTS: &[&[Step]] = &[SCRIPT];
    SCRIPTS
}

fn a_delivery_counts_no_further_than_the_end() -> &'static [&'static [Step]] {
    const COUNTS: Entry = Entry {
        ct: Some(FIRST),
        count_comm: true,
        ..ENTRY
    };
    const SCRIPT: &[Step] = &[
        Here(CtAlloc, Made(0)),
        Here(CtSet(FIRST, u64::MAX - 2, 1), Done),
        Here(MeAppend(0, List::Priority, COUNTS), Linked(0)),
        Comes(PUT, &[1], Outcome::Matched),
        Here(CtGet(FIRST), Counts(u64::MAX - 1, 1)),
        Comes(PUT, &[2], Outcome::Matched),
        Here(CtGet(FIRST), Counts(u64::MAX - 1, 1)),
    ];
    const SCRIPTS: &[&[Step]] = &[SCRIPT];
    SCRIPTS
}

#[test]
fn each_script(rt: HostRuntime) {
    plays!(&rt;
        an_increment_waits_for_its_threshold,
        an_operation_is_ready_only_while_its_sum_is_reached,
        tables_fill_and_handles_go,
        a_delivery_counts_no_further_than_the_end
    );
}
