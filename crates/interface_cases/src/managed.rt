//! Locally managed and use-once entries of the priority list, ignored match bits, headers of atomics, and an overflow entry
//! that is freed (Portals 4.3, list entries and unexpected messages).

use crate::scene::plays;
use crate::steps::Answer::*;
use crate::steps::Call::*;
use crate::steps::Step::{self, *};
use crate::values::{ENTRY, FIRST, FREED, LINKED, ONCE, ONE, PUT, SECOND, UNLINKED};
use ptl_types::NiFault::InUse;
use ptl_types::{AtomicOp, ElemType, Entry, Event, EventKind, List, Outcome, PutArgs, TriggeredOp};

/// Rank 0 has a queue at index 1.
const TELLING: &[Step] = &[
    Here(EqAlloc(8), Made(0)),
    Here(PtAlloc(1, Some(FIRST)), Done),
];

/// The event of a put of two bytes to the start of its entry.
const PUT_TOLD: Event = Event {
    kind: EventKind::Put,
    source: 1,
    requested: 2,
    delivered: 2,
    ..LINKED
};

/// Put arguments to index 1.
const TO_ONE: PutArgs = PutArgs { pt: 1, ..PUT };

fn a_locally_managed_entry_fills_and_is_unlinked() -> &'static [&'static [Step]] {
    const MANAGED: Entry = Entry {
        manage_local: true,
        min_free: 1,
        ..ENTRY
    };
    const ELSEWHERE: PutArgs = PutArgs {
        remote_offset: 3,
        ..TO_ONE
    };
    const BEHIND_TOLD: Event = Event {
        place: 2,
        ..PUT_TOLD
    };
    const SCRIPT: &[Step] = &[
        Here(MeAppend(1, List::Priority, MANAGED), Linked(0)),
        Comes(ELSEWHERE, &[1, 2], Outcome::Matched),
        Comes(ELSEWHERE, &[3, 4], Outcome::Matched),
        Comes(ELSEWHERE, &[5, 6], Outcome::Dropped),
        HereHolds(&[1, 2, 3, 4, 0, 0, 0, 0, 0, 0, 0, 0, 0, 0, 0, 0]),
        HereTells(FIRST, &[LINKED, PUT_TOLD, BEHIND_TOLD, UNLINKED]),
    ];
    const SCRIPTS: &[&[Step]] = &[TELLING, SCRIPT];
    SCRIPTS
}

fn a_use_once_entry_tells_the_put_and_then_its_unlinking() -> &'static [&'static [Step]] {
    const SCRIPT: &[Step] = &[
        Here(MeAppend(1, List::Priority, ONCE), Linked(0)),
        Comes(TO_ONE, &[1, 2], Outcome::Matched),
        HereTells(FIRST, &[LINKED, PUT_TOLD, UNLINKED]),
    ];
    const SCRIPTS: &[&[Step]] = &[TELLING, SCRIPT];
    SCRIPTS
}

fn a_persistent_append_takes_the_header_of_an_atomic_and_frees_its_entry() -> &'static [&'static [Step]] {
    const TAKEN: Event = Event {
        kind: EventKind::AtomicOverflow,
        ..PUT_TOLD
    };
    const TWO: PutArgs = PutArgs {
        length: 2,
        ..TO_ONE
    };
    const SCRIPT: &[Step] = &[
        Here(MeAppend(1, List::Overflow, ONCE), Linked(0)),
        There(WriteMemory(0, &[1, 2]), Done),
        There(
            Start(TriggeredOp::Atomic(TWO, AtomicOp::Sum, ElemType::U8)),
            Sent,
        ),
        Here(Deliver, Became(Outcome::Overflow)),
        Here(MeAppend(1, List::Priority, ENTRY), Linked(1)),
        HereTells(FIRST, &[LINKED, UNLINKED, TAKEN, FREED, LINKED]),
    ];
    const SCRIPTS: &[&[Step]] = &[TELLING, SCRIPT];
    SCRIPTS
}

fn ignored_bits_are_not_compared() -> &'static [&'static [Step]] {
    const WIDE: Entry = Entry {
        match_bits: 0x15,
        ignore_bits: 0xf0,
        ..ENTRY
    };
    /// Match bits that differ from these in an ignored bit alone, in a low bit, and in a high one.
    const IGNORED: PutArgs = PutArgs {
        match_bits: 0x25,
        ..PUT
    };
    const LOW: PutArgs = PutArgs {
        match_bits: 0x26,
        ..PUT
    };
    const HIGH: PutArgs = PutArgs {
        match_bits: 0x125,
        ..PUT
    };
    const SCRIPT: &[Step] = &[
        Here(MeAppend(0, List::Priority, WIDE), Linked(0)),
        Comes(IGNORED, &[1], Outcome::Matched),
        Comes(LOW, &[1], Outcome::Dropped),
        Comes(HIGH, &[1], Outcome::Dropped),
    ];
    const SCRIPTS: &[&[Step]] = &[SCRIPT];
    SCRIPTS
}

fn a_counter_that_an_increment_alone_counts_on_is_in_use() -> &'static [&'static [Step]] {
    const SCRIPT: &[Step] = &[
        Here(CtAlloc, Made(0)),
        Here(CtAlloc, Made(1)),
        Here(
            Triggered(TriggeredOp::Inc(SECOND, ONE), FIRST, 1),
            Number(0),
        ),
        Here(CtFree(SECOND), Refused(InUse)),
        Here(CtCancel(FIRST), Number(1)),
        Here(CtFree(SECOND), Done),
    ];
    const SCRIPTS: &[&[Step]] = &[SCRIPT];
    SCRIPTS
}

#[test]
fn each_script(rt: HostRuntime) {
    plays!(&rt;
        a_locally_managed_entry_fills_and_is_unlinked,
        a_use_once_entry_tells_the_put_and_then_its_unlinking,
        a_persistent_append_takes_the_header_of_an_atomic_and_frees_its_entry,
        ignored_bits_are_not_compared,
        a_counter_that_an_increment_alone_counts_on_is_in_use
    );
}
