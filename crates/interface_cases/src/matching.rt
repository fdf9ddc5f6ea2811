//! Which entry takes a message, and how much of it is delivered (Portals 4.3, matching and list entries).

use crate::scene::plays;
use crate::steps::Answer::*;
use crate::steps::Call::*;
use crate::steps::Step::{self, *};
use crate::values::{DESCRIPTOR, ENTRY, FIRST, ONCE, PUT};
use ptl_types::NiFault::Stale;
use ptl_types::{Entry, List, Outcome, PutArgs, TriggeredOp};

fn use_once_entries_go_with_their_first_message() -> &'static [&'static [Step]] {
    const COUNTS: Entry = Entry {
        ct: Some(FIRST),
        count_comm: true,
        ..ONCE
    };
    const BEHIND: Entry = Entry { start: 4, ..COUNTS };
    const SCRIPT: &[Step] = &[
        Here(CtAlloc, Made(0)),
        Here(MeAppend(0, List::Priority, COUNTS), Linked(0)),
        Here(MeAppend(0, List::Priority, BEHIND), Linked(1)),
        Comes(PUT, &[1], Outcome::Matched),
        Comes(PUT, &[2], Outcome::Matched),
        Comes(PUT, &[3], Outcome::Dropped),
        HereHolds(&[1, 0, 0, 0, 2, 0, 0, 0, 0, 0, 0, 0, 0, 0, 0, 0]),
        Here(Drops, Number(1)),
        Here(CtGet(FIRST), Counts(2, 0)),
        Here(MeUnlink(FIRST), Refused(Stale)),
    ];
    const SCRIPTS: &[&[Step]] = &[SCRIPT];
    SCRIPTS
}

/// A put that reaches past the end of an entry of four bytes, and one that begins past it.
const AT_ONE: PutArgs = PutArgs {
    remote_offset: 1,
    ..PUT
};

const AT_FIVE: PutArgs = PutArgs {
    remote_offset: 5,
    ..PUT
};

fn a_put_is_cut_at_the_end_of_its_entry() -> &'static [&'static [Step]] {
    const SCRIPT: &[Step] = &[
        Here(MeAppend(0, List::Priority, ENTRY), Linked(0)),
        Comes(AT_ONE, &[1, 2, 3, 4, 5, 6], Outcome::Matched),
        HereHolds(&[0, 1, 2, 3, 0, 0, 0, 0, 0, 0, 0, 0, 0, 0, 0, 0]),
        Comes(AT_FIVE, &[1, 2, 3, 4, 5, 6], Outcome::Matched),
        HereHolds(&[0, 1, 2, 3, 0, 0, 0, 0, 0, 0, 0, 0, 0, 0, 0, 0]),
        Here(Drops, Number(0)),
    ];
    const SCRIPTS: &[&[Step]] = &[SCRIPT];
    SCRIPTS
}

fn a_put_that_may_not_be_cut_is_dropped() -> &'static [&'static [Step]] {
    const WHOLE: Entry = Entry {
        no_truncate: true,
        ..ENTRY
    };
    const SCRIPT: &[Step] = &[
        Here(MeAppend(0, List::Priority, WHOLE), Linked(0)),
        Comes(AT_ONE, &[1, 2, 3, 4, 5, 6], Outcome::Dropped),
        Comes(AT_ONE, &[1, 2, 3], Outcome::Matched),
        HereHolds(&[0, 1, 2, 3, 0, 0, 0, 0, 0, 0, 0, 0, 0, 0, 0, 0]),
        Here(Drops, Number(1)),
    ];
    const SCRIPTS: &[&[Step]] = &[SCRIPT];
    SCRIPTS
}

fn the_first_match_that_forbids_a_put_ends_the_search() -> &'static [&'static [Step]] {
    const FORBIDS: Entry = Entry {
        allow_put: false,
        ..ENTRY
    };
    const SCRIPT: &[Step] = &[
        Here(MeAppend(0, List::Priority, FORBIDS), Linked(0)),
        Here(MeAppend(0, List::Priority, ENTRY), Linked(1)),
        Comes(PUT, &[1], Outcome::Violation),
        Here(Violations, Number(1)),
        Here(Drops, Number(0)),
        HereHolds(&[0, 0, 0, 0, 0, 0, 0, 0, 0, 0, 0, 0, 0, 0, 0, 0]),
    ];
    const SCRIPTS: &[&[Step]] = &[SCRIPT];
    SCRIPTS
}

fn a_violation_unlinks_nothing() -> &'static [&'static [Step]] {
    const FORBIDS: Entry = Entry {
        allow_put: false,
        ..ONCE
    };
    const SCRIPT: &[Step] = &[
        Here(MeAppend(0, List::Priority, FORBIDS), Linked(0)),
        Here(MeAppend(0, List::Priority, ENTRY), Linked(1)),
        Comes(PUT, &[1], Outcome::Violation),
        Comes(PUT, &[1], Outcome::Violation),
        Here(MeUnlink(FIRST), Done),
        Comes(PUT, &[1], Outcome::Matched),
    ];
    const SCRIPTS: &[&[Step]] = &[SCRIPT];
    SCRIPTS
}

fn an_index_that_is_not_allocated_drops() -> &'static [&'static [Step]] {
    const LAST: PutArgs = PutArgs {
        pt: u32::MAX,
        ..PUT
    };
    const SCRIPT: &[Step] = &[
        Comes(PutArgs { pt: 1, ..PUT }, &[1], Outcome::Dropped),
        Comes(PutArgs { pt: 2, ..PUT }, &[1], Outcome::Dropped),
        Comes(LAST, &[1], Outcome::Dropped),
        Here(Drops, Number(3)),
    ];
    const SCRIPTS: &[&[Step]] = &[SCRIPT];
    SCRIPTS
}

fn a_rank_sends_to_itself() -> &'static [&'static [Step]] {
    const MINE: PutArgs = PutArgs {
        local_offset: 8,
        length: 2,
        ..PUT
    };
    const FROM_ZERO: Entry = Entry {
        match_id: Some(0),
        ..ENTRY
    };
    const SCRIPT: &[Step] = &[
        Here(MdBind(DESCRIPTOR), Made(0)),
        Here(MeAppend(0, List::Priority, FROM_ZERO), Linked(0)),
        Here(WriteMemory(8, &[1, 2]), Done),
        Here(Start(TriggeredOp::Put(MINE)), Sent),
        Here(Deliver, Became(Outcome::Matched)),
        Comes(PUT, &[3], Outcome::Dropped),
        HereHolds(&[1, 2, 0, 0, 0, 0, 0, 0, 1, 2, 0, 0, 0, 0, 0, 0]),
    ];
    const SCRIPTS: &[&[Step]] = &[SCRIPT];
    SCRIPTS
}

#[test]
fn each_script(rt: HostRuntime) {
    plays!(&rt;
        use_once_entries_go_with_their_first_message,
        a_put_is_cut_at_the_end_of_its_entry,
        a_put_that_may_not_be_cut_is_dropped,
        the_first_match_that_forbids_a_put_ends_the_search,
        a_violation_unlinks_nothing,
        an_index_that_is_not_allocated_drops,
        a_rank_sends_to_itself
    );
}
