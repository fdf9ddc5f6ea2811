//! Every refusal of the calls on match entries.

use crate::busy::{BUSY, DEEDS_STAND, HELD, LISTS_STAND};
use crate::scene::plays;
use crate::steps::Answer::*;
use crate::steps::Call::*;
use crate::steps::Step::{self, *};
use crate::values::{ENTRY, FIFTH, FIRST, FOURTH, NOTHING, ONCE, PUT, SECOND, THIRD};
use ptl_types::NiFault::{InUse, NoSpace, OutOfRegion, Stale};
use ptl_types::{Entry, List, Outcome, UnexpectedHeader};

/// An entry that reaches past the end of the region.
const PAST: Entry = Entry { start: 13, ..ENTRY };

const STALE: Entry = Entry {
    ct: Some(NOTHING),
    ..PAST
};

fn a_refused_call_on_an_entry_changes_nothing() -> &'static [&'static [Step]] {
    const SCRIPT: &[Step] = &[
        Here(MeAppend(2, List::Priority, PAST), Refused(Stale)),
        Here(MeAppend(2, List::Overflow, PAST), Refused(Stale)),
        Here(MeAppend(0, List::Priority, STALE), Refused(Stale)),
        Here(MeAppend(0, List::Overflow, STALE), Refused(Stale)),
        Here(MeAppend(0, List::Priority, PAST), Refused(OutOfRegion)),
        Here(MeAppend(0, List::Overflow, PAST), Refused(OutOfRegion)),
        Here(MeUnlink(NOTHING), Refused(Stale)),
        Here(MeUnlink(FIRST), Refused(InUse)),
        Here(MeSearch(2, ENTRY, false), Refused(Stale)),
        Here(MeSearch(2, ENTRY, true), Refused(Stale)),
        // The next entry has the next number.
        Here(MeAppend(0, List::Overflow, ENTRY), Linked(2)),
        Here(MeUnlink(THIRD), Done),
    ];
    const SCRIPTS: &[&[Step]] = &[BUSY, SCRIPT, LISTS_STAND, DEEDS_STAND];
    SCRIPTS
}

fn an_append_is_refused_also_where_a_header_would_be_found() -> &'static [&'static [Step]] {
    const SIX: Entry = Entry {
        match_bits: 6,
        ..ONCE
    };
    const SCRIPT: &[Step] = &[
        Here(MeAppend(0, List::Overflow, ENTRY), Linked(2)),
        Here(MeAppend(0, List::Overflow, ENTRY), Linked(3)),
        Here(MeAppend(0, List::Priority, ONCE), Refused(NoSpace)),
        Here(MeAppend(0, List::Overflow, PAST), Refused(NoSpace)),
        Here(MeAppend(0, List::Overflow, STALE), Refused(Stale)),
        Here(MeUnlink(THIRD), Done),
        Here(MeUnlink(FOURTH), Done),
        Here(MeAppend(0, List::Priority, SIX), Linked(4)),
        Here(MeUnlink(FIFTH), Done),
    ];
    const SCRIPTS: &[&[Step]] = &[BUSY, SCRIPT, LISTS_STAND, DEEDS_STAND];
    SCRIPTS
}

fn an_index_below_the_limit_is_stale_while_it_is_not_allocated() -> &'static [&'static [Step]] {
    const STALE_INDEX: &[Step] = &[
        Here(PtFree(1), Refused(Stale)),
        Here(MeAppend(1, List::Priority, ENTRY), Refused(Stale)),
        Here(MeAppend(1, List::Overflow, ENTRY), Refused(Stale)),
        Here(MeSearch(1, ENTRY, false), Refused(Stale)),
        Here(MeSearch(1, ENTRY, true), Refused(Stale)),
    ];
    const ALLOCATED: &[Step] = &[
        Here(PtAlloc(1, None), Done),
        Here(MeSearch(1, ENTRY, true), Nothing),
        Here(MeAppend(1, List::Priority, ENTRY), Linked(0)),
        Here(MeUnlink(FIRST), Done),
        Here(PtFree(1), Done),
    ];
    const SCRIPTS: &[&[Step]] = &[STALE_INDEX, ALLOCATED, STALE_INDEX];
    SCRIPTS
}

fn an_index_is_in_use_for_each_reason_alone() -> &'static [&'static [Step]] {
    const HELD_BY_THIRD: UnexpectedHeader = UnexpectedHeader {
        entry: THIRD,
        ..HELD
    };
    const SCRIPT: &[Step] = &[
        Here(MeAppend(0, List::Priority, ENTRY), Linked(0)),
        Here(PtFree(0), Refused(InUse)),
        Here(MeUnlink(FIRST), Done),
        Here(MeAppend(0, List::Overflow, ENTRY), Linked(1)),
        Here(PtFree(0), Refused(InUse)),
        Here(MeUnlink(SECOND), Done),
        Here(MeAppend(0, List::Overflow, ONCE), Linked(2)),
        Comes(PUT, &[1], Outcome::Overflow),
        Here(PtFree(0), Refused(InUse)),
        Here(MeSearch(0, ENTRY, true), Found(HELD_BY_THIRD)),
        Here(PtFree(0), Done),
    ];
    const SCRIPTS: &[&[Step]] = &[SCRIPT];
    SCRIPTS
}

#[test]
fn each_script(rt: HostRuntime) {
    plays!(&rt;
        a_refused_call_on_an_entry_changes_nothing,
        an_append_is_refused_also_where_a_header_would_be_found,
        an_index_below_the_limit_is_stale_while_it_is_not_allocated,
        an_index_is_in_use_for_each_reason_alone
    );
}
