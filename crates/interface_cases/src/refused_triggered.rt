//! Every refusal of triggered operations.

use crate::busy::{BUSY, DEEDS_STAND, LISTS_STAND};
use crate::deeds::*;
use crate::scene::plays;
use crate::steps::Answer::*;
use crate::steps::Call::*;
use crate::steps::Step::{self, *};
use crate::values::{FIRST, NOTHING, ONE, PAST_THE_END, SECOND};
use ptl_types::NiFault::{CountFull, NoSpace, OutOfRegion, Stale};
use ptl_types::TriggeredOp;

/// Counts on the second counting event and on one that isn't allocated: by one, and by numbers that pass the end.
const RAISE: TriggeredOp = TriggeredOp::Inc(SECOND, ONE);

const RAISE_PAST: TriggeredOp = TriggeredOp::Inc(SECOND, PAST_THE_END);

const RAISE_STALE: TriggeredOp = TriggeredOp::Inc(NOTHING, PAST_THE_END);

const SET_PAST: TriggeredOp = TriggeredOp::Set(SECOND, PAST_THE_END);

const SET_STALE: TriggeredOp = TriggeredOp::Set(NOTHING, PAST_THE_END);

fn a_refused_increment_or_set_changes_nothing() -> &'static [&'static [Step]] {
    const SCRIPT: &[Step] = &[
        Here(Triggered(RAISE_PAST, NOTHING, 0), Refused(Stale)),
        Here(Triggered(RAISE_STALE, FIRST, 0), Refused(Stale)),
        Here(Triggered(RAISE_PAST, FIRST, 0), Refused(CountFull)),
        Here(Triggered(SET_PAST, NOTHING, 0), Refused(Stale)),
        Here(Triggered(SET_STALE, FIRST, 0), Refused(Stale)),
        Here(Triggered(SET_PAST, FIRST, 0), Refused(CountFull)),
    ];
    const SCRIPTS: &[&[Step]] = &[BUSY, SCRIPT, LISTS_STAND, DEEDS_STAND];
    SCRIPTS
}

fn a_refused_triggered_start_changes_nothing() -> &'static [&'static [Step]] {
    const SCRIPT: &[Step] = &[
        Here(Triggered(PUT_BYTE, NOTHING, 0), Refused(Stale)),
        Here(Triggered(PUT_STALE, FIRST, 0), Refused(Stale)),
        Here(Triggered(PUT_BEHIND, FIRST, 0), Refused(OutOfRegion)),
        Here(Triggered(GET_BYTE, NOTHING, 0), Refused(Stale)),
        Here(Triggered(GET_STALE, FIRST, 0), Refused(Stale)),
        Here(Triggered(GET_BEHIND, FIRST, 0), Refused(OutOfRegion)),
        Here(Triggered(SUM_BYTE, NOTHING, 0), Refused(Stale)),
        Here(Triggered(SUM_STALE, FIRST, 0), Refused(Stale)),
        Here(Triggered(SUM_BEHIND, FIRST, 0), Refused(OutOfRegion)),
    ];
    const SCRIPTS: &[&[Step]] = &[BUSY, SCRIPT, LISTS_STAND, DEEDS_STAND];
    SCRIPTS
}

fn a_refused_triggered_fetch_changes_nothing() -> &'static [&'static [Step]] {
    const SCRIPT: &[Step] = &[
        Here(Triggered(FETCH_BYTE, NOTHING, 0), Refused(Stale)),
        Here(Triggered(FETCH_STALE, FIRST, 0), Refused(Stale)),
        Here(Triggered(FETCH_STALE_BACK, FIRST, 0), Refused(Stale)),
        Here(Triggered(FETCH_BEHIND, FIRST, 0), Refused(OutOfRegion)),
        Here(Triggered(FETCH_BEHIND_BACK, FIRST, 0), Refused(OutOfRegion)),
        Here(Triggered(SWAP_BYTE, NOTHING, 0), Refused(Stale)),
        Here(Triggered(SWAP_STALE, FIRST, 0), Refused(Stale)),
        Here(Triggered(SWAP_STALE_BACK, FIRST, 0), Refused(Stale)),
        Here(Triggered(SWAP_BEHIND, FIRST, 0), Refused(OutOfRegion)),
        Here(Triggered(SWAP_BEHIND_BACK, FIRST, 0), Refused(OutOfRegion)),
    ];
    const SCRIPTS: &[&[Step]] = &[BUSY, SCRIPT, LISTS_STAND, DEEDS_STAND];
    SCRIPTS
}

fn a_refused_triggered_operation_uses_up_no_number() -> &'static [&'static [Step]] {
    const SCRIPT: &[Step] = &[
        Here(Triggered(RAISE, SECOND, 9), Number(2)),
        Here(Triggered(RAISE, SECOND, 9), Number(3)),
        Here(Triggered(RAISE_PAST, FIRST, 0), Refused(NoSpace)),
        Here(Triggered(SET_PAST, FIRST, 0), Refused(NoSpace)),
        Here(Triggered(PUT_BEHIND, FIRST, 0), Refused(NoSpace)),
        Here(Triggered(GET_BEHIND, FIRST, 0), Refused(NoSpace)),
        Here(Triggered(SUM_BEHIND, FIRST, 0), Refused(NoSpace)),
        Here(Triggered(FETCH_BEHIND, FIRST, 0), Refused(NoSpace)),
        Here(Triggered(SWAP_BEHIND, FIRST, 0), Refused(NoSpace)),
        Here(Triggered(PUT_STALE, FIRST, 0), Refused(Stale)),
        Here(CtCancel(SECOND), Number(2)),
        Here(Triggered(RAISE, SECOND, 9), Number(4)),
        Here(CtCancel(SECOND), Number(1)),
    ];
    const SCRIPTS: &[&[Step]] = &[BUSY, SCRIPT, LISTS_STAND, DEEDS_STAND];
    SCRIPTS
}

#[test]
fn each_script(rt: HostRuntime) {
    plays!(&rt;
        a_refused_increment_or_set_changes_nothing,
        a_refused_triggered_start_changes_nothing,
        a_refused_triggered_fetch_changes_nothing,
        a_refused_triggered_operation_uses_up_no_number
    );
}
