//! Every refusal of the five starts.

use crate::busy::{BUSY, DEEDS_STAND, LISTS_STAND};
use crate::deeds::*;
use crate::scene::plays;
use crate::steps::Answer::*;
use crate::steps::Call::*;
use crate::steps::Step::{self, *};
use ptl_types::NiFault::{OutOfRegion, Stale};

fn a_refused_put_get_or_atomic_changes_nothing() -> &'static [&'static [Step]] {
    const SCRIPT: &[Step] = &[
        Here(Start(PUT_STALE), Refused(Stale)),
        Here(Start(PUT_BEHIND), Refused(OutOfRegion)),
        Here(Start(PUT_FAR), Refused(OutOfRegion)),
        Here(Start(GET_STALE), Refused(Stale)),
        Here(Start(GET_BEHIND), Refused(OutOfRegion)),
        Here(Start(GET_FAR), Refused(OutOfRegion)),
        Here(Start(SUM_STALE), Refused(Stale)),
        Here(Start(SUM_BEHIND), Refused(OutOfRegion)),
        Here(Start(SUM_FAR), Refused(OutOfRegion)),
    ];
    const SCRIPTS: &[&[Step]] = &[BUSY, SCRIPT, LISTS_STAND, DEEDS_STAND];
    SCRIPTS
}

fn a_refused_fetch_atomic_or_swap_changes_nothing() -> &'static [&'static [Step]] {
    const SCRIPT: &[Step] = &[
        Here(Start(FETCH_STALE), Refused(Stale)),
        Here(Start(FETCH_STALE_BACK), Refused(Stale)),
        Here(Start(FETCH_BEHIND), Refused(OutOfRegion)),
        Here(Start(FETCH_BEHIND_BACK), Refused(OutOfRegion)),
        Here(Start(FETCH_FAR), Refused(OutOfRegion)),
        Here(Start(FETCH_FAR_BACK), Refused(OutOfRegion)),
        Here(Start(SWAP_STALE), Refused(Stale)),
        Here(Start(SWAP_STALE_BACK), Refused(Stale)),
        Here(Start(SWAP_BEHIND), Refused(OutOfRegion)),
        Here(Start(SWAP_BEHIND_BACK), Refused(OutOfRegion)),
        Here(Start(SWAP_FAR), Refused(OutOfRegion)),
        Here(Start(SWAP_FAR_BACK), Refused(OutOfRegion)),
    ];
    const SCRIPTS: &[&[Step]] = &[BUSY, SCRIPT, LISTS_STAND, DEEDS_STAND];
    SCRIPTS
}

#[test]
fn each_script(rt: HostRuntime) {
    plays!(&rt;
        a_refused_put_get_or_atomic_changes_nothing,
        a_refused_fetch_atomic_or_swap_changes_nothing
    );
}
