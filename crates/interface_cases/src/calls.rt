//! Every call once with ample memory, where no script has it.

use crate::scene::plays;
use crate::steps::Answer::*;
use crate::steps::Call::*;
use crate::steps::Step::{self, *};
use crate::values::{DESCRIPTOR, ENTRY, FIRST, LIMITS};
use ptl_types::List;
use ptl_types::NiFault::Stale;

fn a_new_interface_has_nothing() -> &'static [&'static [Step]] {
    const SCRIPT: &[Step] = &[
        Here(Rank, Number(0)),
        There(Rank, Number(1)),
        Here(Ranks, Number(2)),
        Here(Limits, Limited(LIMITS)),
        HereHolds(&[0, 0, 0, 0, 0, 0, 0, 0, 0, 0, 0, 0, 0, 0, 0, 0]),
        Here(Drops, Number(0)),
        Here(Violations, Number(0)),
        Here(Pending, Number(0)),
        Here(Ready, Nothing),
        Here(IsReady(0), No),
    ];
    const SCRIPTS: &[&[Step]] = &[SCRIPT];
    SCRIPTS
}

fn what_is_made_goes() -> &'static [&'static [Step]] {
    const SCRIPT: &[Step] = &[
        Here(EqAlloc(2), Made(0)),
        Here(CtAlloc, Made(0)),
        Here(MdBind(DESCRIPTOR), Made(0)),
        Here(MeAppend(0, List::Overflow, ENTRY), Linked(0)),
        Here(CtInc(FIRST, 1, 2), Done),
        Here(CtGet(FIRST), Counts(1, 2)),
        Here(EqGet(FIRST), Empty),
        Here(Awaits(FIRST), Number(0)),
        Here(CtCancel(FIRST), Number(0)),
        Here(MeUnlink(FIRST), Done),
        Here(PtFree(0), Done),
        Here(MdRelease(FIRST), Done),
        Here(CtFree(FIRST), Done),
        Here(EqFree(FIRST), Done),
    ];
    const SCRIPTS: &[&[Step]] = &[SCRIPT];
    SCRIPTS
}

fn a_handle_never_comes_back() -> &'static [&'static [Step]] {
    const SCRIPT: &[Step] = &[
        Here(CtAlloc, Made(0)),
        Here(MdBind(DESCRIPTOR), Made(0)),
        Here(MeAppend(0, List::Overflow, ENTRY), Linked(0)),
        Here(CtFree(FIRST), Done),
        Here(MdRelease(FIRST), Done),
        Here(MeUnlink(FIRST), Done),
        Here(CtAlloc, Made(1)),
        Here(MdBind(DESCRIPTOR), Made(1)),
        Here(MeAppend(0, List::Overflow, ENTRY), Linked(1)),
        Here(CtGet(FIRST), Refused(Stale)),
        Here(Awaits(FIRST), Refused(Stale)),
        Here(MeUnlink(FIRST), Refused(Stale)),
    ];
    const SCRIPTS: &[&[Step]] = &[SCRIPT];
    SCRIPTS
}

#[test]
fn each_script(rt: HostRuntime) {
    plays!(&rt;
        a_new_interface_has_nothing,
        what_is_made_goes,
        a_handle_never_comes_back
    );
}
