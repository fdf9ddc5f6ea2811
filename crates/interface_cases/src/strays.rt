//! A reply that doesn't fit its descriptor, an answer of another kind than the awaited one, and refusals of which two hold at
//! once.

use crate::scene::plays;
use crate::steps::Answer::*;
use crate::steps::Call::*;
use crate::steps::Step::{self, *};
use crate::values::{DESCRIPTOR, FIRST, GET, NOTHING, ONE};
use ptl_types::NiFault::{InUse, NoSpace, Stale};
use ptl_types::{Descriptor, GetArgs, Outcome, TriggeredOp};

fn a_reply_past_the_end_of_its_descriptor_is_dropped() -> &'static [&'static [Step]] {
    const ASKS: GetArgs = GetArgs {
        length: 2,
        target: 1,
        ..GET
    };
    const SCRIPT: &[Step] = &[
        Here(MdBind(DESCRIPTOR), Made(0)),
        Here(Start(TriggeredOp::Get(ASKS)), Sent),
        Here(ForgeReply(FIRST, 15), Sent),
        Here(Deliver, Became(Outcome::Dropped)),
        Here(Drops, Number(1)),
        Here(Awaits(FIRST), Number(1)),
        HereHolds(&[0, 0, 0, 0, 0, 0, 0, 0, 0, 0, 0, 0, 0, 0, 0, 0]),
        Here(ForgeReply(FIRST, 14), Sent),
        Here(Deliver, Became(Outcome::Answered)),
        HereHolds(&[0, 0, 0, 0, 0, 0, 0, 0, 0, 0, 0, 0, 0, 0, 7, 8]),
    ];
    const SCRIPTS: &[&[Step]] = &[SCRIPT];
    SCRIPTS
}

fn an_acknowledgement_answers_for_an_awaited_reply() -> &'static [&'static [Step]] {
    const COUNTS: Descriptor = Descriptor {
        ct: Some(FIRST),
        count_ack: true,
        ..DESCRIPTOR
    };
    const ASKS: GetArgs = GetArgs {
        length: 2,
        target: 1,
        ..GET
    };
    const SCRIPT: &[Step] = &[
        Here(CtAlloc, Made(0)),
        Here(MdBind(COUNTS), Made(0)),
        Here(Start(TriggeredOp::Get(ASKS)), Sent),
        Here(ForgeAck(FIRST), Sent),
        Here(Deliver, Became(Outcome::Answered)),
        Here(Awaits(FIRST), Number(0)),
        Here(CtGet(FIRST), Counts(1, 0)),
        Here(Drops, Number(0)),
        // The reply that was asked for isn't awaited any more.
        Here(ForgeReply(FIRST, 0), Sent),
        Here(Deliver, Became(Outcome::Dropped)),
        Here(Drops, Number(1)),
        Here(CtGet(FIRST), Counts(1, 0)),
        HereHolds(&[0, 0, 0, 0, 0, 0, 0, 0, 0, 0, 0, 0, 0, 0, 0, 0]),
    ];
    const SCRIPTS: &[&[Step]] = &[SCRIPT];
    SCRIPTS
}

fn a_stale_handle_is_told_before_all_else() -> &'static [&'static [Step]] {
    const RAISE: TriggeredOp = TriggeredOp::Inc(FIRST, ONE);
    const STALE: TriggeredOp = TriggeredOp::Inc(NOTHING, ONE);
    const SCRIPT: &[Step] = &[
        Here(CtAlloc, Made(0)),
        Here(Triggered(RAISE, FIRST, 9), Number(0)),
        Here(Triggered(RAISE, FIRST, 9), Number(1)),
        Here(Triggered(RAISE, FIRST, 9), Number(2)),
        Here(Triggered(RAISE, FIRST, 9), Number(3)),
        Here(Triggered(RAISE, FIRST, 9), Refused(NoSpace)),
        Here(Triggered(RAISE, NOTHING, 9), Refused(Stale)),
        Here(Triggered(STALE, FIRST, 9), Refused(Stale)),
        Here(Pending, Number(4)),
        Here(PtAlloc(0, Some(NOTHING)), Refused(Stale)),
        Here(PtAlloc(0, None), Refused(InUse)),
    ];
    const SCRIPTS: &[&[Step]] = &[SCRIPT];
    SCRIPTS
}

#[test]
fn each_script(rt: HostRuntime) {
    plays!(&rt;
        a_reply_past_the_end_of_its_descriptor_is_dropped,
        an_acknowledgement_answers_for_an_awaited_reply,
        a_stale_handle_is_told_before_all_else
    );
}
