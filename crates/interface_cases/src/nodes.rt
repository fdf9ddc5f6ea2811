//! What a node and a world ask of an interface: its headers, its ready operations by number and by rank, and whether an
//! answer is awaited.

use crate::comparing::gives;
use crate::sides::{Side, over};
use crate::values::{DESCRIPTOR, ENTRY, FIRST, LIMITS, ONE, PUT};
use ptl_types::{AckRequest, Appended, List, PutArgs, TriggeredOp};
use std::process::Abort;

/// A put of no bytes to rank 1, with an acknowledgement.
const TO_ONE: PutArgs = PutArgs {
    target: 1,
    ack: AckRequest::CtAck,
    ..PUT
};

/// Three operations on one counting event, with thresholds 2, 1 and 1: a put to rank 1, one to rank 0, and an increment.
fn post_three(rt: &impl Abort, side: &mut Side) {
    gives!(rt; side.ct_alloc().is_ok(), true);
    gives!(rt; side.md_bind(DESCRIPTOR).is_ok(), true);
    gives!(rt; side.triggered(rt, TriggeredOp::Put(TO_ONE), FIRST, 2), Ok(0));
    gives!(rt; side.triggered(rt, TriggeredOp::Put(PUT), FIRST, 1), Ok(1));
    gives!(rt; side.triggered(rt, TriggeredOp::Inc(FIRST, ONE), FIRST, 1), Ok(2));
}

#[test]
fn ready_operations_by_number_and_by_rank(rt: HostRuntime) {
    let mut side = over(&rt, 0, LIMITS, &[0; 16]);
    post_three(&rt, &mut side);
    gives!(rt; side.ready_count(), 0);
    gives!(rt; side.ready_at(0), None);
    gives!(rt; side.ct_inc(FIRST, ONE).is_ok(), true);
    gives!(rt; side.ready_count(), 2);
    gives!(rt; side.ready_at(0), Some(1));
    gives!(rt; side.ready_at(1), Some(2));
    gives!(rt; side.ready_count_to(0), 1);
    gives!(rt; side.ready_count_to(1), 0);
    gives!(rt; side.ct_inc(FIRST, ONE).is_ok(), true);
    gives!(rt; side.ready_at(0), Some(0));
    gives!(rt; side.ready_count_to(1), 1);
    gives!(rt; side.lane_of(0), Some(1));
    gives!(rt; side.lane_of(1), Some(0));
    gives!(rt; side.lane_of(2), None);
    gives!(rt; side.lane_of(3), None);
}

#[test]
fn an_answer_is_awaited_from_the_firing_on(rt: HostRuntime) {
    let mut side = over(&rt, 0, LIMITS, &[0; 16]);
    post_three(&rt, &mut side);
    gives!(rt; side.ct_inc(FIRST, ONE).is_ok(), true);
    gives!(rt; side.ct_inc(FIRST, ONE).is_ok(), true);
    gives!(rt; side.awaits_any(), false);
    gives!(rt; side.fire(&rt, 0).is_some(), true);
    gives!(rt; side.awaits_any(), true);
}

#[test]
fn headers_in_the_order_of_arrival(rt: HostRuntime) {
    let mut side = over(&rt, 0, LIMITS, &[0; 16]);
    gives!(rt; side.pt_alloc(0, None).is_ok(), true);
    gives!(rt; side.md_bind(DESCRIPTOR).is_ok(), true);
    let linked = side.me_append(0, List::Overflow, ENTRY);
    gives!(rt; matches!(linked, Ok(Appended::Linked(_))), true);
    gives!(rt; side.headers(), 0);
    for hdr_data in [7, 8] {
        let put = side.start(&rt, TriggeredOp::Put(PutArgs { hdr_data, ..PUT }));
        let message = put.expect(&rt, "a message");
        let _came = side.deliver(&rt, message);
    }
    gives!(rt; side.headers(), 2);
    gives!(rt; side.header(0, 0).map(|h| h.header.hdr_data), Some(7));
    gives!(rt; side.header(0, 1).map(|h| h.header.hdr_data), Some(8));
    gives!(rt; side.header(0, 2), None);
    gives!(rt; side.header(1, 0), None);
}
