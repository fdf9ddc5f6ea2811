//! What no clause says: whole inputs and their answers, from outside.

ghost use Rattle.std.specs.Prelude.{◌<◌, length};

use crate::answers::{Answer, gives, same_answer};
use crate::texts::refusal;
use order_lines::{Orders, parse_check};
use ptl_types::{Lane, LocalStep};
use std::alloc::Global;
use std::process::Abort;

/// What reading answers to the input.
fn answer(alloc: Global, text: &[u8]) -> Answer {
    match parse_check(alloc, text) {
        Ok(_) => None,
        Err(fault) => Some(refusal(fault)),
    }
}

const INPUTS: &[(&[u8], Answer)] = &[
    (b"coll 1\nranks 1\nbarrier\nend\norder 0\n", None),
    (
        b"coll 1\nranks 1\nbarrier\nend\norder 0 x\n",
        Some((5, "BadOrder")),
    ),
    (
        b"coll 1\nranks 2\nbarrier\nend\norder 0 r2\norder 1\n",
        Some((5, "BadOrder")),
    ),
    (
        b"coll 1\nranks 2\nbarrier\nend\norder 0\norder 0\n",
        Some((6, "BadOrder")),
    ),
    (
        b"coll 1\nranks 1\nbarrier\nend\norder 0 f4294967296\n",
        Some((5, "BadOrder")),
    ),
    (
        b"coll 1\nranks 1\nbarrier\nend\norder 0 f99999999999999999999\n",
        Some((5, "BadOrder")),
    ),
    (
        b"coll 1\nranks 1\nbarrier\nend\norder 0 s \n",
        Some((5, "BadOrder")),
    ),
    (
        b"coll 1\nranks 1\nbarrier\nend\norder 0\ts\n",
        Some((5, "BadByte")),
    ),
    (
        b"coll 1\nranks 2\nbarrier\nend\norder 0 s\n",
        Some((6, "Unended")),
    ),
    (
        b"coll 1\nranks 1\nbarrier\nend\norder 0 s",
        Some((5, "Unended")),
    ),
    (
        b"coll 1\nranks 1\nbarrier\nend\norder 0 s\n\n",
        Some((6, "AfterEnd")),
    ),
    (b"coll 3\nend\norder 0 x\n", Some((1, "BadHeader"))),
    (b"coll 1\nranks 1\nbarrier\n", Some((4, "Unended"))),
    (b"", Some((1, "Unended"))),
    (
        b"coll 2\nranks 2\nelect b\nend\norder 0 x\n",
        Some((0, "OneThread")),
    ),
    (
        b"coll 2\nranks 2\nelect b\nbarrier\nend\n",
        Some((4, "BadLine")),
    ),
    (
        b"coll 1\nranks 1\ninput end u8 1\n7\nprint end\nend\norder 0 f0\n",
        None,
    ),
];

#[test]
fn inputs_and_their_refusals(rt: HostRuntime) {
    for (i, case) in INPUTS.iter().enumerate() {
        same_answer(&rt, "INPUTS", i, answer(rt.alloc(), case.0), case.1);
    }
}

/// The orders of two ranks, of which the second has none.
fn orders_of_two(rt: &impl Abort, orders: &Orders)
    requires { 1 < length orders.now }
{
    let answer = LocalStep::Receive {
        source: 1,
        lane: Lane::Answer,
    };
    let steps = [LocalStep::Start, LocalStep::Fire { number: 0 }, answer];
    gives!(rt; orders.steps(0), steps.as_slice());
    gives!(rt; orders.steps(1).len(), 0);
}

#[test]
fn the_orders_of_two_ranks(rt: HostRuntime) {
    let text = b"coll 1\nranks 2\nbarrier\nend\norder 0 s f0 a1\norder 1\n";
    let Ok((description, orders)) = parse_check(rt.alloc(), text) else {
        panic!(rt; "refused")
    };
    // What the ranks are is needed below, so it is compared here.
    assert_eq!(rt; description.shape().ranks(), 2);
    orders_of_two(&rt, &orders);
}
