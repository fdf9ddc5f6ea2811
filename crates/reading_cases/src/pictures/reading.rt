//! What is read, and where a text is refused.

use crate::answers::gives;
use crate::pictures::answers::is_fault;
use plan_pictures::lines::{OrderText, PlanText, Refusal, TextFault, read_orders, read_plan};
use ptl_types::{AtomicOp, ElemType, Lane, LocalStep};
use std::process::Abort;

/// A plan of one rank with a broadcast of two 16-bit values to itself, and their sum.
const SUM: &str = "plan 1 4 4 remote\ncell 0 0 u8 - 0 1\ncell 1 0 u16 - 4 1\ncell 2 0 i16 sum 4 2\n\
cell 3 0 u16 - 4 1\nlink 0 0 0 0 1 0 bump\nlink 1 0 0 0 2 0 bump\nlink 2 1 2 4 2 6 atomic\nlink 3 2 0 4 3 0 put\n\
done 0 18446744073709551615\nend\n";

/// What the plan says as a whole.
fn whole_of_sum(rt: &impl Abort, plan: &PlanText) {
    gives!(rt; plan.ranks, 1);
    gives!(rt; plan.given.plan().remote(), true);
    gives!(rt; plan.cells().len(), 4);
    gives!(rt; plan.links().len(), 4);
    gives!(rt; plan.given.done(), [18446744073709551615].as_slice());
}

/// What it says of its third cell.
fn cell_of_sum(rt: &impl Abort, plan: &PlanText) {
    let Some(cell) = plan.cells().get(2) else {
        panic!(rt; "no third cell")
    };
    gives!(rt; cell.ty, ElemType::I16);
    gives!(rt; cell.op, Some(AtomicOp::Sum));
    gives!(rt; (cell.rank, cell.length, cell.needs), (0, 4, 2));
}

/// What it says of its third link.
fn link_of_sum(rt: &impl Abort, plan: &PlanText) {
    let Some(link) = plan.links().get(2) else {
        panic!(rt; "no third link")
    };
    gives!(rt; (link.source, link.source_offset, link.length), (1, 2, 4));
    gives!(rt; (link.target, link.target_offset), (2, 6));
}

/// What the plan says.
fn is_sum(rt: &impl Abort, plan: &PlanText) {
    whole_of_sum(rt, plan);
    cell_of_sum(rt, plan);
    link_of_sum(rt, plan);
}

#[test]
fn a_plan_is_read(rt: HostRuntime) {
    let Ok(text) = read_plan(rt.alloc(), SUM.as_bytes()) else {
        panic!(rt; "refused")
    };
    gives!(rt; text.verdict.is_none(), true);
    is_sum(&rt, &text.plan);
}

/// The orders of two ranks, of which the second has none.
fn are_orders_of_two(rt: &impl Abort, text: &OrderText) {
    gives!(rt; text.plan.is_none(), true);
    let [first, second] = text.orders.as_slice() else {
        panic!(rt; "not two orders")
    };
    let steps = [
        LocalStep::Start,
        LocalStep::Fire { number: 0 },
        LocalStep::Receive {
            source: 1,
            lane: Lane::Answer,
        },
    ];
    gives!(rt; first.steps.as_slice(), steps.as_slice());
    gives!(rt; second.steps.is_empty(), true);
}

#[test]
fn orders_are_read(rt: HostRuntime) {
    let text = "b 0 7\nrest\norder 0 s f0 a1\norder 1\n";
    let Ok(orders) = read_orders(rt.alloc(), text.as_bytes()) else {
        panic!(rt; "refused")
    };
    are_orders_of_two(&rt, &orders);
}

/// Texts of plans, and the line and the name of the refusal of each.
const NO_PLANS: &[(&str, u32, Refusal)] = &[
    ("", 1, Refusal::NotAPlan),
    ("plan 1 4 4 local", 1, Refusal::NotAPlan),
    ("plan 0 4 4 local\n", 1, Refusal::NotAPlan),
    ("plan 257 257 0 local\n", 1, Refusal::NotAPlan),
    ("plan 1 4 2 local\n", 2, Refusal::NotAPlan),
    ("plan 1 4 20001 local\n", 1, Refusal::TooManyLinks),
    ("plan 1 4 20000 local\n", 2, Refusal::NotAPlan),
    ("plan 1 20002 0 local\n", 1, Refusal::TooManyCells),
    (
        "coll 1\nranks 1\nend\nfails 3 Needs\n",
        4,
        Refusal::NotAPlan,
    ),
    (
        "coll 3\nplan 1 1 0 local\n",
        1,
        Refusal::Description(coll_lang::Refusal::BadHeader),
    ),
    (
        "plan 1 1 0 local\ncell 0 0 u9 - 0 1\n",
        2,
        Refusal::NotAPlan,
    ),
    (
        "plan 1 1 0 local\ncell 0 1 u8 - 0 1\n",
        3,
        Refusal::NotAPlan,
    ),
    (
        "plan 1 1 0 local\ncell 0 0 u8 - 0 01\n",
        2,
        Refusal::NotAPlan,
    ),
    (
        "plan 1 1 0 local\ncell 0 0 u8 - 0 1 \n",
        2,
        Refusal::NotAPlan,
    ),
    (
        "plan 1 2 1 local\ncell 0 0 u8 - 0 1\ncell 1 0 u8 - 0 1\nlink 0 1 0 0 1 0 bump\n",
        5,
        Refusal::NotAPlan,
    ),
    (
        "plan 1 2 1 local\ncell 0 0 u8 - 0 1\ncell 1 0 u8 - 0 1\nlink 0 0 0 0 1 0 get\n",
        4,
        Refusal::NotAPlan,
    ),
    (
        "plan 1 1 0 local\ncell 0 0 u8 - 0 1\ndone 1 1\n",
        3,
        Refusal::NotAPlan,
    ),
    (
        "plan 1 1 0 local\ncell 0 0 u8 - 0 1\ndone 0 1\nend\nend\n",
        5,
        Refusal::NotAPlan,
    ),
    (
        "plan 1 1 0 local\ncell 0 0 u8 - 0 1\ndone 0 1\nend\nfails 2 <b>\n",
        5,
        Refusal::NotAPlan,
    ),
];

#[test]
fn other_plans_are_refused(rt: HostRuntime) {
    for case in NO_PLANS.iter() {
        let (text, line, name) = *case;
        let fault = read_plan(rt.alloc(), text.as_bytes()).err();
        is_fault(&rt, text, fault, TextFault::Refused { line, name });
    }
}

/// Texts of orders, and the line of the refusal of each.
const NO_ORDERS: &[(&str, u32)] = &[
    ("rest\n", 2),
    ("holds\n", 1),
    ("order 1 s\n", 1),
    ("order 0 s x\n", 1),
    ("order 0 s\norder 0 s\n", 2),
    ("order 0 r256\n", 1),
    (
        "plan 1 1 0 local\ncell 0 0 u8 - 0 1\ndone 0 0\nend\norder 0 r1\n",
        5,
    ),
    (
        "plan 1 1 0 local\ncell 0 0 u8 - 0 1\ndone 0 0\nend\norder 0 s\norder 1 s\n",
        6,
    ),
    (
        "plan 2 2 0 local\ncell 0 0 u8 - 0 1\ncell 1 1 u8 - 0 1\ndone 0 0\ndone 1 0\nend\norder 0 s\n",
        8,
    ),
];

#[test]
fn other_orders_are_refused(rt: HostRuntime) {
    let name = Refusal::NotAnOrder;
    for case in NO_ORDERS.iter() {
        let (text, line) = *case;
        let fault = read_orders(rt.alloc(), text.as_bytes()).err();
        is_fault(&rt, text, fault, TextFault::Refused { line, name });
    }
}
