//! What no clause says: whole texts and their answers, from outside.

use crate::answers::{Answer, gives, holds, is_printed, same_answer};
use coll_lang::{ChoiceStep, Choices, Description, Inputs, ParseFault, Shape, parse};
use std::alloc::Global;
use std::process::Abort;

/// The line and the name of a refusal.
pub(crate) fn refusal(fault: ParseFault) -> (u32, &'static str) {
    match fault {
        ParseFault::Refused { line, name } => (line, name.word()),
        ParseFault::NoMemory => (0, "NoMemory"),
    }
}

/// What reading answers to the text.
fn answer(alloc: Global, text: &[u8]) -> Answer {
    match parse(alloc, text) {
        Ok(_) => None,
        Err(fault) => Some(refusal(fault)),
    }
}

const TEXTS: &[(&[u8], Answer)] = &[
    (b"coll 2\nranks 256\nbarrier\nend\n", None),
    (b"coll 1\nranks 65\nbarrier\nend\n", Some((2, "BadRanks"))),
    (
        b"coll 2\nranks 4\ngroup g 3 1\nend\n",
        Some((3, "BadGroup")),
    ),
    (
        b"coll 2\nranks 4\ngroup g 1 3\ninput g u8 1\n",
        Some((4, "NameTaken")),
    ),
    (b"coll 2\nranks 4\non g barrier\n", Some((3, "BadGroup"))),
    (
        b"coll 2\nranks 2\nelect a\ninput b u8 1\n",
        Some((4, "BadLine")),
    ),
    (b"coll 1\nranks 2\nbarrier\nend", Some((4, "Unended"))),
    (b"coll 1\nranks 2\nbarrier\nend\n\n", Some((5, "AfterEnd"))),
];

#[test]
fn texts_and_their_refusals(rt: HostRuntime) {
    for (i, case) in TEXTS.iter().enumerate() {
        same_answer(&rt, "TEXTS", i, answer(rt.alloc(), case.0), case.1);
    }
}

const PRINTED: &[&[u8]] = &[
    b"coll 1\nranks 1\ncomplete remote\ninput a u8 1\n7\nbroadcast 0 a b\nprint b\nend\n",
    b"coll 1\nranks 3\ninput a i8 1\n-128\n127\n0\nreduce 1 min a b\nbroadcast 1 b c\nprint c\nend\n",
    b"coll 1\nranks 2\ninput a i64 2\n-9223372036854775808 9223372036854775807\n0 -1\nscan max a b\nallreduce lxor b c\nend\n",
    b"coll 1\nranks 2\ninput a u64 1\n18446744073709551615\n0\ninput end u16 2\n1 65535\n3 4\ngather 1 a g\nallgather a h\nalltoall end k\nprint end\nprint k\nend\n",
    b"coll 2\nranks 4\ncomplete remote\ngroup odd 1 3\ngroup last 3\ninput a u8 4\n1 2 3 4\n5 6 7 8\n9 0 1 2\n3 4 5 6\non odd scatter 1 a b\non last gatherv 0 b c\nreducescatter sum a d\nexscan sum a e\non odd barrier\nprint b\nprint e\nend\n",
    b"coll 2\nranks 3\nelect a\ntickets b\nprint b\nprint a\nprint b\nend\n",
];

/// Whether the text is read, and printed as it stands.
fn is_kept(alloc: Global, text: &[u8]) -> bool {
    match parse(alloc, text) {
        Ok(d) => is_printed(alloc, &d, text),
        Err(_) => false,
    }
}

#[test]
fn a_text_is_printed_as_it_was_read(rt: HostRuntime) {
    for (i, text) in PRINTED.iter().enumerate() {
        holds(&rt, "PRINTED", i, is_kept(rt.alloc(), text));
    }
}

/// The shape of one broadcast on two ranks.
fn shape_of_a_broadcast(rt: &impl Abort, shape: &Shape) {
    gives!(rt; shape.ranks(), 2);
    gives!(rt; shape.remote(), false);
    gives!(rt; shape.steps().len(), 1);
    gives!(rt; shape.prints(), [1].as_slice());
    let [first, second] = shape.buffers() else {
        panic!(rt; "not two buffers")
    };
    gives!(rt; first.name.as_slice(), b"a".as_slice());
    gives!(rt; second.name.as_slice(), b"b".as_slice());
}

/// Its inputs.
fn inputs_of_a_broadcast(rt: &impl Abort, inputs: &Inputs) {
    let [one, other] = inputs.lists() else {
        panic!(rt; "not two lists")
    };
    gives!(rt; one.as_slice(), [1, 2].as_slice());
    gives!(rt; other.as_slice(), [3, 4].as_slice());
}

/// The description of a text that is read.
fn read(rt: &(impl Abort + AllocGlobal), text: &[u8]) -> Description {
    let Ok(d) = parse(rt.alloc(), text) else {
        panic!(rt; "refused")
    };
    d
}

#[test]
fn parts_of_a_description(rt: HostRuntime) {
    let d = read(
        &rt,
        b"coll 1\nranks 2\ninput a u8 2\n1 2\n3 4\nbroadcast 1 a b\nprint b\nend\n",
    );
    gives!(rt; d.choices().is_none(), true);
    let (shape, inputs) = d.into_parts();
    shape_of_a_broadcast(&rt, &shape);
    inputs_of_a_broadcast(&rt, &inputs);
}

/// Two choices, of which the second is printed.
fn two_choices(rt: &impl Abort, choices: &Choices) {
    gives!(rt; choices.prints(), [1].as_slice());
    let [ChoiceStep::Elect(first), ChoiceStep::Tickets(second)] = choices.steps() else {
        panic!(rt; "other steps")
    };
    gives!(rt; first.as_slice(), b"a".as_slice());
    gives!(rt; second.as_slice(), b"b".as_slice());
}

#[test]
fn choices_of_a_description(rt: HostRuntime) {
    let d = read(&rt, b"coll 2\nranks 3\nelect a\ntickets b\nprint b\nend\n");
    gives!(rt; d.shape().ranks(), 3);
    let Some(choices) = d.choices() else {
        panic!(rt; "no choices")
    };
    two_choices(&rt, choices);
}
