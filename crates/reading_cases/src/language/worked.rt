//! Worked texts and texts that differ from them in one line.

use crate::answers::{Answer, same_answer};
use crate::language::answers::{Refused, are_refused};
use crate::language::texts::{answer, answer_to};
use std::alloc::Global;

/// Accepted texts of both versions: each collective, on all ranks and on groups, and choice texts.
static ACCEPTED: [&[u8]; 27] = [
    b"coll 1\nranks 1\ninput a u8 1\n7\nbroadcast 0 a b\nprint b\nend\n",
    b"coll 1\nranks 3\ninput a u32 1\n5\n6\n9\nbroadcast 2 a b\nprint b\nend\n",
    b"coll 1\nranks 2\ninput a u8 1\n200\n100\nallreduce sum a b\nprint b\nend\n",
    b"coll 1\nranks 3\ninput a i8 1\n-128\n127\n0\nreduce 1 min a b\nprint b\nend\n",
    b"coll 1\nranks 1\ninput a u8 1\n5\nallreduce land a b\nprint b\nend\n",
    b"coll 1\nranks 5\ninput a u16 1\n1\n2\n3\n4\n5\nscan sum a b\nprint b\nend\n",
    b"coll 1\nranks 2\ninput a u8 2\n1 2\n3 4\nalltoall a b\nprint b\nend\n",
    b"coll 1\nranks 3\ninput a u8 1\n1\n2\n3\ngather 0 a g\nallgather a h\nprint g\nprint h\nend\n",
    b"coll 1\nranks 4\nbarrier\nend\n",
    b"coll 1\nranks 4\ninput a u32 1\n1\n2\n3\n4\nallreduce sum a b\nbarrier\nscan sum b c\nprint c\nend\n",
    b"coll 1\nranks 3\ninput a u8 1\n1\n2\n3\nreduce 1 sum a b\nbroadcast 1 b c\nprint c\nend\n",
    b"coll 1\nranks 2\ninput a i16 1\n300\n300\nallreduce prod a m\nprint m\nend\n",
    b"coll 1\nranks 3\ninput a u8 1\n5\n6\n9\nbroadcast 2 a b\nprint b\nprint a\nend\n",
    b"coll 1\nranks 1\ncomplete remote\ninput a u8 1\n7\nbroadcast 0 a b\nprint b\nend\n",
    b"coll 1\nranks 1\nend\n",
    b"coll 2\nranks 1\nend\n",
    b"coll 2\nranks 1\ninput a u8 1\n7\nbroadcast 0 a b\nprint b\nend\n",
    b"coll 2\nranks 4\ngroup odd 1 3\ninput a u8 1\n1\n2\n3\n4\non odd allreduce sum a b\non odd broadcast 1 a c\nprint b\nprint c\nend\n",
    b"coll 2\nranks 256\nbarrier\nend\n",
    b"coll 2\nranks 2\ninput a u8 2\n1 2\n3 4\nscatter 1 a b\nreducescatter sum a c\nexscan sum a d\nprint b\nprint c\nprint d\nend\n",
    b"coll 2\nranks 3\ngroup g 0 2\ninput a u8 1\n1\n2\n3\non g allreduce sum a b\ngatherv 1 b c\nprint c\nend\n",
    b"coll 2\nranks 1\nelect e\ntickets t\nprint e\nprint t\nend\n",
    b"coll 2\nranks 3\ncomplete remote\ngroup group 0 1 2\ngroup on 2\ninput end u8 2\n1 2\n3 4\n5 6\non on barrier\non group reduce 2 max end reduce\non on broadcast 0 reduce print\non group gatherv 0 print coll\nexscan bxor end e\ngatherv 2 e f\non on scatter 0 f g\nprint e\nprint end\nend\n",
    b"coll 2\nranks 2\ninput a i64 2\n-1 0\n1 -9223372036854775808\nprint a\nprint a\nend\n",
    b"coll 2\nranks 2\ngroup g 1\ninput a u8 1\n1\n2\non g exscan sum a b\nprint b\nend\n",
    b"coll 2\nranks 256\ntickets t\nprint t\nprint t\nend\n",
    b"coll 2\nranks 4\ngroup odd 1 3\ngroup one 2\ninput a u8 3\n1 2 3\n4 5 6\n7 8 9\n10 11 12\nreduce 1 sum a r\non odd exscan sum a x\non one exscan sum a n\non odd gatherv 0 x b0\non odd gatherv 0 r b1\non one alltoall a b2\non one scatter 0 a b3\non odd broadcast 1 x b4\nprint b4\nend\n",
];

// The proof of what names a table carries the whole of it from step to step: so a function names it and does nothing else.
fn accepted() -> &'static [&'static [u8]] {
    &ACCEPTED
}

#[test]
fn accepted_and_printed_back(rt: HostRuntime) {
    for (i, text) in accepted().iter().enumerate() {
        same_answer(&rt, "ACCEPTED", i, answer(rt.alloc(), text), None);
    }
}

/// Texts that differ from a worked one in one line, each with the line and the name of its refusal.
static OTHERWISE: [Refused; 31] = [
    (b"", 1, "Unended"),
    (b"coll 3\nranks 1\nend\n", 1, "BadHeader"),
    (b"coll 1\nranks 65\nend\n", 2, "BadRanks"),
    (b"coll 2\nranks 257\nend\n", 2, "BadRanks"),
    (
        b"coll 1\nranks 1\ninput a u8 1 \n7\nbroadcast 0 a b\nprint b\nend\n",
        3,
        "BadLine",
    ),
    (
        b"coll 1\nranks 1\ninput a\tu8 1\n7\nbroadcast 0 a b\nprint b\nend\n",
        3,
        "BadByte",
    ),
    (
        b"coll 1\nranks 1\ninput a u8 4097\n7\nbroadcast 0 a b\nprint b\nend\n",
        3,
        "BadNumber",
    ),
    (
        b"coll 1\nranks 1\ninput a u8 1\n7 8\nbroadcast 0 a b\nprint b\nend\n",
        4,
        "BadLine",
    ),
    (
        b"coll 1\nranks 1\ninput a u8 1\n256\nbroadcast 0 a b\nprint b\nend\n",
        4,
        "BadNumber",
    ),
    (
        b"coll 1\nranks 1\ninput a u8 1\n007\nbroadcast 0 a b\nprint b\nend\n",
        4,
        "BadNumber",
    ),
    (
        b"coll 1\nranks 1\ninput a u8 1\ncomplete remote\n7\nbroadcast 0 a b\nprint b\nend\n",
        4,
        "BadLine",
    ),
    (
        b"coll 1\nranks 1\ninput a u8 1\n7\nbroadcast 1 a b\nprint b\nend\n",
        5,
        "BadRoot",
    ),
    (
        b"coll 1\nranks 1\ninput a u8 1\n7\nbroadcast 0 a a\nprint b\nend\n",
        5,
        "NameTaken",
    ),
    (
        b"coll 1\nranks 1\ninput a u8 1\n7\nbroadcast 0 c c\nprint b\nend\n",
        5,
        "UnknownBuffer",
    ),
    (
        b"coll 1\nranks 1\ninput a u8 1\n7\nbroadcast 0 a b\nprint b\nbarrier\nend\n",
        7,
        "BadLine",
    ),
    (
        b"coll 1\nranks 1\ninput a u8 1\n7\nbroadcast 0 a b\nprint b\n",
        7,
        "Unended",
    ),
    (
        b"coll 1\nranks 1\ninput a u8 1\n7\nbroadcast 0 a b\nprint b\nend",
        7,
        "Unended",
    ),
    (
        b"coll 1\nranks 1\ninput a u8 1\n7\nbroadcast 0 a b\nprint b\nend\nx",
        8,
        "AfterEnd",
    ),
    (
        b"coll 1\nranks 1\ninput a u8 1\n7\nbroadcast 0 a b\nprint b\nend\nend\n",
        8,
        "AfterEnd",
    ),
    (
        b"coll 1\nranks 2\ninput a u8 3\n1 2 3\n4 5 6\nalltoall a b\nend\n",
        6,
        "WrongShape",
    ),
    (
        b"coll 1\nranks 3\ninput a u8 1\n1\n2\n3\nreduce 1 sum a b\nbroadcast 0 b c\nprint c\nend\n",
        8,
        "WrongShape",
    ),
    (
        b"coll 1\nranks 1\ncomplete remote\ncomplete remote\nend\n",
        4,
        "BadLine",
    ),
    (
        b"coll 2\nranks 4\ngroup odd 1 3\ninput a u8 1\n1\n2\n3\n4\non odd broadcast 2 a b\non odd broadcast 1 a c\nprint b\nprint c\nend\n",
        9,
        "BadRoot",
    ),
    (
        b"coll 2\nranks 4\ngroup odd 3 1\ninput a u8 1\n1\n2\n3\n4\non odd allreduce sum a b\non odd broadcast 1 a c\nprint b\nprint c\nend\n",
        3,
        "BadGroup",
    ),
    (
        b"coll 2\nranks 4\ngroup odd 1 3\ninput a u8 1\n1\n2\n3\n4\non even barrier\non odd broadcast 1 a c\nprint b\nprint c\nend\n",
        9,
        "BadGroup",
    ),
    (
        b"coll 2\nranks 4\ngroup odd 1 3\ninput a u8 1\n1\n2\n3\n4\non odd allreduce sum a b\nallgather b c\nprint b\nprint c\nend\n",
        10,
        "WrongShape",
    ),
    (
        b"coll 1\nranks 4\ngroup odd 1 3\ninput a u8 1\n1\n2\n3\n4\non odd allreduce sum a b\non odd broadcast 1 a c\nprint b\nprint c\nend\n",
        3,
        "BadLine",
    ),
    (
        b"coll 1\nranks 2\ninput a u8 2\n1 2\n3 4\nscatter 1 a b\nreducescatter sum a c\nexscan sum a d\nprint b\nprint c\nprint d\nend\n",
        6,
        "BadLine",
    ),
    (
        b"coll 2\nranks 3\ngroup g 0 2\ninput a u8 1\n1\n2\n3\non g allreduce sum a b\non g scatter 0 b c\nprint c\nend\n",
        9,
        "WrongShape",
    ),
    (
        b"coll 1\nranks 1\nelect e\ntickets t\nprint e\nprint t\nend\n",
        3,
        "BadLine",
    ),
    (
        b"coll 2\nranks 1\nelect e\nbarrier\ntickets t\nprint e\nprint t\nend\n",
        4,
        "BadLine",
    ),
];

fn otherwise() -> &'static [Refused] {
    &OTHERWISE
}

#[test]
fn one_line_otherwise(rt: HostRuntime) {
    are_refused(&rt, "OTHERWISE", otherwise());
}

/// What reading answers to 1,048,577 of this byte.
fn one_too_many(alloc: Global, byte: u8) -> Answer {
    let block = [byte; 256];
    answer_to(alloc, &[(&block, 4096), (&[byte], 1)])
}

/// Bytes are counted before anything else is looked at.
#[test]
fn one_byte_more_than_a_text_may_have(rt: HostRuntime) {
    for byte in [b'\n', b'x', 0, 0xff] {
        same_answer(
            &rt,
            "byte",
            byte as usize,
            one_too_many(rt.alloc(), byte),
            Some((0, "TooLong")),
        );
    }
}
