//! What texts mean: a buffer's list at a rank, of each collective, on all ranks and on a group. The lists are worked out by
//! hand from the standard's words.

use coll_lang::{Description, parse};
use coll_meaning::{buffers_of, printed_of};
use std::alloc::Global;
use std::process::Abort;

/// A text, and of its buffer with this number the bytes of the list at a rank.
type Meant = (&'static [u8], u32, u32, &'static [u8]);

static MEANT: [Meant; 24] = [
    (
        b"coll 1\nranks 3\ninput a u8 1\n5\n6\n9\nbroadcast 2 a b\nprint b\nend\n",
        1,
        0,
        b"\x09",
    ),
    (
        b"coll 1\nranks 3\ninput a i8 1\n-128\n127\n0\nreduce 1 min a b\nprint b\nend\n",
        1,
        1,
        b"\x80",
    ),
    (
        b"coll 1\nranks 3\ninput a i8 1\n-128\n127\n0\nreduce 1 min a b\nprint b\nend\n",
        1,
        0,
        b"",
    ),
    (
        b"coll 1\nranks 2\ninput a u16 1\n300\n500\nallreduce sum a b\nprint b\nend\n",
        1,
        0,
        b"\x20\x03",
    ),
    (
        b"coll 1\nranks 3\ninput a u8 1\n1\n2\n3\ngather 1 a b\nprint b\nend\n",
        1,
        1,
        b"\x01\x02\x03",
    ),
    (
        b"coll 1\nranks 3\ninput a u8 1\n1\n2\n3\ngather 1 a b\nprint b\nend\n",
        1,
        2,
        b"",
    ),
    (
        b"coll 1\nranks 2\ninput a u8 2\n1 2\n3 4\nallgather a b\nprint b\nend\n",
        1,
        0,
        b"\x01\x02\x03\x04",
    ),
    (
        b"coll 1\nranks 2\ninput a u8 2\n1 2\n3 4\nalltoall a b\nprint b\nend\n",
        1,
        1,
        b"\x02\x04",
    ),
    (
        b"coll 1\nranks 3\ninput a u8 1\n1\n2\n3\nscan sum a b\nprint b\nend\n",
        1,
        1,
        b"\x03",
    ),
    (
        b"coll 2\nranks 2\ninput a u8 2\n1 2\n3 4\nscatter 1 a b\nprint b\nend\n",
        1,
        0,
        b"\x03",
    ),
    (
        b"coll 2\nranks 2\ninput a u8 2\n1 2\n3 4\nscatter 1 a b\nprint b\nend\n",
        1,
        1,
        b"\x04",
    ),
    (
        b"coll 2\nranks 2\ninput a u8 2\n1 2\n3 4\nreducescatter sum a b\nprint b\nend\n",
        1,
        1,
        b"\x06",
    ),
    (
        b"coll 2\nranks 2\ninput a u8 2\n1 2\n3 4\nexscan sum a b\nprint b\nend\n",
        1,
        0,
        b"",
    ),
    (
        b"coll 2\nranks 2\ninput a u8 2\n1 2\n3 4\nexscan sum a b\nprint b\nend\n",
        1,
        1,
        b"\x01\x02",
    ),
    (
        b"coll 2\nranks 3\ninput a u8 1\n1\n2\n3\ngatherv 2 a b\nprint b\nend\n",
        1,
        2,
        b"\x01\x02\x03",
    ),
    (
        b"coll 2\nranks 4\ngroup odd 1 3\ninput a u8 1\n1\n2\n3\n4\non odd broadcast 1 a b\nprint b\nend\n",
        1,
        1,
        b"\x04",
    ),
    (
        b"coll 2\nranks 4\ngroup odd 1 3\ninput a u8 1\n1\n2\n3\n4\non odd broadcast 1 a b\nprint b\nend\n",
        1,
        0,
        b"",
    ),
    (
        b"coll 2\nranks 4\ngroup odd 1 3\ninput a u8 1\n1\n2\n3\n4\non odd allreduce sum a b\nprint b\nend\n",
        1,
        3,
        b"\x06",
    ),
    (
        b"coll 2\nranks 4\ngroup odd 1 3\ninput a u8 1\n1\n2\n3\n4\non odd exscan sum a b\nprint b\nend\n",
        1,
        3,
        b"\x02",
    ),
    (
        b"coll 2\nranks 4\ngroup odd 1 3\ninput a u8 2\n1 2\n3 4\n5 6\n7 8\non odd scatter 0 a b\nprint b\nend\n",
        1,
        3,
        b"\x04",
    ),
    (
        b"coll 2\nranks 4\ngroup odd 1 3\ninput a u8 2\n1 2\n3 4\n5 6\n7 8\non odd reducescatter sum a b\nprint b\nend\n",
        1,
        1,
        b"\x0a",
    ),
    (
        b"coll 2\nranks 3\ngroup g 0 2\ninput a u8 1\n1\n2\n3\non g allreduce sum a b\ngatherv 1 b c\nprint c\nend\n",
        2,
        1,
        b"\x04\x04",
    ),
    (
        b"coll 2\nranks 3\ngroup g 0 2\ninput a u8 1\n1\n2\n3\non g allreduce sum a b\ngatherv 1 b c\nprint c\nend\n",
        2,
        0,
        b"",
    ),
    (
        b"coll 2\nranks 2\ngroup g 1\ninput a u8 1\n1\n2\non g exscan sum a b\nprint b\nend\n",
        1,
        1,
        b"",
    ),
];

/// Whether two lists are equal.
fn are_equal(list: &[u8], wanted: &[u8]) -> bool {
    list == wanted
}

/// Whether the reading of all buffers gives the case's list.
fn is_among_all(alloc: Global, d: &Description, case: &Meant) -> bool {
    let (_, buffer, rank, wanted) = *case;
    match buffers_of(alloc, d.shape(), d.inputs()) {
        Ok(all) => are_equal(all.list(buffer, rank), wanted),
        Err(_) => false,
    }
}

/// Whether the reading of the printed buffers gives the case's list.
fn is_among_printed(alloc: Global, d: &Description, case: &Meant) -> bool {
    let (_, buffer, rank, wanted) = *case;
    match printed_of(alloc, d.shape(), d.inputs()) {
        Ok(printed) => are_equal(printed.list(buffer, rank), wanted),
        Err(_) => false,
    }
}

/// Whether both readings of the meaning give the case's list.
fn is_meant(alloc: Global, case: &Meant) -> bool {
    match parse(alloc, case.0) {
        Ok(d) => is_among_all(alloc, &d, case) && is_among_printed(alloc, &d, case),
        Err(_) => false,
    }
}

// The proof of what names a table carries the whole of it from step to step: so a function names it and does nothing else.
fn meant() -> &'static [Meant] {
    &MEANT
}

/// Stops the test where one of these means something else.
fn each_is_meant(rt: &(impl Abort + AllocGlobal), cases: &[Meant]) {
    for (i, case) in cases.iter().enumerate() {
        assert!(rt; is_meant(rt.alloc(), case), "at {i}");
    }
}

#[test]
fn lists_of_each_collective(rt: HostRuntime) {
    each_is_meant(&rt, meant());
}
