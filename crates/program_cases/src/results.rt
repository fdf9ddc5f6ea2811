//! What `once` writes: what each rank holds in the end.

use crate::runs::gives;
use crate::texts::{
    GROUPS, GROUPS_RESULT, HELD, HELD_RESULT, ONE_RANK, ONE_RANK_RESULT, THREE_RESULTS, THREE_STEPS,
};
use portals_top::Status;
use std::test::Fail;

/// Texts, and what `once` writes of them.
const RESULTS: &[(&str, &str)] = &[
    (ONE_RANK, ONE_RANK_RESULT),
    (
        "coll 1\nranks 3\ninput a u32 1\n5\n6\n9\nbroadcast 2 a b\nprint b\nend\n",
        "b 0 9\nb 1 9\nb 2 9\nrest\n",
    ),
    (
        "coll 1\nranks 2\ninput a u8 1\n200\n100\nallreduce sum a b\nprint b\nend\n",
        "b 0 44\nb 1 44\nrest\n",
    ),
    (
        "coll 1\nranks 3\ninput a i8 1\n-128\n127\n0\nreduce 1 min a b\nprint b\nend\n",
        "b 0\nb 1 -128\nb 2\nrest\n",
    ),
    (
        "coll 1\nranks 1\ninput a u8 1\n5\nallreduce land a b\nprint b\nend\n",
        "b 0 1\nrest\n",
    ),
    (
        "coll 1\nranks 5\ninput a u16 1\n1\n2\n3\n4\n5\nscan sum a b\nprint b\nend\n",
        "b 0 1\nb 1 3\nb 2 6\nb 3 10\nb 4 15\nrest\n",
    ),
    (
        "coll 1\nranks 2\ninput a u8 2\n1 2\n3 4\nalltoall a b\nprint b\nend\n",
        "b 0 1 3\nb 1 2 4\nrest\n",
    ),
    (
        "coll 1\nranks 3\ninput a u8 1\n1\n2\n3\ngather 0 a g\nallgather a h\nprint g\nprint h\n\
end\n",
        "g 0 1 2 3\ng 1\ng 2\nh 0 1 2 3\nh 1 1 2 3\nh 2 1 2 3\nrest\n",
    ),
    ("coll 1\nranks 4\nbarrier\nend\n", "rest\n"),
    (THREE_STEPS, THREE_RESULTS),
    (
        "coll 1\nranks 3\ninput a u8 1\n1\n2\n3\nreduce 1 sum a b\nbroadcast 1 b c\nprint c\nend\n",
        "c 0 6\nc 1 6\nc 2 6\nrest\n",
    ),
    (
        "coll 1\nranks 2\ninput a i16 1\n300\n300\nallreduce prod a m\nprint m\nend\n",
        "m 0 24464\nm 1 24464\nrest\n",
    ),
    (
        "coll 1\nranks 3\ninput a u8 1\n5\n6\n9\nbroadcast 2 a b\nprint b\nprint a\nend\n",
        "b 0 9\nb 1 9\nb 2 9\na 0 5\na 1 6\na 2 9\nrest\n",
    ),
    (
        "coll 1\nranks 1\ncomplete remote\ninput a u8 1\n7\nbroadcast 0 a b\nprint b\nend\n",
        "b 0 7\nrest\n",
    ),
    (GROUPS, GROUPS_RESULT),
    ("coll 2\nranks 256\nbarrier\nend\n", "rest\n"),
    (
        "coll 2\nranks 2\ninput a u8 2\n1 2\n3 4\nscatter 1 a b\nreducescatter sum a c\n\
exscan sum a d\nprint b\nprint c\nprint d\nend\n",
        "b 0 3\nb 1 4\nc 0 4\nc 1 6\nd 0\nd 1 1 2\nrest\n",
    ),
    (HELD, HELD_RESULT),
    (
        "coll 2\nranks 2\ngroup g 1\ninput a u8 1\n1\n2\non g exscan sum a b\nprint b\nend\n",
        "b 0\nb 1\nrest\n",
    ),
];

#[test]
fn once_writes_what_each_rank_holds(rt: HostRuntime) -> Result<(), Fail> {
    for (text, output) in RESULTS {
        gives(&rt, rt.alloc(), &["once"], text, Status::Done, output)?;
    }
    Ok(())
}
