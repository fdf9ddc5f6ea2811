//! Texts that are refused, under each command that reads a description.

use crate::comparing::{same, same_bytes};
use crate::runs::{gives, no_world, run_between, same_left, unread};
use port_io::{SureSink, SureSource};
use portals_top::Status;
use ptl_types::Bytes;
use std::alloc::Global;
use std::process::Abort;
use std::sync::Wait;
use std::test::Fail;
use std::thread::Threads;

/// Texts that are refused alike under all commands.
const REFUSED: &[(&str, &str)] = &[
    ("", "refused 1 Unended\n"),
    (
        "coll 3\nranks 1\ninput a u8 1\n7\nbroadcast 0 a b\nprint b\nend\n",
        "refused 1 BadHeader\n",
    ),
    (
        "coll 1\nranks 65\ninput a u8 1\n7\nbroadcast 0 a b\nprint b\nend\n",
        "refused 2 BadRanks\n",
    ),
    (
        "coll 1\nranks 1\ninput a u8 1 \n7\nbroadcast 0 a b\nprint b\nend\n",
        "refused 3 BadLine\n",
    ),
    (
        "coll 1\nranks 1\ninput a\tu8 1\n7\nbroadcast 0 a b\nprint b\nend\n",
        "refused 3 BadByte\n",
    ),
    (
        "coll 1\nranks 1\ninput a u8 4097\n7\nbroadcast 0 a b\nprint b\nend\n",
        "refused 3 BadNumber\n",
    ),
    (
        "coll 1\nranks 1\ninput a u8 1\n7 8\nbroadcast 0 a b\nprint b\nend\n",
        "refused 4 BadLine\n",
    ),
    (
        "coll 1\nranks 1\ninput a u8 1\n256\nbroadcast 0 a b\nprint b\nend\n",
        "refused 4 BadNumber\n",
    ),
    (
        "coll 1\nranks 1\ninput a u8 1\n007\nbroadcast 0 a b\nprint b\nend\n",
        "refused 4 BadNumber\n",
    ),
    (
        "coll 1\nranks 1\ninput a u8 1\n7\nbroadcast 1 a b\nprint b\nend\n",
        "refused 5 BadRoot\n",
    ),
    (
        "coll 1\nranks 1\ninput a u8 1\n7\nbroadcast 0 a a\nprint b\nend\n",
        "refused 5 NameTaken\n",
    ),
    (
        "coll 1\nranks 1\ninput a u8 1\n7\nbroadcast 0 c c\nprint b\nend\n",
        "refused 5 UnknownBuffer\n",
    ),
    (
        "coll 1\nranks 1\ninput a u8 1\n7\nbroadcast 0 a b\nprint b\nbarrier\nend\n",
        "refused 7 BadLine\n",
    ),
    (
        "coll 1\nranks 1\ninput a u8 1\n7\nbroadcast 0 a b\nprint b\n",
        "refused 7 Unended\n",
    ),
    (
        "coll 1\nranks 1\ninput a u8 1\n7\nbroadcast 0 a b\nprint b\nend",
        "refused 7 Unended\n",
    ),
    (
        "coll 1\nranks 1\ninput a u8 1\ncomplete remote\nend\n",
        "refused 4 BadLine\n",
    ),
    (
        "coll 1\nranks 2\ninput a u8 3\n1 2 3\n4 5 6\nalltoall a b\nend\n",
        "refused 6 WrongShape\n",
    ),
    (
        "coll 1\nranks 3\ninput a u8 1\n1\n2\n3\nreduce 1 sum a b\nbroadcast 0 b c\nprint c\nend\n",
        "refused 8 WrongShape\n",
    ),
    (
        "coll 2\nranks 4\ngroup odd 3 1\nend\n",
        "refused 3 BadGroup\n",
    ),
    (
        "coll 2\nranks 4\ngroup odd 1 3\non odd broadcast 2 a b\nend\n",
        "refused 4 UnknownBuffer\n",
    ),
    (
        "coll 2\nranks 3\ngroup g 0 2\ninput a u8 1\n1\n2\n3\non g allreduce sum a b\n\
on g scatter 0 b c\nprint c\nend\n",
        "refused 9 WrongShape\n",
    ),
    (
        "coll 2\nranks 1\nelect e\nbarrier\nend\n",
        "refused 4 BadLine\n",
    ),
];

/// The commands that read a description.
const COMMANDS: &[&[&str]] = &[
    &["once"],
    &["plan"],
    &["check"],
    &["sim", "1"],
    &["run", "2"],
    &["trace", "2"],
    &["steady", "2"],
];

/// All these texts are refused under a command.
fn refuses(
    rt: &(impl Abort + Threads + Wait + Sync),
    alloc: Global,
    command: &[&str],
) -> Result<(), Fail> {
    for (text, output) in REFUSED {
        gives(rt, alloc, command, text, Status::Refused, output)?;
    }
    Ok(())
}

#[test]
fn a_refused_text_gets_its_line_under_each_command(rt: HostRuntime) -> Result<(), Fail> {
    for command in COMMANDS {
        refuses(&rt, rt.alloc(), command)?;
    }
    Ok(())
}

/// What stands after a description.
const AFTER: &str = "coll 1\nranks 1\nend\nx";

const CHOICE: &str = "coll 2\nranks 1\nelect e\ntickets t\nprint e\nprint t\nend\n";

/// Commands, a text, and the line in which each refuses it.
const OWN_WAYS: &[(&[&str], &str, &str)] = &[
    // What stands after a description is an order line that isn't ended, where orders are due.
    (&["once"], AFTER, "refused 4 AfterEnd\n"),
    (&["check"], AFTER, "refused 4 Unended\n"),
    (&["plan"], CHOICE, "refused 0 OneThread\n"),
    (&["run", "2"], CHOICE, "refused 0 OneThread\n"),
    (&["trace", "2"], CHOICE, "refused 0 OneThread\n"),
    (&["steady", "2"], CHOICE, "refused 0 OneThread\n"),
    (&["check"], CHOICE, "refused 0 OneThread\n"),
    (
        &["json", "2"],
        "coll 1\nranks 1\nend\n",
        "refused 0 BadJson\n",
    ),
];

#[test]
fn commands_that_refuse_in_their_own_way(rt: HostRuntime) -> Result<(), Fail> {
    for (command, text, output) in OWN_WAYS {
        gives(&rt, rt.alloc(), command, text, Status::Refused, output)?;
    }
    Ok(())
}

/// Runs a command on so many bytes, of which so many stay unread.
fn reads_no_further(
    rt: &(impl Abort + Threads + Wait + Sync),
    alloc: Global,
    command: &[&str],
    count: usize,
    left_unread: usize,
    output: &str,
) -> Result<(), Fail> {
    let long = vec![in alloc; b'x'; count]?;
    let mut source = SureSource::new(Bytes::from_vec(long));
    let mut sink = SureSink::with_room(alloc, 64)?;
    let left = run_between(rt, alloc, command, &mut source, &mut sink);
    same_left(rt, &count, left, no_world(Status::Refused));
    same_bytes(rt, &count, sink.as_slice(), output.as_bytes());
    same(rt, &count, unread(&mut source), Ok(left_unread));
    Ok(())
}

/// Commands, how many bytes they get, how many of these stay unread, and what is written.
const LONG: &[(&[&str], usize, usize, &str)] = &[
    (&["once"], 1_048_576, 0, "refused 1 Unended\n"),
    (&["once"], 1_048_577, 0, "refused 0 TooLong\n"),
    (&["plan"], 1_048_580, 3, "refused 0 TooLong\n"),
    (&["json", "2"], 1_048_580, 3, "refused 0 TooLong\n"),
    // No line ends the description.
    (&["check"], 1_048_576, 0, "refused 1 Unended\n"),
    (&["check"], 1_048_577, 0, "refused 0 TooLong\n"),
    (&["check"], 16_777_220, 3, "refused 0 TooLong\n"),
];

#[test]
fn a_text_past_the_limit_is_read_no_further(rt: HostRuntime) -> Result<(), Fail> {
    for (command, count, left_unread, output) in LONG {
        reads_no_further(&rt, rt.alloc(), command, *count, *left_unread, output)?;
    }
    Ok(())
}
