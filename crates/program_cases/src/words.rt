//! Words that ask for nothing, and the numbers of statuses.

use crate::comparing::{same, same_bytes};
use crate::runs::{no_world, run_between, same_left, unread};
use port_io::{SureSink, SureSource};
use portals_top::Status;
use ptl_types::Bytes;
use std::alloc::Global;
use std::process::Abort;
use std::sync::Wait;
use std::test::Fail;
use std::thread::Threads;

const USAGE: &[u8] =
    b"usage: portals_run once | sim X | plan | run W | trace W | large K W | check | steady W | json W\n";

/// Words that are no command.
const OTHERS: &[&[&str]] = &[
    &[],
    &["once", "now"],
    &["Plan"],
    &["sim"],
    &["sim", "01"],
    &["sim", "18446744073709551616"],
    &["sim", "1", "2"],
    &["check", "1"],
    &["run"],
    &["run", "0"],
    &["run", "17"],
    &["run", "02"],
    &["run", "2", "2"],
    &["trace"],
    &["trace", "0"],
    &["trace", "17"],
    &["steady"],
    &["steady", "0"],
    &["steady", "17"],
    &["json", "0"],
    &["json", "17"],
    &["large", "1"],
    &["large", "65536", "1"],
    &["large", "1", "0"],
    &["large", "1", "17"],
    &["large", "1", "1", "1"],
];

/// These words get the usage line, and leave the source unread.
fn gets_the_usage_line(
    rt: &(impl Abort + Threads + Wait + Sync),
    alloc: Global,
    command: &[&str],
) -> Result<(), Fail> {
    let mut source = SureSource::new(Bytes::of(alloc, b"ab")?);
    let mut sink = SureSink::with_room(alloc, 128)?;
    let left = run_between(rt, alloc, command, &mut source, &mut sink);
    same_left(rt, &"other words", left, no_world(Status::Usage));
    same_bytes(rt, &"other words", sink.as_slice(), USAGE);
    same(rt, &"other words", sink.finishes(), 1);
    same(rt, &"other words", unread(&mut source), Ok(2));
    Ok(())
}

#[test]
fn other_words_leave_the_source_unread(rt: HostRuntime) -> Result<(), Fail> {
    for command in OTHERS {
        gets_the_usage_line(&rt, rt.alloc(), command)?;
    }
    Ok(())
}

#[test]
fn statuses_have_their_numbers(rt: HostRuntime) {
    let all = [
        Status::Done,
        Status::Usage,
        Status::Refused,
        Status::ReadFault,
        Status::WriteFault,
        Status::NoMemory,
    ];
    assert_eq!(rt; all.map(|status| status.number()), [0, 2, 3, 4, 5, 6]);
}
