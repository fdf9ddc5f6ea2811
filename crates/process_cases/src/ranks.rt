//! A rank as a process, by the top call: how it ends, what it writes, and what it says.

use port_io::{IoTurn, IoTurns, MemorySource, SureSink, SureSource};
use ptl_types::Bytes;
use rank_process::rank_main;
use std::alloc::Global;
use std::process::Abort;
use std::test::*;

/// A description of one rank, one that is refused in its fifth line, and one of two ranks.
const ONE_RANK: &str = "coll 1\nranks 1\ninput a u8 2\n7 9\nprint a\nend\n";

const REFUSED: &str = "coll 1\nranks 1\ninput a u8 1\n7\n9\nprint a\nend\n";

const BARRIER: &str = "coll 1\nranks 2\nbarrier\nend\n";

/// A plan for the first that has a cell more than its own plan, and one whose second cell waits for a link that isn't there.
const PLAN: &str =
    "plan 1 3 2 local\ncell 0 0 u8 - 0 1\ncell 1 0 u8 - 2 1\ncell 2 0 u8 - 0 1\nlink 0 0 0 0 1 0 bump\nlink 1 1 0 0 2 0 \
bump\ndone 0 3\nresult a 0 1\nend\n";

const FLAWED: &str =
    "plan 1 2 1 local\ncell 0 0 u8 - 0 1\ncell 1 0 u8 - 2 2\nlink 0 0 0 0 1 0 bump\ndone 0 2\nresult a 0 1\nend\n";

/// The mark of the start, and of the end.
const MARK: &[u8] = &[255, 255, 255, 255, 0, 0, 0, 0];

/// A rank's number, the parts of a text and the bytes behind them; then how the rank ends, what it writes, and what it says.
type Row = (
    u32,
    &'static [&'static str],
    &'static [u8],
    u8,
    &'static [u8],
    &'static str,
);

const ROWS: &[Row] = &[
    // A rank of one starts and ends.
    (
        0,
        &[ONE_RANK],
        MARK,
        0,
        b"\xff\xff\xff\xff\0\0\0\0a 0 7 9\norder 0 s f0 f1 f2\n",
        "",
    ),
    // It runs the plan that is given.
    (
        0,
        &[ONE_RANK, PLAN],
        MARK,
        0,
        b"\xff\xff\xff\xff\0\0\0\0a 0 7 9\norder 0 s f0 f1 f2 f3 f4\n",
        "",
    ),
    // A plan with a flaw doesn't run.
    (
        0,
        &[ONE_RANK, FLAWED],
        MARK,
        8,
        b"\xff\xff\xff\xff\0\0\0\0fails 9 Needs\n",
        "fails 9 Needs\n",
    ),
    // A text is refused.
    (
        0,
        &[REFUSED],
        MARK,
        3,
        b"\xff\xff\xff\xff\0\0\0\0refused 5 BadLine\n",
        "refused 5 BadLine\n",
    ),
    // A rank too many writes nothing.
    (
        2,
        &[BARRIER],
        MARK,
        2,
        b"",
        "the description has no such rank\n",
    ),
    // A frame of no rank is refused.
    (
        0,
        &[BARRIER],
        b"\x07\0\0\0\x01\0\0\0\0",
        7,
        b"",
        "a frame is refused: of no rank\n",
    ),
    // A source that ends early.
    (
        0,
        &[BARRIER],
        b"\xff\xff",
        4,
        b"",
        "standard input failed, or ended before the rank did\n",
    ),
];

/// A rank's number and a text of these parts, with these bytes behind them.
fn told(alloc: Global, rank: u32, texts: &[&str], behind: &[u8]) -> Result<Bytes, Fail> {
    let mut text = Vec::new(alloc);
    for part in texts {
        text.extend_from_slice(part.as_bytes())?;
    }
    let length = text.len().min(65_535) as u32;
    let mut bytes = Vec::new(alloc);
    bytes.extend_from_slice(&rank.to_le_bytes())?;
    bytes.extend_from_slice(&length.to_le_bytes())?;
    bytes.extend_from_slice(text.as_slice())?;
    bytes.extend_from_slice(behind)?;
    Ok(Bytes::from_vec(bytes))
}

/// Stops the test where a rank that is told what a row says ends otherwise, or writes or says anything else.
fn ends_as_due(rt: &impl Abort, alloc: Global, place: usize, row: &Row) -> Result<(), Fail> {
    let (rank, texts, behind, status, written, note) = *row;
    let mut source = SureSource::new(told(alloc, rank, texts, behind)?);
    let mut sink = SureSink::with_room(alloc, 4096)?;
    let mut notes = SureSink::with_room(alloc, 4096)?;
    let ended = rank_main(alloc, &[], &mut source, &mut sink, &mut notes);
    assert_eq!(rt; ended.number(), status, "row {place}");
    assert_eq!(rt; sink.as_slice(), written, "row {place}");
    assert_eq!(rt; notes.as_slice(), note.as_bytes(), "row {place}");
    Ok(())
}

#[test]
fn ends_of_ranks(rt: HostRuntime) -> Result<(), Fail> {
    for (place, row) in ROWS.iter().enumerate() {
        ends_as_due(&rt, rt.alloc(), place, row)?;
    }
    Ok(())
}

/// The first read takes the first number, and the second fails; the whole text is there.
#[test]
fn a_read_that_fails_is_told(rt: HostRuntime) -> Result<(), Fail> {
    let mut turns = IoTurns::new(rt.alloc());
    turns.add(IoTurn::Take(4))?;
    turns.add(IoTurn::Fail)?;
    let mut source = MemorySource::new(told(rt.alloc(), 0, &[ONE_RANK], MARK)?, turns);
    let mut sink = SureSink::with_room(rt.alloc(), 64)?;
    let mut notes = SureSink::with_room(rt.alloc(), 64)?;
    let ended = rank_main(rt.alloc(), &[], &mut source, &mut sink, &mut notes);
    assert_eq!(rt; ended.number(), 4);
    assert!(rt; sink.as_slice().is_empty());
    assert_eq!(rt;
        notes.as_slice(),
        "standard input failed, or ended before the rank did\n".as_bytes()
    );
    Ok(())
}
