//! Descriptions in JSON.

use crate::comparing::{same, same_bytes};
use crate::runs::{Made, gives, run};
use crate::texts::{
    ALLREDUCE_AND_SCAN, ONE_RANK, ONE_RANK_IN_JSON, ONE_RANK_RESULT, STEPS_ON_GROUPS,
    sixteen_ranks, sixteen_results,
};
use port_io::SureSink;
use portals_top::Status;
use std::alloc::{AllocError, Global};
use std::process::Abort;
use std::sync::Wait;
use std::test::Fail;
use std::thread::Threads;

/// Texts in JSON, what is answered, and what is written.
const IN_JSON: &[(&str, Status, &str)] = &[
    (ONE_RANK_IN_JSON, Status::Done, ONE_RANK_RESULT),
    (
        r#"{"coll":1,"ranks":1,"inputs":[{"name":"a","type":"u8","rows":[[256]]}],"steps":[["broadcast",0,"a","b"]],"prints":["b"]}"#,
        Status::Refused,
        "refused 4 BadNumber\n",
    ),
    (
        r#"{"extra":0,"coll":1,"ranks":1,"inputs":[{"name":"a","type":"u8","rows":[[7]]}],"steps":[["broadcast",0,"a","b"]],"prints":["b"]}"#,
        Status::Refused,
        "refused 0 BadForm\n",
    ),
    (
        r#"{"coll":1,"ranks":1.0,"inputs":[{"name":"a","type":"u8","rows":[[7]]}],"steps":[["broadcast",0,"a","b"]],"prints":["b"]}"#,
        Status::Refused,
        "refused 0 BadForm\n",
    ),
    (r#"{"coll":1"#, Status::Refused, "refused 0 BadJson\n"),
    (
        r#"{"coll":2,"ranks":1,"steps":[["elect","e"]],"prints":["e"]}"#,
        Status::Refused,
        "refused 0 OneThread\n",
    ),
];

#[test]
fn json_is_run_or_refused(rt: HostRuntime) -> Result<(), Fail> {
    for (text, status, output) in IN_JSON {
        gives(&rt, rt.alloc(), &["json", "2"], text, *status, output)?;
    }
    Ok(())
}

/// Example descriptions in both spellings.
const BOTH: &[(&str, &str)] = &[
    (
        r#"{"coll": 1, "ranks": 4, "remote": true, "inputs": [{"name": "a", "type": "u32", "rows": [[1], [2], [3], [4]]}],
"steps": [["allreduce", "sum", "a", "b"], ["barrier"], ["scan", "sum", "b", "c"]], "prints": ["b", "c"]}"#,
        ALLREDUCE_AND_SCAN,
    ),
    (
        r#"{"coll": 2, "ranks": 6, "groups": [["even", 0, 2, 4], ["odd", 1, 3, 5]],
"inputs": [{"name": "a", "type": "u8", "rows": [[1], [2], [3], [4], [5], [6]]}],
"steps": [["on", "even", "allreduce", "sum", "a", "sums"], ["on", "odd", "scan", "max", "a", "greatest"],
["on", "odd", "broadcast", 2, "a", "last"]], "prints": ["sums", "greatest", "last"]}"#,
        STEPS_ON_GROUPS,
    ),
    (ONE_RANK_IN_JSON, ONE_RANK),
];

/// What four workers write of a text under this word.
fn written(
    rt: &(impl Abort + Threads + Wait + Sync),
    alloc: Global,
    command: &str,
    text: &str,
) -> Result<SureSink, Fail> {
    let Made { left, sink } = run(rt, alloc, &[command, "4"], text.as_bytes())?;
    same(rt, &text, left.status, Status::Done);
    Ok(sink)
}

/// Both spellings of a description write the same.
fn write_the_same(
    rt: &(impl Abort + Threads + Wait + Sync),
    alloc: Global,
    json: &str,
    text: &str,
) -> Result<SureSink, Fail> {
    let one = written(rt, alloc, "json", json)?;
    let other = written(rt, alloc, "run", text)?;
    same_bytes(rt, &text, one.as_slice(), other.as_slice());
    Ok(one)
}

#[test]
fn both_spellings_write_the_same(rt: HostRuntime) -> Result<(), Fail> {
    for (json, text) in BOTH {
        write_the_same(&rt, rt.alloc(), json, text)?;
    }
    Ok(())
}

/// Sixteen ranks, as the other tests have them, in JSON.
fn sixteen_ranks_in_json(alloc: Global) -> Result<String, AllocError> {
    let mut text = String::from_str(
        alloc,
        r#"{"coll":1,"ranks":16,"inputs":[{"name":"load","type":"u64","rows":["#,
    )?;
    for rank in 0..16u32 {
        let first = 100 * rank;
        text.push_str(if rank == 0 { "[" } else { ",[" })?;
        text.push_str(format!(in alloc; "{first}")?.as_str())?;
        for place in 1..8u32 {
            let value = first + place;
            text.push_str(format!(in alloc; ",{value}")?.as_str())?;
        }
        text.push_str("]")?;
    }
    text.push_str(
        r#"]}],"steps":[["allreduce","max","load","peak"],["allgather","load","all"],["barrier"]],"prints":["peak","all"]}"#,
    )?;
    Ok(text)
}

#[test]
fn sixteen_ranks_in_json_write_the_same(rt: HostRuntime) -> Result<(), Fail> {
    let alloc = rt.alloc();
    let json = sixteen_ranks_in_json(alloc)?;
    let text = sixteen_ranks(alloc, "coll 1\nranks 16\n")?;
    let results = sixteen_results(alloc)?;
    let one = write_the_same(&rt, alloc, json.as_str(), text.as_str())?;
    same_bytes(&rt, &"sixteen ranks", one.as_slice(), results.as_bytes());
    Ok(())
}
