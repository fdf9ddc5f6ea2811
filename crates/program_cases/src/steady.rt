//! Runs by workers that go on until a wave of probes has found rest.

use crate::runs::gives;
use crate::texts::{GROUPS, GROUPS_RESULT, THREE_RESULTS, THREE_STEPS};
use crate::workers::{Counting, Meeting, TWO_RANKS, gives_sixteen_results, steps_through};
use portals_top::Status;
use std::test::Fail;

/// How many workers, a text, and what is written.
const STEADY: &[(&str, &str, &str)] = &[
    ("3", THREE_STEPS, THREE_RESULTS),
    ("1", TWO_RANKS, "rest\n"),
    ("16", "coll 1\nranks 1\nend\n", "rest\n"),
    ("2", GROUPS, GROUPS_RESULT),
];

#[test]
fn steady_workers_write_what_each_rank_holds(rt: HostRuntime) -> Result<(), Fail> {
    for (workers, text, output) in STEADY {
        let words = ["steady", workers];
        gives(&rt, rt.alloc(), &words, text, Status::Done, output)?;
    }
    Ok(())
}

#[test]
fn four_steady_workers_run_sixteen_ranks(rt: HostRuntime) -> Result<(), Fail> {
    gives_sixteen_results(&rt, rt.alloc(), &["steady", "4"])
}

#[test]
fn steady_workers_make_every_step(rt: HostRuntime) -> Result<(), Fail> {
    let gate = Counting::new();
    let steps = steps_through(
        &rt,
        rt.alloc(),
        &gate,
        &["steady", "2"],
        THREE_STEPS,
        THREE_RESULTS,
    )?;
    assert!(rt; steps > 0);
    assert_eq!(rt; gate.passes(), steps);
    Ok(())
}

#[test]
fn two_steady_workers_at_once(rt: HostRuntime) -> Result<(), Fail> {
    let gate = Meeting::new();
    steps_through(
        &rt,
        rt.alloc(),
        &gate,
        &["steady", "2"],
        TWO_RANKS,
        "rest\n",
    )?;
    assert!(rt; gate.met());
    Ok(())
}
