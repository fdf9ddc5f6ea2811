//! Texts, and the line that each must give.

use crate::saying::says;
use std::alloc::Global;
use std::process::Abort;
use std::test::Fail;

/// Whose plan is given: eight lines.
const DESCRIPTION: &str = "coll 1\nranks 2\ninput a u8 1\n7\n9\nbroadcast 0 a b\nprint b\nend\n";

/// The cells of its plan but the last, from line 10 on.
const CELLS: &str = "cell 0 0 u8 - 0 1\n\
    cell 1 1 u8 - 0 1\n\
    cell 2 0 u8 - 1 1\n\
    cell 3 1 u8 - 1 1\n\
    cell 4 0 u8 - 1 2\n\
    cell 5 1 u8 - 0 1\n\
    cell 6 0 u8 - 1 1\n";

const LAST_CELL: &str = "cell 7 1 u8 - 1 2\n";

/// Its links but the last, from line 18 on.
const LINKS: &str = "link 0 0 0 0 2 0 bump\n\
    link 1 1 0 0 3 0 bump\n\
    link 2 0 0 0 4 0 bump\n\
    link 3 2 0 1 4 0 put\n\
    link 4 1 0 0 5 0 bump\n\
    link 5 4 0 1 6 0 put\n\
    link 6 5 0 0 7 0 bump\n";

const LAST_LINK: &str = "link 7 6 0 1 7 0 put\n";

/// Its done counters, lines 26 and 27, and the results, lines 28 and 29.
const DONE: &str = "done 0 4\ndone 1 4\n";

const RESULTS: &str = "result b 0 6\nresult b 1 7\n";

/// Stops the test where another line is written of the description with a plan whose last cell, last link, done counters and results
/// are these.
fn answers(rt: &impl Abort, alloc: Global, parts: [&str; 4], wanted: &str) -> Result<(), Fail> {
    let [cell, link, done, results] = parts;
    let head = format!(in alloc; "{DESCRIPTION}plan 2 8 8 local\n{CELLS}{cell}")?;
    let head = head.as_str();
    let text = format!(in alloc; "{head}{LINKS}{link}{done}{results}end\n")?;
    says(rt, alloc, text.as_str(), wanted)
}

#[test]
fn a_plan_that_holds(rt: HostRuntime) -> Result<(), Fail> {
    let parts = [LAST_CELL, LAST_LINK, DONE, RESULTS];
    answers(&rt, rt.alloc(), parts, "holds\n")
}

#[test]
fn plans_that_are_not_sound(rt: HostRuntime) -> Result<(), Fail> {
    let alloc = rt.alloc();
    let needs = ["cell 7 1 u8 - 1 1\n", LAST_LINK, DONE, RESULTS];
    answers(&rt, alloc, needs, "fails 17 Needs\n")?;
    let falls = [LAST_CELL, "link 7 7 0 1 7 0 put\n", DONE, RESULTS];
    answers(&rt, alloc, falls, "fails 25 NotRising\n")
}

#[test]
fn lines_after_the_links(rt: HostRuntime) -> Result<(), Fail> {
    let alloc = rt.alloc();
    let done = [LAST_CELL, LAST_LINK, "done 0 4\ndone 1 5\n", RESULTS];
    answers(&rt, alloc, done, "fails 27 BadDone\n")?;
    let elsewhere = [LAST_CELL, LAST_LINK, DONE, "result b 0 6\nresult b 1 6\n"];
    answers(&rt, alloc, elsewhere, "fails 29 BadResult\n")?;
    let missing = [LAST_CELL, LAST_LINK, DONE, "result b 0 6\n"];
    answers(&rt, alloc, missing, "fails 29 NoResult\n")
}

#[test]
fn another_list_than_is_meant(rt: HostRuntime) -> Result<(), Fail> {
    let alloc = rt.alloc();
    let own = [LAST_CELL, LAST_LINK, DONE, "result b 0 6\nresult b 1 3\n"];
    answers(&rt, alloc, own, "fails 29 Value b 1 0\n")?;
    let root = [LAST_CELL, LAST_LINK, DONE, "result b 1 7\nresult b 0 2\n"];
    answers(&rt, alloc, root, "holds\n")
}

#[test]
fn texts_that_are_refused(rt: HostRuntime) -> Result<(), Fail> {
    let alloc = rt.alloc();
    says(&rt, alloc, "coll 1\nranks 0\n", "refused 2 BadRanks\n")?;
    says(&rt, alloc, DESCRIPTION, "refused 9 Unended\n")?;
    let head = format!(in alloc; "{DESCRIPTION}plan 3 8 8 local\n")?;
    says(&rt, alloc, head.as_str(), "refused 9 BadPlan\n")?;
    let choices = "coll 2\nranks 2\nelect e\nprint e\nend\nplan\n";
    says(&rt, alloc, choices, "refused 0 OneThread\n")
}
