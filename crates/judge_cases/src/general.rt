//! Texts, and the lines that they give for the description's inputs and for all.

use crate::saying::{says, says_of_all};
use std::alloc::Global;
use std::process::Abort;
use std::test::Fail;

/// A description of one allreduce over two ranks, by this operation, of these inputs: eight lines.
fn description(alloc: Global, op: &str, inputs: &str) -> Result<String, Fail> {
    Ok(format!(in alloc;
        "coll 1\nranks 2\ninput a u8 1\n{inputs}allreduce {op} a b\nprint b\nend\n"
    )?)
}

/// A plan for it from line 9 on: both inputs are combined by this operation in a cell of each rank, in that of rank 1 by so many more
/// links.
fn plan(alloc: Global, op: &str, more: &[&str]) -> Result<String, Fail> {
    let links = 6 + more.len() as u64;
    let needs = 2 + more.len() as u64;
    let mut text = format!(in alloc;
        "plan 2 6 {links} local\n\
        cell 0 0 u8 - 0 1\ncell 1 1 u8 - 0 1\ncell 2 0 u8 - 1 1\ncell 3 1 u8 - 1 1\n\
        cell 4 0 u8 {op} 1 2\ncell 5 1 u8 {op} 1 {needs}\n\
        link 0 0 0 0 2 0 bump\nlink 1 1 0 0 3 0 bump\nlink 2 2 0 1 4 0 atomic\nlink 3 3 0 1 4 0 atomic\n\
        link 4 2 0 1 5 0 atomic\nlink 5 3 0 1 5 0 atomic\n"
    )?;
    for link in more {
        text.push_str(link)?;
    }
    text.push_str("done 0 3\ndone 1 3\nresult b 0 4\nresult b 1 5\nend\n")?;
    Ok(text)
}

/// Stops the test where other lines are written of these.
fn judges(
    rt: &impl Abort,
    alloc: Global,
    [op, inputs, by]: [&str; 3],
    more: &[&str],
    [given, all]: [&str; 2],
) -> Result<(), Fail> {
    let mut text = description(alloc, op, inputs)?;
    let plan = plan(alloc, by, more)?;
    text.push_str(plan.as_str())?;
    says(rt, alloc, text.as_str(), given)?;
    says_of_all(rt, alloc, text.as_str(), all)
}

/// Rank 1's input once more into its cell.
const AGAIN: &str = "link 6 3 0 1 5 0 atomic\n";

const THRICE: &str = "link 7 3 0 1 5 0 atomic\n";

#[test]
fn each_operation_holds(rt: HostRuntime) -> Result<(), Fail> {
    let alloc = rt.alloc();
    for op in [
        "sum", "prod", "min", "max", "band", "bor", "bxor", "land", "lor", "lxor",
    ] {
        judges(&rt, alloc, [op, "7\n9\n", op], &[], ["holds\n", "holds\n"])?;
    }
    Ok(())
}

#[test]
fn right_for_the_given_inputs_alone(rt: HostRuntime) -> Result<(), Fail> {
    let alloc = rt.alloc();
    let both = ["holds\n", "fails 24 Value b 0 0\n"];
    judges(&rt, alloc, ["sum", "0\n9\n", "max"], &[], both)?;
    judges(
        &rt,
        alloc,
        ["max", "8\n1\n", "sum"],
        &[],
        ["fails 24 Value b 0 0\n", "fails 24 Value b 0 0\n"],
    )?;
    // The result of rank 0 is right for all inputs, and that of rank 1 for none but these.
    let once_more = ["holds\n", "fails 26 Value b 1 0\n"];
    judges(&rt, alloc, ["sum", "4\n0\n", "sum"], &[AGAIN], once_more)
}

#[test]
fn an_operand_met_again(rt: HostRuntime) -> Result<(), Fail> {
    let alloc = rt.alloc();
    for op in ["min", "max", "band", "bor", "land", "lor"] {
        judges(
            &rt,
            alloc,
            [op, "7\n9\n", op],
            &[AGAIN],
            ["holds\n", "holds\n"],
        )?;
    }
    // An operand that is met twice is undone, and thrice is met.
    judges(
        &rt,
        alloc,
        ["bxor", "7\n0\n", "bxor"],
        &[AGAIN],
        ["holds\n", "fails 26 Value b 1 0\n"],
    )?;
    judges(
        &rt,
        alloc,
        ["bxor", "7\n9\n", "bxor"],
        &[AGAIN, THRICE],
        ["holds\n", "holds\n"],
    )
}

#[test]
fn what_no_inputs_show(rt: HostRuntime) -> Result<(), Fail> {
    let alloc = rt.alloc();
    // Of one rank's bit the disjunction is the bit again, which isn't seen.
    let text =
        "coll 1\nranks 1\ninput a u8 1\n7\nallreduce lxor a b\nallreduce lor b c\nprint c\nend\n\
        plan 1 3 2 local\ncell 0 0 u8 - 0 1\ncell 1 0 u8 - 1 1\ncell 2 0 u8 lxor 1 1\n\
        link 0 0 0 0 1 0 bump\nlink 1 1 0 1 2 0 atomic\ndone 0 3\nresult c 0 2\nend\n";
    says(&rt, alloc, text, "holds\n")?;
    says_of_all(&rt, alloc, text, "unknown 16 Value c 0 0\n")
}

#[test]
fn faults_are_the_same_for_all_inputs(rt: HostRuntime) -> Result<(), Fail> {
    let alloc = rt.alloc();
    says_of_all(&rt, alloc, "coll 1\nranks 0\n", "refused 2 BadRanks\n")?;
    let half = ["link 6 3 0 2 5 0 atomic\n"];
    judges(
        &rt,
        alloc,
        ["sum", "7\n9\n", "sum"],
        &half,
        ["fails 22 OutOfSource\n", "fails 22 OutOfSource\n"],
    )
}

/// A text of six lines and a plan in which so many atomics, each of 32 MiB, come to one cell.
fn carrying(alloc: Global, atomics: u32) -> Result<String, Fail> {
    let links = u64::from(atomics) + 1;
    let mut text = format!(in alloc;
        "coll 2\nranks 1\ninput a u8 1\n7\nprint a\nend\n\
        plan 1 4 {links} local\ncell 0 0 u8 - 0 1\ncell 1 0 u8 - 1 1\n\
        cell 2 0 u64 sum 33554432 0\ncell 3 0 u64 sum 33554432 {atomics}\nlink 0 0 0 0 1 0 bump\n"
    )?;
    for l in 0..atomics {
        let number = l + 1;
        let link = format!(in alloc; "link {number} 2 0 33554432 3 0 atomic\n")?;
        text.push_str(link.as_str())?;
    }
    text.push_str("done 0 4\nresult a 0 1\nend\n")?;
    Ok(text)
}

#[test]
fn bytes_that_links_carry(rt: HostRuntime) -> Result<(), Fail> {
    let alloc = rt.alloc();
    let most = carrying(alloc, 8)?;
    says(&rt, alloc, most.as_str(), "holds\n")?;
    let more = carrying(alloc, 9)?;
    says(&rt, alloc, more.as_str(), "refused 7 TooLarge\n")?;
    says_of_all(&rt, alloc, more.as_str(), "refused 7 TooLarge\n")
}
