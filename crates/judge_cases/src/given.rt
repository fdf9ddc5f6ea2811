//! Texts, and what is read of them.

use coll_lang::{Description, parse};
use given_lines::{GivenFault, GivenPlan, GivenRefusal, Mark, read_given};
use plan_core::LinkKind;
use ptl_types::{AtomicOp, ElemType};
use std::alloc::Global;
use std::process::Abort;
use std::test::Fail;

/// Whose plans are read.
const DESCRIPTION: &str =
    "coll 1\nranks 1\ninput a u8 1\n7\nbroadcast 0 a b\nbarrier\nprint b\nend\n";

/// The line of a text that is at fault, with the name of the refusal; nothing where it is read.
type Answer = Option<(u32, GivenRefusal)>;

/// Stops the test where these differ.
fn same(rt: &impl Abort, answer: Answer, wanted: Answer) {
    assert_eq!(rt; answer, wanted);
}

/// What is read of a text from line 9 on, after the description.
fn read(alloc: Global, d: &Description, text: &str) -> Result<GivenPlan, GivenFault> {
    let buffers = d.shape().buffers();
    if text.len() < 10000 && buffers.len() < 1000 {
        read_given(alloc, 1, 2, buffers, 9, text.as_bytes())
    } else {
        Err(GivenFault::NoMemory)
    }
}

/// How a text is answered, of a head, cells, links, done counters, and the lines after them.
fn answer(alloc: Global, d: &Description, text: &str) -> Answer {
    match read(alloc, d, text) {
        Err(GivenFault::Refused { line, name }) => Some((line, name)),
        _ => None,
    }
}

/// Stops the test where the text isn't answered so.
fn answers(rt: &impl Abort, alloc: Global, d: &Description, text: &str, wanted: Answer) {
    same(rt, answer(alloc, d, text), wanted);
}

fn bad(line: u32) -> Answer {
    Some((line, GivenRefusal::BadPlan))
}

fn unended(line: u32) -> Answer {
    Some((line, GivenRefusal::Unended))
}

#[test]
fn a_whole_text(rt: HostRuntime) -> Result<(), Fail> {
    let alloc = rt.alloc();
    let d = parse(alloc, DESCRIPTION.as_bytes())?;
    let text = "plan 1 3 1 remote\n\
        cell 0 4294967295 u8 - 0 1\n\
        cell 1 0 i64 bxor 18446744073709551615 0\n\
        cell 2 0 u16 - 1 2\n\
        link 0 5 6 7 4 8 atomic\n\
        done 0 4\n\
        result b 0 2\n\
        leave 1 0 7\n\
        enter 1 3 1\n\
        end\n";
    let given = read(alloc, &d, text)?;
    let plan = given.plan();
    assert!(rt; plan.ranks() == 1 && plan.remote());
    let cells = plan.cells();
    let links = plan.links();
    assert!(rt; cells.len() == 3 && links.len() == 1);
    let cell = cells[1];
    assert!(rt; cell.ty == ElemType::I64 && cell.op == Some(AtomicOp::Bxor));
    assert!(rt; cell.length == u64::MAX && cell.needs == 0);
    let link = links[0];
    assert!(rt; link.source == 5 && link.source_offset == 6 && link.length == 7);
    assert!(rt; link.target == 4 && link.target_offset == 8);
    assert!(rt; matches!(link.kind, LinkKind::Atomic));
    assert_eq!(rt; given.done(), [4u64].as_slice());
    let marks = [
        Mark::Result {
            buffer: 1,
            rank: 0,
            cell: 2,
        },
        Mark::Leave {
            step: 1,
            rank: 0,
            cell: 7,
        },
        Mark::Enter {
            step: 1,
            rank: 3,
            cell: 1,
        },
    ];
    assert_eq!(rt; given.marks(), marks.as_slice());
    Ok(())
}

#[test]
fn heads(rt: HostRuntime) -> Result<(), Fail> {
    let alloc = rt.alloc();
    let d = parse(alloc, DESCRIPTION.as_bytes())?;
    answers(&rt, alloc, &d, "", unended(9));
    answers(&rt, alloc, &d, "plan 1 2 0 local", unended(9));
    answers(&rt, alloc, &d, "plan 2 2 0 local\n", bad(9));
    answers(&rt, alloc, &d, "plan 1 1 0 local\n", bad(9));
    answers(&rt, alloc, &d, "plan 1 16777216 0 local\n", bad(9));
    answers(&rt, alloc, &d, "plan 1 2 0 far\n", bad(9));
    answers(&rt, alloc, &d, "plan 1 2 0 local \n", bad(9));
    answers(&rt, alloc, &d, "plan  1 2 0 local\n", bad(9));
    let many = Some((9, GivenRefusal::TooMany));
    answers(&rt, alloc, &d, "plan 1 2 500001 local\n", many);
    answers(&rt, alloc, &d, "plan 1 2 500000 local\n", unended(10));
    Ok(())
}

#[test]
fn lines_out_of_place(rt: HostRuntime) -> Result<(), Fail> {
    let alloc = rt.alloc();
    let d = parse(alloc, DESCRIPTION.as_bytes())?;
    let head = "plan 1 2 1 local\ncell 0 0 u8 - 0 1\n";
    let missing = format!(in alloc; "{head}link 0 0 0 0 1 0 bump\n")?;
    answers(&rt, alloc, &d, missing.as_str(), bad(11));
    let twice = format!(in alloc; "{head}cell 0 0 u8 - 0 1\n")?;
    answers(&rt, alloc, &d, twice.as_str(), bad(11));
    let cells = format!(in alloc; "{head}cell 1 0 u8 sum 1 1\n")?;
    let cells = cells.as_str();
    let third = format!(in alloc; "{cells}cell 2 0 u8 - 1 1\n")?;
    answers(&rt, alloc, &d, third.as_str(), bad(12));
    let links = format!(in alloc; "{cells}link 0 0 0 0 1 0 bump\n")?;
    let links = links.as_str();
    let no_done = format!(in alloc; "{links}end\n")?;
    answers(&rt, alloc, &d, no_done.as_str(), bad(13));
    let done = format!(in alloc; "{links}done 0 3\n")?;
    let done = done.as_str();
    let plain = format!(in alloc; "{done}end\n")?;
    answers(&rt, alloc, &d, plain.as_str(), None);
    let unknown = format!(in alloc; "{done}result c 0 1\nend\n")?;
    answers(&rt, alloc, &d, unknown.as_str(), bad(14));
    let second = format!(in alloc; "{done}result b 0 1\ndone 0 3\nend\n")?;
    answers(&rt, alloc, &d, second.as_str(), bad(15));
    let open = format!(in alloc; "{done}end")?;
    answers(&rt, alloc, &d, open.as_str(), unended(14));
    let more = format!(in alloc; "{done}end\n\n")?;
    let after = Some((15, GivenRefusal::AfterEnd));
    answers(&rt, alloc, &d, more.as_str(), after);
    Ok(())
}
