//! A barrier of seventy ranks: more than a word has bits.

use crate::marks::{Found, answer_to};
use coll_lang::parse;
use mark_judge::MarkFlaw;
use std::alloc::{AllocError, Global};
use std::process::Abort;
use std::test::Fail;

/// The ranks.
const RANKS: u32 = 70;

/// Adds a line: its first word, numbers, and its end.
fn add_line(
    alloc: Global,
    text: &mut String,
    word: &str,
    numbers: &[u32],
    end: &str,
) -> Result<(), AllocError> {
    text.push_str(word)?;
    for number in numbers {
        text.push_str(format!(in alloc; " {number}")?.as_str())?;
    }
    text.push_str(end)
}

/// The description, of 76 lines: its one input is printed, and there is a barrier.
fn description(alloc: Global) -> Result<String, AllocError> {
    let mut text = String::from_str(alloc, "coll 2\nranks 70\ninput a u8 1\n")?;
    for _ in 0..RANKS {
        text.push_str("1\n")?;
    }
    text.push_str("barrier\nprint a\nend\n")?;
    Ok(text)
}

/// The cells: those of the ranks' starts and inputs; where each rank enters, 140 to 209; one to which all these lead, 210; and where each
/// leaves, 211 to 280.
fn add_cells(alloc: Global, text: &mut String) -> Result<(), AllocError> {
    for r in 0..RANKS {
        add_line(alloc, text, "cell", &[r, r], " u8 - 0 1\n")?;
    }
    for r in 0..RANKS {
        add_line(alloc, text, "cell", &[70 + r, r], " u8 - 1 1\n")?;
    }
    for r in 0..RANKS {
        add_line(alloc, text, "cell", &[140 + r, r], " u8 - 0 1\n")?;
    }
    text.push_str("cell 210 0 u8 - 0 70\n")?;
    for r in 0..RANKS {
        add_line(alloc, text, "cell", &[211 + r, r], " u8 - 0 1\n")?;
    }
    Ok(())
}

/// The links. The entry of one rank, if it is one, doesn't lead to cell 210: that of rank 0 does so twice.
fn add_links(alloc: Global, text: &mut String, without: u32) -> Result<(), AllocError> {
    for r in 0..RANKS {
        add_line(alloc, text, "link", &[r, r, 0, 0, 70 + r, 0], " bump\n")?;
    }
    for r in 0..RANKS {
        let numbers = [70 + r, 70 + r, 0, 0, 140 + r, 0];
        add_line(alloc, text, "link", &numbers, " bump\n")?;
    }
    for r in 0..RANKS {
        let source = if r == without { 140 } else { 140 + r };
        let numbers = [140 + r, source, 0, 0, 210, 0];
        add_line(alloc, text, "link", &numbers, " put\n")?;
    }
    for r in 0..RANKS {
        let numbers = [210 + r, 210, 0, 0, 211 + r, 0];
        add_line(alloc, text, "link", &numbers, " put\n")?;
    }
    Ok(())
}

/// The lines after them: four cells at each rank, and five at rank 0.
fn add_lines(alloc: Global, text: &mut String) -> Result<(), AllocError> {
    for r in 0..RANKS {
        let cells = if r == 0 { 5 } else { 4 };
        add_line(alloc, text, "done", &[r, cells], "\n")?;
    }
    for r in 0..RANKS {
        add_line(alloc, text, "result a", &[r, 70 + r], "\n")?;
    }
    for r in 0..RANKS {
        add_line(alloc, text, "enter 0", &[r, 140 + r], "\n")?;
    }
    for r in 0..RANKS {
        add_line(alloc, text, "leave 0", &[r, 211 + r], "\n")?;
    }
    text.push_str("end\n")
}

/// The text of the plan.
fn plan(alloc: Global, without: u32) -> Result<String, AllocError> {
    let mut text = String::from_str(alloc, "plan 70 281 280 local\n")?;
    add_cells(alloc, &mut text)?;
    add_links(alloc, &mut text, without)?;
    add_lines(alloc, &mut text)?;
    Ok(text)
}

/// Stops the test where these differ.
fn same(rt: &impl Abort, answer: Found, wanted: Found) {
    assert_eq!(rt; answer, wanted);
}

#[test]
fn more_entries_than_bits(rt: HostRuntime) -> Result<(), Fail> {
    let alloc = rt.alloc();
    let text = description(alloc)?;
    let d = parse(alloc, text.as_bytes())?;
    let whole = plan(alloc, RANKS)?;
    same(
        &rt,
        answer_to(alloc, &d, 77, whole.as_str()),
        Found::Judged(None),
    );
    // The first `leave` is the 141st line after the 70 lines `done`.
    let one_left = Found::Judged(Some((849, MarkFlaw::BarrierOpen { mark: 140 })));
    let late = plan(alloc, 66)?;
    same(&rt, answer_to(alloc, &d, 77, late.as_str()), one_left);
    let early = plan(alloc, 3)?;
    same(&rt, answer_to(alloc, &d, 77, early.as_str()), one_left);
    Ok(())
}
