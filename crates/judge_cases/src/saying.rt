//! The line that a text must give.

use given_verdicts::general::general_answer;
use given_verdicts::{answer_line, answer_of};
use ptl_types::NoMemory;
use std::alloc::Global;
use std::process::Abort;
use std::test::Fail;

/// The line that is written of a text for the inputs of its description.
fn said(alloc: Global, text: &str) -> Result<Vec<u8>, NoMemory> {
    let answer = answer_of(alloc, text.as_bytes())?;
    answer_line(alloc, &answer)
}

/// The line that is written of a text for all inputs.
fn said_of_all(alloc: Global, text: &str) -> Result<Vec<u8>, NoMemory> {
    let answer = general_answer(alloc, text.as_bytes())?;
    answer_line(alloc, &answer)
}

/// Stops the test where another line is written.
pub(crate) fn says(rt: &impl Abort, alloc: Global, text: &str, wanted: &str) -> Result<(), Fail> {
    let line = said(alloc, text)?;
    assert_eq!(rt; line.as_slice(), wanted.as_bytes());
    Ok(())
}

/// Stops the test where another line is written for all inputs.
pub(crate) fn says_of_all(
    rt: &impl Abort,
    alloc: Global,
    text: &str,
    wanted: &str,
) -> Result<(), Fail> {
    let line = said_of_all(alloc, text)?;
    assert_eq!(rt; line.as_slice(), wanted.as_bytes());
    Ok(())
}
