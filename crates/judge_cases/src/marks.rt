//! From a text to what is at fault in its lines.

use coll_lang::Description;
use given_lines::{GivenFault, GivenPlan, read_given};
use mark_judge::{MarkFlaw, judge_marks, line_of};
use plan_judge::{judge, no_flaw};
use ptl_types::NoMemory;
use std::alloc::Global;

/// The line at fault and why. Nothing where none is.
pub type Answer = Option<(u64, MarkFlaw)>;

/// What a text is found to be.
#[derive(Clone, Copy, Debug, PartialEq, Eq)]
pub enum Found {
    /// Its lines after the links were judged.
    Judged(Answer),
    /// It isn't read, or its plan isn't sound.
    Unread,
    /// There was no memory.
    NoMemory,
}

/// What is found of a plan whose text begins with line `first`, for a description with one input of one byte.
fn judged_lines(
    alloc: Global,
    d: &Description,
    given: &GivenPlan,
    first: u32,
) -> Result<Found, NoMemory> {
    let shape = d.shape();
    let plan = given.plan();
    let marks = given.marks();
    let inputs = shape.input_count();
    if inputs != 1 || marks.len() >= 1000 {
        return Ok(Found::Unread);
    }
    if plan.cells().len() >= 1000 || plan.links().len() >= 1000 {
        return Ok(Found::Unread);
    }
    no_flaw();
    let flaw = judge(alloc, plan, &[1])?;
    if flaw.is_some() {
        return Ok(Found::Unread);
    }
    match judge_marks(alloc, plan, shape, given.done(), marks)? {
        Some(flaw) => Ok(Found::Judged(Some((line_of(first, plan, marks, flaw), flaw)))),
        None => Ok(Found::Judged(None)),
    }
}

/// What is found of a text from line `first` on, after a description of so many ranks.
pub fn answer_to(alloc: Global, d: &Description, first: u32, text: &str) -> Found {
    let shape = d.shape();
    let buffers = shape.buffers();
    if text.len() >= 100_000 || buffers.len() >= 1000 || first >= 1000 {
        return Found::Unread;
    }
    match read_given(
        alloc,
        shape.ranks(),
        shape.ranks(),
        buffers,
        first,
        text.as_bytes(),
    ) {
        Ok(given) => match judged_lines(alloc, d, &given, first) {
            Ok(found) => found,
            Err(_) => Found::NoMemory,
        },
        Err(GivenFault::NoMemory) => Found::NoMemory,
        Err(_) => Found::Unread,
    }
}
