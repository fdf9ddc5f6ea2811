//! What `portals_plan verify` answered.

use crate::lines::lines::Lines;
use coll_text::{Words, cut, is, number_between};
use std::alloc::{AllocError, Global};
use std::str;

/// What was answered of a plan.
#[derive(Debug, Drop)]
pub struct Verdict {
    /// The number of the line at fault, counted from 1. `None`: the plan holds.
    pub line: Option<u32>,
    /// The line of the answer, without its LF: words of letters, digits and `_`.
    pub words: String,
}

/// Whether an answer has this byte.
fn is_said(byte: u8) -> bool {
    matches!(byte, b' ' | b'_' | b'0'..=b'9' | b'A'..=b'Z' | b'a'..=b'z')
}

/// Whether the words are `holds`, or `fails`, `unknown` or `refused`, a line and what is at fault there: then the line, if any.
fn answered(mut words: Words) -> Option<Option<u32>> {
    let key = words.next()?;
    let Some(word) = words.next() else {
        return if is(key, b"holds") { Some(None) } else { None };
    };
    let line = number_between(0, u32::MAX, word)?;
    let cause = words.next()?.first()?;
    if !cause.is_ascii_uppercase() {
        return None;
    }
    if is(key, b"fails") || is(key, b"unknown") || is(key, b"refused") {
        Some(Some(line))
    } else {
        None
    }
}

/// The answer that the rest of a text is, if it is one line of an answer.
pub fn verdict_in(alloc: Global, lines: &Lines) -> Result<Option<Verdict>, AllocError> {
    let (line, Some([])) = cut(lines.rest(), b'\n') else {
        return Ok(None);
    };
    if !line.iter().all(|byte| is_said(*byte)) {
        return Ok(None);
    }
    match (answered(Words::of(line)), str::from_utf8(line)) {
        (Some(at), Ok(said)) => Ok(Some(Verdict {
            line: at,
            words: format!(in alloc; "{said}")?,
        })),
        _ => Ok(None),
    }
}
