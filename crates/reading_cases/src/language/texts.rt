//! How the tests write texts and name answers. What has a `?` holds no text of its own: it adds to one.

use crate::answers::{Answer, is_printed};
use crate::texts::refusal;
use coll_lang::parse;
use std::alloc::{AllocError, Global};

/// Bytes of a text, and how many times they stand there.
pub type Part<'a> = (&'a [u8], u32);

/// The answer where there was no memory for the text or its description.
pub const NO_MEMORY: (u32, &str) = (0, "NoMemory");

/// What reading answers. An accepted text has to be printed back.
pub fn answer(alloc: Global, text: &[u8]) -> Answer {
    match parse(alloc, text) {
        Ok(d) => {
            if is_printed(alloc, &d, text) {
                None
            } else {
                Some((0, "printed otherwise"))
            }
        }
        Err(fault) => Some(refusal(fault)),
    }
}

/// What reading answers to the text that was written, if there was memory for it.
pub fn answer_if(alloc: Global, written: Result<(), AllocError>, text: &[u8]) -> Answer {
    match written {
        Ok(()) => answer(alloc, text),
        Err(_) => Some(NO_MEMORY),
    }
}

/// Adds the bytes so many times.
fn add(text: &mut Vec<u8>, bytes: &[u8], times: u32) -> Result<(), AllocError> {
    for _ in 0..times {
        text.extend_from_slice(bytes)?;
    }
    Ok(())
}

/// Adds the parts, one after the other.
pub fn add_parts(text: &mut Vec<u8>, parts: &[Part]) -> Result<(), AllocError> {
    for part in parts {
        let (bytes, times) = *part;
        add(text, bytes, times)?;
    }
    Ok(())
}

/// What reading answers to the parts, one after the other.
pub fn answer_to(alloc: Global, parts: &[Part]) -> Answer {
    let mut text = Vec::new(alloc);
    let written = add_parts(&mut text, parts);
    answer_if(alloc, written, &text)
}

/// Adds so many lines that differ in a number.
fn add_numbered(
    alloc: Global,
    text: &mut Vec<u8>,
    line: (&str, &str),
    times: u32,
) -> Result<(), AllocError> {
    let (before, after) = line;
    for i in 0..times {
        let one = format!(in alloc; "{before}{i}{after}")?;
        text.extend_from_slice(one.as_bytes())?;
    }
    Ok(())
}

/// Adds the head, so many lines that differ in a number, the last lines and `end`.
fn add_numbered_text(
    alloc: Global,
    text: &mut Vec<u8>,
    head: &[Part],
    line: (&str, &str),
    times: u32,
    last: &[u8],
) -> Result<(), AllocError> {
    add_parts(text, head)?;
    add_numbered(alloc, text, line, times)?;
    add_parts(text, &[(last, 1), (b"end\n", 1)])
}

/// What reading answers to the head, so many lines that differ in a number, the last lines and `end`.
pub fn numbered(
    alloc: Global,
    head: &[Part],
    line: (&str, &str),
    times: u32,
    last: &[u8],
) -> Answer {
    let mut text = Vec::new(alloc);
    let written = add_numbered_text(alloc, &mut text, head, line, times, last);
    answer_if(alloc, written, &text)
}

/// Adds a data line of so many values, all alike.
pub fn add_data_line(text: &mut Vec<u8>, value: &[u8], count: u32) -> Result<(), AllocError> {
    for _ in 1..count {
        text.extend_from_slice(value)?;
        text.push(b' ')?;
    }
    add_parts(text, &[(value, 1), (b"\n", 1)])
}
