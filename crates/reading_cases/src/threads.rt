//! A long text that threads read.

use crate::answers::{Answer, holds, is_printed, same_answer};
use crate::texts::refusal;
use coll_lang::parse_by;
use std::alloc::{AllocError, Global};
use std::thread::Threads;

/// Writes a text of 64 data lines, each of 1023 sevens and this value.
fn add_long_text(text: &mut Vec<u8>, last: &[u8]) -> Result<(), AllocError> {
    text.extend_from_slice(b"coll 1\nranks 64\ninput a u8 1024\n")?;
    for _ in 0..64 {
        for _ in 0..1023 {
            text.extend_from_slice(b"7 ")?;
        }
        text.extend_from_slice(last)?;
        text.push(b'\n')?;
    }
    text.extend_from_slice(b"print a\nend\n")
}

/// Whether four threads read the text, and it is printed as it stands.
fn is_kept<R: Threads + Sync>(rt: &R, alloc: Global, text: &[u8]) -> bool {
    match parse_by(rt, alloc, 4, text) {
        Ok(d) => is_printed(alloc, &d, text),
        Err(_) => false,
    }
}

/// What the reading of four threads answers.
fn answer<R: Threads + Sync>(rt: &R, alloc: Global, text: &[u8]) -> Answer {
    match parse_by(rt, alloc, 4, text) {
        Ok(_) => None,
        Err(fault) => Some(refusal(fault)),
    }
}

#[test]
fn threads_read_long_runs_of_data_lines(rt: HostRuntime) {
    let mut text = Vec::new(rt.alloc());
    holds(&rt, "memory", 0, add_long_text(&mut text, b"9").is_ok());
    holds(&rt, "text", 0, is_kept(&rt, rt.alloc(), &text));
}

#[test]
fn the_first_bad_line_is_refused(rt: HostRuntime) {
    let mut text = Vec::new(rt.alloc());
    holds(&rt, "memory", 0, add_long_text(&mut text, b"256").is_ok());
    same_answer(
        &rt,
        "line",
        4,
        answer(&rt, rt.alloc(), &text),
        Some((4, "BadNumber")),
    );
}
