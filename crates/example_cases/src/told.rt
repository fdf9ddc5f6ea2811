//! What a person is told of a plan in which some lines are others: beside each answer its line on standard error.

use crate::drawn::words_of;
use given_top::given_main;
use port_io::{SureSink, SureSource};
use ptl_types::{Bytes, NoMemory};
use std::alloc::{AllocError, Global};
use std::sync::Wait;
use std::thread::Threads;
use std::{fs, io};

/// How many bytes of an answer are kept, and of the lines beside it: more than any of these has.
const ROOM: u64 = 4096;

/// What stands in place of a line, counted from 1, by edits parted by ` / `, each a number and what stands there; nothing after the
/// number leaves the line out.
fn edit_of<'a>(edits: &'a str, line: usize) -> Option<&'a str> {
    for edit in edits.split(" / ") {
        let (number, text) = edit.split_once(' ').unwrap_or((edit, ""));
        if number.parse::<usize>() == Ok(line) {
            return Some(text);
        }
    }
    None
}

/// A text with other lines. An edit of the line after the last LF puts text there; without text it takes that LF away.
fn edited(alloc: Global, text: &str, edits: &str) -> Result<String, AllocError> {
    let mut found = String::new(alloc);
    for (number, line) in text.split('\n').enumerate() {
        let line = match edit_of(edits, number.saturating_add(1)) {
            Some("") => continue,
            Some(other) => other,
            None => line,
        };
        if number > 0 {
            found.push('\n')?;
        }
        found.push_str(line)?;
    }
    Ok(found)
}

/// What these words write of a text, and beside it.
pub fn written_beside(
    rt: &(impl Threads + Wait + Sync),
    alloc: Global,
    line: &[&str],
    text: &[u8],
) -> Result<(SureSink, SureSink), NoMemory> {
    let words = words_of(alloc, line)?;
    let mut source = SureSource::new(Bytes::of(alloc, text)?);
    let mut sink = SureSink::with_room(alloc, ROOM)?;
    let mut notes = SureSink::with_room(alloc, ROOM)?;
    let _run = given_main(
        rt,
        alloc,
        words.as_slice(),
        &mut source,
        &mut sink,
        &mut notes,
    );
    Ok((sink, notes))
}

/// Prints what was written, behind these words, if anything was.
fn print_behind(rt: &HostRuntime, behind: &str, sink: &SureSink) -> io::Result<()> {
    if sink.as_slice().is_empty() {
        return Ok(());
    }
    let said = String::from_utf8_lossy(rt.alloc(), sink.as_slice())?;
    print!(rt; "{behind}{said}")
}

/// Prints what these words write of a text, behind its name, and the lines beside it.
pub fn print_answer(
    rt: &HostRuntime,
    threads: &(impl Threads + Wait + Sync),
    name: &str,
    line: &[&str],
    text: &[u8],
) -> io::Result<()> {
    let Ok((sink, notes)) = written_beside(threads, rt.alloc(), line, text) else {
        return println!(rt; "{name}: no memory");
    };
    print!(rt; "{name}: ")?;
    print_behind(rt, "", &sink)?;
    print_behind(rt, "  ", &notes)
}

/// Prints the answer on a text with other lines, by each row of a file, for the inputs of its description, and what stands beside it. Then
/// what stands beside a rank that its plan doesn't have, beside an order line without its LF, and beside the usage line.
pub fn print_told(
    rt: &HostRuntime,
    threads: &(impl Threads + Wait + Sync),
    name: &str,
    rows: &str,
) -> io::Result<()> {
    let text = fs::read_to_string(rt, name)?;
    let rows = fs::read_to_string(rt, rows)?;
    for row in rows.as_str().lines() {
        let other = edited(rt.alloc(), text.as_str(), row)?;
        let bytes = other.as_str().as_bytes();
        print_answer(rt, threads, row, &["verify", "given"], bytes)?;
    }
    let bytes = text.as_str().as_bytes();
    print_answer(rt, threads, "explain 7", &["explain", "7"], bytes)?;
    let torn = edited(rt.alloc(), text.as_str(), "38 order 0 s")?;
    let bytes = torn.as_str().as_bytes();
    print_answer(rt, threads, "check", &["check"], bytes)?;
    print_answer(rt, threads, "explain x", &["explain", "x"], b"")
}
