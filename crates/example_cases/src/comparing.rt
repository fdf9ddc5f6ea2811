//! A text beside the file that says what it is to be.

use json_lang::lines_of;
use port_io::{IoTurns, MemorySink, SureSink, SureSource};
use portals_top::{Host, Ran, portals_main};
use ptl_types::{Bytes, NoMemory};
use serde_json::Value;
use std::alloc::{AllocError, Global};
use std::fmt;
use std::sync::Wait;
use std::thread::Threads;

/// How many bytes of a result are kept: more than any example writes.
const ROOM: u64 = 1 << 20;

/// How a text stands to the one that is wanted.
#[derive(Clone, Copy, Debug, PartialEq, Eq)]
pub enum Found {
    /// They are the same.
    Same,
    /// This line, counted from 1, is the first in which they differ.
    DiffersInLine(usize),
    /// There is no such text: there is no memory, or JSON isn't of the form of a description.
    Nothing,
}

impl fmt::Display for Found {
    fn fmt<W: fmt::Write>(&self, f: &mut fmt::Formatter<W>) -> fmt::Result {
        match self {
            Found::Same => write!(f, "as in"),
            Found::DiffersInLine(line) => write!(f, "differs in line {line} from"),
            Found::Nothing => write!(f, "no text, unlike"),
        }
    }
}

/// How a text stands to the one that is wanted.
pub fn compared(text: &[u8], wanted: &[u8]) -> Found {
    if text == wanted {
        return Found::Same;
    }
    let mut line = 1usize;
    for (a, b) in text.iter().zip(wanted.iter()) {
        if a != b {
            break;
        }
        if *a == b'\n' {
            line = line.saturating_add(1);
        }
    }
    Found::DiffersInLine(line)
}

/// The words that ask for a run on one thread.
fn words_of_once(alloc: Global) -> Result<Vec<String>, AllocError> {
    let mut words = Vec::new(alloc);
    words.push(String::from_str(alloc, "once")?)?;
    Ok(words)
}

/// Runs these words: the only call of the program.
fn run_words<R: Threads + Wait + Sync>(
    rt: &R,
    alloc: Global,
    words: &[String],
    source: &mut SureSource,
    sink: &mut SureSink,
) {
    let mut ran = Ran::new();
    // A sink without room: standard error that fails changes nothing.
    let mut notes = MemorySink::new(alloc, IoTurns::new(alloc));
    let host = Host::new(rt, alloc);
    let _status = portals_main(&host, words, source, sink, &mut notes, &mut ran);
}

/// What `once` writes of a description.
fn written_by_once<R: Threads + Wait + Sync>(
    rt: &R,
    alloc: Global,
    text: &[u8],
) -> Result<SureSink, NoMemory> {
    let words = words_of_once(alloc)?;
    let mut source = SureSource::new(Bytes::of(alloc, text)?);
    let mut sink = SureSink::with_room(alloc, ROOM)?;
    run_words(rt, alloc, words.as_slice(), &mut source, &mut sink);
    Ok(sink)
}

/// Runs `once` on a description, and holds what it writes against what is wanted.
pub fn once_gives<R: Threads + Wait + Sync>(
    rt: &R,
    alloc: Global,
    text: &[u8],
    wanted: &[u8],
) -> Found {
    match written_by_once(rt, alloc, text) {
        Ok(sink) => compared(sink.as_slice(), wanted),
        Err(_) => Found::Nothing,
    }
}

/// The lines for which JSON stands, held against a text.
pub fn lines_of_json(alloc: Global, json: &[u8], wanted: &[u8]) -> Found {
    let Ok(value) = Value::from_slice(alloc, json) else {
        return Found::Nothing;
    };
    match lines_of(alloc, &value) {
        Ok(text) => compared(text.as_slice(), wanted),
        Err(_) => Found::Nothing,
    }
}
