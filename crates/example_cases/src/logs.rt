//! The logs of devices, judged: each is named with its verdict.

use crate::folder::names;
use log_top::log_main;
use port_io::{IoTurns, MemorySink, SureSink, SureSource};
use ptl_types::{Bytes, NoMemory};
use std::alloc::{AllocError, Global};
use std::{fs, io};

/// How many bytes of a verdict are kept: more than any of these has.
const ROOM: u64 = 65_536;

/// The words that ask for a verdict.
fn words_of_judge(alloc: Global) -> Result<Vec<String>, AllocError> {
    let mut words = Vec::new(alloc);
    words.push(String::from_str(alloc, "judge")?)?;
    Ok(words)
}

/// What is written of a log.
fn judged(alloc: Global, text: &[u8]) -> Result<SureSink, NoMemory> {
    let words = words_of_judge(alloc)?;
    let mut source = SureSource::new(Bytes::of(alloc, text)?);
    let mut sink = SureSink::with_room(alloc, ROOM)?;
    // A sink without room: notes that fail change nothing.
    let mut notes = MemorySink::new(alloc, IoTurns::new(alloc));
    let _status = log_main(alloc, words.as_slice(), &mut source, &mut sink, &mut notes);
    Ok(sink)
}

/// Prints the verdict on a log behind its path.
fn print_verdict(rt: &HostRuntime, path: &str) -> io::Result<()> {
    let text = fs::read(rt, path)?;
    let Ok(sink) = judged(rt.alloc(), text.as_slice()) else {
        return println!(rt; "{path}: no memory");
    };
    let written = String::from_utf8_lossy(rt.alloc(), sink.as_slice())?;
    print!(rt; "{path}: {written}")
}

/// Judges each log of a folder.
pub fn judge_logs(rt: &HostRuntime, folder: &str) -> io::Result<()> {
    for name in names(rt, folder)?.iter() {
        let path = format!(in rt.alloc(); "{folder}/{name}")?;
        if path.as_str().ends_with(".log") {
            print_verdict(rt, path.as_str())?;
        }
    }
    Ok(())
}
