//! The program: judges the log of a device that comes by standard input, or fills in the answers that are owed.
#![tactic(auto)]

use log_top::{Status, log_main};
use port_io::{StdSink, StdSource, command_words};
use std::process::ExitCode;

fn main(rt: HostRuntime) -> ExitCode {
    let Ok(words) = command_words(&rt) else {
        return ExitCode::from(Status::NoMemory.number());
    };
    let mut source = StdSource::new(rt.reader());
    let mut sink = StdSink::new(std::io::writer(&rt));
    let mut notes = StdSink::new(rt.stderr());
    let status = log_main(
        rt.alloc(),
        words.as_slice(),
        &mut source,
        &mut sink,
        &mut notes,
    );
    ExitCode::from(status.number())
}
