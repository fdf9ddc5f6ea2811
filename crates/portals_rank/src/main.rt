//! The program: one rank of a job. Frames come by standard input, and go by standard output.
#![tactic(auto)]

use port_io::{StdSink, StdSource, command_words};
use rank_process::{Status, rank_main};
use std::process::ExitCode;

fn main(rt: HostRuntime) -> ExitCode {
    let Ok(words) = command_words(&rt) else {
        return ExitCode::from(Status::NoMemory.number());
    };
    let mut source = StdSource::new(rt.reader());
    let mut sink = StdSink::new(std::io::writer(&rt));
    let mut notes = StdSink::new(rt.stderr());
    let status = rank_main(
        rt.alloc(),
        words.as_slice(),
        &mut source,
        &mut sink,
        &mut notes,
    );
    ExitCode::from(status.number())
}
