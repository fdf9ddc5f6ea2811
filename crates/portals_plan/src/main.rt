//! The program: the words of the command line and the three standard streams.
#![tactic(auto)]

use given_top::{Status, given_main};
use port_io::{StdSink, StdSource, command_words};
use std::process::ExitCode;

fn main(rt: HostRuntime) -> ExitCode {
    let Ok(words) = command_words(&rt) else {
        return ExitCode::from(Status::NoMemory.number());
    };
    let mut source = StdSource::new(rt.reader());
    let mut sink = StdSink::new(std::io::writer(&rt));
    let mut notes = StdSink::new(rt.stderr());
    let run = given_main(
        &rt,
        rt.alloc(),
        words.as_slice(),
        &mut source,
        &mut sink,
        &mut notes,
    );
    ExitCode::from(run.status.number())
}
