//! The program: the words of the command line, standard input, standard output and standard error.
#![tactic(auto)]

use port_io::{StdSink, StdSource, command_words};
use portals_top::{Host, Ran, Status, portals_main};
use std::mem;
use std::process::ExitCode;

fn main(rt: HostRuntime) -> ExitCode {
    let Ok(words) = command_words(&rt) else {
        return ExitCode::from(Status::NoMemory.number());
    };
    let mut source = StdSource::new(rt.reader());
    let mut sink = StdSink::new(std::io::writer(&rt));
    let mut notes = StdSink::new(rt.stderr());
    let mut ran = Ran::new();
    let host = Host::new(&rt, rt.alloc());
    let status = portals_main(
        &host,
        words.as_slice(),
        &mut source,
        &mut sink,
        &mut notes,
        &mut ran,
    );
    // Its memory goes with the process.
    mem::forget(ran);
    ExitCode::from(status.number())
}
