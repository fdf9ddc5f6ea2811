//! Where a program's bytes come from and go to: sources and sinks, with what each promises of its bytes and of its
//! faults, in memory and over the reader and the writer of the system; and the words of the command line.
#![tactic(auto)]

mod ends;
mod memory_sink;
mod memory_source;
mod std_ends;
mod sure;
mod turns;
mod words;

pub use ends::{Failed, Sink, Source};
pub use memory_sink::MemorySink;
pub use memory_source::MemorySource;
pub use std_ends::{StdSink, StdSource};
pub use sure::{SureSink, SureSource};
pub use turns::{IoTurn, IoTurns};
pub use words::command_words;
