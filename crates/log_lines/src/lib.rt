//! The lines of a log: what a device was called with and what it answered, as its driver prints it.
//!
//! A line is read by itself, whatever the lines before it said. It keeps the device's own words for its handles and messages; what they
//! name is for whoever follows the log. An answer isn't read at all: it is compared with what is owed, word by word.
#![tactic(auto)]

mod calling;
mod calls;
mod deeds;
mod lines;
mod naming;

pub use calls::{Call, TriggeredOpSaid};
pub use lines::{LONGEST_LINE, Line, read_line};
