//! One rank of a job as a process: it is told its number and the text of a description, then frames, and writes frames, and at its end
//! its own lines.
#![tactic(auto)]

mod asking;
mod first;
mod lanes;
pub mod laws;
pub mod lines;
mod notes;
mod opening;
mod printing;
mod recalling;
mod refusing;
mod running;
mod status;
mod top;

pub use status::Status;
pub use top::rank_main;
