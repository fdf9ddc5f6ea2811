//! The program that judges logs, over any source and any sink: words in, a status out.
#![tactic(auto)]

mod ending;
mod filling;
mod judging;
mod reading;
mod serving;
mod telling;
mod top;
mod verdicts;

pub use run_text::Status;
pub use top::log_main;
