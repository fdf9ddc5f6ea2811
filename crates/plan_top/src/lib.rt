//! The program that draws and judges plans, over any source and any sink: words in, a status out.
#![tactic(auto)]

mod drawing;
mod excess;
mod judging;
mod notes;
mod saying;
mod top;
mod words;
mod writing;

pub use judging::{write_answer, write_noted};
pub use run_text::Status;
pub use saying::say_beside;
pub use top::plan_main;
pub use words::PlanRequest;
