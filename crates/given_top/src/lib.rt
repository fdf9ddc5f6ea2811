//! The program that draws, judges, runs and explains plans that anybody made, over any source and any sinks: words in, a status out.
#![tactic(auto)]

mod checking;
mod costing;
mod running;
pub mod runs;
mod telling;
mod top;
mod words;

pub use crate::runs::GivenRun;
pub use checking::LONGEST_PLAN_CHECK;
pub use plan_top::Status;
pub use top::given_main;
pub use words::{Form, Purpose, Telling};
