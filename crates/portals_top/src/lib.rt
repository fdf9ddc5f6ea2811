//! The whole program over any source and any sink: words in, a status out.
#![tactic(auto)]

mod begun;
mod checking;
mod choosing;
mod headline;
mod large;
mod laws;
mod of_shapes;
mod parsing;
mod planning;
mod ran;
mod refusing;
mod running;
mod saying;
mod top;
mod values;
mod words;
mod writing;

pub use begun::{Begun, Crew};
pub use headline::every_interleaving_is_meant;
pub use job_runs::{Host, Mode};
pub use laws::{sim_owes_one_choice_text, sim_owes_one_text, sim_owes_one_text_of_any_bytes};
pub use of_shapes::worlds_of_shapes;
pub use ran::Ran;
pub use run_text::Status;
pub use top::{begin, portals_main, run_with_gate};
pub use words::{Command, Format, Request, Task};
