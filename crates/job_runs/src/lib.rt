//! Running a job to its end: on one thread in the program's own order or in one that a seed chooses, or by workers on threads.
#![tactic(auto)]

mod host;
mod modes;
mod running;
mod words;
mod writing;

pub use host::Host;
pub use modes::{Mode, mode_in};
pub use running::{run_by_workers, run_chosen, run_once, run_steadily};
pub use words::Words;
pub use writing::write_ordered;
