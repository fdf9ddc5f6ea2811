//! The job of a plan that is given for a description as it runs, and the lists that its results then hold.

mod results;
mod running;

pub use results::GivenResults;
pub use running::{GivenRun, run_given};
