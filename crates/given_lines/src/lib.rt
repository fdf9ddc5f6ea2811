//! Reading the text of a plan that anybody made, with the cells that its results and barriers name: a head, a line for each cell and
//! link, the done counters, the named cells, and `end`. It is read whole, or refused at its first line at fault.
#![tactic(auto)]

mod fault;
mod given;
mod lines;
mod marks;
mod reading;
mod rows;
mod words;

pub use fault::{GivenFault, GivenRefusal};
pub use given::{Counts, GivenPlan, Mark};
pub use reading::read_given;
