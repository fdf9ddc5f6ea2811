//! The plan of a shape with the cells that the lines after it name: those that hold the results, and those at which barriers are entered
//! and left.
#![tactic(auto)]

mod barriers;
mod marked;
mod results;

pub use marked::{MarkedPlan, marked_shape};
