//! What a plan takes of its ranks' interfaces and in time, and what each triggered operation of it is, in words and as a graph.
#![tactic(auto)]

mod costing;
mod explaining;
mod graph;
mod limits;
mod ops;
mod takes;

pub use costing::{PlanCosts, costs_are_one, write_costs};
pub use explaining::{write_explained, write_rank_explained};
pub use graph::write_graph;
pub use limits::write_limits;
pub use ops::OpTables;
pub use takes::{Takes, takes_are_installed, takes_of_ranks};
