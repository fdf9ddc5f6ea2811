//! One rank of a plan: its interface, as the compiled calls prepare and start it, and the history of its steps.
#![tactic(auto)]

mod choice;
mod compiled;
mod gates;
mod history;
mod install;
mod kept;
mod laws;
mod node;
pub mod of_plan;
mod past;
mod start;

pub use compiled::Compiled;
pub use history::History;
pub use install::{alloc_index, make_counter, make_descriptor, make_entry, one, post};
pub use kept::NodeHandles;
pub use laws::{compiled_plans, node_runs};
pub use node::Node;
pub use start::raise_go;
