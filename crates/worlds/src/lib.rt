//! The world of a job: all ranks on one thread, with the messages that are on their way and the steps that are possible in a fixed
//! order.
#![tactic(auto)]

mod finding;
mod frame;
mod laws;
mod making;
pub mod opening;
pub mod parts;
pub mod tasks;
mod world;

pub use cuts::orders::Step;
pub use finding::delivery_at;
pub use frame::Frame;
pub use laws::{possible_steps_of_worlds, runs_by_words, slots_agree, worlds_stand};
pub use ptl_types::LocalStep;
pub use rank_node::Node;
pub use world::{Chooser, World};
