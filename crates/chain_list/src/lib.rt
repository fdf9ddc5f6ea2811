//! A doubly linked list whose nodes lie in one block, and the counter of the nodes that its calls visit.
#![tactic(auto)]

mod block;
mod chain;
mod filling;
mod nodes;
mod places;
mod row;
mod steps;
pub mod threads;

// A crate can name a chain in a contract only if the types of its fields are exported.
#[doc(hidden)]
pub use block::Block;
pub use chain::{Chain, ChainKey};
pub use nodes::Nodes;
pub use places::Places;
#[doc(hidden)]
pub use row::{Links, Row};
pub use steps::Steps;
