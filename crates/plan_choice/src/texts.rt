//! Choice texts, as definitions and laws, no code: their machine, the interface of a rank of theirs, and the laws of every order.

pub mod laws;
pub mod machine;
pub mod orders;
pub mod view;
