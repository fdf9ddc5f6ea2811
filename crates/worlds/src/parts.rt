//! The parts of a world: nodes by rank, and the traffic between them, with the steps over both.

pub mod acts;
pub mod lanes;
pub mod laws;
pub mod marks;
pub mod traffic;
