//! The initiator's side of an interface: memory descriptors, the start of each operation, and the answers that come home
//! (Portals 4.3, memory descriptors, data movement operations, acknowledgements and replies).
#![tactic(auto)]

mod answers;
mod checks;
mod headers;
mod initiator;
mod named;
mod starts;

pub use initiator::Initiator;
