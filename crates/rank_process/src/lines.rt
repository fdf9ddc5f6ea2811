//! The lines of one rank of a description: its own list of each buffer that is printed, from its memory.

mod places;
mod prints;

pub use prints::Prints;
