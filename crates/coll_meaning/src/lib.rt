//! What a description means: the buffers that its steps make of its inputs, list by list, by the definitions of the
//! collectives alone (MPI, collective communication). A run's results can be held against it.
//!
//! A list that all members have is kept once, an input's lists are the caller's, and a buffer that nothing needs any more
//! is let go where the caller asks for what is printed alone. A step looks at each rank once, and at each byte that it
//! reads and makes.
#![tactic(auto)]

mod buffers;
mod collectives;
mod folding;
mod lists;
mod meaning;
mod places;
mod steps;

pub use buffers::Buffers;
pub use meaning::{buffers_of, printed_of};
