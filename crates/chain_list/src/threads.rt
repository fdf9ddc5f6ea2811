//! Threads: lists of places, each place on one of them at most, which are all linked in one row. A place is put after the last
//! of a thread, or taken off its thread, in a number of steps that is the same however many there are.

mod ends;
mod links;
mod threads;

// A crate can name threads in a contract only if the types of their fields are exported.
#[doc(hidden)]
pub use ends::Ends;
#[doc(hidden)]
pub use links::{Link, Links};
pub use threads::Threads;
