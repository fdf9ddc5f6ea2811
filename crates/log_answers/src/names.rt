//! The words that a device gave to its things, and those that a log gave to messages and operations.
//!
//! Each map is seen as the list of its entries by rising key, so that what stands after a call is one value.

mod flights;
mod keys;
mod names;
mod postings;

pub use flights::{Flight, Flights};
pub use keys::{ByNumber, ByWord, Name};
pub use names::Names;
pub use postings::Postings;
