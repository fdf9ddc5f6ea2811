//! Calls at the indices below a number, which so many threads share as they come to them.
//!
//! A thread takes the next index that none has taken, and so on until there is none left: OpenMP's dynamic schedule with chunks of one.
//! Where items take unlike long, or a processor is slower than another, no thread waits for one that was given too much.
#![tactic(auto)]

mod ahead;
mod sharing;

pub use ahead::reach_ahead;
pub use sharing::map_indices;
