//! The slots of a job's ranks, with a wire for each lane that messages go on, as an opening makes them.
#![tactic(auto)]

mod lanes;
mod open;

pub use open::wired_slots;
