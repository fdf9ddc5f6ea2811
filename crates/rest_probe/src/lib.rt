//! One wave of probes: what is noted of each rank of a job, and whether the notes show that the job is at rest.
#![tactic(auto)]

mod answers;
mod notes;
mod opening;
mod partners;
#[cfg(test)]
mod tests;
mod waves;

pub use answers::WaveAnswer;
pub use notes::{Counts, LaneCount, ProbeNote, RankNote};
pub use waves::Wave;
