//! What a rank does by the frames that come to it, and the frames that it writes; nothing here knows of plans.
#![tactic(auto)]

mod due;
mod fault;
mod frames;
mod going;
mod place;
mod taking;

pub use due::Due;
pub use fault::{FrameFault, Stop};
pub use frames::{NOBODY, read_bytes, read_head, read_number, write_frame};
pub use place::Place;
pub use taking::take_frames;

#[cfg(test)]
mod tests;
