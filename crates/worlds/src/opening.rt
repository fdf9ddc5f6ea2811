//! The parts of a job's world before its first step, and around nodes that come from elsewhere.

mod framing;
mod installing;
mod laying;
mod opening;

pub use framing::{FRAME_WINDOW, mark_all, open_bare};
pub use installing::install_all;
pub use opening::opened;
