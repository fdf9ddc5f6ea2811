//! Whether a device answers as the proved interface would: its log, line by line.
//!
//! The device is free where the profile is: which handles it gives, when messages arrive and which ready operation fires. The log says
//! so, and each other answer is owed. A handle is compared by the word that the device gave it, so what is owed speaks of no slot.
#![tactic(auto)]

// Three modules are public for `slot_laws` alone, whose law names what stands after a line and what comes of one.
pub mod answering;
mod arriving;
mod filler;
mod filling;
pub mod judge;
mod kept;
mod printed;
pub mod scenes;
mod settling;
mod steps;
mod whole;

pub use filler::{Filled, Filler, filled_logs_conform};
pub use judge::{Judge, Taken, Verdict};
pub use printed::Printed;
pub use whole::verdict_of;
