//! The target's side of an interface: what a request does where it arrives, and the calls that append, unlink and search
//! (Portals 4.3, matching, overflow lists and the operations at the target).
#![tactic(auto)]

mod answers;
mod appends;
mod calls;
mod entry_records;
mod events;
mod exchange;
mod gone;
mod index;
mod measures;
mod spare_buffers;
mod swap;
mod takes;
mod target;
mod unlinks;

pub use appends::AppendArgs;
pub use spare_buffers::SpareBuffers;
pub use target::Target;
