//! What the fields of a call say in a log, and the words of which only a few may stand.
//!
//! Handles stay the device's own words: what they name is for whoever follows the log.

mod choices;
mod fields;
mod plain;
mod said;

pub use choices::{deletes_in, list_in, op_in, start_named, swap_in, type_in};
pub use plain::{plain_entry, plain_md, plain_opening, plain_queue, plain_start};
pub use said::{EntrySaid, MdSaid, NO_HANDLE, Opening, QueueSaid, StartName, StartSaid};
