//! The words of a line of a device's log, with their columns: names, numbers, bytes, and fields in any order.
//!
//! A line is ASCII words with one space between two. What they mean together is for the crates above.
#![tactic(auto)]

mod amounts;
pub mod call_fields;
mod faults;
mod fields;
mod names;
mod taking;
mod values;
mod words;

pub use amounts::{amount_at, digit, is_hex_word, small_at};
pub use faults::{Flaw, LineFault, at};
pub use fields::{HasFields, fields_of};
pub use names::is_name_word;
pub use values::{amount_in, bytes_in, flag_in, name_in, small_in};
pub use words::{Rest, Word};
