//! Lines, words, numbers, names and values in bytes, with no meaning yet.
//!
//! A text is cut at each LF (0x0A) and a line at each space (0x20). Only the values of a data line take memory.
#![tactic(auto)]

mod named;
mod names;
mod numerals;
mod splitting;
mod values;
mod writing;

pub use named::{op_named, type_named};
pub use names::{is, is_name};
pub use numerals::{Number, long_number, number_at, number_between};
pub use splitting::{Words, cut};
pub use values::{Flaw, ValuesFault, data_line, push_value, value_of};
pub use writing::{printed_value, push_data_line, push_line};
