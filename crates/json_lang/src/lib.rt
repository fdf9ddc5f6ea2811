//! Descriptions in JSON. A value of the form stands for the lines of a text of the description language, its line text; JSON
//! bytes describe what that text describes, and are refused where it is refused.
#![tactic(auto)]

mod fault;
mod form;
pub mod notes;
mod reading;
mod values;
mod writing;

pub use fault::{JsonFault, JsonRefusal};
pub use form::{is_input_name, is_member_name, is_whole, is_word, is_word_or_whole};
pub use reading::{lines_of, parse_json};
