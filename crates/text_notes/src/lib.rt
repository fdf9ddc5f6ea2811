//! Why a text of the description language, or of orders after one, is refused: the word of the line that is to blame, and what was
//! expected there. The lines before a refused one are valid, so that they tell which kind of line is due. It takes no memory.
#![tactic(auto)]

mod explain;
mod flaws;
mod groups;
mod keys;
mod lines;
pub mod notes;
mod orders;
mod places;
mod standing;
mod steps;

pub use explain::{explain_fails, explain_text, line_at, plain_note};
