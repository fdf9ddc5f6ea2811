//! The answer on the text of a description and of a plan that is given for it, for all inputs of the description's shape: whether the
//! plan is right for each of them, or the first line at fault and why, or the first result of which it isn't known.

mod answering;
mod bare;
mod unknown;

pub use answering::general_answer;
pub use bare::bare_plans_are_known;
