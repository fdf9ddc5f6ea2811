//! Laws of texts. No code but functions that are proved, and nothing stands on it.
#![tactic(auto)]

pub mod plans;
pub mod refusals;
