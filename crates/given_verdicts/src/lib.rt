//! The answer on the text of a description and of a plan that is given for it: whether the plan is right for the description's inputs,
//! or the first line at fault and why.
#![tactic(auto)]

mod answer;
mod differing;
mod for_inputs;
pub mod general;
mod judging;
mod naming;
mod places;
mod results;
mod saying;

pub use answer::{FlawlessText, GivenAnswer, GivenCause, Judged, TextRefusal, WrongResult};
pub use for_inputs::{MOST_CARRIED, answer_of, is_large, wrong_for};
pub use judging::{LONGEST_GIVEN, judge_text, too_large};
pub use results::{element_size, name_of};
pub use saying::answer_line;
