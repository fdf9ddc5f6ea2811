//! One rank of a choice text over a real interface: its region, the calls that install it, its steps and its history.

mod choice_rank;
mod installing;
mod region;

pub use choice_rank::ChoiceRank;
pub use installing::install;
pub use region::kinds;
