//! The world of a choice text: the interfaces of its ranks on one thread, with the messages that are on their way. Whatever the
//! order of its steps, at rest one rank is elected everywhere and each rank has a ticket of its own.
#![tactic(auto)]

mod acts;
mod laws;
mod laying;
pub mod ranks;
pub mod texts;
mod world;

pub use cuts::orders::Step;
pub use laws::choices_by_words;
pub use ptl_types::LocalStep;
pub use world::ChoiceWorld;
pub use worlds::Chooser;
