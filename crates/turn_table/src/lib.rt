//! Slots whose values threads take in turns.
//!
//! A table has a value in each slot. A thread takes a slot's value out by its hand, changes it and gives it back, and while
//! the value is out nobody else has it. Each value has a past, a list that only grows, and a name, which never changes. What
//! a hand saw at its last turn at a slot begins whatever the slot's past is later on; each place of a past was added by
//! exactly one hand; and when the table is closed, the hands together tell the whole past. The table knows nothing of what a
//! past means.
#![tactic(auto)]

mod life;
mod plays;
mod table;
mod turns;
mod views;

pub use table::{Turn, TurnHand, Turns};
pub use views::Past;
