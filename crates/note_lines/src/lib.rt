//! Lines for a person, which go to a sink one by one: each is printable and short, and after a fault a beginning of them stands.
#![tactic(auto)]

mod saying;

pub use saying::{say, say_each, say_line};
