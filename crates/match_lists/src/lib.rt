//! The priority list and the overflow list of one portal table index (Portals 4.3, match lists).
#![tactic(auto)]

mod lists;
mod look;
mod match_list;
mod trails;
pub mod unexpected;
mod walk;

pub use lists::{LinkedAt, Lists};
// A crate can name the lists in a contract only if the types of their fields are exported.
#[doc(hidden)]
pub use look::Look;
#[doc(hidden)]
pub use match_list::MatchList;
#[doc(hidden)]
pub use trails::{Trails, Unseen};
pub use walk::{fits, offset_in, space_in};
