//! What is owed as an answer, and whether a device said it.
//!
//! What is owed speaks of no slot: a handle is the word that the device gave for it. It is a list of words, of which each says one thing,
//! and fields, which a device may leave out. An answer itself is never refused: it agrees, or it differs from a column on.
#![tactic(auto)]

mod agreement;
mod fields;
mod hexes;
mod items;
pub mod names;
mod owed;
mod printing;
mod texts;

pub use agreement::{Found, compare};
pub use hexes::hex_char;
pub use items::{Place, field, item};
pub use owed::{Item, Knows, Owed, Sort, Text};
pub use printing::push_owed;
