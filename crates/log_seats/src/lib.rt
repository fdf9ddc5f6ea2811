//! An open interface of a log: what words name there, and what each call does and owes as its answer.
#![tactic(auto)]

mod after;
mod answers;
mod bytes;
mod entries;
mod operations;
mod seats;
mod starts;
mod tables;

pub use after::{After, misuse_word, refused, told, word};
pub use answers::{answer, arrives};
pub use bytes::bytes_in;
pub use operations::{fire_number, ready_number};
pub use seats::Seat;
