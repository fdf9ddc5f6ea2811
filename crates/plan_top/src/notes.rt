//! What a person is told beside the answer on a given plan: which cell, link or line is at fault, what it has and what it would need;
//! of a text that is refused, why, and which line was due.

mod again;
mod counts;
mod dues;
mod failing;
mod note;
mod parts;
mod table;

pub(crate) use note::{cause_note, line_note, note_of};
