//! Notes on standard error: why a text is refused, as a line that a person reads.
//!
//! A note names a line, a column and the word that stands there, and its cause says what was expected. A line of a note has at most
//! 200 bytes, each printable.

mod cause;
mod detail;
mod forms;
mod line;
mod message;
mod note;
mod printable;

pub use cause::{Cause, Excess, FormFlaw, GroupFlaw, Limit, LineFlaw, NumberFlaw, OrderFlaw};
pub use detail::{Detail, OPERATIONS, TYPES};
pub use forms::{FORMS, wrong_words};
pub use line::note_text;
pub use note::{About, Note, SHOWN, cut_word};
pub use printable::{LONGEST, NoteLine, Printable};
