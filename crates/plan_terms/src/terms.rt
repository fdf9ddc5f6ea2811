//! What bytes are computed from, whatever the bytes that are given: a table of terms, in which a term that was made before is mostly found
//! again. A fold's members may come in any order and grouping, and as often as its operation may meet them.

mod fault;
mod index;
mod members;
mod table;
mod term;
mod times;
mod words;

pub use fault::TermFault;
pub use members::Members;
pub use table::Terms;
pub use term::{Making, Member};
