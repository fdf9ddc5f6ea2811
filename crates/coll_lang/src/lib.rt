//! The description language: which collective operations a job of N ranks makes, on which groups and values, and which
//! buffers are printed. A text is read whole, or refused at its first line that breaks a rule; a description has one
//! spelling and one meaning.
#![tactic(auto)]

mod adding;
mod block;
mod choices;
mod description;
mod fault;
mod forms;
mod generating;
mod naming;
mod printing;
mod readable;
mod reader;
mod stage;
mod stepping;
mod take;
mod text;
mod whole;

pub use choices::{ChoiceKind, ChoiceStep, Choices};
pub use coll_shape::{
    Buffer, CollStep, Group, Holders, InputList, Inputs, Name, RankList, Shape, Spread, Version,
};
pub use description::Description;
pub use fault::{ParseFault, Refusal};
pub use generating::generated;
pub use printing::{op_word, print, type_word};
pub use readable::reads_exactly;
pub use text::Text;
pub use whole::{LONGEST_TEXT, parse, parse_by};
