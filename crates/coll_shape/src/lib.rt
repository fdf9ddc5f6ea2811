//! What a description says apart from its text: ranks, groups, buffers with the ranks that hold them, the collective
//! operations that are made, and the values of the inputs; with what each collective means.
//!
//! One row a collective stands in `specs/Collectives`: a new one is a row there, an arm of each function of `collectives`, and a line
//! of each of the first lemmas of `proofs/ByCollective`.
#![tactic(auto)]

mod collectives;
mod inputs;
mod limits;
mod lists;
mod shape;
mod types;

pub use collectives::{
    Need, STEP_KINDS, StepKind, can_read, holders_among, is_in, made_holders, made_length,
};
pub use inputs::{InputList, Inputs};
pub use limits::{
    MOST_BUFFERS, MOST_ELEMENTS, MOST_GIVEN, MOST_GROUPS, MOST_PRINTS, MOST_RANKS,
    MOST_RANKS_IN_ONE, MOST_STEPS,
};
pub use lists::{Holders, Name, RankList};
pub use shape::{Parts, Shape, members_of};
pub use types::{Buffer, CollStep, Group, Spread, Version};
