//! The answers on a given plan.

use coll_lang::{Description, Refusal};
use coll_shape::Name;
use given_lines::{GivenPlan, GivenRefusal};
use mark_judge::MarkFlaw;
use plan_judge::{CellCause, LinkCause, PlanCause};
use ptl_types::Rank;

/// Why a text is refused: nothing is said of its plan.
#[derive(Clone, Copy, Debug, PartialEq, Eq)]
pub enum TextRefusal {
    /// As a description, or for its size.
    Description(Refusal),
    /// As the text of a plan.
    Plan(GivenRefusal),
}

/// What is wrong with a plan that was read.
#[derive(Debug, Drop)]
pub enum GivenCause {
    /// The plan as a whole is no sound one.
    Plan(PlanCause),
    /// A cell isn't.
    Cell(CellCause),
    /// A link isn't.
    Link(LinkCause),
    /// A line after the links isn't what the description asks for.
    Mark(MarkFlaw),
    /// The cell of a result holds another list than the description means.
    Value {
        /// The buffer's name.
        name: Name,
        /// The rank.
        rank: Rank,
        /// The place of the first element that differs or is missing, from 0.
        place: u64,
    },
}

/// A result whose cell holds another list than the description means.
#[derive(Debug, Drop)]
pub struct WrongResult {
    /// Its line, counted from 1.
    pub line: u64,
    /// Which list it is, and where it differs.
    pub cause: GivenCause,
}

/// What is said of a text.
#[derive(Debug, Drop)]
pub enum GivenAnswer {
    /// The plan is right for the inputs that it was judged for.
    Holds,
    /// It isn't.
    Fails {
        /// The line at fault, counted from 1.
        line: u64,
        /// Why.
        cause: GivenCause,
    },
    /// Whether it is right for all inputs wasn't found, for the cell of a result, which holds what is meant for the inputs of numbered
    /// bytes. Of given inputs this is never said, nor where nothing is combined, unless the shape's own plan is refused.
    Unknown {
        /// The result's line, counted from 1.
        line: u64,
        /// The buffer's name.
        name: Name,
        /// The rank.
        rank: Rank,
        /// The place of the first element of which it wasn't found, from 0.
        place: u64,
    },
    /// The text is refused.
    Refused {
        /// The line at fault, counted from 1; 0 where no line is to blame.
        line: u32,
        /// Why.
        name: TextRefusal,
    },
}

/// A description and a plan for it, neither of which has a flaw, nor have the lines after the plan's links. What its results hold is
/// still to be seen.
#[derive(Drop)]
pub struct FlawlessText {
    /// The line with which the plan's text begins, counted from 1.
    pub line: u32,
    /// The description, which is no choice text.
    pub description: Description,
    /// The plan, and what its text says of it.
    pub given: GivenPlan,
}

/// What a text shows before the results of its plan are looked at.
#[derive(Drop)]
pub enum Judged {
    /// This answer, whatever the inputs.
    Answered(GivenAnswer),
    /// No flaw.
    Flawless(FlawlessText),
}
