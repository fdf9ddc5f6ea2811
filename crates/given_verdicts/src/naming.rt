//! The words of causes and refusals.

ghost use Rattle.std.specs.Prelude.{◌≡◌};
ghost use Rattle.given_verdicts.specs.Saying.{cell_word, given_word, link_word, mark_word, name_word, plan_word};

use crate::answer::TextRefusal;
use given_lines::GivenRefusal;
use mark_judge::MarkFlaw;
use plan_judge::{CellCause, LinkCause, PlanCause};

/// The word of what is wrong with a plan as a whole.
pub(crate) fn plan_word(cause: PlanCause) -> &'static [u8]
    ensures { result.now ≡ plan_word cause }
{
    match cause {
        PlanCause::NoRank => b"NoRank",
        PlanCause::TooManyRanks => b"TooManyRanks",
        PlanCause::MissingCells => b"MissingCells",
        PlanCause::TooManyCells => b"TooManyCells",
        PlanCause::TooManyLinks => b"TooManyLinks",
        PlanCause::TooManyBytes => b"TooManyBytes",
    }
}

/// The word of what is wrong with a cell.
pub(crate) fn cell_word(cause: CellCause) -> &'static [u8]
    ensures { result.now ≡ cell_word cause }
{
    match cause {
        CellCause::BadRank => b"BadRank",
        CellCause::PartElement => b"PartElement",
        CellCause::BadGo => b"BadGo",
        CellCause::Needs => b"Needs",
        CellCause::BadInput => b"BadInput",
        CellCause::Unguarded => b"Unguarded",
        CellCause::NotCovered => b"NotCovered",
        CellCause::Overlap => b"Overlap",
    }
}

/// The word of what is wrong with a link.
pub(crate) fn link_word(cause: LinkCause) -> &'static [u8]
    ensures { result.now ≡ link_word cause }
{
    match cause {
        LinkCause::NotRising => b"NotRising",
        LinkCause::OutOfSource => b"OutOfSource",
        LinkCause::OutOfTarget => b"OutOfTarget",
        LinkCause::BadBump => b"BadBump",
        LinkCause::NotAtomic => b"NotAtomic",
        LinkCause::BadAtomic => b"BadAtomic",
        LinkCause::ToInput => b"ToInput",
    }
}

/// The word of what is wrong with a line after the links.
pub(crate) fn mark_word(flaw: MarkFlaw) -> &'static [u8]
    ensures { result.now ≡ mark_word flaw }
{
    match flaw {
        MarkFlaw::BadDone { .. } => b"BadDone",
        MarkFlaw::BadResult { .. } => b"BadResult",
        MarkFlaw::NoResult { .. } => b"NoResult",
        MarkFlaw::EarlyEntry { .. } => b"EarlyEntry",
        MarkFlaw::BarrierOpen { .. } => b"BarrierOpen",
    }
}

/// The word of a plan's refusal.
fn given_word(name: GivenRefusal) -> &'static [u8]
    ensures { result.now ≡ given_word name }
{
    match name {
        GivenRefusal::BadPlan => b"BadPlan",
        GivenRefusal::TooMany => b"TooMany",
        GivenRefusal::Unended => b"Unended",
        GivenRefusal::AfterEnd => b"AfterEnd",
    }
}

/// The word of a text's refusal.
pub(crate) fn name_word(name: TextRefusal) -> &'static [u8]
    ensures { result.now ≡ name_word name }
{
    match name {
        TextRefusal::Description(name) => name.word().as_bytes(),
        TextRefusal::Plan(name) => given_word(name),
    }
}
