//! The message of each cause.

ghost use Rattle.std.specs.Prelude.{◌≡◌};
ghost use Rattle.plan_top.specs.notes.Table.{cell_message, link_message, missing_message, named_message, no_such_cell};
ghost use Rattle.plan_top.specs.notes.Table.{early_message, open_message, plan_words};

use crate::notes::parts::Part::{Cell, Cells, Link, List, Rank, Ranks, Source, Step};
use crate::notes::parts::{OfCell, OfLink, OfList, Part};
use mark_judge::Due;
use plan_judge::{CellCause, LinkCause, PlanCause};

/// Words, with a `%` for each part in its place.
#[derive(Clone, Copy)]
pub(crate) struct Message {
    /// The words.
    pub words: &'static [u8],
    /// The parts, in order.
    pub parts: &'static [Part],
}

/// An element of a result that is wrong.
pub(crate) const DIFFERS: &[u8] = b" isn't what the description means";

/// An element of a result of which it wasn't found whether it is wrong.
pub(crate) const UNKNOWN: &[u8] =
    b": it couldn't be decided whether it is what the description means for all inputs";

/// What is said of a plan as a whole.
pub(crate) fn plan_words(cause: PlanCause) -> &'static [u8]
    ensures { result.now ≡ plan_words cause }
{
    match cause {
        PlanCause::NoRank => b"the plan has no rank",
        PlanCause::TooManyRanks => b"the plan has more than 256 ranks",
        PlanCause::MissingCells => b"the plan has fewer cells than go cells and cells of inputs",
        PlanCause::TooManyCells => b"the plan has 16777216 cells or more",
        PlanCause::TooManyLinks => b"the plan has 4294967295 cells and links or more",
        PlanCause::TooManyBytes => b"the cells and links of the plan have 2^64 bytes or more",
    }
}

/// What is said of a cell.
pub(crate) fn cell_message(cause: CellCause) -> Message
    ensures words { result.words.now ≡ (cell_message cause).0 }
    ensures parts { result.parts.now ≡ (cell_message cause).1 }
{
    match cause {
        CellCause::BadRank => Message {
            words: b"cell % has rank %; each rank is below %",
            parts: &[Cell(OfCell::Number), Cell(OfCell::Rank), Ranks],
        },
        CellCause::PartElement => Message {
            words: b"cell % at rank % has % bytes; an element of type % has %",
            parts: &[
                Cell(OfCell::Number),
                Cell(OfCell::Rank),
                Cell(OfCell::Length),
                Cell(OfCell::Type),
                Cell(OfCell::Element),
            ],
        },
        CellCause::BadGo => Message {
            words: b"cell % has rank %, % bytes, needs %, links to it %; the go cell of rank % has its rank, 0 bytes, needs 1, links 0",
            parts: &[
                Cell(OfCell::Number),
                Cell(OfCell::Rank),
                Cell(OfCell::Length),
                Cell(OfCell::Needs),
                Cell(OfCell::Links),
                Cell(OfCell::Number),
            ],
        },
        CellCause::Needs => Message {
            words: b"cell % at rank % needs %; the links to it are %",
            parts: &[
                Cell(OfCell::Number),
                Cell(OfCell::Rank),
                Cell(OfCell::Needs),
                Cell(OfCell::Links),
            ],
        },
        CellCause::BadInput => Message {
            words: b"cell % has rank %, operation % and % bytes; the cell of input % has rank %, operation - and % bytes",
            parts: &[
                Cell(OfCell::Number),
                Cell(OfCell::Rank),
                Cell(OfCell::Operation),
                Cell(OfCell::Length),
                List(OfList::Name),
                Rank,
                List(OfList::Length),
            ],
        },
        CellCause::Unguarded => Message {
            words: b"cell % holds input % of rank %; no chain of bumps leads to it from cell %, the go cell of that rank",
            parts: &[Cell(OfCell::Number), List(OfList::Name), Rank, Rank],
        },
        CellCause::NotCovered => Message {
            words: b"cell % at rank % has % bytes; the links to it bring %",
            parts: &[
                Cell(OfCell::Number),
                Cell(OfCell::Rank),
                Cell(OfCell::Length),
                Cell(OfCell::Puts),
            ],
        },
        CellCause::Overlap => Message {
            words: b"cell % at rank % has % bytes; two of the puts to it write the same byte",
            parts: &[
                Cell(OfCell::Number),
                Cell(OfCell::Rank),
                Cell(OfCell::Length),
            ],
        },
    }
}

/// What is said of a link.
pub(crate) fn link_message(cause: LinkCause) -> Message
    ensures words { result.words.now ≡ (link_message cause).0 }
    ensures parts { result.parts.now ≡ (link_message cause).1 }
{
    match cause {
        LinkCause::NotRising => Message {
            words: b"link % goes from cell % to cell %; a link goes from a lower cell to a higher one, below %",
            parts: &[
                Link(OfLink::Number),
                Source(OfCell::Number),
                Cell(OfCell::Number),
                Cells,
            ],
        },
        LinkCause::OutOfSource => Message {
            words: b"link % takes % bytes from offset % on; its source, cell %, has % bytes",
            parts: &[
                Link(OfLink::Number),
                Link(OfLink::Length),
                Link(OfLink::From),
                Source(OfCell::Number),
                Source(OfCell::Length),
            ],
        },
        LinkCause::OutOfTarget => Message {
            words: b"link % writes % bytes from offset % on; its target, cell %, has % bytes",
            parts: &[
                Link(OfLink::Number),
                Link(OfLink::Length),
                Link(OfLink::To),
                Cell(OfCell::Number),
                Cell(OfCell::Length),
            ],
        },
        LinkCause::BadBump => Message {
            words: b"link % is a bump from rank % to rank % with % bytes; a bump stays on its rank and carries none",
            parts: &[
                Link(OfLink::Number),
                Source(OfCell::Rank),
                Cell(OfCell::Rank),
                Link(OfLink::Length),
            ],
        },
        LinkCause::NotAtomic => Message {
            words: b"link % is a %; its target, cell %, combines by %, and only an atomic may come to it",
            parts: &[
                Link(OfLink::Number),
                Link(OfLink::Kind),
                Cell(OfCell::Number),
                Cell(OfCell::Operation),
            ],
        },
        LinkCause::BadAtomic => Message {
            words: b"link % combines % bytes at %, cell % (%, % bytes) to cell % (%, % bytes, %); \
                it needs a whole cell that combines, from its like",
            parts: &[
                Link(OfLink::Number),
                Link(OfLink::Length),
                Link(OfLink::To),
                Source(OfCell::Number),
                Source(OfCell::Type),
                Source(OfCell::Length),
                Cell(OfCell::Number),
                Cell(OfCell::Type),
                Cell(OfCell::Length),
                Cell(OfCell::Operation),
            ],
        },
        LinkCause::ToInput => Message {
            words: b"link % is a %; its target, cell %, holds input % of rank %, and only a bump may come to it",
            parts: &[
                Link(OfLink::Number),
                Link(OfLink::Kind),
                Cell(OfCell::Number),
                List(OfList::Name),
                Rank,
            ],
        },
    }
}

/// What is said of a line that names a cell which the plan hasn't.
fn no_such_cell() -> Message
    ensures words { result.words.now ≡ no_such_cell.0 }
    ensures parts { result.parts.now ≡ no_such_cell.1 }
{
    Message {
        words: b"the line names cell %; the plan has % cells",
        parts: &[Cell(OfCell::Number), Cells],
    }
}

/// What is said of a line for this, which names a cell that the plan has or not.
pub(crate) fn named_message(due: Due, is_there: bool) -> Message
    ensures words { result.words.now ≡ (named_message due is_there).0 }
    ensures parts { result.parts.now ≡ (named_message due is_there).1 }
{
    if !is_there {
        return no_such_cell();
    }
    match due {
        Due::Result { .. } => Message {
            words: b"result % % names cell %, of rank %, %, % bytes; each printed list has one line, for a cell of its rank, %, % bytes",
            parts: &[
                List(OfList::Name),
                Rank,
                Cell(OfCell::Number),
                Cell(OfCell::Rank),
                Cell(OfCell::Type),
                Cell(OfCell::Length),
                List(OfList::Type),
                List(OfList::Length),
            ],
        },
        Due::Enter { .. } => Message {
            words: b"enter % % names cell %, of rank %; each member of a barrier has one such line, for a cell of its rank",
            parts: &[Step, Rank, Cell(OfCell::Number), Cell(OfCell::Rank)],
        },
        Due::Leave { .. } => Message {
            words: b"leave % % names cell %, of rank %; each member of a barrier has one such line, for a cell of its rank",
            parts: &[Step, Rank, Cell(OfCell::Number), Cell(OfCell::Rank)],
        },
    }
}

/// What is said where there is no line for this.
pub(crate) fn missing_message(due: Due) -> Message
    ensures words { result.words.now ≡ (missing_message due).0 }
    ensures parts { result.parts.now ≡ (missing_message due).1 }
{
    match due {
        Due::Result { .. } => Message {
            words: b"no line result % % stands before the line end",
            parts: &[List(OfList::Name), Rank],
        },
        Due::Enter { .. } => Message {
            words: b"no line enter % % stands before the line end",
            parts: &[Step, Rank],
        },
        Due::Leave { .. } => Message {
            words: b"no line leave % % stands before the line end",
            parts: &[Step, Rank],
        },
    }
}

/// What is said of an entry into a barrier that may come before its rank's start.
pub(crate) fn early_message() -> Message
    ensures words { result.words.now ≡ early_message.0 }
    ensures parts { result.parts.now ≡ early_message.1 }
{
    Message {
        words: b"rank % enters step % at cell %, before its own start: no message and no bumps after one come there",
        parts: &[Rank, Step, Cell(OfCell::Number)],
    }
}

/// What is said of a barrier that doesn't hold back what comes after it.
pub(crate) fn open_message() -> Message
    ensures words { result.words.now ≡ open_message.0 }
    ensures parts { result.parts.now ≡ open_message.1 }
{
    Message {
        words: b"rank % leaves step % at cell %; from some cell where a rank enters that step no chain of links leads there",
        parts: &[Rank, Step, Cell(OfCell::Number)],
    }
}
