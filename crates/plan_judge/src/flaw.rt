//! Why a plan isn't taken.

/// What is wrong with a plan as a whole.
#[derive(Clone, Copy, Debug, PartialEq, Eq)]
pub enum PlanCause {
    /// It has no rank.
    NoRank,
    /// It has more than 256 ranks.
    TooManyRanks,
    /// It has fewer cells than ranks and cells of inputs together.
    MissingCells,
    /// It has 2^24 cells or more.
    TooManyCells,
    /// It has 2^32 - 1 cells and links or more.
    TooManyLinks,
    /// Its cells and links have 2^64 bytes or more.
    TooManyBytes,
}

/// What is wrong with a cell.
#[derive(Clone, Copy, Debug, PartialEq, Eq)]
pub enum CellCause {
    /// Its rank is none of the plan's.
    BadRank,
    /// Its length isn't one of whole elements.
    PartElement,
    /// It is one of the first cells, one a rank, and isn't that rank's go cell: on that rank, of no bytes, needing 1, without links to it.
    BadGo,
    /// It doesn't need as many messages and increments as there are links to it.
    Needs,
    /// It is to hold an input, and combines, lies on another rank, or has another length than the input's list.
    BadInput,
    /// It holds an input, and no chain of bumps leads to it from its rank's go cell: it may be read before its host has put the
    /// input there.
    Unguarded,
    /// The puts to it don't have its bytes together.
    NotCovered,
    /// Two puts to it write the same byte.
    Overlap,
}

/// What is wrong with a link.
#[derive(Clone, Copy, Debug, PartialEq, Eq)]
pub enum LinkCause {
    /// It doesn't go from a lower cell to a higher one of the plan.
    NotRising,
    /// Its bytes pass the end of its source.
    OutOfSource,
    /// Its bytes pass the end of its target.
    OutOfTarget,
    /// It is a bump, and leaves its rank or carries bytes.
    BadBump,
    /// It comes to a cell that combines, and is no atomic.
    NotAtomic,
    /// It is an atomic, and isn't over the whole of a cell that combines, from a cell of its type and length.
    BadAtomic,
    /// It comes to a cell that holds an input, and is no bump.
    ToInput,
}

/// What is the first at fault in a plan.
#[derive(Clone, Copy, Debug, PartialEq, Eq)]
pub enum Flaw {
    /// The plan as a whole.
    Plan {
        /// Why.
        cause: PlanCause,
    },
    /// A cell.
    Cell {
        /// Its number.
        cell: u32,
        /// Why.
        cause: CellCause,
    },
    /// A link.
    Link {
        /// Its number.
        link: u32,
        /// Why.
        cause: LinkCause,
    },
}
