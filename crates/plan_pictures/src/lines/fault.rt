//! Why a text is refused.

use given_lines::{GivenFault, GivenRefusal};
use std::alloc::{AllocError, AllocFailed};
use std::fmt;

/// What a line shows of a text that is refused.
#[derive(Clone, Copy, Debug, PartialEq, Eq)]
pub enum Refusal {
    /// The text has more than 33,554,432 bytes.
    TooLong,
    /// The line isn't one of a description.
    Description(coll_lang::Refusal),
    /// The line isn't the one of a plan's text that is due.
    NotAPlan,
    /// The plan has more than 20,000 links.
    TooManyLinks,
    /// The plan has more than 20,000 cells beside its go cells.
    TooManyCells,
    /// The line isn't the one of an order text that is due.
    NotAnOrder,
    /// The orders have more than 200,000 local steps, those of a page more than 20,000.
    TooManySteps,
}

impl fmt::Display for Refusal {
    fn fmt<W: fmt::Write>(&self, f: &mut fmt::Formatter<W>) -> fmt::Result {
        f.write_str(match self {
            Refusal::TooLong => "TooLong",
            Refusal::Description(name) => name.word(),
            Refusal::NotAPlan => "NotAPlan",
            Refusal::TooManyLinks => "TooManyLinks",
            Refusal::TooManyCells => "TooManyCells",
            Refusal::NotAnOrder => "NotAnOrder",
            Refusal::TooManySteps => "TooManySteps",
        })
    }
}

/// Why nothing was read.
#[derive(Clone, Copy, Debug, PartialEq, Eq)]
pub enum TextFault {
    /// The text is refused.
    Refused {
        /// The first line that shows it, counted from 1; 0 where no line is to blame.
        line: u32,
        /// What it shows.
        name: Refusal,
    },
    /// There was no memory.
    NoMemory,
}

impl From<AllocError> for TextFault {
    fn from(_error: AllocError) -> TextFault {
        TextFault::NoMemory
    }
}

impl<T: Drop> From<AllocFailed<T>> for TextFault {
    fn from(_error: AllocFailed<T>) -> TextFault {
        TextFault::NoMemory
    }
}

impl From<GivenFault> for TextFault {
    fn from(fault: GivenFault) -> TextFault {
        match fault {
            GivenFault::Refused {
                line,
                name: GivenRefusal::TooMany,
            } => TextFault::Refused {
                line,
                name: Refusal::TooManyLinks,
            },
            GivenFault::Refused { line, .. } => TextFault::Refused {
                line,
                name: Refusal::NotAPlan,
            },
            GivenFault::NoMemory => TextFault::NoMemory,
        }
    }
}

impl From<coll_lang::ParseFault> for TextFault {
    fn from(fault: coll_lang::ParseFault) -> TextFault {
        match fault {
            coll_lang::ParseFault::Refused { line, name } => TextFault::Refused {
                line,
                name: Refusal::Description(name),
            },
            coll_lang::ParseFault::NoMemory => TextFault::NoMemory,
        }
    }
}
