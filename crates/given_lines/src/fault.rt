//! Why a text is refused.

ghost use Rattle.std.specs.Prelude.{◌≡◌};
ghost use Rattle.given_lines.specs.declared.fault.GivenFault.TheVariants.{NoMemory};

use std::alloc::{AllocError, AllocFailed};
use std::fmt;

/// What a line shows of a text that is refused.
#[derive(Clone, Copy, Debug, PartialEq, Eq)]
pub enum GivenRefusal {
    /// The line isn't one that may stand there.
    BadPlan,
    /// The plan has more than 500,000 links.
    TooMany,
    /// A line is due, and the rest of the text has no LF.
    Unended,
    /// Bytes follow the line `end`.
    AfterEnd,
}

impl fmt::Display for GivenRefusal {
    fn fmt<W: fmt::Write>(&self, f: &mut fmt::Formatter<W>) -> fmt::Result {
        f.write_str(match self {
            GivenRefusal::BadPlan => "BadPlan",
            GivenRefusal::TooMany => "TooMany",
            GivenRefusal::Unended => "Unended",
            GivenRefusal::AfterEnd => "AfterEnd",
        })
    }
}

/// Why nothing was read.
#[derive(Clone, Copy, Debug, PartialEq, Eq)]
pub enum GivenFault {
    /// The text is refused.
    Refused {
        /// The first line at fault.
        line: u32,
        /// What it shows.
        name: GivenRefusal,
    },
    /// There was no memory.
    NoMemory,
}

impl From<AllocError> for GivenFault {
    ghost from_gives = { λ _ e. e ≡ NoMemory };

    fn from(_error: AllocError) -> GivenFault {
        GivenFault::NoMemory
    }
}

impl<T: Drop> From<AllocFailed<T>> for GivenFault {
    ghost from_gives = { λ _ e. e ≡ NoMemory };

    fn from(_error: AllocFailed<T>) -> GivenFault {
        GivenFault::NoMemory
    }
}
