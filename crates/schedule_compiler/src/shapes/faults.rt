//! Why a shape isn't compiled.

use std::fmt;

/// Why a shape isn't compiled. The steps are counted from 0.
#[derive(Clone, Copy, Debug, PartialEq, Eq)]
pub enum CompileFault {
    /// At this step the links pass 500,000.
    TooMany {
        /// The number of the step, from 0.
        step: u32,
    },
    /// At this step the bytes of the cells pass 134,217,728, and the links don't pass their limit.
    TooLarge {
        /// The number of the step, from 0.
        step: u32,
    },
    /// There was no memory.
    NoMemory,
}

impl fmt::Display for CompileFault {
    fn fmt<W: fmt::Write>(&self, f: &mut fmt::Formatter<W>) -> fmt::Result {
        f.write_str(match self {
            CompileFault::TooMany { .. } => "too many links",
            CompileFault::TooLarge { .. } => "too many bytes",
            CompileFault::NoMemory => "out of memory",
        })
    }
}

impl std::error::Error for CompileFault {}
