//! Why no terms are made.

ghost use Rattle.std.specs.Prelude.{◌≡◌};
ghost use Rattle.plan_terms.specs.declared.terms.fault.TermFault.TheVariants.{NoMemory};

use std::alloc::{AllocError, AllocFailed};

/// Why no terms are made.
#[derive(Clone, Copy, Debug, PartialEq, Eq)]
pub enum TermFault {
    /// A link doesn't fit its cells. In a sound plan each does.
    Unfit,
    /// The inputs have too many bytes, there are too many terms, or a factor of a product is met too many times.
    TooMany,
    /// There was no memory.
    NoMemory,
}

impl From<AllocError> for TermFault {
    ghost from_gives = { λ _ e. e ≡ NoMemory };

    fn from(_error: AllocError) -> TermFault {
        TermFault::NoMemory
    }
}

impl<T: Drop> From<AllocFailed<T>> for TermFault {
    ghost from_gives = { λ _ e. e ≡ NoMemory };

    fn from(_error: AllocFailed<T>) -> TermFault {
        TermFault::NoMemory
    }
}

impl From<ptl_types::NoMemory> for TermFault {
    ghost from_gives = { λ _ e. e ≡ NoMemory };

    fn from(_error: ptl_types::NoMemory) -> TermFault {
        TermFault::NoMemory
    }
}
