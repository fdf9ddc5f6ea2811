//! Ranks, handles, counts, and what says that memory ran out.

ghost use Rattle.std.specs.Prelude.{◌≡◌};
ghost use Rattle.ptl_types.specs.Handles.{same_handle};

use std::alloc::{AllocError, AllocFailed};
use std::fmt;

/// The number of a process in its job, from 0: a Portals process is addressed by its rank alone.
pub type Rank = u32;

/// There was no memory for what a call needed. The call changed nothing but what its own entry says.
#[derive(Clone, Copy, Debug, PartialEq, Eq)]
pub struct NoMemory;

impl fmt::Display for NoMemory {
    fn fmt<W: fmt::Write>(&self, f: &mut fmt::Formatter<W>) -> fmt::Result {
        f.write_str("out of memory")
    }
}

impl std::error::Error for NoMemory {}

impl From<AllocError> for NoMemory {
    fn from(_e: AllocError) -> NoMemory {
        NoMemory
    }
}

impl<T: Drop> From<AllocFailed<T>> for NoMemory {
    fn from(_e: AllocFailed<T>) -> NoMemory {
        NoMemory
    }
}

/// The name of a memory descriptor, match entry, counting event or event queue of one interface.
///
/// `slot` is the number of the thing's record in the interface's table, which is used again; `stamp` rises by one with each
/// thing made in that table, from 0, so that the handle of a thing that is gone is never live again.
#[derive(Clone, Copy, Debug, PartialEq, Eq)]
pub struct Handle {
    /// The number of its record: of a descriptor, a counting event or a queue below that table's limit, of a match entry
    /// below the limits of entries and of unexpected headers together, since an unlinked overflow entry keeps its record
    /// while a header names it.
    pub slot: u32,
    /// How many things were made in the table before this one.
    pub stamp: u64,
}

impl Handle {
    /// Whether both name the same thing: slot and stamp are equal.
    pub fn is(self, other: Handle) -> bool
        ensures { result ≡ same_handle self other }
    {
        self.stamp == other.stamp && self.slot == other.slot
    }
}

/// What a counting event holds (Portals 4.3, counting events): operations that succeeded, and that failed.
#[derive(Clone, Copy, Debug, PartialEq, Eq)]
pub struct Count {
    /// Operations that succeeded.
    pub success: u64,
    /// Operations that failed.
    pub failure: u64,
}

impl fmt::Display for Handle {
    fn fmt<W: fmt::Write>(&self, f: &mut fmt::Formatter<W>) -> fmt::Result {
        write!(f, "number {} in slot {}", self.stamp, self.slot)
    }
}

impl fmt::Display for Count {
    fn fmt<W: fmt::Write>(&self, f: &mut fmt::Formatter<W>) -> fmt::Result {
        write!(f, "{} succeeded, {} failed", self.success, self.failure)
    }
}
