//! Buffers, groups and steps.

ghost use Rattle.std.specs.Prelude.{◌≡◌, ◌≤◌, ◌*◌, IfOk};
ghost use Rattle.coll_shape.specs.Outline.{list_bytes};
ghost use Rattle.coll_shape.specs.declared.limits.TheConstants.{MOST_ELEMENTS};

use crate::lists::{Holders, Name, RankList};
use ptl_types::{AtomicOp, ElemType, Rank};
use std::alloc::{AllocError, Global};

/// The version of the language in which a description is written. The second one has all of the first, groups, more ranks
/// and more collectives.
#[derive(Clone, Copy, Debug, PartialEq, Eq)]
pub enum Version {
    /// `coll 1`
    One,
    /// `coll 2`
    Two,
}

/// How many elements of a buffer a rank holds, and which ranks hold it. Every other rank has the empty list.
#[derive(Debug, Drop)]
pub struct Spread {
    /// In elements.
    pub length: u64,
    /// The ranks that hold it, rising.
    pub holders: Holders,
}

/// A buffer: its name, the type of its elements, and where how many of them are.
#[derive(Debug, Drop)]
pub struct Buffer {
    /// The name, which no other buffer and no group of the description has.
    pub name: Name,
    /// The type of each element.
    pub ty: ElemType,
    /// How many elements which ranks hold.
    pub spread: Spread,
}

/// A named group of ranks, on which steps may be made (a communicator, in MPI's terms).
#[derive(Debug, Drop)]
pub struct Group {
    /// The name, which no buffer and no other group of the description has.
    pub name: Name,
    /// The members, rising. The place of a member is its number in this list, from 0.
    pub members: RankList,
}

/// A step: a collective operation of a group's members, in MPI's terms. `a` is the number of the buffer that it reads, `b`
/// that of the new buffer that it makes, in the order of the description's buffers. A root is a place among the members,
/// from 0, as a root in MPI is a rank of its communicator.
#[derive(Clone, Copy, Debug, PartialEq, Eq)]
pub enum CollStep {
    /// No member passes it before every member has entered it (MPI barrier).
    Barrier,
    /// Every member gets the root's list (MPI broadcast).
    Broadcast {
        /// The place whose list is sent.
        root: Rank,
        /// The buffer that is read.
        a: u32,
        /// The buffer that is made.
        b: u32,
    },
    /// The root gets the elementwise fold of all lists in order of places (MPI reduce).
    Reduce {
        /// The place that gets the fold.
        root: Rank,
        /// The operation of the fold.
        op: AtomicOp,
        /// The buffer that is read.
        a: u32,
        /// The buffer that is made.
        b: u32,
    },
    /// Every member gets the elementwise fold of all lists in order of places (MPI allreduce).
    Allreduce {
        /// The operation of the fold.
        op: AtomicOp,
        /// The buffer that is read.
        a: u32,
        /// The buffer that is made.
        b: u32,
    },
    /// The root gets all lists, one after the other in order of places (MPI gather).
    Gather {
        /// The place that gets the lists.
        root: Rank,
        /// The buffer that is read.
        a: u32,
        /// The buffer that is made.
        b: u32,
    },
    /// Every member gets all lists, one after the other in order of places (MPI allgather).
    Allgather {
        /// The buffer that is read.
        a: u32,
        /// The buffer that is made.
        b: u32,
    },
    /// Place r gets block r of each list, in order of places; each list has one for each member (MPI alltoall).
    Alltoall {
        /// The buffer that is read.
        a: u32,
        /// The buffer that is made.
        b: u32,
    },
    /// Place r gets the elementwise fold of the lists of places 0 to r (MPI scan).
    Scan {
        /// The operation of the fold.
        op: AtomicOp,
        /// The buffer that is read.
        a: u32,
        /// The buffer that is made.
        b: u32,
    },
    /// Place r gets block r of the root's list, which has one for each member (MPI scatter).
    Scatter {
        /// The place whose list is cut.
        root: Rank,
        /// The buffer that is read.
        a: u32,
        /// The buffer that is made.
        b: u32,
    },
    /// Place r gets block r of the elementwise fold of all lists (MPI reduce-scatter with equal blocks).
    Reducescatter {
        /// The operation of the fold.
        op: AtomicOp,
        /// The buffer that is read.
        a: u32,
        /// The buffer that is made.
        b: u32,
    },
    /// Place r from 1 on gets the elementwise fold of the lists of places 0 to r - 1, and place 0 the empty list (MPI
    /// exscan, which leaves place 0 open).
    Exscan {
        /// The operation of the fold.
        op: AtomicOp,
        /// The buffer that is read.
        a: u32,
        /// The buffer that is made.
        b: u32,
    },
    /// The root gets the lists of the members that hold one, one after the other in order of places (MPI gatherv).
    Gatherv {
        /// The place that gets the lists.
        root: Rank,
        /// The buffer that is read.
        a: u32,
        /// The buffer that is made.
        b: u32,
    },
}

impl Buffer {
    /// The bytes of a list of the buffer at a rank that holds it.
    pub fn list_bytes(&self) -> u64
        requires { self.now.spread.length ≤ MOST_ELEMENTS }
        ensures value { result ≡ list_bytes self.now }
        ensures most { result ≤ 8 * MOST_ELEMENTS }
    {
        self.spread.length * self.ty.size()
    }

    /// The same buffer again.
    pub fn copied(&self, alloc: Global) -> Result<Buffer, AllocError>
        ensures { IfOk result (λ buffer. buffer ≡ self.now) }
    {
        Ok(Buffer {
            name: Name::copied(alloc, self.name.as_slice())?,
            ty: self.ty,
            spread: Spread {
                length: self.spread.length,
                holders: RankList::copied(alloc, self.spread.holders.as_slice())?,
            },
        })
    }
}

impl Group {
    /// The same group again.
    pub fn copied(&self, alloc: Global) -> Result<Group, AllocError>
        ensures { IfOk result (λ group. group ≡ self.now) }
    {
        Ok(Group {
            name: Name::copied(alloc, self.name.as_slice())?,
            members: RankList::copied(alloc, self.members.as_slice())?,
        })
    }
}
