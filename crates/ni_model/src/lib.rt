//! The model of a network interface in the manner of Portals 4.3: its state as plain lists, and what each message, each start and each
//! call does to it. The definitions stand in `specs/`, and the crates of the interface cite them in their contracts.
//! The few structs here are those that both the definitions and the code speak of.
#![tactic(auto)]

use ptl_types::{
    Descriptor, Entry, Handle, HiddenEntryEvents, List, Message, Outcome, UnexpectedHeader,
};

/// A match entry that is linked in one of the two lists of a portal table index.
#[derive(Clone, Copy, Debug)]
pub struct Linked {
    /// The entry's own handle.
    pub handle: Handle,
    /// The bytes that a locally managed entry has taken. It stays 0 for the others.
    pub running: u64,
    /// What the entry matches and allows.
    pub entry: Entry,
}

/// The entry that a request was found to match, with the list that it stands in.
#[derive(Clone, Copy, Debug)]
pub struct Found {
    /// The priority or the overflow list.
    pub list: List,
    /// The entry as it stood when it was found.
    pub linked: Linked,
}

/// A memory descriptor that is bound, and how many answers it awaits.
#[derive(Clone, Copy, Debug)]
pub struct Bound {
    /// What was bound.
    pub md: Descriptor,
    /// Started operations of this descriptor whose acknowledgement or reply hasn't come.
    pub awaits: u64,
}

/// An unexpected header that waits in the header list of its portal table index.
#[derive(Clone, Copy, Debug)]
pub struct IndexedHeader {
    /// The portal table index.
    pub pt: u32,
    /// The header, and where its bytes lie.
    pub header: UnexpectedHeader,
    /// Which events of the overflow entry in which it lies are hidden.
    pub hidden: HiddenEntryEvents,
}

/// What became of a request at its target.
#[derive(Debug, Drop)]
pub struct Arrived {
    /// Matched, Overflow, Dropped or Violation.
    pub outcome: Outcome,
    /// The acknowledgement or the reply that is sent back.
    pub answer: Option<Message>,
    /// The counting event that rose.
    pub counted: Option<Handle>,
}
