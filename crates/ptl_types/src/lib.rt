//! The types that every crate of the interface shares, in the terms of Portals 4.3: handles, counts, headers,
//! messages, match entries, memory descriptors, events, limits, the arguments and answers of an interface's calls, and the
//! calls and steps of one rank as values.
//! The definitions of matching, of the atomic operations and of elements as bytes stand in `specs/`.
#![tactic(auto)]

mod bytes;
mod calls;
mod elements;
mod entries;
mod events;
mod handles;
mod headers;
mod matching;
mod message;
mod steps;

pub use bytes::Bytes;
pub use calls::{
    Appended, Delivered, EqGot, GetArgs, Limits, NiFault, Outcome, PutArgs, TriggeredOp,
};
pub use elements::{AtomicOp, ElemType, SwapOp};
pub use entries::{
    Descriptor, Entry, HiddenDescriptorEvents, HiddenEntryEvents, List, UnexpectedHeader,
};
pub use events::{Event, EventKind};
pub use handles::{Count, Handle, NoMemory, Rank};
pub use headers::{AckRequest, Header, Lane, MessageKind};
pub use matching::matches;
pub use message::Message;
pub use steps::{Call, Cause, LocalStep, PlannedOp};
