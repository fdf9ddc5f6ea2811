//! Full events.

use crate::Rank;
use std::fmt;

/// The kinds of event, by the names of Portals 4.3; what each tells, and when, is this profile's own.
#[derive(Clone, Copy, Debug, PartialEq, Eq)]
pub enum EventKind {
    /// A put was delivered to a priority entry.
    Put,
    /// An append took the header of a put.
    PutOverflow,
    /// A get was delivered.
    Get,
    /// An atomic was delivered to a priority entry.
    Atomic,
    /// An append took the header of an atomic.
    AtomicOverflow,
    /// A fetch-atomic or a swap was delivered.
    FetchAtomic,
    /// A reply came home.
    Reply,
    /// An operation was started.
    Send,
    /// An acknowledgement came home.
    Ack,
    /// An entry was linked.
    Link,
    /// An entry was unlinked by a message.
    AutoUnlink,
    /// The last header of an unlinked overflow entry was taken or deleted.
    AutoFree,
    /// A search of the unexpected headers ended.
    Search,
}

impl fmt::Display for EventKind {
    fn fmt<W: fmt::Write>(&self, f: &mut fmt::Formatter<W>) -> fmt::Result {
        f.write_str(match self {
            EventKind::Put => "put",
            EventKind::PutOverflow => "put from overflow",
            EventKind::Get => "get",
            EventKind::Atomic => "atomic",
            EventKind::AtomicOverflow => "atomic from overflow",
            EventKind::FetchAtomic => "fetch-atomic",
            EventKind::Reply => "reply",
            EventKind::Send => "send",
            EventKind::Ack => "acknowledgement",
            EventKind::Link => "link",
            EventKind::AutoUnlink => "unlink",
            EventKind::AutoFree => "free",
            EventKind::Search => "search",
        })
    }
}

/// One event. A field that its kind doesn't name is 0, and `ok` is then true.
#[derive(Clone, Copy, Debug, PartialEq, Eq)]
pub struct Event {
    /// The kind of the event.
    pub kind: EventKind,
    /// The rank that the message came from.
    pub source: Rank,
    /// The portal table index.
    pub pt: u32,
    /// The message's match bits, or the entry's at Link and AutoUnlink.
    pub match_bits: u64,
    /// The message's header data.
    pub hdr_data: u64,
    /// The length that was asked for, in bytes.
    pub requested: u64,
    /// The length that was delivered, in bytes.
    pub delivered: u64,
    /// Where the bytes begin in the region; 0 where none were delivered.
    pub place: u64,
    /// Whether the operation, or the search, succeeded.
    pub ok: bool,
}

impl fmt::Display for Event {
    fn fmt<W: fmt::Write>(&self, f: &mut fmt::Formatter<W>) -> fmt::Result {
        write!(
            f,
            "{} from rank {} at index {}, match bits {:#x}, header data {}, {} of {} bytes at {}{}",
            self.kind,
            self.source,
            self.pt,
            self.match_bits,
            self.hdr_data,
            self.delivered,
            self.requested,
            self.place,
            if self.ok { "" } else { ", failed" }
        )
    }
}
