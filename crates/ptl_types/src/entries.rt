//! Match entries, memory descriptors and unexpected headers.

ghost use Rattle.std.specs.Prelude.{◌≡◌};

use crate::{Handle, Header, Rank};
use std::fmt;

/// The two lists of a portal table index (Portals 4.3, match lists).
#[derive(Clone, Copy, Debug, PartialEq, Eq)]
pub enum List {
    /// Entries that a user waits with.
    Priority,
    /// Entries that take what no priority entry matches.
    Overflow,
}

/// The events of a match entry that its options hide; an event that is hidden is never raised, and what is counted stays
/// counted (Portals 4.3, options of match list entries, `PTL_ME_EVENT_.._DISABLE`).
#[derive(Clone, Copy, Debug, PartialEq, Eq)]
pub struct HiddenEntryEvents {
    /// Link.
    pub link: bool,
    /// AutoUnlink, and the AutoFree of an overflow entry.
    pub unlink: bool,
    /// Put, Get, Atomic and FetchAtomic: what a message delivered to the entry tells.
    pub comm: bool,
    /// PutOverflow and AtomicOverflow: what the unexpected headers that its append takes tell.
    pub overflow: bool,
    /// Each event whose `ok` is true.
    pub success: bool,
}

impl HiddenEntryEvents {
    /// No event is hidden.
    pub const NONE: HiddenEntryEvents = HiddenEntryEvents {
        link: false,
        unlink: false,
        comm: false,
        overflow: false,
        success: false,
    };
}

/// The events of a memory descriptor that its options hide, likewise (Portals 4.3, options of memory descriptors,
/// `PTL_MD_EVENT_.._DISABLE`).
#[derive(Clone, Copy, Debug, PartialEq, Eq)]
pub struct HiddenDescriptorEvents {
    /// Send.
    pub send: bool,
    /// Each event whose `ok` is true.
    pub success: bool,
}

impl HiddenDescriptorEvents {
    /// No event is hidden.
    pub const NONE: HiddenDescriptorEvents = HiddenDescriptorEvents {
        send: false,
        success: false,
    };
}

/// A match entry: a part of the region, what it matches, and what is done with a message that it matches
/// (Portals 4.3, match list entries).
#[derive(Clone, Copy, Debug, PartialEq, Eq)]
pub struct Entry {
    /// The first byte of its part of the region.
    pub start: u64,
    /// The length of that part, in bytes.
    pub length: u64,
    /// The counting event that `count_comm` and `count_overflow` count on.
    pub ct: Option<Handle>,
    /// The one source that it matches; any where absent.
    pub match_id: Option<Rank>,
    /// The bits that a message's match bits are compared with.
    pub match_bits: u64,
    /// The bits that aren't compared.
    pub ignore_bits: u64,
    /// With `manage_local`: fewer free bytes than these unlink the entry.
    pub min_free: u64,
    /// Puts and atomics are allowed; fetch-atomics and swaps need both.
    pub allow_put: bool,
    /// Gets are allowed; fetch-atomics and swaps need both.
    pub allow_get: bool,
    /// The first message delivered to it unlinks it.
    pub use_once: bool,
    /// The entry's own running offset is used in place of the message's.
    pub manage_local: bool,
    /// A message that doesn't fit whole isn't matched.
    pub no_truncate: bool,
    /// Each message delivered to it counts one success.
    pub count_comm: bool,
    /// Each unexpected header that its append takes counts one success.
    pub count_overflow: bool,
    /// Which of its events are hidden.
    pub hidden: HiddenEntryEvents,
}

impl Entry {
    /// An entry over no bytes that stays linked, takes puts and atomics of match bits 0 from any rank, counts nothing and hides
    /// no event.
    pub const PLAIN: Entry = Entry {
        start: 0,
        length: 0,
        ct: None,
        match_id: None,
        match_bits: 0,
        ignore_bits: 0,
        min_free: 0,
        allow_put: true,
        allow_get: false,
        use_once: false,
        manage_local: false,
        no_truncate: false,
        count_comm: false,
        count_overflow: false,
        hidden: HiddenEntryEvents::NONE,
    };

    /// The plain entry over this part of the region, in bytes.
    pub fn over(start: u64, length: u64) -> Entry
        ensures { result ≡ record Entry.PLAIN { start = start; length = length } }
    {
        Entry {
            start,
            length,
            ..Entry::PLAIN
        }
    }
}

/// A memory descriptor: a part of the region that operations read from and answers are written to
/// (Portals 4.3, memory descriptors).
#[derive(Clone, Copy, Debug, PartialEq, Eq)]
pub struct Descriptor {
    /// The first byte of its part of the region.
    pub start: u64,
    /// The length of that part, in bytes.
    pub length: u64,
    /// The event queue that its events go to.
    pub eq: Option<Handle>,
    /// The counting event that it counts on.
    pub ct: Option<Handle>,
    /// Each start counts one success.
    pub count_send: bool,
    /// Each reply counts one: a failure where its `ok` is false.
    pub count_reply: bool,
    /// Each acknowledgement counts one: a failure where its `ok` is false.
    pub count_ack: bool,
    /// Which of its events are hidden.
    pub hidden: HiddenDescriptorEvents,
}

impl Descriptor {
    /// A descriptor over no bytes that counts and tells nothing.
    pub const PLAIN: Descriptor = Descriptor {
        start: 0,
        length: 0,
        eq: None,
        ct: None,
        count_send: false,
        count_reply: false,
        count_ack: false,
        hidden: HiddenDescriptorEvents::NONE,
    };

    /// The plain descriptor over this part of the region, in bytes.
    pub fn over(start: u64, length: u64) -> Descriptor
        ensures { result ≡ record Descriptor.PLAIN { start = start; length = length } }
    {
        Descriptor {
            start,
            length,
            ..Descriptor::PLAIN
        }
    }
}

/// The header of a message that an overflow entry took; what becomes of it is this profile's own.
#[derive(Clone, Copy, Debug, PartialEq, Eq)]
pub struct UnexpectedHeader {
    /// The overflow entry that took the message.
    pub entry: Handle,
    /// Where its bytes begin in the region; 0 where none were delivered.
    pub place: u64,
    /// How many bytes were delivered.
    pub delivered: u64,
    /// The message's header.
    pub header: Header,
}

impl fmt::Display for UnexpectedHeader {
    fn fmt<W: fmt::Write>(&self, f: &mut fmt::Formatter<W>) -> fmt::Result {
        write!(
            f,
            "{}; {} of its bytes at {} by entry {}",
            self.header, self.delivered, self.place, self.entry
        )
    }
}
