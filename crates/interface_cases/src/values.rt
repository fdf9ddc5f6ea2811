//! The values that the scripts begin with; a script names what it changes.

use ptl_types::{
    AckRequest, Count, Descriptor, ElemType, Entry, Event, EventKind, GetArgs, Handle, Header,
    HiddenDescriptorEvents, HiddenEntryEvents, Limits, MessageKind, PutArgs,
};

/// The limits of every interface of the scripts.
pub const LIMITS: Limits = Limits {
    entries: 4,
    unexpected: 2,
    mds: 2,
    cts: 2,
    eqs: 1,
    pts: 2,
    triggered: 4,
    msg: 16,
    atomic: 8,
    fetch_atomic: 8,
};

/// The first thing of its kind that an interface made; the scripts write slot 0 for every slot.
pub const FIRST: Handle = Handle { slot: 0, stamp: 0 };

/// The second.
pub const SECOND: Handle = Handle { slot: 0, stamp: 1 };

/// The third.
pub const THIRD: Handle = Handle { slot: 0, stamp: 2 };

/// The fourth.
pub const FOURTH: Handle = Handle { slot: 0, stamp: 3 };

/// The fifth.
pub const FIFTH: Handle = Handle { slot: 0, stamp: 4 };

/// A handle that no table of the scripts gives.
pub const NOTHING: Handle = Handle {
    slot: 7,
    stamp: 1000,
};

/// One success.
pub const ONE: Count = Count {
    success: 1,
    failure: 0,
};

/// Two numbers that together pass the end of a counting event.
pub const PAST_THE_END: Count = Count {
    success: u64::MAX,
    failure: 1,
};

/// A persistent entry over the first four bytes for messages of match bits 5, that allows everything and counts nothing.
pub const ENTRY: Entry = Entry {
    start: 0,
    length: 4,
    ct: None,
    match_id: None,
    match_bits: 5,
    ignore_bits: 0,
    min_free: 0,
    allow_put: true,
    allow_get: true,
    use_once: false,
    manage_local: false,
    no_truncate: false,
    count_comm: false,
    count_overflow: false,
    hidden: HiddenEntryEvents::NONE,
};

/// The same entry, which its first message unlinks.
pub const ONCE: Entry = Entry {
    use_once: true,
    ..ENTRY
};

/// A descriptor over 16 bytes that counts and tells nothing.
pub const DESCRIPTOR: Descriptor = Descriptor {
    start: 0,
    length: 16,
    eq: None,
    ct: None,
    count_send: false,
    count_reply: false,
    count_ack: false,
    hidden: HiddenDescriptorEvents::NONE,
};

/// A put of no bytes of the first descriptor to rank 0 that asks for no acknowledgement.
pub const PUT: PutArgs = PutArgs {
    md: FIRST,
    local_offset: 0,
    length: 0,
    ack: AckRequest::NoAck,
    target: 0,
    pt: 0,
    match_bits: 5,
    remote_offset: 0,
    hdr_data: 0,
};

/// A get of no bytes from rank 0, into the first descriptor.
pub const GET: GetArgs = GetArgs {
    md: FIRST,
    local_offset: 0,
    length: 0,
    target: 0,
    pt: 0,
    match_bits: 5,
    remote_offset: 0,
};

/// The header of a put of no bytes from rank 1 to rank 0.
pub const HEADER: Header = Header {
    kind: MessageKind::Put,
    source: 1,
    target: 0,
    pt: 0,
    match_bits: 5,
    offset: 0,
    length: 0,
    hdr_data: 0,
    op: None,
    swap: None,
    ty: ElemType::U8,
    operand: 0,
    ack: AckRequest::NoAck,
    home: None,
    home_offset: 0,
    ok: true,
};

/// The event of an entry's linking at index 0; each field that an event doesn't name is 0.
pub const EVENT: Event = Event {
    kind: EventKind::Link,
    source: 0,
    pt: 0,
    match_bits: 5,
    hdr_data: 0,
    requested: 0,
    delivered: 0,
    place: 0,
    ok: true,
};

/// The event of an entry's linking at index 1.
pub const LINKED: Event = Event { pt: 1, ..EVENT };

/// The event of an entry's unlinking by a message at index 1.
pub const UNLINKED: Event = Event {
    kind: EventKind::AutoUnlink,
    ..LINKED
};

/// The event that an overflow entry of index 1 is free.
pub const FREED: Event = Event {
    kind: EventKind::AutoFree,
    match_bits: 0,
    ..LINKED
};
