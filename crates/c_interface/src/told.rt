//! Things of an interface, from the form that C has them in and to it.

ghost use Rattle.std.specs.Prelude.{◌≡◌};
ghost use Rattle.c_interface.specs.Forms.{bit, both_of, count_of, count_told, descriptor_of, entry_of, event_told, handle_of, handle_told};
ghost use Rattle.c_interface.specs.Forms.{kind_told, limits_of, list_of, match_of, none_told, unless_none};

use crate::forms::{CCount, CDescriptor, CEntry, CEvent, CHandle, CLimits};
use crate::options::{has, unknown};
use ptl_types::{
    Count, Descriptor, Entry, Event, EventKind, Handle, HiddenDescriptorEvents, HiddenEntryEvents,
    Limits, List, Rank,
};

/// Of a descriptor: each start, reply or acknowledgement is counted.
const COUNT_SEND: u32 = 1;

const COUNT_REPLY: u32 = 2;

const COUNT_ACK: u32 = 4;

/// And these events are hidden.
const HIDE_SEND: u32 = 8;

const HIDE_DESCRIPTOR_SUCCESS: u32 = 16;

/// Of an entry, in the order of its fields.
const ALLOW_PUT: u32 = 1;

const ALLOW_GET: u32 = 2;

const USE_ONCE: u32 = 4;

const MANAGE_LOCAL: u32 = 8;

const NO_TRUNCATE: u32 = 16;

const COUNT_COMM: u32 = 32;

const COUNT_OVERFLOW: u32 = 64;

const HIDE_LINK: u32 = 128;

const HIDE_UNLINK: u32 = 256;

const HIDE_COMM: u32 = 512;

const HIDE_OVERFLOW: u32 = 1024;

const HIDE_SUCCESS: u32 = 2048;

/// The match id of an entry that matches any source.
const ANY_RANK: u32 = u32::MAX;

impl CHandle {
    /// The handle that stands for none.
    pub const NONE: CHandle = CHandle {
        stamp: u64::MAX,
        slot: u32::MAX,
    };

    /// A handle as C has it.
    pub fn of(handle: Handle) -> CHandle
        ensures { result ≡ handle_told handle }
    {
        CHandle {
            stamp: handle.stamp,
            slot: handle.slot,
        }
    }

    /// The handle that it is, live or not.
    pub fn handle(&self) -> Handle
        ensures { result ≡ handle_of self.now }
    {
        Handle {
            slot: self.slot,
            stamp: self.stamp,
        }
    }

    /// The handle, unless it stands for none.
    pub fn given(&self) -> Option<Handle>
        ensures { result ≡ unless_none self.now }
    {
        if self.stamp == u64::MAX {
            None
        } else {
            Some(self.handle())
        }
    }
}

impl CCount {
    /// What a counting event holds, as C has it.
    pub fn of(count: Count) -> CCount
        ensures { result ≡ count_told count }
    {
        CCount {
            success: count.success,
            failure: count.failure,
        }
    }

    /// The successes and failures.
    pub fn count(&self) -> Count
        ensures { result ≡ count_of self.now }
    {
        Count {
            success: self.success,
            failure: self.failure,
        }
    }
}

impl CLimits {
    /// The limits, in things and bytes.
    pub fn limits(&self) -> Limits
        ensures { result ≡ limits_of self.now }
    {
        Limits {
            entries: self.max_entries,
            unexpected: self.max_unexpected_headers,
            mds: self.max_mds,
            cts: self.max_cts,
            eqs: self.max_eqs,
            pts: self.max_pt_index,
            triggered: self.max_triggered_ops,
            msg: self.max_msg_size,
            atomic: self.max_atomic_size,
            fetch_atomic: self.max_fetch_atomic_size,
        }
    }
}

impl CDescriptor {
    /// The descriptor; none where an option is unknown.
    pub fn descriptor(&self) -> Option<Descriptor>
        ensures { result ≡ descriptor_of self.now }
    {
        if unknown(self.options, 31) {
            return None;
        }
        Some(Descriptor {
            start: self.start,
            length: self.length,
            eq: self.eq_handle.given(),
            ct: self.ct_handle.given(),
            count_send: has(self.options, COUNT_SEND),
            count_reply: has(self.options, COUNT_REPLY),
            count_ack: has(self.options, COUNT_ACK),
            hidden: HiddenDescriptorEvents {
                send: has(self.options, HIDE_SEND),
                success: has(self.options, HIDE_DESCRIPTOR_SUCCESS),
            },
        })
    }
}

/// The rank that an entry matches; none where it matches any.
fn match_of(rank: Rank) -> Option<Rank>
    ensures { result ≡ match_of rank }
{
    if rank == ANY_RANK { None } else { Some(rank) }
}

impl CEntry {
    /// The entry; none where an option is unknown.
    pub fn entry(&self) -> Option<Entry>
        ensures { result ≡ entry_of self.now }
    {
        if unknown(self.options, 4095) {
            return None;
        }
        Some(Entry {
            start: self.start,
            length: self.length,
            ct: self.ct_handle.given(),
            match_id: match_of(self.match_id),
            match_bits: self.match_bits,
            ignore_bits: self.ignore_bits,
            min_free: self.min_free,
            allow_put: has(self.options, ALLOW_PUT),
            allow_get: has(self.options, ALLOW_GET),
            use_once: has(self.options, USE_ONCE),
            manage_local: has(self.options, MANAGE_LOCAL),
            no_truncate: has(self.options, NO_TRUNCATE),
            count_comm: has(self.options, COUNT_COMM),
            count_overflow: has(self.options, COUNT_OVERFLOW),
            hidden: HiddenEntryEvents {
                link: has(self.options, HIDE_LINK),
                unlink: has(self.options, HIDE_UNLINK),
                comm: has(self.options, HIDE_COMM),
                overflow: has(self.options, HIDE_OVERFLOW),
                success: has(self.options, HIDE_SUCCESS),
            },
        })
    }
}

/// The number of a kind of event.
fn event_kind(kind: EventKind) -> u32
    ensures { result ≡ kind_told kind }
{
    match kind {
        EventKind::Put => 0,
        EventKind::PutOverflow => 1,
        EventKind::Get => 2,
        EventKind::Atomic => 3,
        EventKind::AtomicOverflow => 4,
        EventKind::FetchAtomic => 5,
        EventKind::Reply => 6,
        EventKind::Send => 7,
        EventKind::Ack => 8,
        EventKind::Link => 9,
        EventKind::AutoUnlink => 10,
        EventKind::AutoFree => 11,
        EventKind::Search => 12,
    }
}

impl CEvent {
    /// An event as C has it: a field that its kind doesn't name is 0, and `ok` is then 1.
    pub fn of(event: &Event) -> CEvent
        ensures { result ≡ event_told event.now }
    {
        CEvent {
            kind: event_kind(event.kind),
            initiator: event.source,
            pt_index: event.pt,
            ok: bit(event.ok),
            match_bits: event.match_bits,
            hdr_data: event.hdr_data,
            rlength: event.requested,
            mlength: event.delivered,
            start: event.place,
        }
    }
}

/// 1 for true.
pub fn bit(truth: bool) -> u32
    ensures { result ≡ bit truth }
{
    if truth { 1 } else { 0 }
}

/// The list of a number: 0 is the priority list, 1 the overflow list.
fn list_of(number: u32) -> Option<List>
    ensures { result ≡ list_of number }
{
    match number {
        0 => Some(List::Priority),
        1 => Some(List::Overflow),
        _ => None,
    }
}

/// An entry and the list that it is for, where both name something.
pub fn entry_and_list(me: &CEntry, list: u32) -> Option<(Entry, List)>
    ensures { result ≡ both_of (entry_of me.now) (list_of list) }
{
    match me.entry() {
        Some(entry) => match list_of(list) {
            Some(list) => Some((entry, list)),
            None => None,
        },
        None => None,
    }
}
