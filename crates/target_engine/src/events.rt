//! The events that a message raises at its target.

ghost use Rattle.std.specs.Prelude.{◌≡◌, ◌+◌, ◌<◌, ◌^◌};
ghost use Rattle.ni_model.specs.Events.{kind_delivered, message_event, entry_event};
ghost use Rattle.ni_model.specs.Arrive.{delivery_raised, events_after};

use crate::measures::{delivered, first_byte, is_over};
use ni_model::Found;
use ni_objects::delivery::tell_of_entry;
use ni_objects::handles::Store;
use ni_objects::queues::Queue;
use ptl_types::{Event, EventKind, Handle, Header, List, MessageKind};

/// The event of a message that a priority entry took; a swap is told as a fetch-atomic.
fn kind_delivered(kind: MessageKind) -> EventKind
    ensures { result ≡ kind_delivered kind }
{
    match kind {
        MessageKind::Put => EventKind::Put,
        MessageKind::Get => EventKind::Get,
        MessageKind::Atomic => EventKind::Atomic,
        _ => EventKind::FetchAtomic,
    }
}

/// The event of a message, or of its unexpected header.
pub fn message_event(kind: EventKind, header: &Header, delivered: u64, place: u64) -> Event
    ensures { result ≡ message_event kind header.now delivered place }
{
    Event {
        kind,
        source: header.source,
        pt: header.pt,
        match_bits: header.match_bits,
        hdr_data: header.hdr_data,
        requested: header.length,
        delivered,
        place,
        ok: true,
    }
}

/// The event of an entry.
pub fn entry_event(kind: EventKind, pt: u32, match_bits: u64, ok: bool) -> Event
    ensures { result ≡ entry_event kind pt match_bits ok }
{
    Event {
        kind,
        source: 0,
        pt,
        match_bits,
        hdr_data: 0,
        requested: 0,
        delivered: 0,
        place: 0,
        ok,
    }
}

/// The message's event, where it went to the priority list and the entry shows it.
fn raise_delivery(eqs: &mut Store<Queue>, eq: Option<Handle>, found: &Found, header: &Header)
    requires { found.now.linked.entry.start + found.now.linked.entry.length < 2 ^ 64 }
    ensures { eqs.new ≡ delivery_raised found.now header.now eq eqs.old }
{
    if let List::Priority = found.list {
        let count = delivered(&found.linked, header);
        let at = first_byte(&found.linked, header);
        tell_of_entry(
            eqs,
            &found.linked.entry.hidden,
            eq,
            message_event(kind_delivered(header.kind), header, count, at),
        );
    }
}

/// The message's event, in the priority list alone, and then the unlinking's, each where the entry shows it.
pub fn raise_events(eqs: &mut Store<Queue>, eq: Option<Handle>, found: &Found, header: &Header)
    requires { found.now.linked.entry.start + found.now.linked.entry.length < 2 ^ 64 }
    ensures { eqs.new ≡ events_after found.now header.now eq eqs.old }
{
    raise_delivery(eqs, eq, found, header);
    if is_over(&found.linked, header) {
        let bits = found.linked.entry.match_bits;
        tell_of_entry(
            eqs,
            &found.linked.entry.hidden,
            eq,
            entry_event(EventKind::AutoUnlink, header.pt, bits, true),
        );
    }
}
