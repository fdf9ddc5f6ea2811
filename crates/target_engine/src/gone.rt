//! What tells that an unexpected header went, and that the entry in which it lay is free.

ghost use Rattle.std.specs.Prelude.{◌≡◌};
ghost use Rattle.ni_model.specs.Lists.{index_at, is_linked_at};
ghost use Rattle.ni_model.specs.Events.{header_event, kind_taken};
ghost use Rattle.ni_model.specs.Append.{gone_events};
ghost use Rattle.target_engine.specs.PortalTable.{seen_in, frees_at, without_header};

use crate::entry_records::{Records, drop_header, headers_of};
use crate::events::{entry_event, message_event};
use crate::index::{Index, portal_entry_at, queue_at};
use ni_model::IndexedHeader;
use ni_objects::delivery::tell_of_entry;
use ni_objects::handles::Store;
use ni_objects::queues::Queue;
use ptl_types::{Event, EventKind, Handle, HiddenEntryEvents, List as Place, MessageKind};

/// Whether the overflow list of this index holds the entry.
pub fn is_in_overflow(indices: &[Index], pt: u32, entry: Handle) -> bool
    ensures { result ≡ is_linked_at Place.Overflow entry (index_at pt (seen_in indices.now)) }
{
    match portal_entry_at(indices, pt) {
        Some(portal_entry) => portal_entry.is_in_overflow(entry),
        None => false,
    }
}

/// The event of a header that is taken or found.
pub fn header_event(kind: EventKind, unexpected: &IndexedHeader) -> Event
    ensures { result ≡ header_event kind unexpected.now }
{
    let header = &unexpected.header;
    message_event(kind, &header.header, header.delivered, header.place)
}

/// The event of a header that an append takes.
pub fn kind_taken(kind: MessageKind) -> EventKind
    ensures { result ≡ kind_taken kind }
{
    match kind {
        MessageKind::Put => EventKind::PutOverflow,
        _ => EventKind::AtomicOverflow,
    }
}

/// Counts a header that goes out of the record of its entry and out of its index. Whether the entry is free: it was the last
/// that lay there, and the entry isn't linked.
pub fn frees(indices: &[Index], records: &mut Records, gone: &IndexedHeader) -> bool
    ensures freed { result ≡ frees_at (seen_in indices.now) records.old.by_entry gone.now }
    ensures gone { records.new ≡ without_header gone.now records.old }
{
    let entry = gone.header.entry;
    let last = headers_of(&records.by_entry, entry) <= 1;
    drop_header(&mut records.by_entry, entry);
    records.waiting.lower(gone.pt);
    last && !is_in_overflow(indices, gone.pt, entry)
}

/// The event of a header that went, where the entry that found it shows it, and directly after it the freeing of the entry in
/// which it lay, where that is free and shows it.
pub fn raise_gone(
    indices: &[Index],
    eqs: &mut Store<Queue>,
    kind: EventKind,
    hidden: &HiddenEntryEvents,
    gone: &IndexedHeader,
    freed: bool,
)
    ensures { eqs.new ≡ gone_events kind hidden.now (seen_in indices.now) freed gone.now eqs.old }
{
    let eq = queue_at(indices, gone.pt);
    tell_of_entry(eqs, hidden, eq, header_event(kind, gone));
    if freed {
        let free = entry_event(EventKind::AutoFree, gone.pt, 0, true);
        tell_of_entry(eqs, &gone.hidden, eq, free);
    }
}
