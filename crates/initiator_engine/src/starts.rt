//! What a start sends, counts and tells.

ghost use Rattle.std.specs.Prelude.{◌≡◌, ◌≤◌, true, length};
ghost use Rattle.ni_model.specs.Starts.{send_counter, send_told, awaits_more};
ghost use Rattle.ni_model.specs.Events.{send_event};
ghost use Rattle.initiator_engine.specs.Initiators.{AreBoundIn, args_fit, args_length, args_bytes};

use crate::answers::bound_of;
use ni_model::Bound;
use ni_objects::delivery::tell_of_descriptor;
use ni_objects::descriptors::Region;
use ni_objects::handles::{Store, where_set};
use ni_objects::queues::Queue;
use ptl_types::{Bytes, Event, EventKind, Handle, Header, PutArgs};

/// The bytes that are sent, in the room that was brought.
pub fn read_bytes(
    region: &Region,
    mds: &Store<Bound>,
    args: Option<PutArgs>,
    mut room: Bytes,
) -> Bytes
    requires inside { AreBoundIn (length region.now) mds.now }
    requires fits { args_fit args mds.now ≡ true }
    requires room { args_length args ≤ room.room }
    ensures list { result.list ≡ args_bytes args mds.now region.now }
    ensures length { length result.list ≡ args_length args }
    ensures room { result.room ≡ room.room }
{
    // Brings the bound of the region's length to the proof.
    let _size = region.len();
    room.clear();
    if let Some(args) = args {
        if let Some(bound) = bound_of(mds, Some(args.md)) {
            let from = bound.md.start + args.local_offset;
            region.read_into(from, &mut room, args.length);
        }
    }
    room
}

/// The counting event that a start counts on, where its descriptor counts sends.
pub fn send_counter(bound: Option<Bound>) -> Option<Handle>
    ensures { result ≡ send_counter bound }
{
    match bound {
        Some(bound) => where_set(bound.md.count_send, bound.md.ct),
        None => None,
    }
}

/// The event of a start: its bytes were read, so its room may be used again (Portals 4.3, event types).
fn send_event(header: &Header) -> Event
    ensures { result ≡ send_event header.now }
{
    Event {
        kind: EventKind::Send,
        source: header.source,
        pt: header.pt,
        match_bits: header.match_bits,
        hdr_data: header.hdr_data,
        requested: header.length,
        delivered: 0,
        place: 0,
        ok: true,
    }
}

/// A start raises Send in the queue of its descriptor, where that shows it.
pub fn tell_start(eqs: &mut Store<Queue>, bound: Option<Bound>, header: &Header)
    ensures { eqs.new ≡ send_told bound header.now eqs.old }
{
    if let Some(bound) = bound {
        tell_of_descriptor(eqs, &bound.md.hidden, bound.md.eq, send_event(header));
    }
}

/// The descriptor awaits one answer more.
pub fn await_more(mds: &mut Store<Bound>, home: Option<Handle>)
    ensures { mds.new ≡ awaits_more home mds.old }
{
    if let Some(h) = home {
        if let Some(bound) = mds.get_mut(h) {
            bound.awaits = bound.awaits.saturating_add(1);
        }
    }
}
