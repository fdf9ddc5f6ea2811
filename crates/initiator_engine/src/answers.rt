//! Acknowledgements and replies that come home.

ghost use Rattle.std.specs.Prelude.{◌≡◌, ◌+◌, ◌≤◌, true, length};
ghost use Rattle.ni_model.specs.Events.{is_reply, asks_event, answer_event};
ghost use Rattle.ni_model.specs.Answers.{bound_at, is_due, memory_home, one_answer, counter_home, events_home, awaits_less};
ghost use Rattle.ni_model.specs.Conditions.{IsBoundIn};
ghost use Rattle.ptl_types.specs.Handles.{top};

use ni_model::Bound;
use ni_objects::delivery::tell_of_descriptor;
use ni_objects::descriptors::Region;
use ni_objects::handles::{Store, where_set};
use ni_objects::queues::Queue;
use ptl_types::{AckRequest, Count, Event, EventKind, Handle, Header, Message, MessageKind};

/// Whether the answer is a reply, to a get, fetch-atomic or swap, and not an acknowledgement.
fn is_reply(kind: MessageKind) -> bool
    ensures { result ≡ is_reply kind }
{
    matches!(kind, MessageKind::Reply)
}

/// Whether an acknowledgement raises an event: where one was asked for, and not a count alone.
fn asks_event(ack: AckRequest) -> bool
    ensures { result ≡ asks_event ack }
{
    matches!(ack, AckRequest::Ack)
}

/// The live descriptor that a message names.
pub fn bound_of(mds: &Store<Bound>, home: Option<Handle>) -> Option<Bound>
    ensures { result ≡ bound_at home mds.now }
{
    match home {
        Some(h) => mds.get(h).copied(),
        None => None,
    }
}

/// Whether the descriptor awaits an answer, and the bytes of a reply that is ok fit it.
pub fn is_due(header: &Header, bound: &Bound) -> bool
    ensures { result ≡ is_due header.now bound.now }
{
    let fits = match header.home_offset.checked_add(header.length) {
        Some(end) => end <= bound.md.length,
        None => false,
    };
    // Brings the bound of the length to the proof.
    let _length = bound.md.length;
    bound.awaits > 0 && (!(is_reply(header.kind) && header.ok) || fits)
}

/// A reply that is ok writes its bytes where the operation said.
pub fn bring(region: &mut Region, bound: &Bound, message: &Message)
    requires part { IsBoundIn (length region.old) bound.now }
    requires due { is_due message.now.header bound.now ≡ true }
    ensures { region.new ≡ memory_home bound.now message.now region.old }
{
    // Brings the bound of the region's length to the proof.
    let _size = region.len();
    let header = message.header();
    if is_reply(header.kind) && header.ok {
        let bytes = message.bytes();
        region.write(bound.md.start + header.home_offset, bytes.as_slice());
    }
}

/// A failure where the answer isn't ok.
pub fn one_answer(ok: bool) -> Count
    ensures { result ≡ one_answer ok }
{
    if ok {
        Count {
            success: 1,
            failure: 0,
        }
    } else {
        Count {
            success: 0,
            failure: 1,
        }
    }
}

/// The counting event that an answer counts on.
pub fn counter_home(header: &Header, bound: &Bound) -> Option<Handle>
    ensures { result ≡ counter_home header.now bound.now }
{
    let counts = if is_reply(header.kind) {
        bound.md.count_reply
    } else {
        bound.md.count_ack
    };
    where_set(counts, bound.md.ct)
}

/// The first byte that a reply wrote, in bytes of the region; 0 where it wrote none.
fn first_byte_home(header: &Header, bound: &Bound) -> u64
    requires due { is_due header.now bound.now ≡ true }
    requires part { bound.now.md.start + bound.now.md.length ≤ top }
    ensures { result ≡ (answer_event bound.now header.now).place }
{
    if is_reply(header.kind) && header.ok && header.length > 0 {
        bound.md.start + header.home_offset
    } else {
        0
    }
}

/// The event of an answer that comes home (Portals 4.3, event types).
fn answer_event(header: &Header, bound: &Bound) -> Event
    requires due { is_due header.now bound.now ≡ true }
    requires part { bound.now.md.start + bound.now.md.length ≤ top }
    ensures { result ≡ answer_event bound.now header.now }
{
    Event {
        kind: if is_reply(header.kind) {
            EventKind::Reply
        } else {
            EventKind::Ack
        },
        source: header.source,
        pt: header.pt,
        match_bits: header.match_bits,
        hdr_data: header.hdr_data,
        requested: 0,
        delivered: header.length,
        place: first_byte_home(header, bound),
        ok: header.ok,
    }
}

/// A reply raises its event, and an acknowledgement where one was asked for, each where the descriptor shows it.
pub fn raise_answer(eqs: &mut Store<Queue>, header: &Header, bound: &Bound)
    requires due { is_due header.now bound.now ≡ true }
    requires part { bound.now.md.start + bound.now.md.length ≤ top }
    ensures { eqs.new ≡ events_home header.now bound.now eqs.old }
{
    if is_reply(header.kind) || asks_event(header.ack) {
        let event = answer_event(header, bound);
        tell_of_descriptor(eqs, &bound.md.hidden, bound.md.eq, event);
    }
}

/// The descriptor awaits one answer less.
pub fn await_less(mds: &mut Store<Bound>, home: Option<Handle>)
    ensures { mds.new ≡ awaits_less home mds.old }
{
    if let Some(h) = home {
        if let Some(bound) = mds.get_mut(h) {
            bound.awaits = bound.awaits.saturating_sub(1);
        }
    }
}
