//! What a message or a start counts and tells: a count on the counting event that is named, an event in the event queue that
//! is named, where the options of its entry or descriptor show it, and nothing where none is.

ghost use Rattle.std.specs.Prelude.{◌≡◌};
ghost use Rattle.ni_model.specs.Counts.{counted, successes};
ghost use Rattle.ni_model.specs.Queues.{raised};
ghost use Rattle.ni_model.specs.Shown.{entry_hides, entry_shows, descriptor_hides, descriptor_shows, where_shown};
ghost use Rattle.ni_model.specs.Shown.{told_of_entry, told_of_descriptor};

use crate::counters::Counter;
use crate::handles::Store;
use crate::queues::Queue;
use ptl_types::{Count, Event, EventKind, Handle, HiddenDescriptorEvents, HiddenEntryEvents};

/// That many successes, and no failure.
pub fn successes(success: u64) -> Count
    ensures value { result ≡ successes success }
{
    Count {
        success,
        failure: 0,
    }
}

/// Counts on this counting event, where one is named. It stops at the end of the counter, successes first. A handle that isn't
/// live changes nothing.
pub fn count(cts: &mut Store<Counter>, ct: Option<Handle>, by: Count)
    ensures does { cts.new ≡ counted ct by cts.old }
{
    if let Some(h) = ct {
        if let Some(counter) = cts.get_mut(h) {
            counter.bump(by);
        }
    }
}

/// Adds the event to this event queue, where one is named. Where the queue is full it is this event that is lost. A handle that
/// isn't live changes nothing.
fn raise(eqs: &mut Store<Queue>, eq: Option<Handle>, event: Event)
    ensures does { eqs.new ≡ raised eq event eqs.old }
{
    if let Some(h) = eq {
        if let Some(queue) = eqs.get_mut(h) {
            queue.add(event);
        }
    }
}

/// Whether an option of an entry hides events of this kind.
fn entry_hides(hidden: &HiddenEntryEvents, kind: EventKind) -> bool
    ensures { result ≡ entry_hides hidden.now kind }
{
    match kind {
        EventKind::Link => hidden.link,
        EventKind::AutoUnlink | EventKind::AutoFree => hidden.unlink,
        EventKind::Put | EventKind::Get | EventKind::Atomic | EventKind::FetchAtomic => hidden.comm,
        EventKind::PutOverflow | EventKind::AtomicOverflow => hidden.overflow,
        _ => false,
    }
}

/// Whether the options of an entry show an event: none hides its kind, and it isn't a success where successes are hidden.
pub fn entry_shows(hidden: &HiddenEntryEvents, event: &Event) -> bool
    ensures value { result ≡ entry_shows hidden.now event.now }
{
    !(entry_hides(hidden, event.kind) || (hidden.success && event.ok))
}

/// Whether an option of a descriptor hides events of this kind.
fn descriptor_hides(hidden: &HiddenDescriptorEvents, kind: EventKind) -> bool
    ensures { result ≡ descriptor_hides hidden.now kind }
{
    match kind {
        EventKind::Send => hidden.send,
        _ => false,
    }
}

/// Whether the options of a descriptor show an event, likewise.
pub fn descriptor_shows(hidden: &HiddenDescriptorEvents, event: &Event) -> bool
    ensures value { result ≡ descriptor_shows hidden.now event.now }
{
    !(descriptor_hides(hidden, event.kind) || (hidden.success && event.ok))
}

/// The queue that is named, if any, for an event that is shown.
fn where_shown(shown: bool, eq: Option<Handle>) -> Option<Handle>
    ensures { result ≡ where_shown shown eq }
{
    match eq {
        Some(eq) if shown => Some(eq),
        _ => None,
    }
}

/// Adds an event of an entry to this event queue, where one is named and the entry's options show the event. Where the queue
/// is full it is this event that is lost. A handle that isn't live changes nothing.
pub fn tell_of_entry(
    eqs: &mut Store<Queue>,
    hidden: &HiddenEntryEvents,
    eq: Option<Handle>,
    event: Event,
)
    ensures does { eqs.new ≡ told_of_entry hidden.now eq event eqs.old }
{
    let shown = entry_shows(hidden, &event);
    raise(eqs, where_shown(shown, eq), event);
}

/// Adds an event of a descriptor to its event queue, likewise.
pub fn tell_of_descriptor(
    eqs: &mut Store<Queue>,
    hidden: &HiddenDescriptorEvents,
    eq: Option<Handle>,
    event: Event,
)
    ensures does { eqs.new ≡ told_of_descriptor hidden.now eq event eqs.old }
{
    let shown = descriptor_shows(hidden, &event);
    raise(eqs, where_shown(shown, eq), event);
}
