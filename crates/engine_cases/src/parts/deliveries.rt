//! A count and an event reach what is named, an event where options show it, and nothing where none is.

use crate::answers::gives;
use ni_objects::counters::Counter;
use ni_objects::delivery::{count, successes, tell_of_descriptor, tell_of_entry};
use ni_objects::handles::{Store, is_live_or_none, names, where_set};
use ni_objects::queues::Queue;
use ptl_types::{EqGot, Event, EventKind, Handle, HiddenDescriptorEvents, HiddenEntryEvents};
use std::test::Fail;

const EVENT: Event = Event {
    kind: EventKind::Put,
    source: 1,
    pt: 0,
    match_bits: 5,
    hdr_data: 0,
    requested: 1,
    delivered: 1,
    place: 0,
    ok: true,
};

const HIDES_COMM: HiddenEntryEvents = HiddenEntryEvents {
    comm: true,
    ..HiddenEntryEvents::NONE
};

const HIDES_SUCCESS: HiddenDescriptorEvents = HiddenDescriptorEvents {
    success: true,
    ..HiddenDescriptorEvents::NONE
};

const FIRST: Handle = Handle { slot: 0, stamp: 0 };

#[test]
fn what_is_named_counts(rt: HostRuntime) -> Result<(), Fail> {
    let mut cts = Store::open(rt.alloc(), 1)?;
    assert!(rt; cts.insert(Counter::new()).is_ok());
    count(&mut cts, where_set(true, Some(FIRST)), successes(2));
    count(&mut cts, where_set(false, Some(FIRST)), successes(1));
    let counted = cts.get(FIRST).map(|counter| counter.count());
    gives!(rt; counted, Some(successes(2)));
    gives!(rt; is_live_or_none(&cts, None), true);
    gives!(rt; names(Some(FIRST), FIRST), true);
    Ok(())
}

#[test]
fn what_is_named_is_told(rt: HostRuntime) -> Result<(), Fail> {
    let alloc = rt.alloc();
    let mut eqs = Store::open(alloc, 1)?;
    let queue = Queue::open(alloc, 2)?;
    assert!(rt; eqs.insert(queue).is_ok());
    tell_of_entry(&mut eqs, &HiddenEntryEvents::NONE, Some(FIRST), EVENT);
    tell_of_entry(&mut eqs, &HiddenEntryEvents::NONE, None, EVENT);
    tell_of_entry(&mut eqs, &HIDES_COMM, Some(FIRST), EVENT);
    tell_of_descriptor(&mut eqs, &HIDES_SUCCESS, Some(FIRST), EVENT);
    if let Some(queue) = eqs.get_mut(FIRST) {
        gives!(rt; queue.take(), EqGot::Got(EVENT));
        gives!(rt; queue.take(), EqGot::Empty);
    }
    Ok(())
}
