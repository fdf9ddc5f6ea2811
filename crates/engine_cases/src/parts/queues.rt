//! The event that finds the queue full is the one that is lost, and the next answer tells it.

use crate::answers::gives;
use ni_objects::queues::Queue;
use ptl_types::{EqGot, Event, EventKind};
use std::test::Fail;

fn event(place: u64) -> Event {
    Event {
        kind: EventKind::Put,
        source: 1,
        pt: 0,
        match_bits: 5,
        hdr_data: 0,
        requested: 1,
        delivered: 1,
        place,
        ok: true,
    }
}

#[test]
fn a_full_queue_loses_the_newest(rt: HostRuntime) -> Result<(), Fail> {
    let mut queue = Queue::open(rt.alloc(), 1)?;
    gives!(rt; queue.take(), EqGot::Empty);
    queue.add(event(1));
    queue.add(event(2));
    gives!(rt; queue.take(), EqGot::Dropped);
    gives!(rt; queue.take(), EqGot::Got(event(1)));
    gives!(rt; queue.take(), EqGot::Empty);
    queue.add(event(3));
    gives!(rt; queue.take(), EqGot::Got(event(3)));
    Ok(())
}
