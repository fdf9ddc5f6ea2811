//! One event queue with a fixed room (Portals 4.3, event queues).

ghost use Rattle.std.specs.Prelude.{◌≡◌, [], false, IfOk};
ghost use Rattle.ni_model.specs.Queues.{add_event, queue, taken_from, after_take};

use circular_buffer::HeapCircularBuffer;
use ptl_types::{EqGot, Event, NoMemory};
use std::alloc::Global;
use std::marker::Model;

/// An event queue. Its value is its room, the events that it keeps, oldest first, and whether one was lost since the last
/// `take`.
#[derive(Drop)]
pub struct Queue {
    ring: HeapCircularBuffer<Event>,
    lost: bool,
}

impl Model for Queue {
    ghost use Rattle.ni_model.specs.Queues.{Waiting, queue};

    ghost Value = { Waiting };

    ghost view = { λ q. queue q.ring.capacity q.ring.items q.lost };
}

impl Queue {
    /// An empty queue that keeps at most `room` events. Later calls take no memory.
    pub fn open(alloc: Global, room: u32) -> Result<Queue, NoMemory>
        ensures { IfOk result (λ q. q ≡ queue room [] false) }
    {
        match HeapCircularBuffer::with_capacity(alloc, room as usize) {
            Ok(ring) => Ok(Queue { ring, lost: false }),
            Err(_) => Err(NoMemory),
        }
    }

    /// Adds the event after the others. Where the queue is full it is this event that is lost.
    pub fn add(&mut self, event: Event)
        ensures { self.new ≡ add_event event self.old }
    {
        if self.ring.try_push_back(event).is_err() {
            self.lost = true;
        }
    }

    /// `Dropped`, and no event, where one was lost since the last call; else the oldest event, which leaves the queue; else
    /// `Empty`.
    pub fn take(&mut self) -> EqGot
        ensures answer { result ≡ taken_from self.old }
        ensures rest { self.new ≡ after_take self.old }
    {
        if self.lost {
            self.lost = false;
            return EqGot::Dropped;
        }
        match self.ring.pop_front() {
            Some(event) => EqGot::Got(event),
            None => EqGot::Empty,
        }
    }
}
