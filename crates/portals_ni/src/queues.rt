//! Event queues (Portals 4.3, event queues).

ghost use Rattle.std.specs.Prelude.{◌≡◌, ◌≤◌, ◌<◌, IfOk};
ghost use Rattle.ni_model.specs.Tables.{has_slot, lookup, changed};
ghost use Rattle.ni_model.specs.Queues.{after_take};
ghost use Rattle.ni_model.specs.Calls.{ends, eq_alloc, eq_get};
ghost use Rattle.portals_ni.specs.Answers.{MakesIfMemory, event_taken};

use crate::nic::Nic;
use crate::tables::make;
use ni_objects::handles::Store;
use ni_objects::queues::Queue;
use ptl_types::{EqGot, Handle, NiFault};

/// The oldest event of a queue, unless one was lost.
fn take_event(eqs: &mut Store<Queue>, eq: Handle) -> Result<EqGot, NiFault>
    ensures answer { result ≡ event_taken (lookup eq eqs.old.live) }
    ensures rest { eqs.new ≡ changed eq after_take eqs.old }
{
    match eqs.get_mut(eq) {
        Some(queue) => Ok(queue.take()),
        None => Err(NiFault::Stale),
    }
}

impl Nic {
    /// Allocates an empty event queue that keeps at most `room` events, and answers its handle. `NoSpace` where as many as the
    /// limit are allocated or all 2^64 - 1 stamps were given, `NoMemory` for its room. Condition: the room is at least 1.
    pub fn eq_alloc(&mut self, room: u32) -> Result<Handle, NiFault>
        requires { 1 ≤ room }
        ensures makes { MakesIfMemory (λ slot. has_slot slot self.old.eqs.live) (λ slot. eq_alloc slot room self.old) self.old
            (ends self.new result) }
        ensures slot { IfOk result (λ h. h.slot < self.old.limits.eqs) }
    {
        if self.eqs.is_full() {
            return Err(NiFault::NoSpace);
        }
        let queue = match Queue::open(self.alloc, room) {
            Ok(queue) => queue,
            Err(_) => return Err(NiFault::NoMemory),
        };
        make(&mut self.eqs, queue)
    }

    /// The oldest event of a queue, which leaves it. `Dropped`, and no event, where one was lost since the last such call of
    /// this queue or, before any, since its making; else `Empty` where it holds none. `Stale` exactly where the queue isn't
    /// allocated.
    pub fn eq_get(&mut self, eq: Handle) -> Result<EqGot, NiFault>
        ensures does { ends self.new result ≡ eq_get eq self.old }
    {
        take_event(&mut self.eqs, eq)
    }
}
