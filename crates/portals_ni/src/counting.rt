//! Counting events (Portals 4.3, counting events).

ghost use Rattle.std.specs.Prelude.{◌≡◌, OnOk, OnErr, ◌<◌, IfOk};
ghost use Rattle.ptl_types.specs.declared.handles.Count.{Count};
ghost use Rattle.ni_model.specs.Tables.{has_slot, changed};
ghost use Rattle.ni_model.specs.Counts.{plus};
ghost use Rattle.ni_model.specs.Refusals.{ct_set_fault, ct_inc_fault};
ghost use Rattle.ni_model.specs.Calls.{ends, Makes, ct_alloc, ct_get, ct_set, ct_inc, ct_cancel};
ghost use Rattle.initiator_engine.specs.Initiators.{by_fault};

use crate::nic::Nic;
use crate::posted_op::tell;
use crate::tables::make;
use ni_objects::counters::Counter;
use ni_objects::handles::Store;
use ptl_types::{Count, Handle, NiFault};

/// A counter holds these numbers from now on.
pub fn set_counter(cts: &mut Store<Counter>, ct: Handle, to: Count) -> Result<(), NiFault>
    ensures answer { result ≡ by_fault (ct_set_fault ct to cts.old) }
    ensures ok { OnOk result (cts.new ≡ changed ct (λ (c : Count). to) cts.old) }
    ensures err { OnErr result (cts.new ≡ cts.old) }
{
    match cts.get_mut(ct) {
        Some(counter) => match counter.set(to) {
            Ok(()) => Ok(()),
            Err(_) => Err(NiFault::CountFull),
        },
        None => Err(NiFault::Stale),
    }
}

/// Both numbers are added to a counter's.
fn add_counter(cts: &mut Store<Counter>, ct: Handle, by: Count) -> Result<(), NiFault>
    ensures answer { result ≡ by_fault (ct_inc_fault ct by cts.old) }
    ensures ok { OnOk result (cts.new ≡ changed ct (plus by) cts.old) }
    ensures err { OnErr result (cts.new ≡ cts.old) }
{
    match cts.get_mut(ct) {
        Some(counter) => match counter.inc(by) {
            Ok(()) => Ok(()),
            Err(_) => Err(NiFault::CountFull),
        },
        None => Err(NiFault::Stale),
    }
}

impl Nic {
    /// Allocates a counting event at 0, 0 and answers its handle. `NoSpace` where as many as the limit are allocated or all
    /// 2^64 - 1 stamps were given.
    pub fn ct_alloc(&mut self) -> Result<Handle, NiFault>
        ensures makes { Makes (λ slot. has_slot slot self.old.cts.live) (λ slot. ct_alloc slot self.old) (ends self.new result) }
        ensures slot { IfOk result (λ h. h.slot < self.old.limits.cts) }
    {
        make(&mut self.cts, Counter::new())
    }

    /// What a counting event holds; `Stale` exactly where it isn't allocated.
    pub fn ct_get(&self, ct: Handle) -> Result<Count, NiFault>
        ensures value { result ≡ ct_get ct self.now }
    {
        match self.cts.get(ct) {
            Some(counter) => Ok(counter.count()),
            None => Err(NiFault::Stale),
        }
    }

    /// A counting event holds these numbers from now on. `Stale` where it isn't allocated, `CountFull` where together they
    /// pass 2^64 - 1.
    pub fn ct_set(&mut self, ct: Handle, to: Count) -> Result<(), NiFault>
        ensures does { ends self.new result ≡ ct_set ct to self.old }
    {
        set_counter(&mut self.cts, ct, to)?;
        tell(&mut self.pending, &self.cts, Some(ct));
        Ok(())
    }

    /// Adds both numbers to a counting event's. `Stale` where it isn't allocated, `CountFull` where together they would pass
    /// 2^64 - 1.
    pub fn ct_inc(&mut self, ct: Handle, by: Count) -> Result<(), NiFault>
        ensures does { ends self.new result ≡ ct_inc ct by self.old }
    {
        add_counter(&mut self.cts, ct, by)?;
        tell(&mut self.pending, &self.cts, Some(ct));
        Ok(())
    }

    /// Removes every pending operation that waits on a counting event, and answers how many they were; `Stale` exactly where
    /// it isn't allocated.
    pub fn ct_cancel(&mut self, ct: Handle) -> Result<u32, NiFault>
        ensures does { ends self.new result ≡ ct_cancel ct self.old }
    {
        if !self.cts.is_live(ct) {
            return Err(NiFault::Stale);
        }
        Ok(self.pending.cancel(ct))
    }
}
