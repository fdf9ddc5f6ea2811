//! The calls that free what nothing names.

ghost use Rattle.std.specs.Prelude.{◌≡◌};
ghost use Rattle.ni_model.specs.Calls.{ends, ct_free, eq_free, md_release};

use crate::nic::Nic;
use ptl_types::{Handle, NiFault};

impl Nic {
    /// Frees a counting event. `Stale` where it isn't allocated, `InUse` where a descriptor, a linked entry or a pending
    /// operation names it.
    pub fn ct_free(&mut self, ct: Handle) -> Result<(), NiFault>
        ensures does { ends self.new result ≡ ct_free ct self.old }
    {
        if !self.cts.is_live(ct) {
            return Err(NiFault::Stale);
        }
        // Brings to the proof that no other counting event has its slot.
        let _found = self.cts.at(ct.slot);
        if self.initiator.names_ct(ct) || self.target.names_ct(ct) || self.pending.names_ct(ct) {
            return Err(NiFault::InUse);
        }
        let _ = self.cts.remove(ct);
        Ok(())
    }

    /// Frees an event queue, with the events that wait in it. `Stale` where it isn't allocated, `InUse` where a portal table
    /// index or a descriptor names it.
    pub fn eq_free(&mut self, eq: Handle) -> Result<(), NiFault>
        ensures does { ends self.new result ≡ eq_free eq self.old }
    {
        if !self.eqs.is_live(eq) {
            return Err(NiFault::Stale);
        }
        // Brings to the proof that no other queue has its slot.
        let _found = self.eqs.at(eq.slot);
        if self.target.names_eq(eq) || self.initiator.names_eq(eq) {
            return Err(NiFault::InUse);
        }
        let _ = self.eqs.remove(eq);
        Ok(())
    }

    /// Releases a memory descriptor. `Stale` where it isn't bound, `InUse` where a pending operation names it or it awaits an
    /// answer.
    pub fn md_release(&mut self, md: Handle) -> Result<(), NiFault>
        ensures does { ends self.new result ≡ md_release md self.old }
    {
        if !self.initiator.is_bound(md) {
            return Err(NiFault::Stale);
        }
        if self.pending.names_md(md) {
            return Err(NiFault::InUse);
        }
        self.initiator.release(md)
    }
}
