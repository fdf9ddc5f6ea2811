//! Unlinking an entry, and whether an entry or an index names something.

ghost use Rattle.std.specs.Prelude.{◌≡◌, None, Some, All, IfErr, OnErr, OnOk, map};
ghost use Rattle.ni_model.specs.Calls.{unlinked_in};
ghost use Rattle.ni_model.specs.Refusals.{unlink_fault, index_names_ct, index_names_eq};
ghost use Rattle.ni_model.specs.Lists.{queue_of};
ghost use Rattle.ni_objects.specs.users.Rows.{IsAlone};
ghost use Rattle.target_engine.specs.PortalTable.{seen_in};
ghost use Rattle.target_engine.specs.Sides.{EntriesAlone};

use crate::entry_records::{linked_record, unlink_record};
use crate::index::{Index, unlink_at};
use crate::target::Target;
use ni_objects::handles::names;
use ptl_types::{Handle, NiFault};

/// Whether an entry of some index names the counting event.
fn some_names_ct(indices: &[Index], ct: Handle) -> bool
    ensures { result ≡ index_names_ct ct (seen_in indices.now) }
{
    for portal_entry in indices {
        if portal_entry.allocated && portal_entry.names_ct(ct) {
            return true;
        }
    }
    false
}

/// Whether some index has the event queue.
fn some_names_eq(indices: &[Index], eq: Handle) -> bool
    ensures { result ≡ index_names_eq eq (seen_in indices.now) }
{
    for portal_entry in indices {
        if portal_entry.allocated && names(portal_entry.eq, eq) {
            return true;
        }
    }
    false
}

impl Target {
    /// Unlinks a match entry (Portals 4.3, list entries). `Stale` where it isn't linked, `InUse` where the bytes of an
    /// unexpected header lie in its memory. A refused call changes nothing. No event tells of it.
    pub fn unlink(&mut self, me: Handle) -> Result<(), NiFault>
        ensures err { IfErr result (λ fault. unlink_fault me self.old ≡ Some fault) }
        ensures unchanged { OnErr result (self.new ≡ self.old) }
        ensures ok { OnOk result (unlink_fault me self.old ≡ None) }
        ensures unlinked { OnOk result (self.new ≡ record self.old { indices = map (unlinked_in me) self.old.indices }) }
    {
        let recorded = match linked_record(&self.records.by_entry, me) {
            Some(recorded) => recorded,
            None => return Err(NiFault::Stale),
        };
        if recorded.headers > 0 {
            return Err(NiFault::InUse);
        }
        unlink_at(&mut self.indices, recorded.pt, me);
        unlink_record(&mut self.records, me);
        self.linked = self.linked.saturating_sub(1);
        Ok(())
    }

    /// Whether a linked entry names the counting event, by the count of its slot; a slot that was none of the limit's is looked
    /// up entry by entry. Condition: no entry names another counting event of this slot.
    pub fn names_ct(&self, ct: Handle) -> bool
        requires alone { All (EntriesAlone ct) self.now.indices }
        ensures value { result ≡ index_names_ct ct self.now.indices }
    {
        match self.records.cts.at(ct.slot) {
            Some(users) => users > 0,
            None => some_names_ct(&self.indices, ct),
        }
    }

    /// Whether a portal table index has the event queue, likewise. Condition: no index has another queue of this slot.
    pub fn names_eq(&self, eq: Handle) -> bool
        requires alone { All (λ o. IsAlone eq (queue_of o)) self.now.indices }
        ensures value { result ≡ index_names_eq eq self.now.indices }
    {
        match self.eqs.at(eq.slot) {
            Some(users) => users > 0,
            None => some_names_eq(&self.indices, eq),
        }
    }
}
