//! The calls of a target that its host makes: allocating and freeing a portal table index, and searching the headers.

ghost use Rattle.std.specs.Prelude.{◌≡◌, ℕ, List, length, true, false, None, Some, OnOk, OnErr, IfOk, IfErr, is_some, nat_lt, slice_set};
ghost use Rattle.ptl_types.specs.declared.handles.Count.{Count};
ghost use Rattle.ni_model.specs.Tables.{Table};
ghost use Rattle.ni_model.specs.Lists.{index_at, entries_in};
ghost use Rattle.ni_model.specs.Headers.{headers_of};
ghost use Rattle.ni_model.specs.Events.{missed_event};
ghost use Rattle.ni_model.specs.Arrive.{parts};
ghost use Rattle.ni_model.specs.Calls.{new_index};
ghost use Rattle.ni_model.specs.Refusals.{pt_alloc_fault, pt_free_fault};
ghost use Rattle.ni_model.specs.Append.{is_allocated, search};
ghost use Rattle.target_engine.specs.PortalTable.{seen_in};
ghost use Rattle.target_engine.specs.Sides.{has_searched};

use crate::events::entry_event;
use crate::gone::{frees, header_event, raise_gone};
use crate::index::{Index, allocate_at, free_at, portal_entry_at, queue_at};
use crate::target::Target;
use ni_objects::delivery::tell_of_entry;
use ni_objects::handles::{Store, is_live_or_none};
use ni_objects::queues::Queue;
use ptl_types::{Entry, Event, EventKind, Handle, NiFault, UnexpectedHeader};

/// Whether the index is within the limit and allocated.
pub fn is_allocated(indices: &[Index], pt: u32) -> bool
    ensures { result ≡ is_some (index_at pt (seen_in indices.now)) }
{
    portal_entry_at(indices, pt).is_some()
}

/// Whether one of its lists holds an entry.
fn holds_entries(indices: &[Index], pt: u32) -> bool
    ensures { result ≡ nat_lt 0 (entries_in (index_at pt (seen_in indices.now))) }
{
    match portal_entry_at(indices, pt) {
        Some(portal_entry) => portal_entry.holds_entries(),
        None => false,
    }
}

/// A search that finds nothing.
fn missed_event(pt: u32, entry: &Entry) -> Event
    ensures { result ≡ missed_event pt entry.now.match_bits }
{
    entry_event(EventKind::Search, pt, entry.match_bits, false)
}

impl Target {
    /// Allocates a portal table index with its event queue, if any (Portals 4.3, portal table). `Stale` where the queue
    /// isn't live, `NoSpace` where the index is at or past the limit, `InUse` where it is allocated. A refused call changes
    /// nothing. It takes no memory.
    pub fn pt_alloc(
        &mut self,
        eqs: &Store<Queue>,
        index: u32,
        eq: Option<Handle>,
    ) -> Result<(), NiFault>
        ensures err { IfErr result (λ fault. pt_alloc_fault index eq self.old eqs.now ≡ Some fault) }
        ensures unchanged { OnErr result (self.new ≡ self.old) }
        ensures ok { OnOk result (pt_alloc_fault index eq self.old eqs.now ≡ None) }
        ensures allocated { OnOk result (self.new ≡ record self.old { indices = slice_set self.old.indices index (Some (new_index eq)) }) }
    {
        if !is_live_or_none(eqs, eq) {
            return Err(NiFault::Stale);
        }
        if index as usize >= self.indices.len() {
            return Err(NiFault::NoSpace);
        }
        if is_allocated(&self.indices, index) {
            return Err(NiFault::InUse);
        }
        allocate_at(&mut self.indices, index, eq);
        self.eqs.add(eq);
        Ok(())
    }

    /// Whether a header of an allocated index waits.
    fn waits_at(&self, pt: u32) -> bool
        requires { is_allocated pt self.now ≡ true }
        ensures { result ≡ nat_lt 0 (length (headers_of pt self.now.headers.unexpected)) }
    {
        self.records.waiting.is_used(pt)
    }

    /// Frees a portal table index. `Stale` where it isn't allocated, `InUse` where one of its lists holds an entry or a
    /// header of it waits. A refused call changes nothing.
    pub fn pt_free(&mut self, index: u32) -> Result<(), NiFault>
        ensures err { IfErr result (λ fault. pt_free_fault index self.old ≡ Some fault) }
        ensures unchanged { OnErr result (self.new ≡ self.old) }
        ensures ok { OnOk result (pt_free_fault index self.old ≡ None) }
        ensures freed { OnOk result (self.new ≡ record self.old { indices = slice_set self.old.indices index None }) }
    {
        if !is_allocated(&self.indices, index) {
            return Err(NiFault::Stale);
        }
        if holds_entries(&self.indices, index) || self.waits_at(index) {
            return Err(NiFault::InUse);
        }
        self.eqs.remove(queue_at(&self.indices, index));
        free_at(&mut self.indices, index);
        Ok(())
    }

    /// Looks for the oldest header of an index that the entry matches and allows, whether the entry is use-once or not, and
    /// deletes it where asked (Portals 4.3, searching). `Stale` where the index isn't allocated; nothing changes then.
    #[tactic(auto, unfolding(ni_model::specs::Append::search))]
    pub fn search(
        &mut self,
        eqs: &mut Store<Queue>,
        pt: u32,
        entry: &Entry,
        delete: bool,
    ) -> Result<Option<UnexpectedHeader>, NiFault>
        ensures err { IfErr result (λ fault. (fault ≡ NiFault.Stale) × (is_allocated pt self.old ≡ false)) }
        ensures unchanged { OnErr result ((self.new ≡ self.old) × (eqs.new ≡ eqs.old)) }
        ensures ok { OnOk result (is_allocated pt self.old ≡ true) }
        ensures searched { IfOk result (λ found. (region : List ℕ) (cts : Table Count) → has_searched (parts self.new region cts eqs.new)
            found ≡ search pt entry.now delete (parts self.old region cts eqs.old)) }
    {
        if !is_allocated(&self.indices, pt) {
            return Err(NiFault::Stale);
        }
        if delete {
            return Ok(self.delete_oldest(eqs, pt, entry));
        }
        let eq = queue_at(&self.indices, pt);
        let unexpected = match self.headers.search(pt, entry) {
            Some(unexpected) => unexpected,
            None => {
                tell_of_entry(eqs, &entry.hidden, eq, missed_event(pt, entry));
                return Ok(None);
            }
        };
        let event = header_event(EventKind::Search, &unexpected);
        tell_of_entry(eqs, &entry.hidden, eq, event);
        Ok(Some(unexpected.header))
    }

    /// Takes out the oldest header that the entry finds, and tells of it.
    #[tactic(auto, unfolding(ni_model::specs::Append::search))]
    fn delete_oldest(
        &mut self,
        eqs: &mut Store<Queue>,
        pt: u32,
        entry: &Entry,
    ) -> Option<UnexpectedHeader>
        ensures { (region : List ℕ) (cts : Table Count) → has_searched (parts self.new region cts eqs.new) result ≡ search pt entry.now
            true (parts self.old region cts eqs.old) }
    {
        let eq = queue_at(&self.indices, pt);
        let unexpected = match self.headers.take_oldest(pt, entry) {
            Some(unexpected) => unexpected,
            None => {
                tell_of_entry(eqs, &entry.hidden, eq, missed_event(pt, entry));
                return None;
            }
        };
        let freed = frees(&self.indices, &mut self.records, &unexpected);
        raise_gone(
            &self.indices,
            eqs,
            EventKind::Search,
            &entry.hidden,
            &unexpected,
            freed,
        );
        Some(unexpected.header)
    }
}
