//! Appending an entry, with the unexpected headers that it takes.

ghost use Rattle.std.specs.Prelude.{◌≡◌, ◌+◌, ◌<◌, ◌||◌, ℕ, List, true, false, None, Some, OnOk, OnErr, IfOk, IfErr, nat_le};
ghost use Rattle.ptl_types.specs.Handles.{top};
ghost use Rattle.ni_model.specs.Headers.{found_in, left_in};
ghost use Rattle.ni_model.specs.Arrive.{parts};
ghost use Rattle.ni_model.specs.Shown.{told_of_entry};
ghost use Rattle.ni_model.specs.Events.{link_event};
ghost use Rattle.ni_model.specs.Calls.{entry_taken};
ghost use Rattle.ni_model.specs.Append.{append_fault, is_allocated, linked_count, next_handle, link_side, queue_at, overflow_counter};
ghost use Rattle.ni_model.specs.Append.{each_counted, each_gone, with_unexpected, counted_by};
ghost use Rattle.target_engine.specs.Sides.{has_appended, SlotBelow, AppendsSome};

use crate::calls::is_allocated;
use crate::entry_records::EntryRecord;
use crate::events::entry_event;
use crate::index::{link_at, queue_at};
use crate::takes::{overflow_counter, take_found, take_header};
use crate::target::Target;
use ni_objects::counters::Counter;
use ni_objects::delivery::tell_of_entry;
use ni_objects::descriptors::Region;
use ni_objects::handles::{Store, is_live_or_none};
use ni_objects::queues::Queue;
use ptl_types::{Appended, Entry, EventKind, Handle, List as Place, NiFault};

/// What is appended: an entry, to which list of which portal table index.
#[derive(Clone, Copy)]
pub struct AppendArgs {
    /// The portal table index.
    pub pt: u32,
    /// Which of its two lists.
    pub list: Place,
    /// The entry.
    pub entry: Entry,
}

impl Target {
    /// Whether no further entry can be linked: as many as the limit are, or all stamps were given.
    fn is_full(&self) -> bool
        ensures { result ≡ (nat_le self.now.limit (linked_count self.now) || nat_le top self.now.given) }
    {
        self.linked >= self.limit || self.records.by_entry.is_full()
    }

    /// Links an entry at the end of a list, and tells so where the entry shows it.
    fn link(&mut self, eqs: &mut Store<Queue>, pt: u32, list: Place, entry: Entry) -> Handle
        requires index { is_allocated pt self.old ≡ true }
        requires room { (nat_le self.old.limit (linked_count self.old) || nat_le top self.old.given) ≡ false }
        ensures named { result ≡ next_handle result.slot self.old }
        ensures free { entry_taken self.old.indices self.old.headers.unexpected result.slot ≡ false }
        ensures below { result.slot < self.old.limit + self.old.headers.limit }
        ensures linked { self.new ≡ link_side result.slot pt list entry self.old }
        ensures events { eqs.new ≡ told_of_entry entry.hidden (queue_at pt self.old) (link_event pt entry.match_bits) eqs.old }
    {
        let record = EntryRecord {
            pt,
            ct: entry.ct,
            linked: true,
            headers: 0,
        };
        let me = match self.records.by_entry.insert(record) {
            Ok(me) => me,
            Err(_) => unreachable!(),
        };
        self.linked += 1;
        self.records.cts.add(entry.ct);
        link_at(&mut self.indices, pt, list, me, entry);
        let eq = queue_at(&self.indices, pt);
        tell_of_entry(
            eqs,
            &entry.hidden,
            eq,
            entry_event(EventKind::Link, pt, entry.match_bits, true),
        );
        me
    }

    /// A persistent entry takes all headers that it finds, in order of arrival. Answers the counting event that rose.
    fn take_all(
        &mut self,
        cts: &mut Store<Counter>,
        eqs: &mut Store<Queue>,
        args: &AppendArgs,
    ) -> Option<Handle>
        ensures left { self.new ≡ with_unexpected (left_in args.now.pt args.now.entry self.old.headers.unexpected) self.old }
        ensures counts { cts.new ≡ each_counted (overflow_counter args.now.entry)
            (found_in args.now.pt args.now.entry self.old.headers.unexpected) cts.old }
        ensures events { eqs.new ≡ each_gone args.now.entry.hidden self.old (left_in args.now.pt args.now.entry self.old.headers.unexpected)
            (found_in args.now.pt args.now.entry self.old.headers.unexpected) eqs.old }
        ensures counted { result ≡ counted_by args.now.entry (found_in args.now.pt args.now.entry self.old.headers.unexpected) }
    {
        let records = &mut self.records;
        take_found(&self.indices, records, &mut self.headers, cts, eqs, args)
    }

    /// A use-once entry takes the oldest header that it finds, else it is linked.
    #[tactic(auto, unfolding(ni_model::specs::Append::append))]
    fn append_once(
        &mut self,
        cts: &mut Store<Counter>,
        eqs: &mut Store<Queue>,
        args: AppendArgs,
    ) -> (Appended, Option<Handle>)
        requires index { is_allocated args.pt self.old ≡ true }
        requires room { (nat_le self.old.limit (linked_count self.old) || nat_le top self.old.given) ≡ false }
        requires once { args.entry.use_once ≡ true }
        ensures appends { (region : List ℕ) → AppendsSome args.pt Place.Priority args.entry (parts self.old region cts.old eqs.old)
            (has_appended (parts self.new region cts.new eqs.new) result.0 result.1) }
        ensures slot { SlotBelow (self.old.limit + self.old.headers.limit) result.0 }
    {
        let unexpected = match self.headers.take_oldest(args.pt, &args.entry) {
            Some(unexpected) => unexpected,
            None => {
                let me = self.link(eqs, args.pt, Place::Priority, args.entry);
                return (Appended::Linked(me), None);
            }
        };
        take_header(
            &self.indices,
            &mut self.records,
            cts,
            eqs,
            &args.entry,
            &unexpected,
        );
        (
            Appended::Consumed(unexpected.header),
            overflow_counter(&args.entry),
        )
    }

    /// Appends an entry to one of the lists of an index (Portals 4.3, appending list entries). To the priority list, a
    /// use-once entry takes the oldest header that it finds and isn't linked; a persistent one takes all that it finds, and
    /// is then linked. Answers too the counting event that rose. `Stale` where the index isn't allocated or the counting
    /// event isn't live, `NoSpace` where the limit is linked or all stamps were given, also where a header would be taken,
    /// `OutOfRegion` where the entry's part reaches past the region. A refused call changes nothing. It takes no memory. The
    /// slot of a linked entry is below the limits of entries and of headers together.
    #[tactic(auto, unfolding(ni_model::specs::Append::append))]
    pub fn append(
        &mut self,
        region: &Region,
        cts: &mut Store<Counter>,
        eqs: &mut Store<Queue>,
        args: AppendArgs,
    ) -> Result<(Appended, Option<Handle>), NiFault>
        ensures err { IfErr result (λ fault. append_fault args.pt args.entry (parts self.old region.now cts.old eqs.old) ≡ Some fault) }
        ensures unchanged { OnErr result ((self.new ≡ self.old) × (cts.new ≡ cts.old) × (eqs.new ≡ eqs.old)) }
        ensures ok { OnOk result (append_fault args.pt args.entry (parts self.old region.now cts.old eqs.old) ≡ None) }
        ensures appended { IfOk result (λ r. AppendsSome args.pt args.list args.entry (parts self.old region.now cts.old eqs.old)
            (has_appended (parts self.new region.now cts.new eqs.new) r.0 r.1)) }
        ensures slot { IfOk result (λ r. SlotBelow (self.old.limit + self.old.headers.limit) r.0) }
    {
        if !is_allocated(&self.indices, args.pt) || !is_live_or_none(cts, args.entry.ct) {
            return Err(NiFault::Stale);
        }
        if self.is_full() {
            return Err(NiFault::NoSpace);
        }
        if !region.fits(args.entry.start, args.entry.length) {
            return Err(NiFault::OutOfRegion);
        }
        match args.list {
            Place::Overflow => Ok((
                Appended::Linked(self.link(eqs, args.pt, args.list, args.entry)),
                None,
            )),
            Place::Priority if args.entry.use_once => Ok(self.append_once(cts, eqs, args)),
            Place::Priority => {
                let counted = self.take_all(cts, eqs, &args);
                Ok((
                    Appended::Linked(self.link(eqs, args.pt, args.list, args.entry)),
                    counted,
                ))
            }
        }
    }
}
