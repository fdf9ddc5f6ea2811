//! The target.

ghost use Rattle.std.specs.Prelude.{◌≡◌, ◌+◌, ◌<◌, ◌-◌, ◌^◌, [], None, Some, true, false, IfOk, option_copied, length, All, replicate};
ghost use Rattle.ptl_types.specs.Kinds.{is_answer};
ghost use Rattle.ni_model.specs.Headers.{unexpected_list};
ghost use Rattle.ni_model.specs.Arrive.{parts, received, request, counts_after, events_after, headers_after, indices_after, side_after};
ghost use Rattle.ni_model.specs.Arrive.{counter_of, is_overflow, outcome_in};
ghost use Rattle.ni_model.specs.Conditions.{HasPartsIn, HasRoom};
ghost use Rattle.ni_model.specs.Lists.{index_at, is_linked_at, queue_of};
ghost use Rattle.match_lists.specs.unexpected.Places.{header_at};
ghost use Rattle.ni_model.specs.Tables.{lookup};
ghost use Rattle.ni_objects.specs.users.Rows.{count_at};
ghost use Rattle.target_engine.specs.PortalTable.{headers_in, all_with_header, linked_in, IsUnused};
ghost use Rattle.target_engine.specs.Sides.{side};

use crate::answers::refused;
use crate::entry_records::{Records, add_header, forget};
use crate::events::raise_events;
use crate::exchange::exchange;
use crate::index::{Index, chosen_in, queue_at, update_entry_at};
use crate::measures::{delivered, first_byte};
use crate::spare_buffers::SpareBuffers;
use match_lists::unexpected::{Headers, allows};
use ni_model::{Arrived, Found, IndexedHeader, Linked};
use ni_objects::counters::Counter;
use ni_objects::delivery::{count, successes};
use ni_objects::descriptors::Region;
use ni_objects::handles::{Store, where_set};
use ni_objects::queues::Queue;
use ni_objects::users::Users;
use ptl_types::{Header, Limits, List, Message, NoMemory, Outcome, Rank, UnexpectedHeader};
use std::alloc::Global;
use std::marker::Model;

/// One success on the entry's counting event, where it counts communication.
fn count_message(cts: &mut Store<Counter>, linked: &Linked)
    ensures { cts.new ≡ counts_after linked.now cts.old }
{
    let ct = where_set(linked.entry.count_comm, linked.entry.ct);
    count(cts, ct, successes(1));
}

/// A message in the overflow list leaves its header, and its entry counts it.
fn note_header(headers: &mut Headers, records: &mut Records, found: &Found, header: &Header)
    requires room { HasRoom found.now.list headers.old }
    requires part { found.now.linked.entry.start + found.now.linked.entry.length < 2 ^ 64 }
    requires at_most { headers_in (lookup found.now.linked.handle records.old.by_entry.live) < 2 ^ 32 }
    requires index { count_at header.now.pt records.old.waiting < 2 ^ 64 - 1 }
    ensures headers { headers.new ≡ headers_after found.now header.now headers.old }
    ensures records { records.new ≡ all_with_header found.now header.now records.old }
{
    if let List::Overflow = found.list {
        headers.add(IndexedHeader {
            pt: header.pt,
            header: UnexpectedHeader {
                entry: found.linked.handle,
                place: first_byte(&found.linked, header),
                delivered: delivered(&found.linked, header),
                header: *header,
            },
            hidden: found.linked.entry.hidden,
        });
        add_header(&mut records.by_entry, found.linked.handle);
        records.waiting.raise(header.pt);
    }
}

/// Whether it is the overflow list.
fn is_overflow(list: List) -> bool
    ensures { result ≡ is_overflow list }
{
    match list {
        List::Priority => false,
        List::Overflow => true,
    }
}

/// The outcome of a delivery to this list.
fn outcome_in(list: List) -> Outcome
    ensures { result ≡ outcome_in list }
{
    match list {
        List::Priority => Outcome::Matched,
        List::Overflow => Outcome::Overflow,
    }
}

/// A target: its rank, its portal table indices, and the headers that wait. Its value is the model's `Side`. `linked` counts the
/// entries that are linked, and `eqs` by slot the indices that have an event queue.
pub struct Target {
    rank: Rank,
    pub(crate) limit: u32,
    pub(crate) indices: Vec<Index>,
    pub(crate) linked: u32,
    pub(crate) records: Records,
    pub(crate) headers: Headers,
    pub(crate) eqs: Users,
}

impl Model for Target {
    ghost use Rattle.ni_model.specs.Arrive.{Side};
    ghost use Rattle.target_engine.specs.Sides.{side};

    ghost Value = { Side };

    ghost use Rattle.target_engine.specs.PortalTable.{seen_in, IsWhole};

    ghost view = { λ t. side t.rank t.limit (seen_in t.indices.items) t.records.by_entry.given t.headers };

    ghost invariant = { λ t. IsWhole t.limit t.indices.items t.linked t.records t.headers t.eqs };
}

// Written out, so that letting one go is one call: docs/DECISIONS.md, "Large types have a drop of their own".
impl Drop for Target {
    fn drop(self) {
        let Target {
            rank: _,
            limit: _,
            indices: _,
            linked: _,
            records: _,
            headers: _,
            eqs: _,
        } = self;
    }
}

/// As many places for indices as the limit, none of them allocated, each with its lists.
fn empty_indices(alloc: Global, limits: &Limits, records: u32) -> Result<Vec<Index>, NoMemory>
    ensures unused { IfOk result (λ v. All (IsUnused limits.now.entries records) v.items) }
    ensures many { IfOk result (λ v. length v.items ≡ limits.now.pts) }
{
    let mut indices = Vec::with_capacity(alloc, limits.pts as usize)?;
    for _i in 0..limits.pts {
        indices.push_reserved(Index::new(alloc, limits.entries, records)?);
    }
    Ok(indices)
}

/// How many records there may be: of the entries that are linked, and of those in whose memory a header lies.
fn records(limits: &Limits) -> u32
    requires { limits.now.entries + limits.now.unexpected < 2 ^ 32 }
    ensures { result ≡ limits.now.entries + limits.now.unexpected }
{
    limits.entries + limits.unexpected
}

impl Target {
    /// A target of this rank with no index allocated, no entry linked and no header. It has the room of its limits, each place of
    /// the portal table for as many entries as may be linked: no later call takes memory. Condition: entries and headers together
    /// have a record each whose number has 32 bits.
    pub fn open(alloc: Global, rank: Rank, limits: &Limits) -> Result<Target, NoMemory>
        requires { limits.now.entries + limits.now.unexpected < 2 ^ 32 }
        ensures makes { IfOk result (λ t. t ≡ side rank limits.now.entries (replicate limits.now.pts None) 0
            (unexpected_list [] limits.now.unexpected)) }
    {
        let records = records(limits);
        let indices = empty_indices(alloc, limits, records)?;
        let by_entry = Store::open(alloc, records)?;
        let headers = Headers::open(alloc, limits.unexpected)?;
        let cts = Users::open(alloc, limits.cts)?;
        let eqs = Users::open(alloc, limits.eqs)?;
        let waiting = Users::open(alloc, limits.pts)?;
        Ok(Target {
            rank,
            limit: limits.entries,
            indices,
            linked: 0,
            records: Records {
                by_entry,
                cts,
                waiting,
            },
            headers,
            eqs,
        })
    }

    /// Header number i of an index in the order of arrival, from 0; `None` exactly where the index has no more than i.
    pub fn header(&self, pt: u32, i: u32) -> Option<&UnexpectedHeader>
        ensures value { option_copied result ≡ header_at pt i self.now.headers.unexpected }
    {
        self.headers.at(pt, i)
    }

    /// The headers of all indices, in the order of arrival.
    pub fn headers(&self) -> &[IndexedHeader]
        ensures value { result.now ≡ self.now.headers.unexpected }
    {
        self.headers.as_slice()
    }

    /// What a request does here, but for the two registers: its outcome, its answer, and the counting event that rose. The
    /// answer uses the message's own bytes, so that nothing takes memory. Where there is no answer the message's room is spare.
    #[tactic(auto, unfolding(ni_model::specs::Arrive::request))]
    pub fn request(
        &mut self,
        region: &mut Region,
        cts: &mut Store<Counter>,
        eqs: &mut Store<Queue>,
        message: Message,
        spares: &mut SpareBuffers,
    ) -> Arrived
        requires request { is_answer message.header.kind ≡ false }
        requires inside { All (HasPartsIn (length region.old)) self.old.indices }
        ensures does { received (parts self.new region.new cts.new eqs.new) result ≡ request (parts self.old region.old cts.old eqs.old)
            message }
    {
        let header = *message.header();
        let found = match chosen_in(&self.indices, &header) {
            Some(found) => found,
            None => return refused(Outcome::Dropped, message, spares),
        };
        if !allows(&found.linked.entry, header.kind) {
            return refused(Outcome::Violation, message, spares);
        }
        if is_overflow(found.list) && self.headers.is_full() {
            return refused(Outcome::Dropped, message, spares);
        }
        // Brings the bound of the region's length to the proof.
        let _size = region.len();
        let answer = exchange(region, &found.linked, message, spares);
        self.accept(cts, eqs, &found, &header, answer)
    }

    /// A message in the overflow list leaves its header.
    pub(crate) fn note(&mut self, found: &Found, header: &Header)
        requires room { HasRoom found.now.list self.old.headers }
        requires part { found.now.linked.entry.start + found.now.linked.entry.length < 2 ^ 64 }
        requires there { is_linked_at found.now.list found.now.linked.handle (index_at header.now.pt self.old.indices) ≡ true }
        ensures { self.new ≡ record self.old { headers = headers_after found.now header.now self.old.headers } }
    {
        note_header(&mut self.headers, &mut self.records, found, header);
    }

    /// What becomes of the entry that took the message.
    fn update_entry(&mut self, found: &Found, header: &Header)
        requires there { is_linked_at found.now.list found.now.linked.handle (index_at header.now.pt self.old.indices) ≡ true }
        requires entry { linked_in found.now.linked.handle (index_at header.now.pt self.old.indices) ≡ Some found.now.linked }
        ensures { self.new ≡ record self.old { indices = indices_after found.now header.now self.old.indices } }
    {
        update_entry_at(&mut self.indices, found, header);
        forget(&mut self.records, &mut self.linked, found, header);
    }

    /// What a delivery to the entry that was found leaves besides its bytes: count, header, entry and events. The answer is given.
    fn accept(
        &mut self,
        cts: &mut Store<Counter>,
        eqs: &mut Store<Queue>,
        found: &Found,
        header: &Header,
        answer: Option<Message>,
    ) -> Arrived
        requires part { found.now.linked.entry.start + found.now.linked.entry.length < 2 ^ 64 }
        requires room { HasRoom found.now.list self.old.headers }
        requires there { is_linked_at found.now.list found.now.linked.handle (index_at header.now.pt self.old.indices) ≡ true }
        requires entry { linked_in found.now.linked.handle (index_at header.now.pt self.old.indices) ≡ Some found.now.linked }
        ensures side { self.new ≡ side_after found.now header.now self.old }
        ensures counts { cts.new ≡ counts_after found.now.linked cts.old }
        ensures events { eqs.new ≡ events_after found.now header.now (queue_of (index_at header.now.pt self.old.indices)) eqs.old }
        ensures arrived { result ≡ record {
          outcome = outcome_in found.now.list;
          answer = answer;
          counted = counter_of found.now.linked;
        } }
    {
        let eq = queue_at(&self.indices, header.pt);
        count_message(cts, &found.linked);
        self.note(found, header);
        self.update_entry(found, header);
        raise_events(eqs, eq, found, header);
        Arrived {
            outcome: outcome_in(found.list),
            answer,
            counted: where_set(found.linked.entry.count_comm, found.linked.entry.ct),
        }
    }
}
