//! The initiator.

ghost use Rattle.std.specs.Prelude.{◌≡◌, ◌<◌, ◌≤◌, ℕ, List, true, false, Some, None, IsTrue, IfOk, IfErr, OnErr, All, length};
ghost use Rattle.ni_model.specs.Tables.{no_things, lookup, with_new, without, has_slot, handle, is_live};
ghost use Rattle.ni_model.specs.Calls.{bound, awaits_of};
ghost use Rattle.ni_model.specs.Answers.{home, answered, bound_at, is_awaited};
ghost use Rattle.ni_model.specs.Starts.{started, sent_from, counted_on, send_counter};
ghost use Rattle.ni_model.specs.Refusals.{bind_fault, action_fault, own_release_fault, md_names_ct, md_names_eq};
ghost use Rattle.ni_model.specs.Conditions.{MayStart};
ghost use Rattle.ni_objects.specs.users.Rows.{IsAlone, HasOwnSlot};
ghost use Rattle.initiator_engine.specs.Initiators.{initiating, with_mds, AreBoundIn, by_fault, is_start, room_for, has_started};
ghost use Rattle.initiator_engine.specs.Initiators.{has_returned};

use crate::answers::{await_less, bound_of, bring, counter_home, is_due, one_answer, raise_answer};
use crate::checks::{action_fits, action_is_live, is_live};
use crate::headers::{counted_on, header_of, put_args};
use crate::named::some_awaits;
use crate::starts::{await_more, read_bytes, send_counter, tell_start};
use ni_model::Bound;
use ni_objects::counters::Counter;
use ni_objects::delivery::{count, successes};
use ni_objects::descriptors::Region;
use ni_objects::handles::{Store, is_live_or_none};
use ni_objects::queues::Queue;
use ni_objects::users::Users;
use ptl_types::{
    Bytes, Descriptor, Handle, Header, Limits, Message, NiFault, NoMemory, Outcome, Rank,
    TriggeredOp,
};
use std::alloc::Global;
use std::marker::Model;

/// An initiator. Its value is its rank, the number of ranks, its limits, and its memory descriptors with the answers that
/// each awaits. `cts` and `eqs` count by slot the descriptors that name a counting event and an event queue.
pub struct Initiator {
    rank: Rank,
    ranks: u32,
    limits: Limits,
    mds: Store<Bound>,
    cts: Users,
    eqs: Users,
}

impl Model for Initiator {
    ghost use Rattle.initiator_engine.specs.Initiators.{Initiating, initiating, AreUsers};

    ghost Value = { Initiating };

    ghost view = { λ i. initiating i.rank i.ranks i.limits i.mds };

    ghost invariant = { λ i. AreUsers i.limits i.mds i.cts i.eqs };
}

// Written out, so that letting one go is one call: docs/DECISIONS.md, "Large types have a drop of their own".
impl Drop for Initiator {
    fn drop(self) {
        let Initiator {
            rank: _,
            ranks: _,
            limits: _,
            mds: _,
            cts: _,
            eqs: _,
        } = self;
    }
}

/// What a start does to the descriptors, the counting events and the queues; the counting event that rose.
fn started_with(
    mds: &mut Store<Bound>,
    cts: &mut Store<Counter>,
    eqs: &mut Store<Queue>,
    action: &TriggeredOp,
    header: &Header,
) -> Option<Handle>
    ensures sent { (memory : List ℕ) → home mds.new memory cts.new eqs.new ≡ sent_from (home mds.old memory cts.old eqs.old) action.now
        header.now }
    ensures counted { result ≡ send_counter (bound_at (counted_on action.now) mds.old) }
{
    let bound = bound_of(mds, counted_on(action));
    let ct = send_counter(bound);
    await_more(mds, header.home);
    count(cts, ct, successes(1));
    tell_start(eqs, bound, header);
    ct
}

impl Initiator {
    /// An initiator of this rank among so many, with no descriptor bound. It has the room of its limits.
    pub fn open(
        alloc: Global,
        rank: Rank,
        ranks: u32,
        limits: &Limits,
    ) -> Result<Initiator, NoMemory>
        ensures makes { IfOk result (λ i. i ≡ initiating rank ranks limits.now (no_things limits.now.mds)) }
    {
        let mds = Store::open(alloc, limits.mds)?;
        let cts = Users::open(alloc, limits.cts)?;
        let eqs = Users::open(alloc, limits.eqs)?;
        Ok(Initiator {
            rank,
            ranks,
            limits: *limits,
            mds,
            cts,
            eqs,
        })
    }

    /// The rank that its messages come from.
    pub fn rank(&self) -> Rank
        ensures value { result ≡ self.now.rank }
    {
        self.rank
    }

    /// How many ranks there are.
    pub fn ranks(&self) -> u32
        ensures value { result ≡ self.now.ranks }
    {
        self.ranks
    }

    /// Its limits.
    pub fn limits(&self) -> &Limits
        ensures value { result.now ≡ self.now.limits }
    {
        &self.limits
    }

    /// Binds a memory descriptor (Portals 4.3, binding memory descriptors). `Stale` where its queue or its counting event
    /// isn't live, `NoSpace` where the limit is bound or all stamps were given, `OutOfRegion` where its part reaches past
    /// the region. A refused call changes nothing.
    pub fn bind(
        &mut self,
        region: &Region,
        cts: &Store<Counter>,
        eqs: &Store<Queue>,
        md: Descriptor,
    ) -> Result<Handle, NiFault>
        ensures err { IfErr result (λ fault. bind_fault md (length region.now) cts.now eqs.now self.old.mds ≡ Some fault) }
        ensures unchanged { OnErr result (self.new ≡ self.old) }
        ensures ok { IfOk result (λ h. bind_fault md (length region.now) cts.now eqs.now self.old.mds ≡ None) }
        ensures stamp { IfOk result (λ h. h ≡ handle h.slot self.old.mds.given) }
        ensures slot { IfOk result (λ h. h.slot < self.old.mds.limit) }
        ensures free { IfOk result (λ h. has_slot h.slot self.old.mds.live ≡ false) }
        ensures bound { IfOk result (λ h. self.new ≡ with_mds (with_new h.slot (bound md) self.old.mds) self.old) }
    {
        if !(is_live_or_none(eqs, md.eq) && is_live_or_none(cts, md.ct)) {
            return Err(NiFault::Stale);
        }
        if self.mds.is_full() {
            return Err(NiFault::NoSpace);
        }
        if !region.fits(md.start, md.length) {
            return Err(NiFault::OutOfRegion);
        }
        // Brings the bound of the number of descriptors to the proof.
        let _slots = self.mds.slots();
        let handle = match self.mds.insert(Bound { md, awaits: 0 }) {
            Ok(handle) => handle,
            Err(_) => return Err(NiFault::NoSpace),
        };
        self.cts.add(md.ct);
        self.eqs.add(md.eq);
        Ok(handle)
    }

    /// Releases a descriptor. `Stale` where it isn't bound, `InUse` where it awaits an answer; a refused call changes
    /// nothing. Whether a pending operation names it is for the caller to look at.
    pub fn release(&mut self, md: Handle) -> Result<(), NiFault>
        ensures answer { result ≡ by_fault (own_release_fault md self.old.mds) }
        ensures unchanged { OnErr result (self.new ≡ self.old) }
        ensures released { IfOk result (λ _. self.new ≡ with_mds (without md self.old.mds) self.old) }
    {
        match bound_of(&self.mds, Some(md)) {
            None => Err(NiFault::Stale),
            Some(bound) if bound.awaits > 0 => Err(NiFault::InUse),
            Some(bound) => {
                let _ = self.mds.remove(md);
                self.cts.remove(bound.md.ct);
                self.eqs.remove(bound.md.eq);
                Ok(())
            }
        }
    }

    /// Whether the descriptor is bound. Then no other bound one has its slot.
    pub fn is_bound(&self, md: Handle) -> bool
        ensures value { result ≡ is_live md self.now.mds }
        ensures alone { IsTrue result → HasOwnSlot md self.now.mds }
    {
        // Brings what is known of its slot to the proof.
        let _found = self.mds.at(md.slot);
        is_live(&self.mds, md)
    }

    /// How many answers the descriptor awaits; `Stale` where it isn't bound.
    pub fn awaits(&self, md: Handle) -> Result<u64, NiFault>
        ensures value { result ≡ awaits_of (lookup md self.now.mds.live) }
    {
        match bound_of(&self.mds, Some(md)) {
            Some(bound) => Ok(bound.awaits),
            None => Err(NiFault::Stale),
        }
    }

    /// Whether a descriptor awaits an answer.
    pub fn awaits_any(&self) -> bool
        ensures value { result ≡ is_awaited self.now.mds.live }
    {
        some_awaits(&self.mds)
    }

    /// Whether a descriptor names the counting event. Conditions: its slot is below the limit of counting events, and no
    /// descriptor names another one of this slot.
    pub fn names_ct(&self, ct: Handle) -> bool
        requires within { ct.slot < self.now.limits.cts }
        requires alone { All (λ x. IsAlone ct x.value.md.ct) self.now.mds.live }
        ensures value { result ≡ md_names_ct ct self.now.mds.live }
    {
        self.cts.is_used(ct.slot)
    }

    /// Whether a descriptor names the event queue. Conditions: its slot is below the limit of queues, and no descriptor names
    /// another one of this slot.
    pub fn names_eq(&self, eq: Handle) -> bool
        requires within { eq.slot < self.now.limits.eqs }
        requires alone { All (λ x. IsAlone eq x.value.md.eq) self.now.mds.live }
        ensures value { result ≡ md_names_eq eq self.now.mds.live }
    {
        self.eqs.is_used(eq.slot)
    }

    /// Whether the action may start as far as its descriptors go: `Stale` where one of them isn't bound, `OutOfRegion` where a
    /// part that it names reaches past its descriptor.
    pub fn check(&self, action: &TriggeredOp) -> Result<(), NiFault>
        ensures value { result ≡ by_fault (action_fault action.now self.now.mds) }
    {
        if !action_is_live(&self.mds, action) {
            return Err(NiFault::Stale);
        }
        if !action_fits(&self.mds, action) {
            return Err(NiFault::OutOfRegion);
        }
        Ok(())
    }

    /// Starts an operation: the message that is the caller's to send, and the counting event that rose. The bytes are read
    /// now, into the room that is brought; a get's reply will use that room.
    #[tactic(auto, using(crate::proofs::Starting::starting), unfolding(ni_model::specs::Starts::started))]
    pub fn start(
        &mut self,
        region: &Region,
        cts: &mut Store<Counter>,
        eqs: &mut Store<Queue>,
        action: &TriggeredOp,
        room: Bytes,
    ) -> (Message, Option<Handle>)
        requires start { is_start action.now ≡ true }
        requires may { MayStart action.now self.old.ranks self.old.limits }
        requires checked { action_fault action.now self.old.mds ≡ None }
        requires room { room_for action.now ≤ room.room }
        requires inside { AreBoundIn (length region.now) self.old.mds }
        ensures started { has_started (home self.new.mds region.now cts.new eqs.new) result.0 result.1 ≡ started self.old.rank
            (home self.old.mds region.now cts.old eqs.old) action.now }
        ensures rest { self.new ≡ with_mds self.new.mds self.old }
    {
        let header = match header_of(self.rank, action) {
            Some(header) => header,
            None => unreachable!(),
        };
        let bytes = read_bytes(region, &self.mds, put_args(action), room);
        let message = Message::new(header, bytes);
        let counted = started_with(&mut self.mds, cts, eqs, action, &header);
        (message, counted)
    }

    /// What an acknowledgement or a reply does where it comes home, but for the drop register: whether it was awaited, and
    /// the counting event that rose. One that wasn't awaited changes nothing.
    #[tactic(auto, unfolding(ni_model::specs::Answers::answered))]
    pub fn answer(
        &mut self,
        region: &mut Region,
        cts: &mut Store<Counter>,
        eqs: &mut Store<Queue>,
        message: Message,
    ) -> (Outcome, Option<Handle>)
        requires { AreBoundIn (length region.old) self.old.mds }
        ensures answered { has_returned (home self.new.mds region.new cts.new eqs.new) result.0 result.1 ≡ answered
            (home self.old.mds region.old cts.old eqs.old) message }
        ensures rest { self.new ≡ with_mds self.new.mds self.old }
    {
        // Brings the bound of the region's length to the proof.
        let _size = region.len();
        let header = *message.header();
        let bound = match bound_of(&self.mds, header.home) {
            Some(bound) if is_due(&header, &bound) => bound,
            _ => return (Outcome::Dropped, None),
        };
        bring(region, &bound, &message);
        let ct = counter_home(&header, &bound);
        count(cts, ct, one_answer(header.ok));
        raise_answer(eqs, &header, &bound);
        await_less(&mut self.mds, header.home);
        (Outcome::Answered, ct)
    }
}
