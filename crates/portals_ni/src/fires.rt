//! Which triggered operations are ready, and what firing one does (Portals 4.3, triggered operations).

ghost use Rattle.std.specs.Prelude.{◌≡◌, ◌<◌, IsTrue, Some, false, length, slice_get};
ghost use Rattle.ni_model.specs.Ready.{is_ready, is_rank, fired, fires, posted_at, ready_numbers, ready_numbers_to, target_at};
ghost use Rattle.ni_model.specs.Ready.{message_target, target_of};
ghost use Rattle.ni_model.specs.Refusals.{action_passes};
ghost use Rattle.ni_model.specs.Calls.{AnswersReady};
ghost use Rattle.triggered_ops.specs.Operations.{posted_all, IsKept};
ghost use Rattle.portals_ni.specs.Answers.{action_counts, action_counter};
ghost use Rattle.portals_ni.specs.Pendings.{action_in, due_numbers_to};

use crate::counting::set_counter;
use crate::nic::Nic;
use crate::packed::Packed;
use crate::posted_op::{PostedOp, tell};
use crate::starts::is_start;
use ni_objects::counters::Counter;
use ni_objects::delivery::count;
use ni_objects::handles::Store;
use ptl_types::{Handle, Message, Rank, TriggeredOp};
use target_engine::SpareBuffers;
use triggered_ops::Pending;

/// What an increment or a set does: the counting event that it names.
fn count_action(cts: &mut Store<Counter>, action: &TriggeredOp) -> Option<Handle>
    requires { action_passes action.now ≡ false }
    ensures counts { cts.new ≡ action_counts action.now cts.old }
    ensures counter { result ≡ action_counter action.now }
{
    match action {
        TriggeredOp::Inc(ct, by) => {
            count(cts, Some(*ct), *by);
            Some(*ct)
        }
        TriggeredOp::Set(ct, to) => {
            let _ = set_counter(cts, *ct, *to);
            Some(*ct)
        }
        _ => None,
    }
}

/// The rank that the action's message is for.
fn message_target(action: &TriggeredOp) -> Option<Rank>
    ensures { result ≡ message_target action.now }
{
    match action {
        TriggeredOp::Put(args) => Some(args.target),
        TriggeredOp::Get(args) => Some(args.target),
        TriggeredOp::Atomic(args, _, _) => Some(args.target),
        TriggeredOp::FetchAtomic(_, args, _, _) => Some(args.target),
        TriggeredOp::Swap(_, args, _, _, _) => Some(args.target),
        _ => None,
    }
}

/// The rank that the message of an operation is for, where it waits and has one.
fn target_of(pending: &Pending<Packed>, number: u32) -> Option<Rank>
    ensures { result ≡ target_of (posted_at number (posted_all action_in pending.now)) }
{
    match pending.get(number) {
        Some((packed, _, _)) => {
            let action = packed.action();
            message_target(&action)
        }
        None => None,
    }
}

/// Whether it is for this rank.
fn goes_to(pending: &Pending<Packed>, number: u32, target: Rank) -> bool
    ensures { result ≡ is_rank target (target_of (posted_at number (posted_all action_in pending.now))) }
{
    match target_of(pending, number) {
        Some(rank) => rank == target,
        None => false,
    }
}

/// How many operations are due whose message is for this rank.
fn count_to(pending: &Pending<Packed>, target: Rank) -> u32
    ensures value { result ≡ length (due_numbers_to target pending.now) }
    ensures kept { IsKept pending.now }
{
    let mut count = 0;
    for i in 0..pending.ready_count() {
        if goes_to(pending, pending.ready_at(i), target) {
            count += 1;
        }
    }
    count
}

impl Nic {
    /// Whether the operation of this number is pending and its counting event's success and failure together have reached its
    /// threshold.
    pub fn is_ready(&self, number: u32) -> bool
        ensures value { result ≡ is_ready self.now number }
    {
        self.pending.waiting().is_ready(number)
    }

    /// The number of an operation that is ready; `None` exactly where none is. Which of them it is stays open.
    pub fn ready(&self) -> Option<u32>
        ensures value { AnswersReady self.now result }
    {
        self.pending.waiting().ready()
    }

    /// How many operations are ready.
    pub fn ready_count(&self) -> u32
        ensures value { result ≡ length (ready_numbers self.now) }
    {
        self.pending.waiting().ready_count()
    }

    /// The number of the ready operation at position `i` among them, by rising number, from 0. Condition: there are more than `i`.
    pub fn ready_at(&self, i: u32) -> u32
        requires { i < length (ready_numbers self.now) }
        ensures value { slice_get (ready_numbers self.now) i ≡ Some result }
    {
        // Brings what the pending operations keep to the proof.
        let waiting = self.pending.waiting();
        let _many = waiting.len();
        waiting.ready_at(i)
    }

    /// How many operations are ready whose message is for this rank.
    pub fn ready_count_to(&self, target: Rank) -> u32
        ensures value { result ≡ length (ready_numbers_to target self.now) }
    {
        count_to(self.pending.waiting(), target)
    }

    /// The rank that the message of a pending operation is for; `None` exactly for an increment or a set, and where the
    /// operation isn't pending.
    pub fn lane_of(&self, number: u32) -> Option<Rank>
        ensures value { result ≡ target_at self.now number }
    {
        target_of(self.pending.waiting(), number)
    }

    /// Fires a ready operation: it leaves the pending ones and its action is done. Its bytes are read now, and the message is the
    /// caller's to send; `None` exactly for an increment or a set. It takes no memory. Condition: it is ready.
    pub fn fire(&mut self, number: u32) -> Option<Message>
        requires { IsTrue (is_ready self.old number) }
        ensures does { fires self.new result ≡ fired self.old number }
    {
        let mut spares = SpareBuffers::none();
        self.fire_using(number, &mut spares)
    }

    /// Fires a ready operation, as `fire` does. Its bytes are read into the room of a message that was delivered, if one is kept that is
    /// large enough, and else into its own.
    pub fn fire_using(&mut self, number: u32, spares: &mut SpareBuffers) -> Option<Message>
        requires { IsTrue (is_ready self.old number) }
        ensures does { fires self.new result ≡ fired self.old number }
    {
        let PostedOp { action, room } = self.pending.take(number)?;
        if !is_start(&action) {
            let counted = count_action(&mut self.cts, &action);
            tell(&mut self.pending, &self.cts, counted);
            return None;
        }
        let room = spares.exchange(room);
        let (message, counted) = self
            .initiator
            .start(&self.region, &mut self.cts, &mut self.eqs, &action, room);
        tell(&mut self.pending, &self.cts, counted);
        Some(message)
    }
}
