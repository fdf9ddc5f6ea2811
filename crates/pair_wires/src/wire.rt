//! A wire from one rank to another, over a queue under a rule.

ghost use Rattle.std.specs.Prelude.{◌≡◌, true, ◌+◌, ◌≤◌, ◌<◌, [], ◌∷◌, ◌++◌, List, length, IfOk, IfErr, OnOk, IfSome, IfNone, IsTrue};
ghost use Rattle.std.specs.Prelude.{IsFalse, false};
ghost use Rattle.ptl_types.specs.Messages.{Sent};
ghost use Rattle.crossbeam_queue.specs.Passes.{view, IsPassOf};
ghost use Rattle.ptl_types.specs.Handles.{one_more};
ghost use Rattle.pair_wires.specs.Wires.{IsOutOf, IsInOf, IsNoticeOf, Opens, OnlyHears, OnlyNotes, one_if, most_left};
ghost use Rattle.pair_wires.specs.Bounds.{KeepsBounds};
ghost use Rattle.pair_wires.specs.Rules.{Drains};
ghost use Rattle.pair_wires.specs.Lanes.{plain};

use crate::bounds::Bounds;
use crate::ends::{InEnd, Notice, OutEnd, Receipts};
use crate::lane::PlainLane;
use crate::rule::{
    AnnounceStep, DrainStep, EndView, FromEnds, HearStep, IntoEnds, NoteStep, PopStep, PushStep,
    TellStep, WireRule, Within,
};
use crossbeam_queue::{Pass, RuledArrayQueue};
use ptl_types::{Message, NoMemory};
use std::alloc::Global;
use std::marker::{Brand, Model};
use std::sync::Wait;

type Line = RuledArrayQueue<Message, EndView, WireRule>;

/// A wire. Threads share it by reference, and each of its two ends has one user at a time.
///
/// It stands for its own identity, its bounds and its capacity in messages. Messages come out in the order in which they
/// went in.
#[derive(Drop)]
pub struct Wire {
    line: Line,
    bounds: Bounds,
}

impl Model for Wire {
    ghost use Rattle.std.specs.Prelude.{◌<◌, ◌^◌};
    ghost use Rattle.crossbeam_queue.specs.Passes.{ruled_capacity};
    ghost use Rattle.pair_wires.specs.Wires.{WireState};

    ghost Value = { WireState };

    ghost view = { λ w. record { id = w.line.table.shared.table_id; bounds = w.bounds; capacity = ruled_capacity w.line } };

    ghost invariant = { λ w. w.bounds.messages < 2 ^ 32 };
}

fn risen(count: u64) -> u64
    ensures { result ≡ one_more count }
{
    count.saturating_add(1)
}

// The oldest message of a queue whose two ends became one pass goes to the end of a lane.
fn move_one<R: Wait>(rt: &R, line: &Line, pass: &mut Pass<Message, EndView>, rest: &mut PlainLane)
    requires pass { IsPassOf line.now pass.old × ((view pass.old).pushes ≡ true) × ((view pass.old).pops ≡ true) }
    requires nonempty { length (view pass.old).received < length (view pass.old).sent }
    requires room { length rest.old.messages < rest.old.capacity }
    ensures pass { IsPassOf line.now pass.new }
    ensures moved { (m : Sent) × Drains (view pass.old) m (view pass.new) ×
        (rest.new ≡ plain (rest.old.messages ++ m ∷ []) rest.old.capacity) }
{
    let Some(message) = line.pop_as::<DrainStep, R>(rt, pass) else {
        unreachable!()
    };
    rest.push_back(message);
}

impl Wire {
    fn open_within<J: Within>(
        alloc: Global,
        capacity: u32,
        bounds: Bounds,
    ) -> Result<(Wire, OutEnd, InEnd), NoMemory>
        requires capacity { 0 < capacity }
        requires bounds { J.bounds ≡ bounds }
        ensures { IfOk result (λ r. Opens capacity bounds r.0 r.1 r.2) }
    {
        let Ok((line, mut pass)) = Line::ruled(alloc, capacity as usize) else {
            return Err(NoMemory);
        };
        let other = line.another::<IntoEnds<J>>(&mut pass);
        let out = OutEnd {
            pass,
            waiting: None,
            pushed: 0,
            refused: 0,
        };
        let into = InEnd {
            pass: other,
            popped: 0,
            empty: 0,
        };
        Ok((Wire { line, bounds }, out, into))
    }

    /// A wire that holds at most `capacity` messages, with its two ends. Later calls take no memory.
    pub fn open(
        alloc: Global,
        capacity: u32,
        bounds: Bounds,
    ) -> Result<(Wire, OutEnd, InEnd), NoMemory>
        requires { 0 < capacity }
        ensures { IfOk result (λ r. Opens capacity bounds r.0 r.1 r.2) }
    {
        Wire::open_within::<Brand>(alloc, capacity, bounds)
    }

    /// The lane that the wire is, and how much may ever be sent on it.
    pub fn bounds(&self) -> Bounds
        ensures { result ≡ self.now.bounds }
    {
        self.bounds
    }

    /// Sends a message after all that was sent. It may wait inside the queue, and never for room.
    ///
    /// `Err` gives the message back, only where the wire was full at this call's own step: so never before as many were sent as the wire
    /// holds, those not counted of which this end heard that they were received. Then nothing was sent, and the count of refused pushes
    /// rose. Of messages that were received and that nobody told of (`tell`) no contract says that they made room.
    pub fn push<R: Wait>(&self, rt: &R, end: &mut OutEnd, message: Message) -> Result<(), Message>
        requires wire { IsOutOf self.now end.old }
        requires free { end.old.waits ≡ false }
        requires bounds { KeepsBounds self.now.bounds (end.old.sent ++ message ∷ []) }
        ensures wire { IsOutOf self.now end.new }
        ensures free { end.new.waits ≡ false }
        ensures pushed { OnOk result ((end.new.sent ≡ end.old.sent ++ message ∷ []) × (end.new.refused ≡ end.old.refused)) }
        ensures full { IfErr result (λ m. (m ≡ message) × (end.new.sent ≡ end.old.sent) × (end.new.refused ≡ one_more end.old.refused)) }
        ensures only_when_full { IfErr result (λ _. self.now.capacity + end.old.heard ≤ length end.old.sent) }
        ensures heard { end.new.heard ≡ end.old.heard }
    {
        match self.line.push_as::<PushStep, R>(rt, &mut end.pass, message) {
            Ok(()) => {
                end.pushed += 1;
                Ok(())
            }
            Err(back) => {
                end.refused = risen(end.refused);
                Err(back)
            }
        }
    }

    /// Sends a message after all that was sent: it goes into the queue, or waits at the end. The call may wait inside the
    /// queue, and never for room.
    ///
    /// The message waits only where the push was refused, as `push` says. Then the count of refused pushes rose.
    pub fn send<R: Wait>(&self, rt: &R, end: &mut OutEnd, message: Message)
        requires wire { IsOutOf self.now end.old }
        requires free { end.old.waits ≡ false }
        requires bounds { KeepsBounds self.now.bounds (end.old.sent ++ message ∷ []) }
        ensures wire { IsOutOf self.now end.new }
        ensures sent { end.new.sent ≡ end.old.sent ++ message ∷ [] }
        ensures pushed { end.new.waits ≡ false → end.new.refused ≡ end.old.refused }
        ensures full { end.new.waits ≡ true → (end.new.refused ≡ one_more end.old.refused) ×
            (self.now.capacity + end.old.heard ≤ length end.old.sent) }
        ensures heard { end.new.heard ≡ end.old.heard }
    {
        if let Err(back) = self.push(rt, end, message) {
            end.waiting = Some(back);
        }
    }

    /// Pushes the message that waits, if one does. It may wait inside the queue, and never for room.
    ///
    /// `false` only where a message waits and the push was refused, as `push` says. Then the message still waits, and the count of refused
    /// pushes rose.
    pub fn flush<R: Wait>(&self, rt: &R, end: &mut OutEnd) -> bool
        requires wire { IsOutOf self.now end.old }
        ensures wire { IsOutOf self.now end.new }
        ensures sent { end.new.sent ≡ end.old.sent }
        ensures flushed { IsTrue result → (end.new.waits ≡ false) × (end.new.refused ≡ end.old.refused) }
        ensures waits { IsFalse result → (end.old.waits ≡ true) × (end.new.waits ≡ true) }
        ensures full { IsFalse result → (end.new.refused ≡ one_more end.old.refused) ×
            (self.now.capacity + end.old.heard < length end.old.sent) }
        ensures heard { end.new.heard ≡ end.old.heard }
    {
        let Some(message) = end.waiting.take() else {
            return true;
        };
        match self.push(rt, end, message) {
            Ok(()) => true,
            Err(back) => {
                end.waiting = Some(back);
                false
            }
        }
    }

    /// Receives the oldest message. It may wait inside the queue, and never for a message. Where as many were received as the bounds allow
    /// the call costs nothing but the count.
    ///
    /// `None` only where the wire was empty at this call's own step: so never before as many were received as this end was told went in.
    /// Then nothing was received, and the count of empty pops rose. Of messages that were sent and that nobody told of (`announce`) no
    /// contract says that they come out.
    pub fn pop<R: Wait>(&self, rt: &R, end: &mut InEnd) -> Option<Message>
        requires { IsInOf self.now end.old }
        ensures wire { IsInOf self.now end.new }
        ensures popped { IfSome result (λ m. (end.new.received ≡ end.old.received ++ m ∷ []) × (end.new.empty ≡ end.old.empty)) }
        ensures bounds { IfSome result (λ _. KeepsBounds self.now.bounds end.new.received) }
        ensures empty { IfNone result ((end.new.received ≡ end.old.received) × (end.new.empty ≡ one_more end.old.empty)) }
        ensures only_when_empty { IfNone result (end.old.told ≤ length end.old.received) }
        ensures told { end.new.told ≡ end.old.told }
    {
        if end.popped >= self.bounds.messages {
            // All that is ever sent was received: the queue is empty for good, and what other threads write isn't looked at.
            end.empty = risen(end.empty);
            return None;
        }
        match self.line.pop_as::<PopStep, R>(rt, &mut end.pass) {
            Some(message) => {
                end.popped += 1;
                Some(message)
            }
            None => {
                end.empty = risen(end.empty);
                None
            }
        }
    }

    /// Word for the out end of how many messages were received so far. It is a matter of proofs alone, and does nothing at run time.
    pub fn tell(&self, end: &mut InEnd) -> Receipts
        requires { IsInOf self.now end.old }
        ensures same { end.new ≡ end.old }
        ensures told { (result.wire ≡ self.now.id) × (result.count ≡ length end.old.received) }
    {
        Receipts {
            pass: self.line.another::<TellStep>(&mut end.pass),
        }
    }

    /// Takes such word in: what was received makes room, so pushes are refused later from now on. It does nothing at run time.
    pub fn hear(&self, end: &mut OutEnd, word: Receipts)
        requires wire { IsOutOf self.now end.old × (word.wire ≡ self.now.id) }
        ensures { OnlyHears end.old end.new word.count }
    {
        self.line.absorb::<HearStep>(&mut end.pass, word.pass);
    }

    /// Word for the in end of how many messages went into the queue so far, one that waits at the end not counted. It is a matter of
    /// proofs alone, and does nothing at run time.
    pub fn announce(&self, end: &mut OutEnd) -> Notice
        requires { IsOutOf self.now end.old }
        ensures same { end.new ≡ end.old }
        ensures told { IsNoticeOf self.now result × (result.count + one_if end.old.waits ≡ length end.old.sent) }
    {
        Notice {
            pass: self.line.another::<AnnounceStep>(&mut end.pass),
        }
    }

    /// Takes such word in: what went into the queue comes out, so from now on no pop finds the wire empty before as many were received. It
    /// does nothing at run time.
    pub fn note(&self, end: &mut InEnd, word: Notice)
        requires wire { IsInOf self.now end.old × IsNoticeOf self.now word }
        ensures { OnlyNotes end.old end.new word.count }
    {
        self.line.absorb::<NoteStep>(&mut end.pass, word.pass);
    }

    /// Takes the wire's ends for good. What its queue holds and then the message that waits go, oldest first, to the end of the lane; of
    /// the wire there is then no more than its memory. It may wait inside the queue. Enough is room for what the queue can hold and what
    /// waits, or for all that may ever be sent on the wire.
    pub fn drain<R: Wait>(&self, rt: &R, out: OutEnd, into: InEnd, rest: &mut PlainLane)
        requires ends { IsOutOf self.now out × IsInOf self.now into }
        requires room { length rest.old.messages + most_left self.now out ≤ rest.old.capacity }
        ensures held { (held : List Sent) × (rest.new.messages ≡ rest.old.messages ++ held) × (out.sent ≡ into.received ++ held) }
        ensures capacity { rest.new.capacity ≡ rest.old.capacity }
        ensures at_most { length rest.new.messages ≤ rest.new.capacity }
        ensures bounds { KeepsBounds self.now.bounds out.sent }
    {
        let line = &self.line;
        let OutEnd {
            mut pass,
            waiting,
            ..
        } = out;
        let InEnd { pass: other, .. } = into;
        line.absorb::<FromEnds>(&mut pass, other);
        let count = line.len_as::<DrainStep, R>(rt, &mut pass);
        for _ in 0..count {
            move_one(rt, line, &mut pass, rest);
        }
        if let Some(message) = waiting {
            rest.push_back(message);
        }
    }

    /// Ends the wire. What its queue holds and then the message that waits go, oldest first, to the end of the lane. It may
    /// wait inside the queue. Enough is room for what the queue can hold and what waits, or for all that may ever be sent on the wire.
    pub fn close<R: Wait>(self, rt: &R, out: OutEnd, into: InEnd, rest: &mut PlainLane)
        requires ends { IsOutOf self out × IsInOf self into }
        requires room { length rest.old.messages + most_left self out ≤ rest.old.capacity }
        ensures held { (held : List Sent) × (rest.new.messages ≡ rest.old.messages ++ held) × (out.sent ≡ into.received ++ held) }
        ensures capacity { rest.new.capacity ≡ rest.old.capacity }
        ensures at_most { length rest.new.messages ≤ rest.new.capacity }
        ensures bounds { KeepsBounds self.bounds out.sent }
    {
        self.drain(rt, out, into, rest);
    }
}
