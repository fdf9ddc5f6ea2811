//! Where a rank stands.

ghost use Rattle.std.specs.Prelude.{◌≡◌, ◌==◌, ◌+◌, ◌&&◌, ◌<◌, ◌≤◌, IsTrue, nat_lt, count_by};
ghost use Rattle.ptl_types.specs.Kinds.{lane_of};
ghost use Rattle.ni_model.specs.Calls.{AnswersReady};
ghost use Rattle.ni_model.specs.Ready.{is_ready};
ghost use Rattle.cuts.specs.histories.Cut.{is_stray};
ghost use Rattle.cuts.specs.histories.History.{is_start, made_by};
ghost use Rattle.cuts.specs.histories.History.Local.{Fire, Receive};
ghost use Rattle.rank_node.specs.Node.{IsStarted};
ghost use Rattle.rank_frames.specs.Due.{messages_due};
ghost use Rattle.rank_frames.specs.Place.{IsPlace, fault_of, fault_of_head, fired_place, is_new, received_place};

use crate::due::Due;
use crate::fault::FrameFault;
use crate::frames::NOBODY;
use message_codec::HEADER;
use ptl_types::{AckRequest, Lane, Message, MessageKind, Rank};
use rank_node::Node;
use std::marker::Model;

/// A rank with its node, and what has still to come to it.
#[derive(Drop)]
pub struct Place {
    me: Rank,
    node: Node,
    due: Due,
}

impl Model for Place {
    ghost use Rattle.rank_frames.specs.Place.{IsPlace, PlaceState};

    ghost Value = { PlaceState };

    ghost view = { λ p. record { me = p.me; node = p.node; due = p.due } };

    ghost invariant = { λ p. IsPlace (record { me = p.me; node = p.node; due = p.due }) };
}

/// Whether a message is of another job: a put or an atomic that asks for no answer, whose highest sixteen match bits aren't 1.
fn is_stray(message: &Message) -> bool
    ensures { result ≡ is_stray message.now }
{
    let h = message.header();
    matches!(h.kind, MessageKind::Put | MessageKind::Atomic)
        && matches!(h.ack, AckRequest::NoAck)
        && (h.match_bits >> 48) % 65_536 != 1
}

impl Place {
    /// A rank whose node is this, and to which this is due.
    pub fn of(me: Rank, node: Node, due: Due) -> Place
        requires { IsPlace (record { me = me; node = node; due = due }) }
        ensures { result ≡ record { me = me; node = node; due = due } }
    {
        Place { me, node, due }
    }

    /// Its node.
    pub fn node(&self) -> &Node
        ensures value { result.now ≡ self.now.node }
        ensures kept { IsPlace self.now }
    {
        &self.node
    }

    /// Whether it hasn't started.
    fn is_new(&self) -> bool
        ensures { result ≡ is_new self.now }
    {
        !self.node.started()
    }

    /// Whether it has started, and nothing is due.
    pub(crate) fn has_all(&self) -> bool
        ensures { result ≡ (nat_lt 0 (count_by is_start self.now.node.diary.locals) && (messages_due self.now.due == 0)) }
    {
        self.node.started() && self.due.has_come()
    }

    /// The number of an operation that is ready; `None` exactly where none is.
    pub(crate) fn ready(&self) -> Option<u32>
        ensures { AnswersReady self.now.node.nic result }
    {
        self.node.nic().ready()
    }

    /// Fires an operation that is ready, and gives its message, if it has one.
    pub(crate) fn fire(&mut self, number: u32) -> Option<Message>
        requires { IsTrue (is_ready self.old.node.nic number) }
        ensures message { result ≡ made_by self.old.node.nic (Fire number) }
        ensures step { self.new ≡ fired_place number self.old }
    {
        self.node.fire(number)
    }

    /// Starts the rank, which hasn't started.
    pub(crate) fn start(&mut self)
        requires { count_by is_start self.old.node.diary.locals ≡ 0 }
        ensures node { IsStarted self.old.node self.new.node }
        ensures me { self.new.me ≡ self.old.me }
        ensures due { self.new.due ≡ self.old.due }
    {
        self.node.start();
        self.node.recall_history();
    }

    /// Receives a message that nothing keeps from it, and gives the answer to send back, if any.
    pub(crate) fn receive(&mut self, source: Rank, message: Message) -> Option<Message>
        requires { fault_of self.old source message ≡ None }
        ensures answer { result ≡ made_by self.old.node.nic (Receive source (lane_of message.header.kind) message) }
        ensures step { self.new ≡ received_place source message self.old }
        ensures fewer { messages_due self.new.due + 1 ≡ messages_due self.old.due }
    {
        let lane = message.header().kind.lane();
        self.due.take(source, lane, message.bytes().len());
        let answer = self.node.receive(source, lane, message);
        self.node.recall_history();
        answer
    }

    /// What keeps the bytes behind this head of a frame from being read, if anything: a mark is that of a first start, and a frame is of
    /// a rank, and no longer than a message with all bytes that are due.
    pub(crate) fn fault_of_head(&self, source: Rank, count: u32) -> Option<FrameFault>
        ensures { result ≡ fault_of_head self.now source count }
    {
        if source == NOBODY {
            if count == 0 && self.is_new() {
                return None;
            }
            return Some(FrameFault::Mark);
        }
        if source as usize >= self.due.ranks() {
            return Some(FrameFault::Source);
        }
        if u64::from(count).saturating_sub(HEADER as u64) > self.due.bytes() {
            return Some(FrameFault::TooLong);
        }
        None
    }

    /// What keeps a message of this source from being received, if anything.
    pub(crate) fn fault_of(&self, source: Rank, message: &Message) -> Option<FrameFault>
        ensures { result ≡ fault_of self.now source message.now }
    {
        let h = message.header();
        if h.source != source {
            return Some(FrameFault::OtherSource);
        }
        if h.target != self.me {
            return Some(FrameFault::OtherTarget);
        }
        if is_stray(message) {
            return Some(FrameFault::OtherJob);
        }
        if self.due.on(source, h.kind.lane()) == 0 {
            return Some(FrameFault::Lane);
        }
        if h.kind.is_answer() && !self.node.awaits() {
            return Some(FrameFault::NotAwaited);
        }
        if self.due.bytes() < message.bytes().len() {
            return Some(FrameFault::TooMany);
        }
        None
    }
}
