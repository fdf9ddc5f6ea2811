//! One rank of a choice world.

ghost use Rattle.std.specs.Prelude.{◌≡◌, ◌<◌, ◌≤◌, [], IsTrue, Some, length, map, count_by, nat_lt, slice_get};
ghost use Rattle.ni_model.specs.Ready.{is_ready, ready_numbers};
ghost use Rattle.cuts.specs.histories.History.{is_start, made_by};
ghost use Rattle.cuts.specs.histories.History.Local.{Fire as Fired, Receive as Received};
ghost use Rattle.rank_node.specs.Copies.{listed};
ghost use Rattle.plan_choice.specs.ranks.Seats.{fired_seat, received_seat, started_seat};

use portals_ni::Nic;
use ptl_types::{Lane, LocalStep, Message, Rank};
use rank_node::{History, NodeHandles, raise_go};
use std::marker::Model;

/// One rank: its interface, the handles that it gave, and its history.
pub struct ChoiceRank {
    nic: Nic,
    kept: NodeHandles,
    history: History,
}

impl Model for ChoiceRank {
    ghost use Rattle.plan_choice.specs.ranks.Seats.{ChoiceRankState};

    ghost Value = { ChoiceRankState };

    ghost view = { λ s. record { kept = s.kept; diary = s.history; nic = s.nic } };
}

// Written out, so that letting one go is one call: docs/DECISIONS.md, "Large types have a drop of their own".
impl Drop for ChoiceRank {
    fn drop(self) {
        let ChoiceRank {
            nic: _,
            kept: _,
            history: _,
        } = self;
    }
}

impl ChoiceRank {
    /// A rank of these parts.
    pub(crate) fn of(nic: Nic, kept: NodeHandles, history: History) -> ChoiceRank
        ensures { result ≡ record { kept = kept; diary = history; nic = nic } }
    {
        ChoiceRank { nic, kept, history }
    }

    /// Its interface.
    pub fn nic(&self) -> &Nic
        ensures { result.now ≡ self.now.nic }
    {
        &self.nic
    }

    /// Its steps, oldest first.
    pub fn history(&self) -> &[LocalStep]
        ensures value { result.now ≡ self.now.diary.steps }
        ensures listed { map listed self.now.diary.locals ≡ self.now.diary.steps }
    {
        self.history.steps()
    }

    /// Whether it has started.
    pub fn started(&self) -> bool
        ensures { result ≡ nat_lt 0 (count_by is_start self.now.diary.locals) }
    {
        self.history.started()
    }

    /// How many operations are ready.
    pub fn ready(&self) -> u32
        ensures { result ≡ length (ready_numbers self.now.nic) }
    {
        self.nic.ready_count()
    }

    /// The number of the one at position `i` among these, by rising number, from 0.
    pub fn ready_at(&self, i: u32) -> u32
        requires { i < length (ready_numbers self.now.nic) }
        ensures { slice_get (ready_numbers self.now.nic) i ≡ Some result }
    {
        self.nic.ready_at(i)
    }

    /// The host raises the go counter by one.
    pub fn start(&mut self)
        requires room { 0 < self.old.diary.room }
        requires counter { 0 < length self.old.kept.counters }
        ensures { self.new ≡ started_seat self.old }
    {
        raise_go(&mut self.nic, self.kept.counter(0));
        self.history.note_start();
    }

    /// Fires an operation, and gives its message, if it has one. Condition: it is ready.
    pub fn fire(&mut self, number: u32) -> Option<Message>
        requires room { 0 < self.old.diary.room }
        requires ready { IsTrue (is_ready self.old.nic number) }
        ensures message { result ≡ made_by self.old.nic (Fired number) }
        ensures step { self.new ≡ fired_seat number self.old }
    {
        self.history.note_fire(number);
        self.nic.fire(number)
    }

    /// Receives a message for this rank, and gives the answer to send back, if there is one.
    pub fn receive(&mut self, source: Rank, lane: Lane, message: Message) -> Option<Message>
        requires room { 0 < self.old.diary.room }
        requires receipts { 0 < self.old.diary.receipts }
        requires bytes { length message.bytes ≤ self.old.diary.bytes }
        requires target { message.header.target ≡ self.old.nic.rank }
        ensures answer { result ≡ made_by self.old.nic (Received source lane message) }
        ensures step { self.new ≡ received_seat source lane message self.old }
    {
        self.history.note_receipt(source, lane, &message);
        self.nic.deliver(message).answer
    }
}
