//! The history of a rank: its steps, in room that is taken once. What it received is known in clauses alone.

ghost use Rattle.std.specs.Prelude.{ℕ, ◌≡◌, ◌<◌, ◌≤◌, [], IfOk, length, map};
ghost use Rattle.ni_model.specs.Conditions.{IsKept};
ghost use Rattle.cuts.specs.histories.History.Local.{Start as Started, Fire as Fired};
ghost use Rattle.ptl_types.specs.declared.steps.LocalStep.TheVariants.{Start as StartStep, Fire as FireStep};
ghost use Rattle.rank_node.specs.Copies.{has_start, listed, with_receipt, with_step};

use crate::past::Past;
use ptl_types::{Lane, LocalStep, Message, NoMemory, Rank};
use std::alloc::Global;
use std::marker::Model;

/// A history with room for its further steps. Its value is the list of steps with their messages, the steps alone, that room, and how
/// many further messages may be received, and bytes with them. Of these it keeps the steps and their room; the rest has no bytes.
#[derive(Drop)]
pub struct History {
    steps: Vec<LocalStep>,
    past: Past,
    started: bool,
    room: u64,
}

impl Model for History {
    ghost use Rattle.std.specs.Prelude.{◌≡◌, ◌≤◌, ◌+◌, map, vec_capacity, vec_len};
    ghost use Rattle.rank_node.specs.Copies.{Diary, has_start, listed};

    ghost Value = { Diary };

    ghost view = { λ h. record {
      locals = h.past.locals;
      steps = h.steps.items;
      room = h.room;
      receipts = h.past.receipts;
      bytes = h.past.bytes;
    } };

    ghost invariant = { λ h. (map listed h.past.locals ≡ h.steps.items) × (h.started ≡ has_start h.past.locals)
        × (vec_len h.steps + h.room ≤ vec_capacity h.steps) };
}

impl History {
    /// No steps, with room for so many. The bounds, for receipts and for the bytes that they bring, are named in clauses alone:
    /// nothing is kept of what is received.
    ///
    /// # Errors
    ///
    /// There was no memory for it.
    pub fn with_room(alloc: Global, steps: u64) -> Result<History, NoMemory>
        ghost bounds: { ℕ × ℕ }
        ensures { IfOk result (λ h. h ≡ record { locals = []; steps = []; room = steps; receipts = bounds.0; bytes = bounds.1 }) }
    {
        let Ok(list) = Vec::with_capacity(alloc, steps as usize) else {
            return Err(NoMemory);
        };
        Ok(History {
            steps: list,
            past: Past::none(),
            started: false,
            room: steps,
        })
    }

    /// The steps, oldest first.
    pub fn steps(&self) -> &[LocalStep]
        ensures value { result.now ≡ self.now.steps }
        ensures listed { map listed self.now.locals ≡ self.now.steps }
    {
        self.steps.as_slice()
    }

    /// Whether there was a start.
    pub fn started(&self) -> bool
        ensures { result ≡ has_start self.now.locals }
    {
        self.started
    }

    /// A start more.
    pub fn note_start(&mut self)
        requires { 0 < self.old.room }
        ensures { self.new ≡ with_step StartStep Started self.old }
    {
        self.room -= 1;
        self.started = true;
        self.steps.push_reserved(LocalStep::Start);
        self.past = self.past.started();
    }

    /// A firing more.
    pub fn note_fire(&mut self, number: u32)
        requires { 0 < self.old.room }
        ensures { self.new ≡ with_step (FireStep number) (Fired number) self.old }
    {
        self.room -= 1;
        self.steps.push_reserved(LocalStep::Fire { number });
        self.past = self.past.fired(&number);
    }

    /// A receipt more, of this message.
    pub fn note_receipt(&mut self, source: Rank, lane: Lane, message: &Message)
        requires room { 0 < self.old.room }
        requires receipts { 0 < self.old.receipts }
        requires bytes { length message.now.bytes ≤ self.old.bytes }
        ensures does { self.new ≡ with_receipt source lane message.now self.old }
        ensures kept { IsKept message.now }
    {
        self.room -= 1;
        self.steps
            .push_reserved(LocalStep::Receive { source, lane });
        self.past = self
            .past
            .received(&source, &lane, message.header(), message.bytes());
    }
}
