//! The wave and its calls.

ghost use Rattle.std.specs.Prelude.{ℕ, true, false, ◌≡◌, ◌<◌, IfSome, IfNone, length, slice_set};
ghost use mathlib.Core.Option.{some};
ghost use lib.ListN.{get_elem?};
ghost use Rattle.rest_probe.specs.declared.answers.WaveAnswer.TheVariants.{NotStarted};
ghost use Rattle.rest_probe.specs.declared.notes.LaneCount.{LaneCount};
ghost use Rattle.rest_probe.specs.declared.notes.RankNote.{RankNote as NoteAt};
ghost use Rattle.rest_probe.specs.Counted.{counted};
ghost use Rattle.rest_probe.specs.Waves.{AllThere, begun, emptied, with_got, with_sent};
ghost use Rattle.rest_probe.specs.Answered.{AllStarted, Answered, EvenBelow, IsEven, IsReadyOne, IsUneven, NoneReady};

use crate::answers::WaveAnswer;
use crate::notes::{ProbeNote, RankNote};
use crate::partners::Partners;
use ptl_types::Rank;
use std::marker::Model;

/// The notes of all ranks of a job, in rank order. It takes no memory after its opening.
#[derive(Debug, Drop)]
pub struct Wave {
    pub(crate) ranks: Vec<RankNote>,
    pub(crate) partners: Partners,
}

impl Model for Wave {
    ghost use Rattle.std.specs.Prelude.{◌<◌, ◌^◌, List, length};
    ghost use Rattle.rest_probe.specs.declared.notes.RankNote.{RankNote};

    ghost Value = { List RankNote };

    ghost view = { λ w. w.ranks.items };

    ghost invariant = { λ w. length w.ranks.items < 2 ^ 32 };
}

impl Wave {
    /// A rank's note.
    pub fn note(&self, r: Rank) -> &ProbeNote
        requires rank { r < length self.now }
        requires there { (x : NoteAt) → get_elem? self.now r ≡ some x → x.there ≡ true }
        ensures { (x : NoteAt) → get_elem? self.now r ≡ some x → result.now ≡ x.note }
    {
        &self.ranks[r as usize].note
    }

    /// Gives a rank its note, whose numbers are 0.
    pub fn begin(&mut self, r: Rank, started: bool, ready: Option<u32>)
        requires rank { r < length self.old }
        requires empty { (x : NoteAt) → get_elem? self.old r ≡ some x → x.there ≡ false }
        ensures { (x : NoteAt) → get_elem? self.old r ≡ some x → self.new ≡ slice_set self.old r (begun started ready x) }
    {
        let noted = &mut self.ranks[r as usize];
        noted.there = true;
        noted.note.started = started;
        noted.note.ready = ready;
        noted.note.sent.clear();
        noted.note.got.clear();
    }

    /// Notes how many messages a rank sent on a lane, which is given by its place among the rank's lanes.
    pub fn set_sent(&mut self, r: Rank, i: u32, number: u64)
        requires rank { r < length self.old }
        requires there { (x : NoteAt) → get_elem? self.old r ≡ some x → x.there ≡ true }
        requires lane { (x : NoteAt) → get_elem? self.old r ≡ some x → i < length x.note.sent }
        ensures { (x : NoteAt) (c : LaneCount) → get_elem? self.old r ≡ some x → get_elem? x.note.sent i ≡ some c →
            self.new ≡ slice_set self.old r (with_sent x (slice_set x.note.sent i (counted c number))) }
    {
        let noted = &mut self.ranks[r as usize];
        noted.note.sent.set(i, number);
    }

    /// Notes how many messages a rank received on a lane, which is given by its place among the rank's lanes.
    pub fn set_got(&mut self, r: Rank, i: u32, number: u64)
        requires rank { r < length self.old }
        requires there { (x : NoteAt) → get_elem? self.old r ≡ some x → x.there ≡ true }
        requires lane { (x : NoteAt) → get_elem? self.old r ≡ some x → i < length x.note.got }
        ensures { (x : NoteAt) (c : LaneCount) → get_elem? self.old r ≡ some x → get_elem? x.note.got i ≡ some c →
            self.new ≡ slice_set self.old r (with_got x (slice_set x.note.got i (counted c number))) }
    {
        let noted = &mut self.ranks[r as usize];
        noted.note.got.set(i, number);
    }

    /// Takes all notes out. Their room stays.
    pub fn clear(&mut self)
        ensures { self.new ≡ emptied self.old }
    {
        let count = self.ranks.len();
        for r in 0..count {
            self.ranks[r].there = false;
        }
    }

    // The lowest rank that hadn't started.
    fn unstarted(&self) -> Option<Rank>
        ensures some { IfSome result (λ r. Answered self.now (NotStarted r)) }
        ensures none { IfNone result ((n : ℕ) → AllStarted self.now n) }
    {
        for r in 0..self.ranks.len() {
            if !self.ranks[r].note.started {
                return Some(r as u32);
            }
        }
        None
    }

    // The lowest rank that has an operation that was ready.
    fn first_ready(&self) -> Option<WaveAnswer>
        ensures some { IfSome result (λ a. IsReadyOne self.now a) }
        ensures none { IfNone result ((n : ℕ) → NoneReady self.now n) }
    {
        for r in 0..self.ranks.len() {
            if let Some(number) = self.ranks[r].note.ready {
                return Some(WaveAnswer::Ready {
                    rank: r as u32,
                    number,
                });
            }
        }
        None
    }

    // The numbers of the lane at a place among those from rank s, if they differ.
    fn uneven_at(&self, s: Rank, at: u32) -> Option<WaveAnswer>
        requires rank { s < length self.now }
        requires lane { (x : NoteAt) → get_elem? self.now s ≡ some x → at < length x.note.sent }
        ensures some { IfSome result (λ a. IsUneven self.now s at a) }
        ensures none { IfNone result (IsEven self.now s at) }
    {
        let count = self.ranks[s as usize].note.sent.at(at);
        if count.rank as usize >= self.ranks.len() {
            return None;
        }
        let likely = self.partners.place(s, at);
        let target = &self.ranks[count.rank as usize];
        let Some(got) = target.note.got.find(likely, s, count.lane) else {
            return None;
        };
        if got == count.number {
            return None;
        }
        Some(WaveAnswer::Between {
            source: s,
            target: count.rank,
            lane: count.lane,
            sent: count.number,
            got,
        })
    }

    // The numbers of the first lane from rank s whose two numbers differ.
    fn uneven_from(&self, s: Rank) -> Option<WaveAnswer>
        requires { s < length self.now }
        ensures some { IfSome result (λ a. (at : ℕ) × IsUneven self.now s at a × ((i : ℕ) → i < at → IsEven self.now s i)) }
        ensures none { IfNone result ((i : ℕ) → IsEven self.now s i) }
    {
        for at in 0..self.ranks[s as usize].note.sent.len() {
            if let Some(answer) = self.uneven_at(s, at) {
                return Some(answer);
            }
        }
        None
    }

    // The numbers of the first lane whose two numbers differ.
    fn first_uneven(&self) -> Option<WaveAnswer>
        ensures some { IfSome result (λ a. (s : ℕ) × (at : ℕ) × IsUneven self.now s at a × EvenBelow self.now s at) }
        ensures none { IfNone result ((s i : ℕ) → IsEven self.now s i) }
    {
        for s in 0..self.ranks.len() {
            if let Some(answer) = self.uneven_from(s as u32) {
                return Some(answer);
            }
        }
        None
    }

    /// What the notes show.
    pub fn answer(&self) -> WaveAnswer
        requires { AllThere self.now }
        ensures { Answered self.now result }
    {
        if let Some(r) = self.unstarted() {
            return WaveAnswer::NotStarted(r);
        }
        if let Some(answer) = self.first_ready() {
            return answer;
        }
        match self.first_uneven() {
            Some(answer) => answer,
            None => WaveAnswer::Rest,
        }
    }
}
