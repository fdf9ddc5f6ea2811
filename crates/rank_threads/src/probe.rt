//! What is noted of a rank in one turn.

ghost use Rattle.std.specs.Prelude.{ℕ, false, ◌≡◌, ◌≢◌, ◌<◌};
ghost use mathlib.Core.Option.{some};
ghost use lib.ListN.{get_elem?};
ghost use Rattle.rest_probe.specs.declared.notes.RankNote.{RankNote};
ghost use Rattle.rest_probe.specs.Waves.{IsFor};
ghost use Rattle.turn_table.specs.Hands.{IsFree};
ghost use Rattle.rank_slots.specs.Names.{Mark, history};
ghost use Rattle.rank_slots.specs.Probes.{HasNote};
ghost use Rattle.rank_threads.specs.Turns.{Turned};

use crate::fabric::{Fabric, Hand};
use ptl_types::Rank;
use rank_slots::Gate;
use rest_probe::Wave;
use std::sync::Wait;
use turn_table::Turn;

impl<G: Gate + Drop> Fabric<G> {
    /// Notes in a wave what the history of a rank says that is taken in this turn: whether the rank has started, an operation that is
    /// ready if one is, and how many messages it sent and received on each lane. One that waits for room in its wire counts as sent.
    /// No step is made. It waits for the turn, and takes no memory.
    pub fn probe<R: Wait>(&self, rt: &R, hand: &mut Hand, rank: Rank, wave: &mut Wave)
        requires hand { IsFree self.now.turns hand.old }
        requires rank { rank < self.now.job.schedule.plan.ranks }
        requires lanes { IsFor self.now.job.schedule.plan wave.old }
        requires empty { (x : RankNote) → get_elem? wave.old rank ≡ some x → x.there ≡ false }
        ensures hand { IsFree self.now.turns hand.new }
        ensures noted { (a : Mark) × Turned hand.old.knows hand.new.knows rank a a × HasNote self.now.job rank a.0 a.1.kept wave.new }
        ensures others { (r : ℕ) → r ≢ rank → get_elem? wave.new r ≡ get_elem? wave.old r }
        ensures lanes { IsFor self.now.job.schedule.plan wave.new }
    {
        let Turn { slot, value } = self.take(rt, hand, rank);
        value.note_in(rank, wave);
        self.give(hand, Turn { slot, value });
    }
}
