//! The calls that make one step in one turn.

ghost use Rattle.std.specs.Prelude.{true, ◌≡◌, ◌<◌, IfSome, IfNone};
ghost use Rattle.turn_table.specs.declared.views.HandView.{HandView};
ghost use Rattle.turn_table.specs.Hands.{IsFree, IsHandOf, Took};
ghost use Rattle.turn_table.specs.Views.{after_busy};
ghost use Rattle.plan_core.specs.calls.Lanes.{is_used_lane};
ghost use Rattle.rank_slots.specs.declared.turn_rank.TurnRank.{TurnRank};
ghost use Rattle.rank_threads.specs.Fabrics.{HasTaken};
ghost use Rattle.rank_slots.specs.Chronicles.{chronicle};
ghost use Rattle.rank_slots.specs.Names.{Mark, mark, plate};
ghost use Rattle.rank_slots.specs.Sound.{IsSound};
ghost use Rattle.rank_slots.specs.Steps.{Begun, Delivered, Fired, IsIdle, IsOfHistory, Made};
ghost use Rattle.rank_threads.specs.Turns.{Followed, MayEnd, Turned};

use crate::fabric::{Fabric, Hand};
use ptl_types::{Lane, LocalStep, Rank};
use rank_slots::{Gate, Network, StartAnswer, TurnRank};
use std::sync::Wait;
use turn_table::Turn;

impl<G: Gate + Drop> Fabric<G> {
    /// Takes the turn of a rank.
    pub(crate) fn take<R: Wait>(&self, rt: &R, hand: &mut Hand, rank: Rank) -> Turn<TurnRank>
        requires hand { IsFree self.now.turns hand.old }
        requires rank { rank < self.now.job.schedule.plan.ranks }
        ensures { HasTaken self.now hand.old rank result hand.new }
    {
        let _ = self.ranks;
        let turn = self.turns.take(rt, hand, rank);
        // What every node keeps is told here.
        turn.value.node.recall_history();
        turn
    }

    /// Takes the turn of a rank, if no other hand has it. It never waits.
    pub(crate) fn try_take(&self, hand: &mut Hand, rank: Rank) -> Option<Turn<TurnRank>>
        requires hand { IsFree self.now.turns hand.old }
        requires rank { rank < self.now.job.schedule.plan.ranks }
        ensures some { IfSome result (λ t. HasTaken self.now hand.old rank t hand.new) }
        ensures none { IfNone result (IsFree self.now.turns hand.new × (hand.new.knows.parts ≡ hand.old.knows.parts)) }
        ensures busy { IfNone result (hand.new.knows ≡ after_busy hand.old.knows rank) }
    {
        let _ = self.ranks;
        let Some(turn) = self.turns.try_take(hand, rank) else {
            return None;
        };
        // What every node keeps is told here.
        turn.value.node.recall_history();
        Some(turn)
    }

    /// Gives a turn back.
    pub(crate) fn give(&self, hand: &mut Hand, turn: Turn<TurnRank>)
        requires hand { IsHandOf self.now.turns hand.old }
        requires sound { IsSound turn.value.job }
        requires taken { MayEnd turn.slot turn.value hand.old.knows }
        ensures hand { IsFree self.now.turns hand.new }
        ensures turned { (v : HandView TurnRank) (x : TurnRank) → Took chronicle plate v turn.slot x hand.old.knows →
            Turned v hand.new.knows turn.slot (mark x) (mark turn.value) }
    {
        let _ = self.ranks;
        // What every node keeps is told here.
        turn.value.node.recall_history();
        self.turns.give(hand, turn);
    }

    /// Makes one step of a rank in one turn, and answers it: its start; else the firing of an operation that is ready; else the receipt
    /// of the oldest message of a lane. It waits for the turn, and takes no memory.
    ///
    /// `None` only where the history that was taken in this turn has its start, each operation that is ready in its state sends a message
    /// whose lane was found full, and each lane to the rank was found empty, or is one of answers while none is awaited, or carries
    /// requests whose answer would have to wait.
    pub fn step<R: Wait>(&self, rt: &R, hand: &mut Hand, rank: Rank) -> Option<LocalStep>
        requires hand { IsFree self.now.turns hand.old }
        requires rank { rank < self.now.job.schedule.plan.ranks }
        ensures hand { IsFree self.now.turns hand.new }
        ensures some { IfSome result (λ step. (a : Mark) × (b : Mark) × Turned hand.old.knows hand.new.knows rank a b × Made step a b) }
        ensures none { IfNone result ((a : Mark) × (b : Mark) × Turned hand.old.knows hand.new.knows rank a b ×
            IsIdle self.now.job rank a b) }
    {
        let Turn { slot, value } = self.take(rt, hand, rank);
        let mut value = value;
        let network = Network {
            wires: &self.wires,
            mail: &self.mail,
        };
        let made = value.step(rt, network, &self.gate);
        self.give(hand, Turn { slot, value });
        made
    }

    /// Makes one step of a rank that the hints lead to, in one turn, and answers it. It doesn't wait for the turn, and takes no memory.
    ///
    /// `None` where another hand has the turn, or the hints lead to no step: then the hand made none at any rank.
    pub fn follow<R: Wait>(&self, rt: &R, hand: &mut Hand, rank: Rank) -> Option<LocalStep>
        requires hand { IsFree self.now.turns hand.old }
        requires rank { rank < self.now.job.schedule.plan.ranks }
        ensures hand { IsFree self.now.turns hand.new }
        ensures parts { hand.new.knows.parts ≡ hand.old.knows.parts }
        ensures followed { Followed result hand.old.knows hand.new.knows rank }
    {
        let Some(Turn { slot, value }) = self.try_take(hand, rank) else {
            return None;
        };
        let mut value = value;
        let network = Network {
            wires: &self.wires,
            mail: &self.mail,
        };
        let made = value.follow_hints(rt, network, &self.gate);
        self.give(hand, Turn { slot, value });
        made
    }

    /// Starts a rank, if it hasn't started.
    pub fn start<R: Wait>(&self, rt: &R, hand: &mut Hand, rank: Rank) -> StartAnswer
        requires hand { IsFree self.now.turns hand.old }
        requires rank { rank < self.now.job.schedule.plan.ranks }
        ensures hand { IsFree self.now.turns hand.new }
        ensures begun { (a : Mark) × (b : Mark) × Turned hand.old.knows hand.new.knows rank a b × Begun result a b }
    {
        let Turn { slot, value } = self.take(rt, hand, rank);
        let mut value = value;
        let answer = value.start_once(&self.gate);
        self.give(hand, Turn { slot, value });
        answer
    }

    /// Fires an operation that is ready, and answers its number. `None` only where each operation that is ready in the history taken in
    /// this turn sends a message whose lane was found full.
    pub fn fire<R: Wait>(&self, rt: &R, hand: &mut Hand, rank: Rank) -> Option<u32>
        requires hand { IsFree self.now.turns hand.old }
        requires rank { rank < self.now.job.schedule.plan.ranks }
        ensures hand { IsFree self.now.turns hand.new }
        ensures fired { (a : Mark) × (b : Mark) × Turned hand.old.knows hand.new.knows rank a b × IsOfHistory self.now.job rank a
            × Fired result a b }
    {
        let Turn { slot, value } = self.take(rt, hand, rank);
        let mut value = value;
        let network = Network {
            wires: &self.wires,
            mail: &self.mail,
        };
        let number = value.fire_one(rt, network, &self.gate);
        self.give(hand, Turn { slot, value });
        number
    }

    /// Receives the oldest message of a lane. `false` only where the lane was found empty, or is one of answers while none is awaited,
    /// or carries requests whose answer would have to wait.
    pub fn deliver<R: Wait>(
        &self,
        rt: &R,
        hand: &mut Hand,
        source: Rank,
        target: Rank,
        lane: Lane,
    ) -> bool
        requires hand { IsFree self.now.turns hand.old }
        requires target { target < self.now.job.schedule.plan.ranks }
        requires lane { is_used_lane self.now.job.schedule.plan source target lane ≡ true }
        ensures hand { IsFree self.now.turns hand.new }
        ensures delivered { (a : Mark) × (b : Mark) × Turned hand.old.knows hand.new.knows target a b × IsOfHistory self.now.job target a
            × Delivered source lane result a b }
    {
        let Turn { slot, value } = self.take(rt, hand, target);
        let mut value = value;
        let network = Network {
            wires: &self.wires,
            mail: &self.mail,
        };
        let moved = value.deliver(rt, network, &self.gate, source, lane);
        self.give(hand, Turn { slot, value });
        moved
    }
}
