//! How turns are taken and given back.

ghost use Rattle.std.specs.Prelude.{◌≡◌, ◌<◌, length, Some, IfSome, IfNone};
ghost use Rattle.turn_table.specs.Views.{after_busy, after_take, after_give, places, open_turn, last_seen};
ghost use Rattle.turn_table.specs.Hands.{IsHandOf, IsFree, Found, Took, MayGive, LastTurn};

use crate::plays::{CountStep, TryStep};
use crate::table::{Turn, TurnHand, Turns};
use crate::views::Past;
use std::sync::Wait;
use std::thread;

const OUT: u64 = 1 << 63;

impl<T: Past> Turns<T> {
    /// Takes a slot's value out, where it is home. It never waits.
    ///
    /// `None` only where the value was out at this call's own step: that step alone raises the hand's count of busy tries at
    /// the slot, and nothing else changes. Of a value that is taken, the past begins with what the hand saw there.
    pub fn try_take(&self, hand: &mut TurnHand<T>, slot: u32) -> Option<Turn<T>>
        requires hand { IsFree self.now hand.old }
        requires slot { slot < length self.now.start }
        ensures hand { IsHandOf self.now hand.new }
        ensures taken { IfSome result (λ t. (t.slot ≡ slot) × (hand.new.knows ≡ after_take hand.old.knows slot t.value)) }
        ensures found { IfSome result (λ t. Found T.past T.name hand.old.knows slot t.value) }
        ensures busy { IfNone result (hand.new.knows ≡ after_busy hand.old.knows slot) }
    {
        let at = slot as usize;
        let word = self
            .table
            .shared
            .fetch_or::<TryStep>(&mut hand.seat, at, OUT);
        if word >= OUT {
            return None;
        }
        hand.found = word;
        match self.table.shared.exchange(&mut hand.seat, at, None) {
            Some(value) => Some(Turn { slot, value }),
            None => unreachable!(),
        }
    }

    /// Takes a slot's value out, and waits until it is home. The past begins with what the hand saw there.
    pub fn take<R: Wait>(&self, rt: &R, hand: &mut TurnHand<T>, slot: u32) -> Turn<T>
        requires hand { IsFree self.now hand.old }
        requires slot { slot < length self.now.start }
        ensures hand { IsHandOf self.now hand.new }
        ensures taken { (result.slot ≡ slot) × Took T.past T.name hand.old.knows slot result.value hand.new.knows }
    {
        for _ in rt.forever() {
            match self.try_take(hand, slot) {
                Some(turn) => return turn,
                None => thread::yield_now(),
            }
        }
        unreachable!()
    }

    /// Gives a turn back. The places that the past grew by are from now on the hand's.
    pub fn give(&self, hand: &mut TurnHand<T>, turn: Turn<T>)
        requires hand { IsHandOf self.now hand.old }
        requires turn { MayGive T.past T.name hand.old.knows turn.slot turn.value }
        ensures hand { IsFree self.now hand.new }
        ensures given { (x : T) → hand.old.knows.turn ≡ Some (open_turn turn.slot x) → hand.new.knows ≡ after_give T.past hand.old.knows
            turn.slot x turn.value }
        ensures last { (x : T) → hand.old.knows.turn ≡ Some (open_turn turn.slot x) →
            LastTurn T.past T.note hand.new.knows turn.slot (T.past x, T.note x) (T.past turn.value, T.note turn.value) }
    {
        let Turn { slot, value } = turn;
        let at = slot as usize;
        let length = value.past_len();
        match self.table.shared.exchange(&mut hand.seat, at, Some(value)) {
            None => {}
            Some(_) => unreachable!(),
        }
        self.table
            .shared
            .store::<CountStep>(&mut hand.seat, at, length);
        hand.made[at] += length - hand.found;
        hand.seen[at] = length;
    }
}

impl<T: Past> TurnHand<T> {
    /// How many places of the slot's past this hand added.
    pub fn made(&self, slot: u32) -> u64
        requires { slot < length self.now.knows.start }
        ensures { result ≡ length (places self.now.knows slot) }
    {
        self.made[slot as usize]
    }

    /// How long the past was at the end of this hand's last turn there; 0 where it had none.
    pub fn seen(&self, slot: u32) -> u64
        requires { slot < length self.now.knows.start }
        ensures { result ≡ last_seen T.past self.now.knows slot }
    {
        self.seen[slot as usize]
    }
}
