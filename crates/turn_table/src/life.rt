//! How a table is opened and closed, and how hands are split and joined.

ghost use Rattle.std.specs.Prelude.{◌≡◌, ◌≤◌, ◌<◌, ◌^◌, [], ℕ, All, map, replicate, length, vec_capacity, Some, None, IfOk};
ghost use mathlib.Core.Option.{some};
ghost use lib.ListN.{get_elem?};
ghost use Rattle.turn_table.specs.Views.{after_split, new_view, after_join};
ghost use Rattle.turn_table.specs.Hands.{IsHandOf, IsFree, IsNew, IsFreeSeat, Gathered, Left, parts_of};
ghost use Rattle.turn_table.specs.Rules.{Ends};

use crate::plays::{JoinHand, SplitHand};
use crate::table::{TurnHand, Turns};
use crate::views::{HandView, Past};
use atomic_table::{Seat, Table};
use ptl_types::NoMemory;
use std::alloc::{AllocError, Global};
use std::snapshot::Snapshot;

impl<T: Past> Turns<T> {
    // A new hand, with one of the hand's parts.
    fn split_hand(
        &self,
        hand: &mut TurnHand<T>,
        room: Vec<T>,
        made: Vec<u64>,
        seen: Vec<u64>,
    ) -> TurnHand<T>
        requires counts { (made.items ≡ replicate (length self.now.start) 0) × (seen.items ≡ replicate (length self.now.start) 0) }
        requires room { (room.items ≡ []) × (length self.now.start ≤ vec_capacity room) }
        requires hand { IsHandOf self.now hand.old × (1 < hand.old.knows.parts) }
        ensures known { (hand.new.knows ≡ after_split hand.old.knows) × (result.knows ≡ new_view hand.old.knows) }
        ensures hands { IsHandOf self.now hand.new × IsHandOf self.now result }
    {
        let seat = self.table.shared.split_seat::<SplitHand>(&mut hand.seat);
        TurnHand {
            seat,
            room,
            made,
            seen,
            found: 0,
        }
    }

    // The other hand's seat is taken in.
    fn join_into(&self, seat: &mut Seat<Option<T>, HandView<T>>, other: TurnHand<T>)
        requires seat { IsFreeSeat self.now seat.old.table_id seat.old.me }
        requires other { IsFree self.now other }
        ensures known { seat.new.me.0 ≡ after_join seat.old.me.0 other.knows }
        ensures sized { length other.knows.slots ≡ length self.now.start }
        ensures seat { IsFreeSeat self.now seat.new.table_id seat.new.me }
    {
        let TurnHand {
            seat: theirs,
            room,
            ..
        } = other;
        room.destroy_empty();
        self.table.shared.join_seat::<JoinHand>(seat, theirs);
    }

    // The seats of all hands in one, and room for all values.
    fn join_all(&self, hands: Vec<TurnHand<T>>) -> (Seat<Option<T>, HandView<T>>, Vec<T>)
        requires hands { All (λ h. IsFree self.now h) hands.items }
        requires nonempty { 0 < length hands.items }
        ensures seat { IsFreeSeat self.now result.0.table_id result.0.me }
        ensures all { Gathered T.past T.name hands.items result.0.me.0 [] }
        ensures room { (result.1.items ≡ []) × (length self.now.start ≤ vec_capacity result.1) }
    {
        let mut hands = hands;
        let Some(last) = hands.pop() else {
            unreachable!()
        };
        let TurnHand { mut seat, room, .. } = last;
        while let Some(other) = hands.pop() {
            self.join_into(&mut seat, other);
        }
        hands.destroy_empty();
        (seat, room)
    }

    /// Ends the table, and gives the values back in the order of the slots. It takes no memory.
    ///
    /// The hands are all that the table has, so together they have its 2^32 parts, and none of them has a turn.
    pub fn close(self, hands: Vec<TurnHand<T>>) -> Vec<T>
        requires hands { All (λ h. IsFree self h) hands.items }
        requires all { parts_of hands.items ≡ 2 ^ 32 }
        ensures length { length result.items ≡ length self.start }
        ensures values { (k : ℕ) (x : T) → get_elem? result.items k ≡ some x → Left T.past T.name self.start hands.items k x }
    {
        let (seat, room) = self.join_all(hands);
        self.take_values(seat, room)
    }

    // The values, by the seat that has every part.
    fn take_values(self, seat: Seat<Option<T>, HandView<T>>, mut room: Vec<T>) -> Vec<T>
        requires room { (room.items ≡ []) × (length self.start ≤ vec_capacity room) }
        requires seat { (seat.table_id ≡ self.table) × (seat.me.0.parts ≡ 2 ^ 32) × (seat.me.0.turn ≡ None) }
        ensures length { length result.items ≡ length self.start }
        ensures values { (k : ℕ) (x : T) → get_elem? result.items k ≡ some x → Ends T.past T.name self.start seat.me.0 k x }
    {
        let Turns { table } = self;
        let count = table.slot_count();
        let mut closed = table.close_with(seat);
        let mut i = 0;
        while i < count {
            match closed.take(i) {
                Some(value) => room.push_reserved(value),
                None => unreachable!(),
            }
            i += 1;
        }
        closed.free();
        room
    }

    // The hands, each with one part but the last.
    fn split_all(
        &self,
        alloc: Global,
        first: TurnHand<T>,
        list: Vec<TurnHand<T>>,
        count: u32,
    ) -> Result<Vec<TurnHand<T>>, AllocError>
    where
        T: Drop,
        requires first { IsNew self.now first × (first.knows.parts ≡ 2 ^ 32) }
        requires list { (list.items ≡ []) × (count ≤ vec_capacity list) }
        requires count { 0 < count }
        ensures { IfOk result (λ r. (length r.items ≡ count) × All (λ h. IsNew self.now h) r.items × (parts_of r.items ≡ 2 ^ 32)) }
    {
        let mut first = first;
        let mut list = list;
        for _ in 1..count {
            let room = Vec::with_capacity(alloc, self.table.slot_count())?;
            let made = Vec::from_elem(alloc, 0u64, self.table.slot_count())?;
            let seen = Vec::from_elem(alloc, 0u64, self.table.slot_count())?;
            list.push_reserved(self.split_hand(&mut first, room, made, seen));
        }
        list.push_reserved(first);
        Ok(list)
    }
}

fn into_slots<T: Drop>(alloc: Global, values: Vec<T>) -> Result<Vec<Option<T>>, AllocError>
    ensures { IfOk result (λ v. v.items ≡ map Some values.items) }
{
    let mut slots = Vec::with_capacity(alloc, values.len())?;
    for value in values {
        slots.push_reserved(Some(value));
    }
    Ok(slots)
}

impl<T: Past + Drop> Turns<T> {
    fn open_within(
        alloc: Global,
        values: Vec<T>,
        hands: u32,
    ) -> Result<(Turns<T>, Vec<TurnHand<T>>), AllocError>
        requires hands { 0 < hands }
        requires values { 0 < length values.items }
        requires empty { All (λ x. T.past x ≡ []) values.items }
        ensures table { IfOk result (λ r. r.0.start ≡ values.items) }
        ensures hands { IfOk result (λ r. (length r.1.items ≡ hands) × All (λ h. IsNew r.0 h) r.1.items × (parts_of r.1.items ≡ 2 ^ 32)) }
    {
        let key = Snapshot::of(&values);
        let count = values.len();
        let words = Vec::from_elem(alloc, 0u64, count)?;
        let room = Vec::with_capacity(alloc, count)?;
        let list = Vec::with_capacity(alloc, hands as usize)?;
        let slots = into_slots(alloc, values)?;
        let opened = Table::new(alloc, words.as_slice(), slots, &key);
        let Ok((table, seat)) = opened else {
            return Err(AllocError);
        };
        let turns = Turns { table };
        let first = TurnHand {
            seat,
            room,
            made: Vec::from_elem(alloc, 0u64, count)?,
            seen: Vec::from_elem(alloc, 0u64, count)?,
            found: 0,
        };
        let hands = turns.split_all(alloc, first, list, hands)?;
        Ok((turns, hands))
    }

    /// A table of these values, one slot for each in order, with this many hands. Later calls take no memory.
    pub fn open(
        alloc: Global,
        values: Vec<T>,
        hands: u32,
    ) -> Result<(Turns<T>, Vec<TurnHand<T>>), NoMemory>
        requires hands { 0 < hands }
        requires values { 0 < length values.items }
        requires empty { All (λ x. T.past x ≡ []) values.items }
        ensures table { IfOk result (λ r. r.0.start ≡ values.items) }
        ensures hands { IfOk result (λ r. (length r.1.items ≡ hands) × All (λ h. IsNew r.0 h) r.1.items × (parts_of r.1.items ≡ 2 ^ 32)) }
    {
        match Turns::open_within(alloc, values, hands) {
            Ok(opened) => Ok(opened),
            Err(_) => Err(NoMemory),
        }
    }
}
