//! A slot is out until it is given back, and two threads fill the pasts of four slots.

ghost use Rattle.std.specs.Prelude.{◌≡◌, ◌+◌, ◌≤◌, ◌<◌, ◌^◌, [], ℕ, All, length, vec_capacity, IfOk, Some};
ghost use mathlib.Core.List.{IsPrefix};
ghost use Rattle.turn_table.specs.Views.{open_turn};
ghost use Rattle.turn_table.specs.Hands.{IsFree, IsHandOf, parts_of};

use crate::answers::gives;
use std::alloc::{AllocError, Global};
use std::sync::Wait;
use std::test::*;
use std::thread;
use std::thread::Threads;
use turn_table::{Past, Turn, TurnHand, Turns};

// Marks in the order in which they were written, at most a thousand.
#[derive(Drop)]
struct Log {
    number: u64,
    marks: Vec<u64>,
    ghost roomy: { 1000 ≤ vec_capacity marks },
}

impl Past for Log {
    ghost Name = { ℕ };

    ghost Item = { ℕ };

    ghost Note = { Unit {0} };

    ghost name = { λ l. l.number };

    ghost past = { λ l. l.marks.items };

    ghost note = { λ _. tt };

    fn past_len(&self) -> u64 {
        self.marks.len() as u64
    }
}

impl Log {
    fn new(alloc: Global, number: u64) -> Result<Log, AllocError>
        ensures { IfOk result (λ l. l.marks.items ≡ []) }
    {
        let marks = Vec::with_capacity(alloc, 1000)?;
        Ok(Log { number, marks })
    }

    fn add(&mut self, mark: u64)
        ensures number { self.new.number ≡ self.old.number }
        ensures grows { IsPrefix self.old.marks.items self.new.marks.items }
        ensures short { length self.old.marks.items < 2 ^ 62 → length self.new.marks.items < 2 ^ 62 }
    {
        if self.marks.len() < 1000 {
            self.marks.push_reserved(mark);
        }
    }

    fn count(&self, mark: u64) -> usize {
        self.marks.iter().filter(|&&m| m == mark).count()
    }
}

// One turn, in which a mark is added where there is room.
fn visit<R: Wait>(rt: &R, turns: &Turns<Log>, hand: &mut TurnHand<Log>, slot: u32, mark: u64)
    requires hand { IsFree turns.now hand.old }
    requires slot { slot < length turns.now.start }
    ensures hand { IsFree turns.now hand.new }
    ensures parts { hand.new.knows.parts ≡ hand.old.knows.parts }
{
    let Turn { slot, value } = turns.take(rt, hand, slot);
    let mut value = value;
    value.add(mark);
    turns.give(hand, Turn { slot, value });
}

fn sweep<R: Wait>(rt: &R, turns: &Turns<Log>, hand: &mut TurnHand<Log>, mark: u64)
    requires hand { IsFree turns.now hand.old }
    requires slots { length turns.now.start ≡ 4 }
    ensures hand { IsFree turns.now hand.new }
    ensures parts { hand.new.knows.parts ≡ hand.old.knows.parts }
{
    for slot in 0..4 {
        visit(rt, turns, hand, slot, mark);
    }
}

// A thousand sweeps over the slots, so that each past is full at the end.
fn work<R: Wait>(rt: &R, turns: &Turns<Log>, hand: TurnHand<Log>, mark: u64) -> TurnHand<Log>
    requires hand { IsFree turns.now hand }
    requires slots { length turns.now.start ≡ 4 }
    ensures hand { IsFree turns.now result }
    ensures parts { result.knows.parts ≡ hand.knows.parts }
{
    let mut hand = hand;
    for _ in 0..1000 {
        sweep(rt, turns, &mut hand, mark);
    }
    hand
}

fn work_at_once<R: Threads + Wait + Sync>(
    rt: &R,
    turns: &Turns<Log>,
    one: TurnHand<Log>,
    two: TurnHand<Log>,
) -> (TurnHand<Log>, TurnHand<Log>)
    requires hands { IsFree turns.now one × IsFree turns.now two }
    requires slots { length turns.now.start ≡ 4 }
    ensures hands { IsFree turns.now result.0 × IsFree turns.now result.1 }
    ensures parts { (result.0.knows.parts ≡ one.knows.parts) × (result.1.knows.parts ≡ two.knows.parts) }
{
    thread::join(
        rt,
        move ||
            requires { IsFree turns.now one × (length turns.now.start ≡ 4) }
            ensures { IsFree turns.entry.now result × (result.knows.parts ≡ one.knows.parts) }
        { work(rt, turns, one, 1) },
        move ||
            requires { IsFree turns.now two × (length turns.now.start ≡ 4) }
            ensures { IsFree turns.entry.now result × (result.knows.parts ≡ two.knows.parts) }
        { work(rt, turns, two, 2) },
    )
}

// How many places each of two hands added at each of four slots, and the logs at the end.
#[derive(Drop)]
struct Filled {
    first: [u64; 4],
    second: [u64; 4],
    logs: Vec<Log>,
}

fn made(hand: &TurnHand<Log>) -> [u64; 4]
    requires { length hand.now.knows.start ≡ 4 }
{
    [hand.made(0), hand.made(1), hand.made(2), hand.made(3)]
}

fn two_hands(turns: &Turns<Log>, hands: Vec<TurnHand<Log>>) -> (TurnHand<Log>, TurnHand<Log>)
    requires hands { (length hands.items ≡ 2) × All (λ h. IsFree turns.now h) hands.items }
    ensures hands { IsFree turns.now result.0 × IsFree turns.now result.1 }
    ensures parts { result.0.knows.parts + result.1.knows.parts ≡ parts_of hands.items }
{
    let mut hands = hands;
    let (Some(two), Some(one)) = (hands.pop(), hands.pop()) else {
        unreachable!()
    };
    (one, two)
}

fn fill_and_close<R: Threads + Wait + Sync>(
    rt: &R,
    alloc: Global,
    turns: Turns<Log>,
    hands: Vec<TurnHand<Log>>,
) -> Result<Filled, AllocError>
    requires hands { (length hands.items ≡ 2) × All (λ h. IsFree turns h) hands.items }
    requires all { parts_of hands.items ≡ 2 ^ 32 }
    requires slots { length turns.start ≡ 4 }
    ensures { IfOk result (λ f. length f.logs.items ≡ 4) }
{
    let mut both = Vec::with_capacity(alloc, 2)?;
    let (one, two) = two_hands(&turns, hands);
    let (one, two) = work_at_once(rt, &turns, one, two);
    let first = made(&one);
    let second = made(&two);
    both.push_reserved(one);
    both.push_reserved(two);
    let logs = turns.close(both);
    Ok(Filled {
        first,
        second,
        logs,
    })
}

fn four_logs(alloc: Global) -> Result<Vec<Log>, AllocError>
    ensures { IfOk result (λ v. (length v.items ≡ 4) × All (λ l. l.marks.items ≡ []) v.items) }
{
    let mut logs = Vec::with_capacity(alloc, 4)?;
    logs.push_reserved(Log::new(alloc, 10)?);
    logs.push_reserved(Log::new(alloc, 20)?);
    logs.push_reserved(Log::new(alloc, 30)?);
    logs.push_reserved(Log::new(alloc, 40)?);
    Ok(logs)
}

#[test]
fn two_threads_fill_four_pasts(rt: HostRuntime) -> Result<(), Fail> {
    let (turns, hands) = Turns::open(rt.alloc(), four_logs(rt.alloc())?, 2)?;
    let Filled {
        first,
        second,
        logs,
    } = fill_and_close(&rt, rt.alloc(), turns, hands)?;
    for slot in 0..4 {
        gives!(&rt; logs[slot].number, [10, 20, 30, 40][slot]);
        gives!(&rt; logs[slot].marks.len(), 1000);
        gives!(&rt; logs[slot].count(1) as u64, first[slot]);
        gives!(&rt; logs[slot].count(2) as u64, second[slot]);
    }
    Ok(())
}

// Gives a turn back with the value as it was taken.
fn give_back(turns: &Turns<Log>, hand: &mut TurnHand<Log>, turn: Turn<Log>)
    requires hand { IsHandOf turns.now hand.old }
    requires turn { hand.old.knows.turn ≡ Some (open_turn turn.slot turn.value) }
    requires short { length turn.value.marks.items < 2 ^ 62 }
    ensures { IsFree turns.now hand.new }
{
    turns.give(hand, turn);
}

// Whether a try finds the slot out. Where it doesn't, it gives the value back.
fn is_out(turns: &Turns<Log>, hand: &mut TurnHand<Log>, slot: u32) -> bool
    requires hand { IsFree turns.now hand.old }
    requires slot { slot < length turns.now.start }
    ensures { IsFree turns.now hand.new }
{
    match turns.try_take(hand, slot) {
        None => true,
        Some(turn) => {
            give_back(turns, hand, turn);
            false
        }
    }
}

#[test]
fn a_slot_is_out_until_it_is_given_back(rt: HostRuntime) -> Result<(), Fail> {
    let (turns, hands) = Turns::open(rt.alloc(), four_logs(rt.alloc())?, 2)?;
    let (mut one, mut two) = two_hands(&turns, hands);
    let first = turns.try_take(&mut one, 0).expect(&rt, "a turn");
    gives!(&rt; first.value.number, 10);
    gives!(&rt; is_out(&turns, &mut two, 0), true);
    give_back(&turns, &mut one, first);
    let second = turns.try_take(&mut two, 0).expect(&rt, "a turn");
    gives!(&rt; second.value.number, 10);
    give_back(&turns, &mut two, second);
    gives!(&rt; (one.seen(0), two.made(0)), (0, 0));
    Ok(())
}
