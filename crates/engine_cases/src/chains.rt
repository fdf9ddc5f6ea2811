//! Short lives of chains: what is listed by `first` and `next`, and what keys find.
ghost use Rattle.std.specs.Prelude.{◌≡◌, ◌+◌, ◌<◌, ◌≤◌, [], length};
ghost use Rattle.chain_list.specs.Chain.{chain_list};

use crate::answers::gives;
use chain_list::{Chain, ChainKey, Steps};
use std::alloc::Global;
use std::fmt::Debug;
use std::marker::Brand;
use std::process::Abort;
use std::sync::ledger::{Blank, Ledger};
use std::test::Fail;

/// Whether these are the values in the order of `first` and `next`.
fn lists<L: Ledger>(chain: &Chain<char>, values: &[char], steps: &mut Steps<L>) -> bool {
    let mut next = chain.first();
    for wanted in values {
        let Some(key) = next else { return false };
        let Some(value) = chain.get(key, steps) else {
            return false;
        };
        if *value != *wanted {
            return false;
        }
        next = chain.next(key, steps);
    }
    next.is_none()
}

/// Puts a value after the last. Of the chain a test then knows how much room it has and how much it holds, and no more.
fn pushed<T, L: Ledger>(chain: &mut Chain<T>, value: T, steps: &mut Steps<L>) -> ChainKey
    requires room { 0 < chain.old.spare }
    requires few { chain.old.given < 1000 }
    ensures room { chain.new.spare + 1 ≡ chain.old.spare }
    ensures given { chain.new.given ≡ chain.old.given + 1 }
    ensures long { length chain.new.entries ≡ length chain.old.entries + 1 }
{
    chain.push_back(value, steps)
}

/// Takes an entry out that is there, and compares its value.
fn takes<T: PartialEq + Debug + Drop, L: Ledger>(
    rt: &impl Abort,
    chain: &mut Chain<T>,
    key: ChainKey,
    value: T,
    steps: &mut Steps<L>,
)
    ensures room { chain.new.spare ≡ chain.old.spare + 1 }
    ensures given { chain.new.given ≡ chain.old.given }
{
    match chain.unlink(key, steps) {
        Some(found) => gives!(rt; found, value),
        None => panic!(rt; "no entry of this key"),
    }
}

/// x, y, z; without y; w at y's place under another key. Their keys.
fn four_keys<L: Ledger>(
    rt: &impl Abort,
    chain: &mut Chain<char>,
    steps: &mut Steps<L>,
) -> [ChainKey; 4]
    requires room { 3 ≤ chain.old.spare }
    requires given { chain.old.given ≡ 0 }
{
    let x = pushed(chain, 'x', steps);
    let y = pushed(chain, 'y', steps);
    let z = pushed(chain, 'z', steps);
    takes(rt, chain, y, 'y', steps);
    let w = pushed(chain, 'w', steps);
    gives!(rt; w.place, y.place);
    [x, y, z, w]
}

/// After these: without x and w.
fn one_stays<L: Ledger>(
    rt: &impl Abort,
    chain: &mut Chain<char>,
    keys: [ChainKey; 4],
    steps: &mut Steps<L>,
) {
    let [x, y, z, w] = keys;
    gives!(rt; lists(chain, &['x', 'z', 'w'], steps), true);
    gives!(rt; chain.unlink(y, steps), None);
    takes(rt, chain, x, 'x', steps);
    takes(rt, chain, w, 'w', steps);
    gives!(rt; chain.first(), Some(z));
    gives!(rt; lists(chain, &['z'], steps), true);
}

/// Room for 3.
fn room_for_three<L: Ledger>(
    rt: &impl Abort,
    chain: &mut Chain<char>,
    steps: &mut Steps<L>,
) -> Result<(), Fail>
    requires empty { chain.old ≡ chain_list [] 0 0 }
{
    chain.reserve(3)?;
    let keys = four_keys(rt, chain, steps);
    one_stays(rt, chain, keys, steps);
    Ok(())
}

fn freed_place<L: Ledger>(
    rt: &impl Abort,
    alloc: Global,
    steps: &mut Steps<L>,
) -> Result<(), Fail> {
    let mut chain = Chain::new(alloc);
    room_for_three(rt, &mut chain, steps)
}

/// Writes another value to an entry.
fn changes<L: Ledger>(chain: &mut Chain<char>, key: ChainKey, value: char, steps: &mut Steps<L>) {
    if let Some(kept) = chain.get_mut(key, steps) {
        *kept = value;
    }
}

/// z where '-' is; without y, twice.
fn changed_and_taken<L: Ledger>(
    rt: &impl Abort,
    chain: &mut Chain<char>,
    y: ChainKey,
    z: ChainKey,
    steps: &mut Steps<L>,
) {
    changes(chain, z, 'z', steps);
    takes(rt, chain, y, 'y', steps);
    gives!(rt; chain.unlink(y, steps), None);
    gives!(rt; lists(chain, &['x', 'z'], steps), true);
}

/// Room for 2; x, y; further room; a third, changed into z; without y, twice.
fn room_twice<L: Ledger>(
    rt: &impl Abort,
    chain: &mut Chain<char>,
    steps: &mut Steps<L>,
) -> Result<(), Fail>
    requires empty { chain.old ≡ chain_list [] 0 0 }
{
    chain.reserve(2)?;
    let _x = pushed(chain, 'x', steps);
    let y = pushed(chain, 'y', steps);
    chain.reserve(1)?;
    let z = pushed(chain, '-', steps);
    changed_and_taken(rt, chain, y, z, steps);
    Ok(())
}

fn reserved_again<L: Ledger>(
    rt: &impl Abort,
    alloc: Global,
    steps: &mut Steps<L>,
) -> Result<(), Fail> {
    let mut chain = Chain::new(alloc);
    room_twice(rt, &mut chain, steps)
}

/// An entry comes and goes at the one place that there is.
fn comes_and_goes<L: Ledger>(
    rt: &impl Abort,
    chain: &mut Chain<u32>,
    turn: u32,
    steps: &mut Steps<L>,
)
    requires room { chain.old.spare ≡ 1 }
    requires given { chain.old.given ≡ turn }
    requires turn { turn < 1000 }
    ensures room { chain.new.spare ≡ 1 }
    ensures given { chain.new.given ≡ turn + 1 }
{
    let key = pushed(chain, turn, steps);
    gives!(rt; key.place, 0);
    takes(rt, chain, key, turn, steps);
}

/// One place, linked and unlinked a thousand times, takes no memory.
fn a_thousand_times<L: Ledger>(rt: &impl Abort, chain: &mut Chain<u32>, steps: &mut Steps<L>)
    requires room { chain.old.spare ≡ 1 }
    requires given { chain.old.given ≡ 0 }
{
    for turn in 0..1000u32 {
        comes_and_goes(rt, chain, turn, steps);
    }
    gives!(rt; chain.first(), None);
}

fn in_one_place<L: Ledger>(
    rt: &impl Abort,
    alloc: Global,
    steps: &mut Steps<L>,
) -> Result<(), Fail> {
    let mut chain = Chain::with_room(alloc, 1)?;
    a_thousand_times(rt, &mut chain, steps);
    Ok(())
}

fn each<L: Ledger>(rt: &impl Abort, alloc: Global, steps: &mut Steps<L>) -> Result<(), Fail> {
    freed_place(rt, alloc, steps)?;
    reserved_again(rt, alloc, steps)?;
    in_one_place(rt, alloc, steps)
}

fn all<L: Ledger>(rt: &impl Abort, alloc: Global, blank: Blank) -> Result<(), Fail>
    requires name { blank.name ≡ L.name }
    requires parts { blank.parts ≡ L.parts }
    requires one { blank.parts ≡ 1 }
{
    let mut steps = Steps::<L>::start(blank);
    each(rt, alloc, &mut steps)
}

#[test]
fn entries_come_and_go(rt: HostRuntime) -> Result<(), Fail> {
    all::<Brand>(&rt, rt.alloc(), Blank::new(1))
}
