//! A doubly linked list under keys.
ghost use Rattle.std.specs.Prelude.{◌≡◌, ◌+◌, ◌-◌, ◌*◌, ◌<◌, ◌≤◌, ◌^◌, [], ◌∷◌, ◌++◌, Some, None, is_some, IsSome, length, get_or, IfOk};
ghost use Rattle.std.specs.Prelude.{IfSome, IfNone, OnOk, OnErr, option_copied, if◌then◌else◌};
ghost use Rattle.std.specs.Option.{option_copied_mut};
ghost use Rattle.std.specs.Borrow.{sem};
ghost use Rattle.chain_list.specs.NodeMap.{IsLive};
ghost use Rattle.chain_list.specs.Relinked.{relinked_after, relinked_before};

use crate::nodes::Nodes;
use crate::places::Places;
use crate::steps::Steps;
use ptl_types::NoMemory;
use std::alloc::Global;
use std::marker::Model;
use std::sync::ledger::Ledger;

/// The key of an entry: the place of its node, and a stamp that no other key of the chain has or had. So no key is given
/// twice, and the key of an entry that is gone is never live again.
#[derive(Clone, Copy, PartialEq, Eq, Debug)]
pub struct ChainKey {
    /// The place of the entry's node, below the size of the chain's nodes. Places are used again.
    pub place: u32,
    /// How many keys the chain gave before this one.
    pub stamp: u64,
}

/// Makes `after` what follows `before`; where nothing is before, makes it the first. Touches at most one node.
fn set_next<T, L: Ledger>(
    nodes: &mut Nodes<T>,
    first: &mut Option<u32>,
    before: Option<u32>,
    after: Option<u32>,
    steps: &mut Steps<L>,
)
    requires { IfSome before (λ place. IsLive place nodes.old) }
    ensures nodes { nodes.new ≡ relinked_after before after nodes.old }
    ensures first { first.new ≡ (if is_some before then first.old else after) }
    ensures steps { steps.new ≤ steps.old + 1 }
{
    match before {
        Some(place) => nodes.set_after(place, after, steps),
        None => *first = after,
    }
}

/// Makes `before` what goes before `after`; where nothing is after, makes it the last. Touches at most one node.
fn set_previous<T, L: Ledger>(
    nodes: &mut Nodes<T>,
    last: &mut Option<u32>,
    after: Option<u32>,
    before: Option<u32>,
    steps: &mut Steps<L>,
)
    requires { IfSome after (λ place. IsLive place nodes.old) }
    ensures nodes { nodes.new ≡ relinked_before after before nodes.old }
    ensures last { last.new ≡ (if is_some after then last.old else before) }
    ensures steps { steps.new ≤ steps.old + 1 }
{
    match after {
        Some(place) => nodes.set_before(place, before, steps),
        None => *last = before,
    }
}

/// The key of the entry at a place.
fn key_at(stamps: &Places<Option<u64>>, place: u32) -> ChainKey
    requires { IsSome (get_or stamps.now.items place None) }
    ensures { (result.place ≡ place) × (Some result.stamp ≡ get_or stamps.now.items place None) }
{
    match stamps.at(place as usize) {
        Some(stamp) => ChainKey { place, stamp },
        None => unreachable!(),
    }
}

/// The chain. Its value is the list of its keys and values, the number of further entries that need no memory, and the number
/// of keys that were given. After it is made no call but `reserve` takes memory.
#[derive(Drop)]
pub struct Chain<T> {
    nodes: Nodes<T>,
    stamps: Places<Option<u64>>,
    first: Option<u32>,
    last: Option<u32>,
    given: u64,
}

impl<T> Model for Chain<T> {
    ghost use Rattle.chain_list.specs.Chain.{ChainList, chain_list, chain_list_code};
    ghost use Rattle.chain_list.specs.ChainFields.{IsChain, entries_of};

    ghost Value = { ChainList T };

    ghost coded = { chain_list_code T.code };

    ghost view = { λ c. chain_list (entries_of c.nodes c.stamps.items c.first) c.nodes.spare c.given };

    ghost invariant = { λ c. IsChain c.nodes c.stamps.items c.first c.last (entries_of c.nodes c.stamps.items c.first) };
}

impl<T> Chain<T> {
    ghost use Rattle.chain_list.specs.Chain.{chain_list, keyed, value_at, without, stamp_at, first_key, key_after, Linked, Apart};
    ghost use Rattle.chain_list.specs.ChainLends.{lends_at};

    /// The empty list. It takes no memory.
    pub fn new(alloc: Global) -> Chain<T>
        ensures { result ≡ chain_list [] 0 0 }
    {
        Chain {
            nodes: Nodes::new(alloc),
            stamps: Places::new(alloc, None),
            first: None,
            last: None,
            given: 0,
        }
    }

    /// The empty list with room for `n` entries, whose nodes lie in one block. Where there is no memory, nothing is kept.
    pub fn with_room(alloc: Global, n: u64) -> Result<Chain<T>, NoMemory>
        requires { n < 2 ^ 32 }
        ensures { IfOk result (λ chain. chain ≡ chain_list [] n 0) }
    {
        let stamps = Places::open(alloc, None, n as usize)?;
        let nodes = Nodes::with_room(alloc, n)?;
        Ok(Chain {
            nodes,
            stamps,
            first: None,
            last: None,
            given: 0,
        })
    }

    /// As many further entries. Where there is no memory, all is as it was.
    fn grow(&mut self, more: usize) -> Result<(), NoMemory>
        requires { self.old.spare + length self.old.entries + more < 2 ^ 32 }
        ensures ok { OnOk result (self.new ≡ chain_list self.old.entries (self.old.spare + more) self.old.given) }
        ensures err { OnErr result (self.new ≡ self.old) }
    {
        let _size = self.nodes.size();
        // The stamps first, so that a refusal leaves no node without its stamp.
        self.stamps.reserve(more)?;
        self.nodes.grow(more)?;
        self.stamps.lengthen(more, None);
        Ok(())
    }

    /// Makes at least `n` further entries possible without taking memory. Where there is no memory, all is as it was.
    pub fn reserve(&mut self, n: u64) -> Result<(), NoMemory>
        requires { n + length self.old.entries < 2 ^ 32 }
        ensures ok { OnOk result (n ≤ self.new.spare) }
        ensures same { OnOk result (self.new ≡ chain_list self.old.entries self.new.spare self.old.given) }
        ensures err { OnErr result (self.new ≡ self.old) }
    {
        let more = self.nodes.missing(n);
        if more == 0 {
            return Ok(());
        }
        self.grow(more)
    }

    /// Puts a value after the last, under a key of its own. Touches at most three nodes.
    pub fn push_back<L: Ledger>(&mut self, value: T, steps: &mut Steps<L>) -> ChainKey
        requires room { 0 < self.old.spare }
        requires keys { self.old.given < 2 ^ 64 - 1 }
        ensures stamp { result.stamp ≡ self.old.given }
        ensures within { result.place < self.old.spare + length self.old.entries }
        ensures chain { self.new ≡ chain_list (self.old.entries ++ keyed result value ∷ []) (self.old.spare - 1) (self.old.given + 1) }
        ensures steps { steps.new ≤ steps.old + 3 }
    {
        let _size = self.nodes.size();
        let place = self.nodes.make(value, steps);
        let (last, stamp) = (self.last, self.given);
        set_next(&mut self.nodes, &mut self.first, last, Some(place), steps);
        set_previous(&mut self.nodes, &mut self.last, Some(place), last, steps);
        self.last = Some(place);
        self.stamps.set(place as usize, Some(stamp));
        self.given += 1;
        ChainKey { place, stamp }
    }

    /// The key of the entry at a place.
    pub fn key(&self, place: u32) -> ChainKey
        requires { IsSome (stamp_at place self.now.entries) }
        ensures place { result.place ≡ place }
        ensures stamp { Some result.stamp ≡ stamp_at place self.now.entries }
    {
        key_at(&self.stamps, place)
    }

    /// Whether the key is live.
    fn is_live(&self, key: ChainKey) -> bool
        ensures { result ≡ is_some (value_at key self.now.entries) }
    {
        let place = key.place as usize;
        place < self.stamps.len() && self.stamps.at(place) == Some(key.stamp)
    }

    /// Takes the value of a key out of the list; `None` exactly where the key isn't live. Touches at most four nodes.
    pub fn unlink<L: Ledger>(&mut self, key: ChainKey, steps: &mut Steps<L>) -> Option<T>
        ensures value { result ≡ value_at key self.old.entries }
        ensures absent { IfNone result (self.new ≡ self.old) }
        ensures taken { IfSome result (λ _. self.new ≡ chain_list (without key self.old.entries) (self.old.spare + 1) self.old.given) }
        ensures steps { steps.new ≤ steps.old + 4 }
    {
        if !self.is_live(key) {
            return None;
        }
        let (before, after) = self.nodes.links(key.place, steps);
        set_next(&mut self.nodes, &mut self.first, before, after, steps);
        set_previous(&mut self.nodes, &mut self.last, after, before, steps);
        self.stamps.set(key.place as usize, None);
        Some(self.nodes.free(key.place, steps))
    }

    /// The value of a key; `None` exactly where the key isn't live. Touches at most one node.
    pub fn get<L: Ledger>(&self, key: ChainKey, steps: &mut Steps<L>) -> Option<&T>
        ensures value { option_copied result ≡ value_at key self.now.entries }
        ensures steps { steps.new ≤ steps.old + 1 }
    {
        if !self.is_live(key) {
            return None;
        }
        Some(self.nodes.value(key.place, steps))
    }

    /// The value of a key, to write to; `None` exactly where the key isn't live. Touches at most one node.
    pub fn get_mut<L: Ledger>(&mut self, key: ChainKey, steps: &mut Steps<L>) -> Option<&mut T>
        ensures* writes_back { sem 𝓛 (lends_at T.row self.entry key result) }
        ensures value { option_copied_mut result ≡ value_at key self.old.entries }
        ensures steps { steps.new ≤ steps.old + 1 }
    {
        if !self.is_live(key) {
            return None;
        }
        Some(self.nodes.value_mut(key.place, steps))
    }

    /// The key of the first entry; `None` exactly where the list is empty.
    pub fn first(&self) -> Option<ChainKey>
        ensures { result ≡ first_key self.now.entries }
    {
        match self.first {
            Some(place) => Some(key_at(&self.stamps, place)),
            None => None,
        }
    }

    /// The key of the entry after a live one; `None` exactly where that is the last. Touches at most one node.
    pub fn next<L: Ledger>(&self, key: ChainKey, steps: &mut Steps<L>) -> Option<ChainKey>
        requires { IsSome (value_at key self.now.entries) }
        ensures key { result ≡ key_after key self.now.entries }
        ensures steps { steps.new ≤ steps.old + 1 }
    {
        let _live = self.is_live(key);
        let (_, after) = self.nodes.links(key.place, steps);
        match after {
            Some(place) => Some(key_at(&self.stamps, place)),
            None => None,
        }
    }

    /// The nodes. Following the after-links from the first one gives the list, and the before-links give it backwards. No two
    /// entries lie at one place.
    pub fn nodes(&self) -> &Nodes<T>
        ensures linked { Linked result.now.places None self.now.entries None }
        ensures apart { Apart self.now.entries }
    {
        &self.nodes
    }
}
