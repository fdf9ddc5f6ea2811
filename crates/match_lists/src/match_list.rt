//! One match list: its entries in order, and threads through them by their match bits.
ghost use Rattle.std.specs.Prelude.{◌≡◌, ◌<◌, ◌≤◌, ◌+◌, ◌-◌, ◌*◌, ◌^◌, ◌++◌, ◌∷◌, [], None, IsSome, IfOk, IfSome, IfNone, All, length};
ghost use Rattle.std.specs.Prelude.{find, option_copied};
ghost use Rattle.chain_list.specs.Chain.{chain_list, keyed, value_at, without, changed, Linked as IsLinked, Apart};
ghost use Rattle.ni_model.specs.Lists.{fits};
ghost use Rattle.match_lists.specs.Buckets.{bucket_of, buckets_of, thread_of, on_thread, last_thread, candidates_in};
ghost use Rattle.match_lists.specs.Indexed.{IsIndexed, room, takes, key_of, earlier_of, first_of_threads, on_threads};
ghost use Rattle.match_lists.specs.Lists.{values, running_at};
ghost use Rattle.match_lists.specs.Looks.{IsSeen};

use crate::look::{look_of, takes};
use crate::trails::Trails;
use chain_list::{Chain, ChainKey, Nodes, Steps};
use ni_model::Linked;
use ptl_types::{Header, NoMemory};
use std::alloc::Global;
use std::marker::Model;
use std::sync::ledger::Ledger;

/// An odd number near 2^64 divided by the golden ratio, so that match bits that differ in few bits spread over all buckets.
const SPREAD: u64 = 0x9E37_79B9_7F4A_7C15;

/// The match bits above the lowest 16, and above the lowest 40.
const UPPER_48: u64 = 0xFFFF_FFFF_FFFF_0000;

const UPPER_24: u64 = 0xFFFF_FF00_0000_0000;

/// How many buckets a list with room for `limit` entries has for entries whose ignored bits lie alike.
fn buckets(limit: u32) -> u32
    ensures { result ≡ buckets_of limit }
{
    limit / 4 + 1
}

/// The bucket of bits; below `buckets`, unless that is 0.
fn bucket(bits: u64, buckets: u32) -> u32
    ensures bucket { result ≡ bucket_of buckets bits }
    ensures below { result ≤ buckets }
{
    let spread = bits.wrapping_mul(SPREAD) >> 32;
    ((spread * buckets as u64) >> 32) as u32
}

/// The thread that an entry stands on.
fn thread(linked: &Linked, limit: u32) -> u32
    ensures { result ≡ thread_of limit linked.now }
{
    let count = buckets(limit);
    let bits = linked.entry.match_bits;
    let ignored = linked.entry.ignore_bits;
    if ignored == 0 {
        bucket(bits, count)
    } else if ignored < 0x1_0000 {
        count + bucket(bits & UPPER_48, count)
    } else if ignored < 0x100_0000_0000 {
        2 * count + bucket(bits & UPPER_24, count)
    } else {
        3 * count
    }
}

/// The key that was given first.
fn earlier(a: Option<ChainKey>, b: Option<ChainKey>) -> Option<ChainKey>
    ensures { result ≡ earlier_of a b }
{
    match (a, b) {
        (Some(x), Some(y)) if x.stamp < y.stamp => a,
        (_, Some(_)) => b,
        (_, None) => a,
    }
}

/// The first entry of a thread that takes the message. Counts at most one node for each entry of the thread.
fn first_on<L: Ledger>(
    chain: &Chain<Linked>,
    trails: &Trails,
    limit: u32,
    thread: u32,
    header: &Header,
    steps: &mut Steps<L>,
) -> Option<ChainKey>
    requires indexed { IsIndexed chain.now trails.now.threads limit }
    requires seen { All (IsSeen trails.now.looks.items) chain.now.entries }
    requires thread { thread ≤ last_thread limit }
    ensures key { result ≡ key_of (find (takes header.now) (on_thread limit thread chain.now.entries)) }
    ensures steps { steps.new ≤ steps.old + length (on_thread limit thread chain.now.entries) }
{
    let _nodes = chain.nodes();
    let mut next = trails.first(thread);
    while let Some(unseen) = next {
        let (place, after, look) = trails.visit(unseen, steps);
        next = after;
        if takes(look, header) {
            return Some(chain.key(place));
        }
    }
    None
}

/// The entry that takes the message: of the firsts of its threads the one that was linked first. Counts at most one node for
/// each entry of these threads.
fn first_key<L: Ledger>(
    chain: &Chain<Linked>,
    trails: &Trails,
    limit: u32,
    header: &Header,
    steps: &mut Steps<L>,
) -> Option<ChainKey>
    requires indexed { IsIndexed chain.now trails.now.threads limit }
    requires seen { All (IsSeen trails.now.looks.items) chain.now.entries }
    ensures key { result ≡ first_of_threads header.now limit chain.now.entries }
    ensures steps { steps.new ≤ steps.old + on_threads limit header.now.match_bits chain.now.entries }
{
    let count = buckets(limit);
    let bits = header.match_bits;
    let whole = bucket(bits, count);
    let upper_48 = count + bucket(bits & UPPER_48, count);
    let upper_24 = 2 * count + bucket(bits & UPPER_24, count);
    let by_whole = first_on(chain, trails, limit, whole, header, steps);
    let by_48 = first_on(chain, trails, limit, upper_48, header, steps);
    let by_24 = first_on(chain, trails, limit, upper_24, header, steps);
    let other = first_on(chain, trails, limit, 3 * count, header, steps);
    earlier(earlier(by_whole, by_48), earlier(by_24, other))
}

/// The list. Its value is that of the chain of its entries: the threads only tell where to look, and the looks, one for each
/// place, what a search has to know of the entry there. A look is a part of its entry's node, and so is the link to the place
/// that comes after it on its thread.
#[derive(Drop)]
pub struct MatchList {
    chain: Chain<Linked>,
    trails: Trails,
    limit: u32,
}

impl Model for MatchList {
    ghost use Rattle.chain_list.specs.Chain.{ChainList};
    ghost use Rattle.ni_model.specs.declared.Linked.{Linked};
    ghost use Rattle.match_lists.specs.Indexed.{IsMatchList};

    ghost Value = { ChainList Linked };

    ghost view = { λ l. l.chain };

    ghost invariant = { λ l. IsMatchList l.chain l.trails.threads l.trails.looks.items l.limit };
}

impl MatchList {
    /// The empty list with room for `limit` entries. No later call has an answer for want of memory.
    pub(crate) fn with_room(alloc: Global, limit: u32) -> Result<MatchList, NoMemory>
        ensures { IfOk result (λ l. l ≡ chain_list [] limit 0) }
    {
        let chain = Chain::with_room(alloc, limit as u64)?;
        let trails = Trails::open(alloc, 3 * buckets(limit) as usize + 1, limit as usize)?;
        Ok(MatchList {
            chain,
            trails,
            limit,
        })
    }

    /// Puts an entry after the last. Counts at most three nodes.
    pub(crate) fn push_back<L: Ledger>(&mut self, linked: Linked, steps: &mut Steps<L>) -> ChainKey
        requires room { 0 < self.old.spare }
        requires keys { self.old.given < 2 ^ 64 - 1 }
        ensures chain { self.new ≡ chain_list (self.old.entries ++ keyed result linked ∷ []) (self.old.spare - 1) (self.old.given + 1) }
        ensures steps { steps.new ≤ steps.old + 3 }
    {
        let thread = thread(&linked, self.limit);
        let look = look_of(&linked);
        let key = self.chain.push_back(linked, steps);
        let _nodes = self.chain.nodes();
        self.trails.put(thread, key.place, look);
        key
    }

    /// Takes an entry out; `None` exactly where the key isn't live. Counts at most four nodes.
    pub(crate) fn unlink<L: Ledger>(
        &mut self,
        key: ChainKey,
        steps: &mut Steps<L>,
    ) -> Option<Linked>
        ensures value { result ≡ value_at key self.old.entries }
        ensures absent { IfNone result (self.new ≡ self.old) }
        ensures taken { IfSome result (λ _. self.new ≡ chain_list (without key self.old.entries) (self.old.spare + 1) self.old.given) }
        ensures steps { steps.new ≤ steps.old + 4 }
    {
        let _nodes = self.chain.nodes();
        let linked = self.chain.unlink(key, steps)?;
        self.trails.take(key.place);
        Some(linked)
    }

    /// The entry of a key; `None` exactly where the key isn't live. Counts at most one node.
    pub(crate) fn get<L: Ledger>(&self, key: ChainKey, steps: &mut Steps<L>) -> Option<&Linked>
        ensures value { option_copied result ≡ value_at key self.now.entries }
        ensures steps { steps.new ≤ steps.old + 1 }
    {
        self.chain.get(key, steps)
    }

    /// Moves the running offset of a live key's entry on, in bytes. Counts at most one node.
    pub(crate) fn advance<L: Ledger>(&mut self, key: ChainKey, by: u64, steps: &mut Steps<L>)
        requires live { IsSome (value_at key self.old.entries) }
        requires fits { IfSome (value_at key self.old.entries) (λ x. x.running + by < 2 ^ 64) }
        ensures chain { IfSome (value_at key self.old.entries)
            (λ x. self.new ≡ chain_list (changed key (running_at (x.running + by) x) self.old.entries) self.old.spare self.old.given) }
        ensures steps { steps.new ≤ steps.old + 1 }
    {
        let _nodes = self.chain.nodes();
        let Some(linked) = self.chain.get_mut(key, steps) else {
            unreachable!()
        };
        linked.running += by;
        self.trails.renew(key.place, look_of(linked));
    }

    /// The first entry that takes the message. Counts at most two nodes for each entry that may take its match bits.
    pub(crate) fn first_fit<L: Ledger>(
        &self,
        header: &Header,
        steps: &mut Steps<L>,
    ) -> Option<Linked>
        ensures first { result ≡ find (fits header.now) (values self.now.entries) }
        ensures steps { steps.new ≤ steps.old + 2 * candidates_in (room self.now) header.now.match_bits (values self.now.entries) }
    {
        let _nodes = self.chain.nodes();
        let key = first_key(&self.chain, &self.trails, self.limit, header, steps)?;
        match self.chain.get(key, steps) {
            Some(linked) => Some(*linked),
            None => None,
        }
    }

    /// The chain of the entries.
    pub(crate) fn chain(&self) -> &Chain<Linked>
        ensures { result.now ≡ self.now }
    {
        &self.chain
    }

    /// The nodes of the entries.
    pub(crate) fn nodes(&self) -> &Nodes<Linked>
        ensures linked { IsLinked result.now.places None self.now.entries None }
        ensures apart { Apart self.now.entries }
    {
        self.chain.nodes()
    }
}
