//! Nodes in one block, each at its place, with the places of its neighbours.
ghost use Rattle.std.specs.Prelude.{◌≡◌, ◌+◌, ◌-◌, ◌<◌, ◌≤◌, ◌^◌, ℕ, Some, None, length, slice_index, IfOk, IfSome, OnOk, OnErr, vec_len};
ghost use Rattle.std.specs.Prelude.{vec_capacity};
ghost use Rattle.std.specs.Borrow.{sem};

use crate::row::Row;
use crate::steps::Steps;
use ptl_types::NoMemory;
use std::alloc::Global;
use std::marker::Model;
use std::sync::ledger::Ledger;

/// Puts the places from `from` up to `to` on the list of free ones, so that the lowest is taken first.
fn free_range(free: &mut Vec<u32>, from: usize, to: usize)
    requires order { (from ≤ to) × (to < 2 ^ 32) }
    requires room { vec_len free.old + (to - from) ≤ vec_capacity free.old }
    ensures len { vec_len free.new ≡ vec_len free.old + (to - from) }
    ensures kept { (i : ℕ) → i < vec_len free.old → slice_index free.new.items i ≡ slice_index free.old.items i }
    ensures added { (i : ℕ) → i < to - from → slice_index free.new.items (vec_len free.old + i) ≡ to - 1 - i }
    ensures capacity { vec_capacity free.new ≡ vec_capacity free.old }
{
    for i in 0..to - from {
        free.push_reserved((to - 1 - i) as u32);
    }
}

/// How many places to add where `need` are missing: at least as many as there are, so that growing costs little in all.
fn growth(size: usize, need: usize) -> usize
    requires { size + need < 2 ^ 32 }
    ensures enough { need ≤ result }
    ensures fits { size + result < 2 ^ 32 }
{
    need.max(size.min(u32::MAX as usize - size))
}

/// The nodes: for each place below the size the node that is live there, and how many further ones can be made. A freed
/// place is used again. Each call that takes the counter touches one node.
#[derive(Drop)]
pub struct Nodes<T> {
    row: Row<T>,
    free: Vec<u32>,
}

impl<T> Model for Nodes<T> {
    ghost use Rattle.std.specs.Prelude.{length};
    ghost use Rattle.chain_list.specs.NodeMap.{NodeMap, node_map, node_map_code, IsNodes};

    ghost Value = { NodeMap T };

    ghost coded = { node_map_code T.code };

    ghost view = { λ n. node_map n.row (length n.free.items) };

    ghost invariant = { λ n. IsNodes n.row n.free };
}

impl<T> Nodes<T> {
    ghost use Rattle.chain_list.specs.NodeMap.{no_nodes, grown, live_count, node_at, node, IsLive, with_node, renewed};
    ghost use Rattle.chain_list.specs.NodeLends.{lends_value};

    /// No live node, and no memory taken.
    pub fn new(alloc: Global) -> Nodes<T>
        ensures { result ≡ no_nodes }
    {
        Nodes {
            row: Row::new(alloc),
            free: Vec::new(alloc),
        }
    }

    /// No live node, and room for `n` of them in one block. Where there is no memory, nothing is kept.
    pub fn with_room(alloc: Global, n: u64) -> Result<Nodes<T>, NoMemory>
        requires { n < 2 ^ 32 }
        ensures { IfOk result (λ nodes. nodes ≡ grown n no_nodes) }
    {
        let n = n as usize;
        let Ok(mut free) = Vec::with_capacity(alloc, n) else {
            return Err(NoMemory);
        };
        let row = Row::with_len(alloc, n)?;
        free_range(&mut free, 0, n);
        Ok(Nodes { row, free })
    }

    /// A number that is greater than every live place.
    pub fn size(&self) -> u64
        ensures size { result ≡ length self.now.places }
        ensures all { self.now.spare + live_count self.now ≡ length self.now.places }
    {
        let _free = &self.free;
        self.row.len() as u64
    }

    /// Adds free places. Where there is no memory, all is as it was.
    pub(crate) fn grow(&mut self, more: usize) -> Result<(), NoMemory>
        requires { length self.old.places + more < 2 ^ 32 }
        ensures ok { OnOk result (self.new ≡ grown more self.old) }
        ensures err { OnErr result (self.new ≡ self.old) }
    {
        let size = self.row.len();
        let Ok(()) = self.free.reserve(size + more - self.free.len()) else {
            return Err(NoMemory);
        };
        self.row.grow(more)?;
        free_range(&mut self.free, size, size + more);
        Ok(())
    }

    /// How many places `reserve` adds.
    pub(crate) fn missing(&self, n: u64) -> usize
        requires { n + live_count self.now < 2 ^ 32 }
        ensures enough { n ≤ self.now.spare + result }
        ensures fits { self.now.spare + live_count self.now + result < 2 ^ 32 }
        ensures size { length self.now.places + result < 2 ^ 32 }
    {
        let spare = self.free.len() as u64;
        if n <= spare {
            return 0;
        }
        growth(self.row.len(), (n - spare) as usize)
    }

    /// Makes at least `n` further nodes possible without taking memory. Where there is no memory, all is as it was.
    pub fn reserve(&mut self, n: u64) -> Result<(), NoMemory>
        requires { n + live_count self.old < 2 ^ 32 }
        ensures ok { OnOk result (n ≤ self.new.spare) }
        ensures same { OnOk result ((k : ℕ) × (self.new ≡ grown k self.old)) }
        ensures err { OnErr result (self.new ≡ self.old) }
    {
        let more = self.missing(n);
        if more == 0 {
            return Ok(());
        }
        self.grow(more)
    }

    /// Makes a node with neither neighbour, at a place that wasn't live.
    pub fn make<L: Ledger>(&mut self, value: T, steps: &mut Steps<L>) -> u32
        requires { 0 < self.old.spare }
        ensures free { node_at result self.old ≡ None }
        ensures within { result < length self.old.places }
        ensures nodes { self.new ≡ with_node result (Some (node value None None)) (self.old.spare - 1) self.old }
        ensures steps { steps.new ≡ steps.old + 1 }
    {
        steps.tick();
        let Some(place) = self.free.pop() else {
            unreachable!()
        };
        self.row.put(place as usize, value);
        place
    }

    /// The value of a node.
    pub fn value<L: Ledger>(&self, place: u32, steps: &mut Steps<L>) -> &T
        requires { IsLive place self.now }
        ensures value { IfSome (node_at place self.now) (λ n. result.now ≡ n.value) }
        ensures steps { steps.new ≡ steps.old + 1 }
    {
        steps.tick();
        self.row.value(place as usize)
    }

    /// The value of a node, to write to.
    pub fn value_mut<L: Ledger>(&mut self, place: u32, steps: &mut Steps<L>) -> &mut T
        requires { IsLive place self.old }
        ensures* writes_back { sem 𝓛 (lends_value T.row self.entry place result) }
        ensures value { IfSome (node_at place self.old) (λ n. result.now ≡ n.value) }
        ensures steps { steps.new ≡ steps.old + 1 }
    {
        steps.tick();
        self.row.value_mut(place as usize)
    }

    /// The places of the neighbours of a node.
    pub fn links<L: Ledger>(&self, place: u32, steps: &mut Steps<L>) -> (Option<u32>, Option<u32>)
        requires { IsLive place self.now }
        ensures links { IfSome (node_at place self.now) (λ n. result ≡ (n.before, n.after)) }
        ensures steps { steps.new ≡ steps.old + 1 }
    {
        steps.tick();
        self.row.links(place as usize)
    }

    /// Sets which node lies before a node.
    pub fn set_before<L: Ledger>(&mut self, place: u32, to: Option<u32>, steps: &mut Steps<L>)
        requires { IsLive place self.old }
        ensures nodes { IfSome (node_at place self.old) (λ n. self.new ≡ renewed place (node n.value to n.after) self.old) }
        ensures steps { steps.new ≡ steps.old + 1 }
    {
        steps.tick();
        self.row.set_before(place as usize, to);
    }

    /// Sets which node lies after a node.
    pub fn set_after<L: Ledger>(&mut self, place: u32, to: Option<u32>, steps: &mut Steps<L>)
        requires { IsLive place self.old }
        ensures nodes { IfSome (node_at place self.old) (λ n. self.new ≡ renewed place (node n.value n.before to) self.old) }
        ensures steps { steps.new ≡ steps.old + 1 }
    {
        steps.tick();
        self.row.set_after(place as usize, to);
    }

    /// Takes a node away and gives its value. Its place can be used again.
    pub fn free<L: Ledger>(&mut self, place: u32, steps: &mut Steps<L>) -> T
        requires { IsLive place self.old }
        ensures value { IfSome (node_at place self.old) (λ n. result ≡ n.value) }
        ensures nodes { self.new ≡ with_node place None (self.old.spare + 1) self.old }
        ensures steps { steps.new ≡ steps.old + 1 }
    {
        steps.tick();
        let value = self.row.take(place as usize);
        self.free.push_reserved(place);
        value
    }
}
