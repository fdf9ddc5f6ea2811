//! The handles that a node's interface gave.

ghost use Rattle.std.specs.Prelude.{◌≡◌, ◌<◌, ℕ, IfOk, length, slice_index_or};
ghost use Rattle.ni_model.specs.Tables.{handle};
ghost use Rattle.rank_node.specs.Handles.{Tells, no_handles, with_counter_handle, with_entry_handle, with_descriptor_handle, room_under};

use ptl_types::{Handle, Limits, NoMemory};
use std::alloc::Global;
use std::marker::Model;

/// The handles of counting events, match entries and memory descriptors, each in the order of their making: number n has
/// stamp n.
#[derive(Drop)]
pub struct NodeHandles {
    counters: Vec<Handle>,
    entries: Vec<Handle>,
    descriptors: Vec<Handle>,
    counter_room: u32,
    entry_room: u32,
    descriptor_room: u32,
}

impl Model for NodeHandles {
    ghost use Rattle.std.specs.Prelude.{◌≤◌, vec_capacity};
    ghost use Rattle.rank_node.specs.Handles.{Handles, AreInOrder};

    ghost Value = { Handles };

    ghost view = { λ k. record {
      counters = k.counters.items;
      entries = k.entries.items;
      descriptors = k.descriptors.items;
      room =
          record { counters = k.counter_room; entries = k.entry_room; descriptors = k.descriptor_room };
    } };

    ghost invariant = { λ k. (k.counter_room ≤ vec_capacity k.counters) × (k.entry_room ≤ vec_capacity k.entries) ×
        (k.descriptor_room ≤ vec_capacity k.descriptors) × AreInOrder k.counters.items × AreInOrder k.entries.items ×
        AreInOrder k.descriptors.items };
}

impl NodeHandles {
    /// No handles, with room for as many of each kind as may be live under the limits.
    pub fn with_room(alloc: Global, limits: &Limits) -> Result<NodeHandles, NoMemory>
        ensures { IfOk result (λ k. k ≡ no_handles (room_under limits.now)) }
    {
        let Ok(counters) = Vec::with_capacity(alloc, limits.cts as usize) else {
            return Err(NoMemory);
        };
        let Ok(entries) = Vec::with_capacity(alloc, limits.entries as usize) else {
            return Err(NoMemory);
        };
        let Ok(descriptors) = Vec::with_capacity(alloc, limits.mds as usize) else {
            return Err(NoMemory);
        };
        Ok(NodeHandles {
            counters,
            entries,
            descriptors,
            counter_room: limits.cts,
            entry_room: limits.entries,
            descriptor_room: limits.mds,
        })
    }

    /// Keeps the handle of a further counting event.
    pub fn add_counter(&mut self, ct: Handle)
        requires room { length self.old.counters < self.old.room.counters }
        requires next { ct.stamp ≡ length self.old.counters }
        ensures { self.new ≡ with_counter_handle ct self.old }
    {
        self.counters.push_reserved(ct);
    }

    /// Keeps the handle of a further entry.
    pub fn add_entry(&mut self, entry: Handle)
        requires room { length self.old.entries < self.old.room.entries }
        requires next { entry.stamp ≡ length self.old.entries }
        ensures { self.new ≡ with_entry_handle entry self.old }
    {
        self.entries.push_reserved(entry);
    }

    /// Keeps the handle of a further descriptor.
    pub fn add_descriptor(&mut self, md: Handle)
        requires room { length self.old.descriptors < self.old.room.descriptors }
        requires next { md.stamp ≡ length self.old.descriptors }
        ensures { self.new ≡ with_descriptor_handle md self.old }
    {
        self.descriptors.push_reserved(md);
    }

    /// Counting event number `i`.
    pub fn counter(&self, i: usize) -> Handle
        requires { i < length self.now.counters }
        ensures kept { result ≡ slice_index_or self.now.counters i (handle 0 0) }
        ensures value { (f : ℕ → ℕ) → Tells f self.now.counters → result ≡ handle (f i) i }
    {
        self.counters[i]
    }

    /// The first descriptor.
    pub fn descriptor(&self) -> Handle
        requires { 0 < length self.now.descriptors }
        ensures { (f : ℕ → ℕ) → Tells f self.now.descriptors → result ≡ handle (f 0) 0 }
    {
        self.descriptors[0]
    }

    /// Descriptor number `i`.
    pub fn descriptor_at(&self, i: usize) -> Handle
        requires { i < length self.now.descriptors }
        ensures { (f : ℕ → ℕ) → Tells f self.now.descriptors → result ≡ handle (f i) i }
    {
        self.descriptors[i]
    }
}
