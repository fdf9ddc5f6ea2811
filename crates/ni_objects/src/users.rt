//! How many users the thing of each slot of a table has, so that whether something names it is told without a walk over what
//! may name it.

ghost use Rattle.std.specs.Prelude.{◌≡◌, ◌<◌, ◌-◌, ◌^◌, IfOk, IfSome, length, nat_lt, replicate, slice_get};
ghost use Rattle.ni_objects.specs.users.Rows.{count_at, incremented, decremented, more, fewer};

use ptl_types::{Handle, NoMemory};
use std::alloc::Global;
use std::marker::Model;

/// A row of counts by slot. Its value is the list of them. Each call but `open` takes a constant number of steps and no memory.
#[derive(Drop)]
pub struct Users {
    counts: Vec<u64>,
}

impl Model for Users {
    ghost use Rattle.std.specs.Prelude.{ℕ, List};

    ghost Value = { List ℕ };

    ghost view = { λ u. u.counts.items };
}

impl Users {
    /// No users of any of these slots.
    pub fn open(alloc: Global, slots: u32) -> Result<Users, NoMemory>
        ensures makes { IfOk result (λ u. u ≡ replicate slots 0) }
    {
        match vec![in alloc; 0; slots as usize] {
            Ok(counts) => Ok(Users { counts }),
            Err(_) => Err(NoMemory),
        }
    }

    /// How many users the thing of a slot has; `None` exactly where the row has no such slot.
    pub fn at(&self, slot: u32) -> Option<u64>
        ensures value { result ≡ slice_get self.now slot }
    {
        self.counts.get(slot as usize).copied()
    }

    /// Whether the thing of a slot has users. Condition: the row has that slot.
    pub fn is_used(&self, slot: u32) -> bool
        requires within { slot < length self.now }
        ensures value { result ≡ nat_lt 0 (count_at slot self.now) }
    {
        self.counts[slot as usize] > 0
    }

    /// One user more of a slot. One past the row's end isn't counted.
    pub fn raise(&mut self, slot: u32)
        requires room { count_at slot self.old < 2 ^ 64 - 1 }
        ensures does { self.new ≡ incremented slot self.old }
    {
        let at = slot as usize;
        if at < self.counts.len() {
            self.counts[at] += 1;
        }
    }

    /// One user fewer of a slot.
    pub fn lower(&mut self, slot: u32)
        ensures does { self.new ≡ decremented slot self.old }
    {
        let at = slot as usize;
        if at < self.counts.len() {
            self.counts[at] = self.counts[at].saturating_sub(1);
        }
    }

    /// One user more of what is named, if anything is.
    pub fn add(&mut self, named: Option<Handle>)
        requires room { IfSome named (λ h. count_at h.slot self.old < 2 ^ 64 - 1) }
        ensures does { self.new ≡ more named self.old }
    {
        if let Some(h) = named {
            self.raise(h.slot);
        }
    }

    /// One user fewer of what is named, if anything is.
    pub fn remove(&mut self, named: Option<Handle>)
        ensures does { self.new ≡ fewer named self.old }
    {
        if let Some(h) = named {
            self.lower(h.slot);
        }
    }
}
