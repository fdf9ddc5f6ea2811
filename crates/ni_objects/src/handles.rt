//! A table of live things of an interface, each under a handle of its slot and its stamp.

ghost use Rattle.std.specs.Prelude.{◌≡◌, ◌<◌, ◌↔◌, Some, IsSome, IsErr, IsTrue, IfSome, IfNone, IfOk, IfErr, false, length, option_copied};
ghost use Rattle.std.specs.Prelude.{All};
ghost use Rattle.std.specs.Option.{option_copied_mut};
ghost use Rattle.std.specs.Borrow.{sem};
ghost use Rattle.ptl_types.specs.declared.handles.Handle.{Handle};
ghost use Rattle.ni_model.specs.Tables.{lookup, change, with_new, without, no_things, is_full, has_slot};

use ptl_types::{Handle, NoMemory};
use slab::Slab;
use std::alloc::Global;
use std::marker::Model;

mod named;

pub use named::{is_live_or_none, names, where_set};

#[derive(Drop)]
struct Stamped<T> {
    stamp: u64,
    value: T,
}

/// A table. Its value is the live things in the order of their making, how many stamps it gave, and how many things may be
/// live at a time. A stamp is never given twice, two live handles never share a slot, and each slot is below the limit.
/// Every call takes a constant number of steps.
#[derive(Drop)]
pub struct Store<T> {
    slab: Slab<Stamped<T>>,
    given: u64,
    limit: u32,
}

impl<T> Model for Store<T> {
    ghost use Rattle.ni_model.specs.Tables.{Table};
    ghost use Rattle.ni_objects.specs.handles.Codes.{table_code};

    ghost Value = { Table T };

    ghost coded = { table_code T.code };

    ghost use Rattle.ni_objects.specs.handles.Layout.{table_of, IsTable};

    ghost view = { λ s. table_of s.slab s.given s.limit };

    ghost invariant = { λ s. IsTable s.slab s.given s.limit };
}

impl<T> Store<T> {
    ghost use Rattle.ni_objects.specs.handles.Lends.{lends_held, lends_get};

    /// How many things are live.
    pub fn len(&self) -> u64
        ensures { result ≡ length self.now.live }
    {
        self.slab.len() as u64
    }

    /// Whether no further thing can be put in: as many as the limit are live, or all 2^64 - 1 stamps were given.
    pub fn is_full(&self) -> bool
        ensures { result ≡ is_full self.now }
    {
        self.slab.len() >= self.limit as usize || self.given == u64::MAX
    }

    /// Puts a thing in, under a slot that no live thing has and the next stamp. Where the table is full it hands the thing
    /// back and is as it was.
    pub fn insert(&mut self, value: T) -> Result<Handle, T>
        ensures stamp { IfOk result (λ h. h.stamp ≡ self.old.given) }
        ensures slot { IfOk result (λ h. h.slot < self.old.limit) }
        ensures free { IfOk result (λ h. has_slot h.slot self.old.live ≡ false) }
        ensures ok { IfOk result (λ h. self.new ≡ with_new h.slot value self.old) }
        ensures err { IfErr result (λ back. (back ≡ value) × (self.new ≡ self.old)) }
        ensures full { IsErr result ↔ IsTrue (is_full self.old) }
    {
        if self.is_full() {
            return Err(value);
        }
        let stamp = self.given;
        let slot = self.slab.insert_reserved(Stamped { stamp, value }) as u32;
        self.given += 1;
        Ok(Handle { slot, stamp })
    }

    /// The thing of a handle; `None` exactly where the handle isn't live.
    pub fn get(&self, h: Handle) -> Option<&T>
        ensures { option_copied result ≡ lookup h self.now.live }
    {
        match self.slab.get(h.slot as usize) {
            Some(held) if held.stamp == h.stamp => Some(&held.value),
            _ => None,
        }
    }

    /// Whether the handle's thing is live.
    pub fn is_live(&self, h: Handle) -> bool
        ensures { IsTrue result ↔ IsSome (lookup h self.now.live) }
    {
        self.get(h).is_some()
    }

    /// The live handle of a slot and its thing; `None` exactly where no live thing has that slot.
    pub fn at(&self, slot: u32) -> Option<(Handle, &T)>
        ensures found { IfSome result (λ p. (p.0.slot ≡ slot) × (lookup p.0 self.now.live ≡ Some p.1.now)) }
        ensures none { IfNone result (has_slot slot self.now.live ≡ false) }

        // No other live handle has that slot, and the slot is below the limit.
        ensures alone { (h : Handle) → h.slot ≡ slot → IsSome (lookup h self.now.live) → IfSome result (λ p. p.0 ≡ h) }
        ensures below { IsSome result → slot < self.now.limit }
        ensures only { IfSome result (λ p. All (λ x. x.handle.slot ≡ slot → x.value ≡ p.1.now) self.now.live) }
    {
        match self.slab.get(slot as usize) {
            Some(held) => Some((
                Handle {
                    slot,
                    stamp: held.stamp,
                },
                &held.value,
            )),
            None => None,
        }
    }

    /// How many slots there are: every live thing has a slot below this number, which is the limit.
    pub fn slots(&self) -> u32
        ensures slots { result ≡ self.now.limit }
        ensures below { All (λ x. x.handle.slot < result) self.now.live }
    {
        self.limit
    }

    /// The thing of a handle, to be changed in place; `None` exactly where the handle isn't live. Nothing else changes.
    pub fn get_mut(&mut self, h: Handle) -> Option<&mut T>
        ensures* writes_back { sem 𝓛 (lends_get T.row self.entry h result) }
        ensures value { option_copied_mut result ≡ lookup h self.old.live }

        // The thing found, changed by any f and written back, is the table with that thing changed by f.
        ensures once { IfSome result (λ value. (f : T → T) → change h (λ _. f value.now) self.old.live ≡ change h f self.old.live) }
        ensures absent { IfNone result ((f : T → T) → change h f self.old.live ≡ self.old.live) }
    {
        if self.is_live(h) {
            Some(self.held_mut(h))
        } else {
            None
        }
    }

    fn held_mut(&mut self, h: Handle) -> &mut T
        requires { IsSome (lookup h self.old.live) }
        ensures* writes_back { sem 𝓛 (lends_held T.row self.entry h result) }
        ensures value { lookup h self.old.live ≡ Some result.now }
        ensures once { (f : T → T) → change h (λ _. f result.now) self.old.live ≡ change h f self.old.live }
    {
        let held = &mut self.slab[h.slot as usize];
        &mut held.value
    }
}

impl<T: Drop> Store<T> {
    /// A table of which nothing was made, with the room of its limit. No later call takes memory.
    pub fn open(alloc: Global, limit: u32) -> Result<Store<T>, NoMemory>
        ensures { IfOk result (λ s. s ≡ no_things limit) }
    {
        match Slab::with_capacity(alloc, limit as usize) {
            Ok(slab) if slab.capacity() == limit as usize => Ok(Store {
                slab,
                given: 0,
                limit,
            }),
            _ => Err(NoMemory),
        }
    }

    /// Takes the thing of a handle out; `None` exactly where the handle isn't live, and then nothing changes.
    pub fn remove(&mut self, h: Handle) -> Option<T>
        ensures value { result ≡ lookup h self.old.live }
        ensures rest { self.new ≡ without h self.old }
    {
        if self.is_live(h) {
            Some(self.slab.remove(h.slot as usize).value)
        } else {
            None
        }
    }
}
