//! The triggered operations of an interface that wait for their counting events (Portals 4.3, triggered operations).
#![tactic(auto)]

ghost use Rattle.std.specs.Prelude.{◌≡◌, ◌≤◌, ◌<◌, ◌^◌, ◌-◌, ℕ, true, false, Some, None, IfSome, IfNone, IfOk, IsOk, OnOk, OnErr};
ghost use Rattle.std.specs.Prelude.{[], All, length, slice_get, option_map};
ghost use Rattle.triggered_ops.specs.Operations.{no_operations, is_full, operation_at, is_ready, due_numbers, shown, numbered, action_of};
ghost use Rattle.triggered_ops.specs.Operations.{with_posted, told, without_number, waits_on, waiting_on, cancelled, IsKept};

mod lists;
pub mod marks;
mod parts;
mod spots;
mod told;

use crate::spots::{Spots, Wait, place_at, waiting_from};
use chain_list::threads::Threads;
use ptl_types::{Handle, NoMemory};
use std::alloc::Global;
use std::marker::Model;

/// The operations that wait, each with a number, an action of the caller's, its counting event and its threshold. Its value is the
/// list of them by rising number, each with whether it is due by what was last told of its counting event, how many numbers were
/// given, and how many may wait.
///
/// With n that wait, `len`, `ready_count` and `get`, `is_ready` and `take` of a number take a constant number of steps, where no
/// places were laid anew since it was given, and else the order of log n; `ready` and `ready_at` the order of log n. `reached` takes
/// a constant number of steps, and that of `take` for each operation that becomes due or no longer is, however many wait on that
/// counting event. `post` takes a constant number of steps over many of them where its threshold is no lower than that of every
/// operation on its counting event that is due as it is, or no higher, and else passes over the lower ones; `cancel` does what
/// `first_on` and `take` do for each. `next` and `at` pass over the places of those that are gone. No call but `open` takes memory.
#[derive(Drop)]
pub struct Pending<D> {
    spots: Spots<D>,
    threads: Threads,
    stamps: Vec<u64>,
    given: u32,
    limit: u32,
}

impl<D> Model for Pending<D> {
    ghost use Rattle.triggered_ops.specs.Operations.{Operations};
    ghost use Rattle.triggered_ops.specs.Codes.{operations_code};

    ghost Value = { Operations D };

    ghost coded = { operations_code D.code };

    ghost use Rattle.triggered_ops.specs.Layout.{operations_of};
    ghost use Rattle.triggered_ops.specs.Hung.{IsLaid};

    ghost view = { λ p. operations_of p.spots p.given p.limit };

    ghost invariant = { λ p. IsLaid p.spots p.threads p.stamps.items p.given p.limit };
}

impl<D> Pending<D> {
    /// How many wait.
    pub fn len(&self) -> u32
        ensures len { result ≡ length self.now.waiting }
        ensures kept { IsKept self.now }
    {
        let _given = self.given;
        self.spots.waiting()
    }

    /// How many numbers were given; the next is this one.
    pub fn given(&self) -> u32
        ensures value { result ≡ self.now.given }
    {
        self.given
    }

    /// Whether none can be posted: as many wait as may, or all 2^32 - 1 numbers were given.
    pub fn is_full(&self) -> bool
        ensures value { result ≡ is_full self.now }
    {
        self.spots.waiting() >= self.limit || self.given == u32::MAX
    }

    /// Tells a counting event's sum, success and failure together, to the operations that wait on it.
    pub fn reached(&mut self, ct: Handle, sum: u64)
        ensures does { self.new ≡ told ct sum self.old }
    {
        told::tell(&mut self.spots, &mut self.threads, &self.stamps, ct, sum);
    }

    /// The number of an operation that is due; `None` exactly where there is none. Which of them it is stays open.
    pub fn ready(&self) -> Option<u32>
        ensures some { IfSome result (λ t. is_ready t self.now ≡ true) }
        ensures none { IfNone result ((t : ℕ) → is_ready t self.now ≡ false) }
    {
        if self.spots.due() == 0 {
            None
        } else {
            Some(self.spots.due_at(0))
        }
    }

    /// Whether the operation of this number waits and is due.
    pub fn is_ready(&self, number: u32) -> bool
        ensures value { result ≡ is_ready number self.now }
    {
        match self.spots.place_of(number) {
            Some(place) => self.spots.is_due(place),
            None => false,
        }
    }

    /// How many are due.
    pub fn ready_count(&self) -> u32
        ensures value { result ≡ length (due_numbers self.now) }
        ensures kept { IsKept self.now }
    {
        let _given = self.given;
        self.spots.due() as u32
    }

    /// The number of the one at position `i` among them, by rising number, from 0.
    pub fn ready_at(&self, i: u32) -> u32
        requires { i < length (due_numbers self.now) }
        ensures value { slice_get (due_numbers self.now) i ≡ Some result }
        ensures kept { IsKept self.now }
    {
        let _given = self.given;
        self.spots.due_at(u64::from(i))
    }

    /// The action, the counting event and the threshold of the operation of this number; `None` exactly where it doesn't wait.
    pub fn get(&self, number: u32) -> Option<(&D, Handle, u64)>
        ensures found { IfSome result (λ p. option_map shown (operation_at number self.now) ≡ Some (p.0.now, p.1, p.2)) }
        ensures none { IfNone result (operation_at number self.now ≡ None) }
    {
        match self.spots.place_of(number) {
            Some(place) => self.spots.get(place),
            None => None,
        }
    }

    /// The number, action, counting event and threshold of the operation at position `i` by rising number, from 0; `None` exactly
    /// where no more than `i` wait.
    pub fn at(&self, i: u32) -> Option<(u32, &D, Handle, u64)>
        ensures found { IfSome result (λ p. option_map numbered (slice_get self.now.waiting i) ≡ Some (p.0, p.1.now, p.2, p.3)) }
        ensures none { IfNone result (length self.now.waiting ≤ i) }
    {
        match place_at(&self.spots, i) {
            Some(place) => self.spots.numbered(place),
            None => None,
        }
    }

    /// The operation of the lowest number that is at least `from`, as `at` shows it; `None` exactly where there is none. So a
    /// walk over all of them begins at 0 and goes on at the number found and one.
    pub fn next(&self, from: u32) -> Option<(u32, &D, Handle, u64)>
        ensures found { IfSome result (λ p. option_map numbered (operation_at p.0 self.now) ≡ Some (p.0, p.1.now, p.2, p.3)) }
        ensures range { IfSome result (λ p. (from ≤ p.0) × (p.0 < self.now.given)) }

        // Between `from` and the number found no other operation waits, and from there on none where it is `None`.
        ensures alone { IfSome result (λ p. All (λ q. from ≤ q.number → q.number ≤ p.0 → numbered q ≡ (p.0, p.1.now, p.2, p.3))
            self.now.waiting) }
        ensures none { IfNone result (All (λ q. q.number < from) self.now.waiting) }
        ensures numbers { self.now.given < 2 ^ 32 }
    {
        let _given = self.given;
        match waiting_from(&self.spots, self.spots.place_from(from)) {
            Some(place) => self.spots.numbered(place),
            None => None,
        }
    }

    /// The number of an operation that waits on a counting event; `None` exactly where none does. A constant number of steps where
    /// the counting event has lists of its own, and else at most one for each operation whose counting event has none.
    pub fn first_on(&self, ct: Handle) -> Option<u32>
        ensures found { IfSome result (λ t. option_map (waits_on ct) (operation_at t self.now) ≡ Some true) }
        ensures none { IfNone result (waiting_on ct self.now ≡ []) }
    {
        match parts::first_on(&self.spots, &self.threads, &self.stamps, ct) {
            Some(place) => Some(self.spots.number(place)),
            None => None,
        }
    }

    /// Takes the action of the operation of this number out, which then no longer waits; `None` exactly where it doesn't wait,
    /// and then nothing changes.
    pub fn take(&mut self, number: u32) -> Option<D>
        ensures value { result ≡ option_map action_of (operation_at number self.old) }
        ensures rest { self.new ≡ without_number number self.old }
        ensures none { IfNone result (self.new ≡ self.old) }
    {
        match self.spots.waiting_at(number) {
            Some(place) => parts::take_out(&mut self.spots, &mut self.threads, place),
            None => None,
        }
    }
}

impl<D: Drop> Pending<D> {
    /// None, with numbers from 0; `limit` may wait at a time. An operation whose counting event has a slot below `events` is found by
    /// it at once, and others by a walk. Conditions: neither passes 2^27, so that each place and each list has a number of 32 bits.
    pub fn open(alloc: Global, limit: u32, events: u32) -> Result<Pending<D>, NoMemory>
        requires at_most { limit ≤ 2 ^ 27 }
        requires lists { events ≤ 2 ^ 27 }
        ensures makes { IfOk result (λ p. p ≡ no_operations limit) }
    {
        let room = limit + limit / 4;
        let spots = Spots::open(alloc, room)?;
        let threads = Threads::open(alloc, 2 * events as usize + 1, room as usize)?;
        let Ok(stamps) = Vec::from_elem(alloc, 0u64, events as usize) else {
            return Err(NoMemory);
        };
        Ok(Pending {
            spots,
            threads,
            stamps,
            given: 0,
            limit,
        })
    }

    /// Tells the sum of a counting event, posts an operation that waits on it and answers its number, which none that waits has. It
    /// takes no memory.
    pub fn post(&mut self, action: D, ct: Handle, threshold: u64, sum: u64) -> Result<u32, NoMemory>
        requires room { length self.old.waiting < self.old.limit }
        requires numbers { self.old.given < 2 ^ 32 - 1 }
        ensures number { IfOk result (λ t. t ≡ self.old.given) }
        ensures fresh { IfOk result (λ t. operation_at t self.old ≡ None) }
        ensures ok { OnOk result (self.new ≡ with_posted action ct threshold sum (told ct sum self.old)) }
        ensures err { OnErr result (self.new ≡ self.old) }
        ensures posts { IsOk result }
    {
        parts::make_room(&mut self.spots, &mut self.threads, &self.stamps);
        parts::adopt(&self.spots, &self.threads, &mut self.stamps, ct);
        told::tell(&mut self.spots, &mut self.threads, &self.stamps, ct, sum);
        let wait = Wait {
            ct,
            threshold,
            due: threshold <= sum,
        };
        let number = self.given;
        parts::put_in(
            &mut self.spots,
            &mut self.threads,
            &self.stamps,
            number,
            action,
            wait,
        );
        self.given += 1;
        Ok(number)
    }

    /// Removes the operations that wait on a counting event, with their actions, and answers how many they were.
    pub fn cancel(&mut self, ct: Handle) -> u32
        ensures number { result ≡ length (waiting_on ct self.old) }
        ensures rest { self.new ≡ cancelled ct self.old }
    {
        let before = self.spots.waiting();
        parts::drop_all(&mut self.spots, &mut self.threads, &self.stamps, ct);
        before - self.spots.waiting()
    }
}
