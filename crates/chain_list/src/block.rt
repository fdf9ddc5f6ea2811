//! A row of places in one block of memory, each empty or holding a value. A contract sees the list of them.
ghost use Rattle.std.specs.Prelude.{◌≡◌, ◌+◌, ◌<◌, ◌^◌, Some, None, [], ◌++◌, length, replicate, get_or, slice_set, IsSome, IfOk, OnOk};
ghost use Rattle.std.specs.Prelude.{OnErr};
ghost use Rattle.std.specs.Borrow.{Lends, sem};
ghost use Rattle.std.specs.contracts.option.Option.{the_row};

use crate::filling::fill_up;
use ptl_types::NoMemory;
use std::alloc::Global;
use std::marker::Model;
use std::mem;

/// The row. All places lie side by side, so a place is found by its number. Room for all is taken when it is made, and no page of it
/// is touched beyond the highest place that ever held a value.
#[derive(Drop)]
pub struct Block<T> {
    places: Vec<Option<T>>,
    len: usize,
}

impl<T> Model for Block<T> {
    ghost use Rattle.std.specs.Prelude.{◌≤◌, List, Option, None, length, vec_capacity};
    ghost use Rattle.std.specs.Coded.{coded_list, coded_option};
    ghost use Rattle.chain_list.specs.Places.{filled_up};

    ghost Value = { List (Option T) };

    ghost coded = { coded_list (coded_option T.code) };

    ghost view = { λ b. filled_up b.places.items b.len None };

    ghost invariant = { λ b. (length b.places.items ≤ b.len) × (b.len ≤ vec_capacity b.places) };
}

/// The value of a place that holds one, to write to.
fn held_mut<T>(place: &mut Option<T>) -> &mut T
    requires { IsSome place.old }
    ensures* writes_back { sem 𝓛 (Lends (the_row T.row) T.row place.entry result Some) }
    ensures value { place.old ≡ Some result.now }
{
    match place {
        Some(item) => item,
        None => unreachable!(),
    }
}

/// Puts a value into an empty place.
fn fill_place<T>(place: &mut Option<T>, item: T)
    requires { place.old ≡ None }
    ensures { place.new ≡ Some item }
{
    match mem::replace(place, Some(item)) {
        None => {}
        Some(_held) => unreachable!(),
    }
}

impl<T> Block<T> {
    ghost use Rattle.chain_list.specs.BlockLends.{lends_place};

    /// No places, which take no memory.
    pub(crate) fn new(alloc: Global) -> Block<T>
        ensures { result ≡ [] }
    {
        Block {
            places: Vec::new(alloc),
            len: 0,
        }
    }

    /// A row of `len` empty places.
    pub(crate) fn with_len(alloc: Global, len: usize) -> Result<Block<T>, NoMemory>
        ensures { IfOk result (λ b. b ≡ replicate len None) }
    {
        let Ok(places) = Vec::with_capacity(alloc, len) else {
            return Err(NoMemory);
        };
        Ok(Block { places, len })
    }

    /// How many places there are.
    pub(crate) fn len(&self) -> usize
        ensures { result ≡ length self.now }
    {
        self.len
    }

    /// Adds empty places. Where there is no memory, all is as it was.
    pub(crate) fn grow(&mut self, more: usize) -> Result<(), NoMemory>
        requires { length self.old + more < 2 ^ 32 }
        ensures ok { OnOk result (self.new ≡ self.old ++ replicate more None) }
        ensures err { OnErr result (self.new ≡ self.old) }
    {
        let missing = self.len - self.places.len() + more;
        let Ok(()) = self.places.reserve(missing) else {
            return Err(NoMemory);
        };
        self.len += more;
        Ok(())
    }

    /// Puts a value into an empty place.
    pub(crate) fn put(&mut self, place: usize, item: T)
        requires within { place < length self.old }
        requires empty { get_or self.old place None ≡ None }
        ensures { self.new ≡ slice_set self.old place (Some item) }
    {
        if place < self.places.len() {
            fill_place(&mut self.places[place], item);
        } else {
            fill_up(&mut self.places, place);
            self.places.push_reserved(Some(item));
        }
    }

    /// Takes the value out of a place.
    pub(crate) fn take(&mut self, place: usize) -> T
        requires { IsSome (get_or self.old place None) }
        ensures value { get_or self.old place None ≡ Some result }
        ensures places { self.new ≡ slice_set self.old place None }
    {
        match self.places[place].take() {
            Some(item) => item,
            None => unreachable!(),
        }
    }

    /// The value of a place.
    pub(crate) fn get(&self, place: usize) -> &T
        requires { IsSome (get_or self.now place None) }
        ensures { get_or self.now place None ≡ Some result.now }
    {
        match &self.places[place] {
            Some(item) => item,
            None => unreachable!(),
        }
    }

    /// The value of a place, to write to.
    pub(crate) fn get_mut(&mut self, place: usize) -> &mut T
        requires { IsSome (get_or self.old place None) }
        ensures* writes_back { sem 𝓛 (lends_place T.row self.entry place result) }
        ensures value { get_or self.old place None ≡ Some result.now }
    {
        held_mut(&mut self.places[place])
    }
}
