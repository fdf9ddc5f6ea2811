//! A row of places that all hold one blank value until they are written, and of which no page is touched before.
ghost use Rattle.std.specs.Prelude.{◌≡◌, [], ◌+◌, ◌-◌, ◌<◌, ◌≤◌, ◌^◌, ◌++◌, length, replicate, slice_set, slice_index_or, IfOk, OnOk};
ghost use Rattle.std.specs.Prelude.{vec_len, vec_capacity};

use ptl_types::NoMemory;
use std::alloc::Global;
use std::marker::Model;

/// The row. Room for all places is taken when it is made, but only the places up to the highest one that was written are filled,
/// since a system gives a page of memory only once it is written. Where lower places are written before higher ones, each write is
/// O(1); else the writes together cost what filling the row once does.
#[derive(Drop)]
pub struct Places<T> {
    filled: Vec<T>,
    blank: T,
    len: usize,
}

/// Makes the list as long as `len`, with the blank value in each further entry.
fn fill_with<T: Copy>(entries: &mut Vec<T>, blank: T, len: usize)
    requires order { vec_len entries.old ≤ len }
    requires room { len ≤ vec_capacity entries.old }
    ensures items { entries.new.items ≡ entries.old.items ++ replicate (len - vec_len entries.old) blank }
    ensures len { vec_len entries.new ≡ len }
    ensures capacity { vec_capacity entries.new ≡ vec_capacity entries.old }
{
    for _place in entries.len()..len {
        entries.push_reserved(blank);
    }
}

impl<T> Model for Places<T> {
    ghost use Rattle.std.specs.Prelude.{◌≤◌, ◌-◌, length, vec_capacity};
    ghost use Rattle.chain_list.specs.Places.{Placed, placed, placed_code, filled_up};

    ghost Value = { Placed T };

    ghost coded = { placed_code T.code };

    ghost view = { λ p. placed (filled_up p.filled.items p.len p.blank) (vec_capacity p.filled - p.len) };

    ghost invariant = { λ p. (length p.filled.items ≤ p.len) × (p.len ≤ vec_capacity p.filled) };
}

impl<T: Copy> Places<T> {
    /// No places, which take no memory.
    pub fn new(alloc: Global, blank: T) -> Places<T>
        ensures { result.items ≡ [] }
    {
        Places {
            filled: Vec::new(alloc),
            blank,
            len: 0,
        }
    }

    /// `len` blank places.
    pub fn open(alloc: Global, blank: T, len: usize) -> Result<Places<T>, NoMemory>
        ensures { IfOk result (λ p. p.items ≡ replicate len blank) }
    {
        let Ok(filled) = Vec::with_capacity(alloc, len) else {
            return Err(NoMemory);
        };
        Ok(Places { filled, blank, len })
    }

    /// How many places there are.
    pub fn len(&self) -> usize
        ensures { result ≡ length self.now.items }
    {
        self.len
    }

    /// What a place holds.
    pub fn get(&self, place: usize) -> &T
        requires { place < length self.now.items }
        ensures { result.now ≡ slice_index_or self.now.items place result.now }
    {
        if place < self.filled.len() {
            &self.filled[place]
        } else {
            &self.blank
        }
    }

    /// A copy of what a place holds.
    pub fn at(&self, place: usize) -> T
        requires { place < length self.now.items }
        ensures { result ≡ slice_index_or self.now.items place result }
    {
        *self.get(place)
    }

    /// Puts a value at a place.
    pub fn set(&mut self, place: usize, item: T)
        requires { place < length self.old.items }
        ensures items { self.new.items ≡ slice_set self.old.items place item }
        ensures spare { self.new.spare ≡ self.old.spare }
    {
        if place < self.filled.len() {
            self.filled[place] = item;
        } else {
            fill_with(&mut self.filled, self.blank, place);
            self.filled.push_reserved(item);
        }
    }

    /// Makes room for as many further places. Where there is no memory, all is as it was.
    pub fn reserve(&mut self, more: usize) -> Result<(), NoMemory>
        requires { length self.old.items + more < 2 ^ 32 }
        ensures items { self.new.items ≡ self.old.items }
        ensures ok { OnOk result (more ≤ self.new.spare) }
    {
        let missing = self.len - self.filled.len() + more;
        match self.filled.reserve(missing) {
            Ok(()) => Ok(()),
            Err(_) => Err(NoMemory),
        }
    }

    /// Adds places that hold another blank value, for which there is room.
    pub fn lengthen(&mut self, more: usize, blank: T)
        requires { more ≤ self.old.spare }
        ensures { self.new.items ≡ self.old.items ++ replicate more blank }
    {
        fill_with(&mut self.filled, self.blank, self.len);
        self.blank = blank;
        self.len += more;
    }
}
