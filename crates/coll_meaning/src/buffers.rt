//! The buffers of a description while its steps are made.

ghost use Rattle.std.specs.Prelude.{◌≡◌, ◌++◌, ◌∷◌, ◌<◌, ◌^◌, [], List, ℕ, OnOk, length, get_or};
ghost use Rattle.coll_shape.specs.Folding.{at};
ghost use Rattle.coll_shape.specs.Meaning.{lists_of, taken};

use crate::lists::RankLists;
use coll_shape::Inputs;
use ptl_types::Rank;
use std::alloc::{AllocError, Global};
use std::marker::Model;

/// The buffers of a description by their numbers, the inputs first: of each the ranks' lists in rank order. The inputs'
/// lists are the caller's.
#[derive(Drop)]
pub struct Buffers<'a> {
    inputs: &'a Inputs,
    count: u32,
    ranks: u32,
    made: Vec<RankLists>,
}

impl<'a> Model for Buffers<'a> {
    ghost use Rattle.std.specs.Prelude.{◌≡◌, ◌<◌, ◌++◌, [], List, ℕ, length, get_or};

    ghost Value = { List (List (List ℕ)) };

    ghost view = { λ b. b.inputs.now ++ b.made.items };

    ghost invariant = { λ b. (length b.inputs.now ≡ b.count) × ((i : ℕ) → i < b.count → length (get_or b.inputs.now i []) ≡ b.ranks) };
}

impl<'a> Buffers<'a> {
    /// The inputs alone: so many, each with a list for each of so many ranks. It takes no memory.
    pub(crate) fn of(alloc: Global, inputs: &'a Inputs, count: u32, ranks: u32) -> Buffers<'a>
        requires many { length inputs.now ≡ count }
        requires ranks { (i : ℕ) → i < count → length (get_or inputs.now i []) ≡ ranks }
        ensures { result ≡ inputs.now }
    {
        Buffers {
            inputs,
            count,
            ranks,
            made: Vec::new(alloc),
        }
    }

    /// How many buffers there are.
    pub fn count(&self) -> usize
        requires { length self.now < 2 ^ 32 }
        ensures value { result ≡ length self.now }
    {
        self.count as usize + self.made.len()
    }

    /// The bytes of a buffer's list at a rank: its elements in order, each little-endian. The list is empty where there is no
    /// such buffer or no such rank. It takes no memory.
    pub fn list(&self, buffer: u32, r: Rank) -> &[u8]
        ensures value { result.now ≡ at (lists_of self.now buffer) r }
    {
        if buffer < self.count {
            if r < self.ranks {
                self.inputs.list(buffer, r)
            } else {
                &[]
            }
        } else {
            match self.made.get((buffer - self.count) as usize) {
                Some(made) => made.list(r),
                None => &[],
            }
        }
    }

    /// Adds a buffer.
    ///
    /// # Errors
    ///
    /// There was no memory.
    pub(crate) fn push(&mut self, made: RankLists) -> Result<(), AllocError>
        ensures { OnOk result (self.new ≡ self.old ++ made ∷ []) }
    {
        self.made.push(made)?;
        Ok(())
    }

    /// Lets a buffer go that a step made. The caller's inputs stay.
    pub(crate) fn let_go(&mut self, alloc: Global, buffer: u32)
        ensures others { (b : ℕ) → (b ≡ buffer → ⊥) → lists_of self.new b ≡ lists_of self.old b }
        ensures many { length self.new ≡ length self.old }
    {
        if self.count <= buffer && ((buffer - self.count) as usize) < self.made.len() {
            self.made[(buffer - self.count) as usize] = RankLists::nothing(alloc);
        }
    }
}

/// What a step reads: the lists of a buffer at the members of a group.
#[derive(Drop)]
pub struct Taken<'a> {
    held: &'a Buffers<'a>,
    buffer: u32,
    group: &'a [Rank],
}

impl<'a> Model for Taken<'a> {
    ghost use Rattle.std.specs.Prelude.{List, ℕ};
    ghost use Rattle.coll_shape.specs.Meaning.{lists_of, taken};

    ghost Value = { List (List ℕ) };

    ghost view = { λ t. taken t.group.now (lists_of t.held.now t.buffer) };
}

impl<'a> Taken<'a> {
    /// The lists of a buffer at these members.
    pub fn of(held: &'a Buffers<'a>, buffer: u32, group: &'a [Rank]) -> Taken<'a>
        ensures { result ≡ taken group.now (lists_of held.now buffer) }
    {
        Taken {
            held,
            buffer,
            group,
        }
    }

    /// How many lists there are.
    pub fn len(&self) -> usize
        ensures { result ≡ length self.now }
    {
        self.group.len()
    }

    /// The list at a place. It is empty where there is no such place.
    pub fn list(&self, place: usize) -> &[u8]
        ensures { result.now ≡ at self.now place }
    {
        match self.group.get(place) {
            Some(r) => self.held.list(self.buffer, *r),
            None => &[],
        }
    }
}
