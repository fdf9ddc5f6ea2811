//! Buffers as lists of bytes, one a rank.

ghost use Rattle.std.specs.Prelude.{◌≡◌, ◌<◌, [], List, ℕ};
ghost use Rattle.coll_shape.specs.Folding.{at};
ghost use Rattle.coll_meaning.specs.Forms.{form_list, rank_lists};

use coll_shape::InputList;
use ptl_types::Rank;
use std::alloc::{AllocError, Global};
use std::marker::Model;

/// A list of elements, each little-endian.
pub type ByteList = InputList;

/// The lists that a step makes. One that all members have is kept once.
#[derive(Debug, Drop)]
pub enum Form {
    /// Every place has this list.
    Same(ByteList),
    /// The place has this list, and the others have none.
    AtRoot(Rank, ByteList),
    /// Each place has its own list, in order of places.
    Each(Vec<ByteList>),
}

impl Form {
    /// The list at a place.
    fn list(&self, place: u32) -> &[u8]
        ensures { result.now ≡ form_list self.now place }
    {
        match self {
            Form::Same(list) => list.as_slice(),
            Form::AtRoot(root, list) => { if place == *root { list.as_slice() } else { &[] } }
            Form::Each(lists) => match lists.get(place as usize) {
                Some(list) => list.as_slice(),
                None => &[],
            },
        }
    }
}

/// A buffer: each rank's list.
#[derive(Debug, Drop)]
pub struct RankLists {
    form: Form,
    /// For each rank its place among the members.
    places: Vec<Option<u32>>,
}

impl Model for RankLists {
    ghost use Rattle.coll_meaning.specs.Forms.{rank_lists};
    ghost use Rattle.std.specs.Prelude.{List, ℕ};

    ghost Value = { List (List ℕ) };

    ghost view = { λ b. rank_lists b.form b.places.items };
}

impl RankLists {
    /// The lists of this form, where each rank has this place. It takes no memory.
    pub fn of(form: Form, places: Vec<Option<u32>>) -> RankLists
        ensures { result ≡ rank_lists form places.items }
    {
        RankLists { form, places }
    }

    /// A buffer that nothing needs. It takes no memory.
    pub fn nothing(alloc: Global) -> RankLists {
        RankLists {
            form: Form::Each(Vec::new(alloc)),
            places: Vec::new(alloc),
        }
    }

    /// The list at a rank, which is empty where there is no such rank.
    pub fn list(&self, r: Rank) -> &[u8]
        ensures { result.now ≡ at self.now r }
    {
        match self.places.get(r as usize) {
            Some(Some(place)) => self.form.list(*place),
            _ => &[],
        }
    }
}
