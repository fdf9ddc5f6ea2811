//! Terms: what is computed from the bytes at some places.

ghost use Rattle.std.specs.Prelude.{◌≡◌, true};
ghost use Rattle.plan_terms.specs.terms.Terms.{read_bytes};

use ptl_types::{AtomicOp, ElemType};
use std::marker::Model;

/// A word of a fold: the elements' bytes from a place on.
#[derive(Clone, Copy, Debug, PartialEq, Eq)]
pub struct Member {
    /// The first place.
    pub word: u32,
    /// How many times it is combined.
    pub times: u64,
}

/// How a term is made of its members.
#[derive(Clone, Copy, Debug, PartialEq, Eq)]
pub enum Making {
    /// The bytes at the members' places, one after the other.
    Bytes,
    /// The fold of the members' words by an operation.
    Fold(AtomicOp, ElemType),
}

impl Making {
    /// How many bytes are read from a member's place on.
    pub(crate) fn read_bytes(self) -> u64
        ensures { result ≡ read_bytes self }
    {
        match self {
            Making::Bytes => 1,
            Making::Fold(_, ty) => ty.size(),
        }
    }
}

/// Whether two terms are made in one way.
fn same_making(a: Making, b: Making) -> bool
    ensures { result ≡ true → a ≡ b }
{
    match (a, b) {
        (Making::Bytes, Making::Bytes) => true,
        (Making::Fold(op, ty), Making::Fold(by, of)) => op == by && ty == of,
        _ => false,
    }
}

/// Whether two lists of members are the same.
fn same_members(a: &[Member], b: &[Member]) -> bool
    ensures { result ≡ true → a.now ≡ b.now }
{
    if a.len() != b.len() {
        return false;
    }
    for k in 0..a.len() {
        if a[k].word != b[k].word || a[k].times != b[k].times {
            return false;
        }
    }
    true
}

/// A term as it is kept.
#[derive(Drop)]
pub(crate) struct StoredTerm {
    making: Making,
    members: Vec<Member>,
}

impl Model for StoredTerm {
    ghost use Rattle.plan_terms.specs.terms.Terms.{Term};

    ghost Value = { Term };

    ghost view = { λ x. record { making = x.making; members = x.members.items } };
}

impl StoredTerm {
    /// The term of these members.
    pub(crate) fn of(making: Making, members: Vec<Member>) -> StoredTerm
        ensures { result ≡ record { making = making; members = members.items } }
    {
        StoredTerm { making, members }
    }

    /// How it is made.
    pub(crate) fn making(&self) -> Making
        ensures { result ≡ self.now.making }
    {
        self.making
    }

    /// Its members, by rising places.
    pub(crate) fn members(&self) -> &[Member]
        ensures { result.now ≡ self.now.members }
    {
        self.members.as_slice()
    }

    /// Whether it is the term of these members.
    pub(crate) fn is(&self, making: Making, members: &[Member]) -> bool
        ensures making { result ≡ true → self.now.making ≡ making }
        ensures members { result ≡ true → self.now.members ≡ members.now }
    {
        same_making(self.making, making) && same_members(self.members.as_slice(), members)
    }
}
