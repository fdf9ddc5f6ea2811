//! The table of terms.

ghost use Rattle.std.specs.Prelude.{◌≡◌, ◌<◌, ◌≤◌, ◌+◌, ◌*◌, [], ℕ, All, true, length, get_or, IfOk, IfSome, OnOk};
ghost use Rattle.plan_terms.specs.terms.Terms.{AreBefore, Keeps, Lists, Solved, input_at, no_term, place_of_term};
ghost use Rattle.plan_terms.specs.terms.Folds.{IsPlaceOf};

use crate::terms::fault::TermFault;
use crate::terms::index::{TermIndex, hash_of};
use crate::terms::term::{Making, Member, StoredTerm};
use std::alloc::Global;
use std::marker::Model;

/// How many terms of a list are looked at. A list has few, but for terms that were sought out to have one hash. Where that isn't enough
/// the term is made anew.
const MOST_LOOKS: u32 = 64;

/// How many places there are.
const MOST_PLACES: u64 = 4_294_967_295;

/// What bytes are computed from, for all inputs. Each byte has a place, which is a number. The first places are those of the inputs'
/// bytes: as many for each input cell as the longest list has. After them each term has eight, with the bytes of its value. A term is
/// made of what stands at places before its own. Terms that are made alike are mostly one, so that bytes which are computed alike mostly
/// have one place.
#[derive(Drop)]
pub struct Terms {
    ranks: u32,
    cells: u32,
    stride: u32,
    terms: Vec<StoredTerm>,
    index: TermIndex,
}

impl Model for Terms {
    ghost use Rattle.plan_terms.specs.terms.Terms.{IsTable, Table};

    ghost Value = { Table };

    ghost view = { λ t. record { ranks = t.ranks; cells = t.cells; stride = t.stride; terms = t.terms.items } };

    ghost invariant = { λ t. IsTable (record { ranks = t.ranks; cells = t.cells; stride = t.stride; terms = t.terms.items }) };
}

/// Whether all that a term is made of stands before a place.
fn are_before(first: u64, making: Making, members: &[Member]) -> bool
    ensures { result ≡ true → AreBefore first making members.now }
{
    for member in members {
        if u64::from(member.word) + making.read_bytes() > first {
            return false;
        }
    }
    true
}

impl Terms {
    /// No terms, for the lists of so many input cells of at most so many bytes each.
    ///
    /// # Errors
    ///
    /// The lists have too many bytes, or there was no memory.
    pub fn open(alloc: Global, ranks: u32, cells: u32, stride: u32) -> Result<Terms, TermFault>
        ensures { IfOk result (λ t. t ≡ record { ranks = ranks; cells = cells; stride = stride; terms = [] }) }
    {
        if u64::from(cells) * u64::from(stride) >= MOST_PLACES {
            return Err(TermFault::TooMany);
        }
        Ok(Terms {
            ranks,
            cells,
            stride,
            terms: Vec::new(alloc),
            index: TermIndex::open(alloc)?,
        })
    }

    /// How many places an input cell has.
    pub fn stride(&self) -> u32
        ensures { result ≡ self.now.stride }
    {
        self.stride
    }

    /// How many input cells there are.
    pub fn cells(&self) -> u32
        ensures { result ≡ self.now.cells }
    {
        self.cells
    }

    /// The first place after those of the inputs.
    pub(crate) fn base(&self) -> u64
        ensures { result ≡ self.now.cells * self.now.stride }
    {
        u64::from(self.cells) * u64::from(self.stride)
    }

    /// The members of a term.
    pub(crate) fn members(&self, r: u32) -> &[Member]
        requires { r < length self.now.terms }
        ensures { result.now ≡ (get_or self.now.terms r no_term).members }
    {
        self.terms[r as usize].members()
    }

    /// How a term is made, if there is one of this number.
    pub(crate) fn making(&self, r: u32) -> Option<Making>
        ensures known { IfSome result (λ making. r < length self.now.terms) }
        ensures is { IfSome result (λ making. making ≡ (get_or self.now.terms r no_term).making) }
    {
        match self.terms.get(r as usize) {
            Some(term) => Some(term.making()),
            None => None,
        }
    }

    /// Whether term r is that of these members.
    fn is(&self, r: u32, making: Making, members: &[Member]) -> bool
        ensures known { result ≡ true → r < length self.now.terms }
        ensures is { result ≡ true → get_or self.now.terms r no_term ≡ record { making = making; members = members.now } }
    {
        match self.terms.get(r as usize) {
            Some(term) => term.is(making, members),
            None => false,
        }
    }

    /// Whether term r, which is in a list, is that of these members, by their hash first.
    fn is_listed(&self, r: u32, hash: u32, making: Making, members: &[Member]) -> bool
        ensures known { result ≡ true → r < length self.now.terms }
        ensures is { result ≡ true → get_or self.now.terms r no_term ≡ record { making = making; members = members.now } }
    {
        self.index.has_hash(r, hash) && self.is(r, making, members)
    }

    /// The number of the term of these members, if there is one among the last in its list.
    fn find(&self, making: Making, members: &[Member], hash: u32) -> Option<u32>
        ensures known { IfSome result (λ r. r < length self.now.terms) }
        ensures is { IfSome result (λ r. get_or self.now.terms r no_term ≡ record { making = making; members = members.now }) }
    {
        let mut at = self.index.last(hash);
        for _ in 0..MOST_LOOKS {
            if at as usize >= self.terms.len() {
                return None;
            }
            if self.is_listed(at, hash, making, members) {
                return Some(at);
            }
            at = self.index.earlier(at);
        }
        None
    }

    /// The first place of a term.
    fn place(&self, r: u32) -> u32
        requires { r < length self.now.terms }
        ensures { result ≡ place_of_term self.now r }
    {
        let _ = &self.terms;
        (self.base() + 8 * u64::from(r)) as u32
    }

    /// Adds a term, and tells its first place.
    fn add(
        &mut self,
        alloc: Global,
        making: Making,
        members: &[Member],
        hash: u32,
    ) -> Result<u32, TermFault>
        ensures keeps { Keeps self.old self.new }
        ensures is { IfOk result (λ s. IsPlaceOf self.new s making members.now) }
    {
        let number = self.terms.len() as u64;
        let first = self.base() + 8 * number;
        if first + 8 > MOST_PLACES || !are_before(first, making, members) {
            return Err(TermFault::TooMany);
        }
        let term = StoredTerm::of(making, Vec::from_slice(alloc, members)?);
        self.index.add(alloc, hash, number as u32)?;
        self.terms.push(term)?;
        Ok(first as u32)
    }

    /// The first place of the term of these members, which is added if it isn't found.
    pub fn place_of(
        &mut self,
        alloc: Global,
        making: Making,
        members: &[Member],
    ) -> Result<u32, TermFault>
        ensures keeps { Keeps self.old self.new }
        ensures is { IfOk result (λ s. IsPlaceOf self.new s making members.now) }
    {
        let hash = hash_of(making, members);
        match self.find(making, members, hash) {
            Some(r) => Ok(self.place(r)),
            None => self.add(alloc, making, members, hash),
        }
    }

    /// For all inputs of bytes there are bytes at the places that are theirs and the terms'.
    pub fn are_solved(&self)
        ensures { (inputs : Lists) → ((i : ℕ) → All (λ x. x < 256) (input_at self.now.ranks inputs i)) → Solved self.now inputs }
    {
        let _terms = self.terms.len();
    }
}
