//! The words at places, and folds of them.

ghost use Rattle.std.specs.Prelude.{◌≡◌, ◌<◌, ◌≤◌, ◌+◌, ◌*◌, true, length, get_or, map, IfOk, IfSome, OnOk};
ghost use Rattle.number_lists.specs.Numbers.{from_to};
ghost use Rattle.plan_terms.specs.terms.Terms.{Keeps, no_term};
ghost use Rattle.plan_terms.specs.declared.terms.term.Member.{Member};
ghost use Rattle.plan_terms.specs.terms.Folds.{AreFoldsBytes, IsCombined, IsFoldAt, IsWordOf};

use crate::terms::fault::TermFault;
use crate::terms::members::Members;
use crate::terms::table::Terms;
use crate::terms::term::{Making, Member};
use crate::terms::times::is_plain;
use ptl_types::{AtomicOp, ElemType};
use std::alloc::{AllocError, Global};

/// Whether places follow one another from a first one on.
fn are_from(first: u32, places: &[u32]) -> bool
    ensures { result ≡ true → places.now ≡ from_to first (length places.now) }
{
    for k in 0..places.len() {
        if u64::from(places[k]) != u64::from(first) + k as u64 {
            return false;
        }
    }
    true
}

/// Each place as a member.
fn members_of(alloc: Global, places: &[u32]) -> Result<Vec<Member>, AllocError>
    ensures { IfOk result (λ v. map (λ (m : Member). m.word) v.items ≡ places.now) }
{
    let mut members = Vec::with_capacity(alloc, places.len())?;
    for place in places {
        members.push(Member {
            word: *place,
            times: 1,
        })?;
    }
    Ok(members)
}

impl Terms {
    /// The word of an element whose bytes stand at these places.
    pub fn word_of(&mut self, alloc: Global, places: &[u32]) -> Result<u32, TermFault>
        requires some { 0 < length places.now }
        requires few { length places.now ≤ 8 }
        ensures keeps { Keeps self.old self.new }
        ensures is { IfOk result (λ s. IsWordOf self.new s places.now) }
    {
        let first = places[0];
        if are_from(first, places) {
            return Ok(first);
        }
        let members = members_of(alloc, places)?;
        self.place_of(alloc, Making::Bytes, members.as_slice())
    }

    /// The number of the term whose first place this is.
    fn term_at(&self, place: u32) -> Option<u32>
        ensures { IfSome result (λ r. place ≡ self.now.cells * self.now.stride + 8 * r) }
    {
        let base = self.base();
        let place = u64::from(place);
        if base <= place && (place - base) % 8 == 0 {
            Some(((place - base) / 8) as u32)
        } else {
            None
        }
    }

    /// Whether a term is a fold by this operation.
    fn is_fold(&self, op: AtomicOp, ty: ElemType, r: u32) -> bool
        ensures known { result ≡ true → r < length self.now.terms }
        ensures is { result ≡ true → (get_or self.now.terms r no_term).making ≡ Making.Fold op ty }
    {
        match self.making(r) {
            Some(Making::Fold(by, of)) => by == op && of == ty,
            _ => false,
        }
    }

    /// The number of the term that a word is, if that is a fold by this operation.
    fn fold_at(&self, op: AtomicOp, ty: ElemType, word: u32) -> Option<u32>
        ensures known { IfSome result (λ r. r < length self.now.terms) }
        ensures is { IfSome result (λ r. IsFoldAt self.now op ty word (get_or self.now.terms r no_term).members) }
    {
        match self.term_at(word) {
            Some(r) => {
                if self.is_fold(op, ty, r) {
                    Some(r)
                } else {
                    None
                }
            }
            None => None,
        }
    }

    /// Combines a fold with a word. Where that is itself a fold by the same operation its members are.
    pub fn combine(
        &self,
        alloc: Global,
        op: AtomicOp,
        ty: ElemType,
        members: &mut Members,
        word: u32,
    ) -> Result<(), TermFault>
        ensures { OnOk result (IsCombined self.now op ty members.old members.new word) }
    {
        match self.fold_at(op, ty, word) {
            Some(r) => members.add_all(alloc, op, ty, self.members(r)),
            None => members.add(alloc, op, ty, Member { word, times: 1 }),
        }
    }

    /// The first place of a fold's bytes.
    pub fn fold_place(
        &mut self,
        alloc: Global,
        op: AtomicOp,
        ty: ElemType,
        members: &[Member],
    ) -> Result<u32, TermFault>
        ensures keeps { Keeps self.old self.new }
        ensures is { IfOk result (λ s. AreFoldsBytes self.new op ty s members.now) }
    {
        match members {
            [member] if member.times == 1 && is_plain(op) => Ok(member.word),
            _ => self.place_of(alloc, Making::Fold(op, ty), members),
        }
    }
}
