//! The members of a fold while it is made.

ghost use Rattle.std.specs.Prelude.{ℕ, ◌≡◌, ◌≢◌, ◌<◌, ◌≤◌, ◌+◌, true, false, [], ◌∷◌, ◌++◌, suc, length, get_or, set, take, drop};
ghost use Rattle.std.specs.Prelude.{IfNone, IfOk, IfSome, OnOk};
ghost use Rattle.plan_terms.specs.terms.Folds.{AreMore, AreRising, AreUpTo, IsMore};
ghost use Rattle.plan_terms.specs.terms.Terms.{no_member};

use crate::terms::fault::TermFault;
use crate::terms::term::Member;
use crate::terms::times::times_of;
use ptl_types::{AtomicOp, ElemType};
use std::alloc::Global;
use std::marker::Model;

/// A list with so many times more members takes them one by one, and one alone always.
const FEW: usize = 16;

/// The members of a fold, in any order. Where there is no room for more, and at the end, they are put by rising places, each once.
#[derive(Drop)]
pub struct Members {
    list: Vec<Member>,
}

impl Model for Members {
    ghost use Rattle.plan_terms.specs.declared.terms.term.Member.{Member};
    ghost use Rattle.std.specs.Prelude.{List};

    ghost Value = { List Member };

    ghost view = { λ m. m.list.items };
}

/// Whether members stand by rising places, each once.
fn are_rising(list: &[Member]) -> bool
    ensures rising { result ≡ true → AreRising list.now }
    ensures several { result ≡ false → 2 ≤ length list.now }
{
    for i in 1..list.len() {
        if list[i].word <= list[i - 1].word {
            return false;
        }
    }
    true
}

impl Members {
    /// None yet.
    pub fn new(alloc: Global) -> Members
        ensures { result ≡ [] }
    {
        Members {
            list: Vec::new(alloc),
        }
    }

    /// None yet, with room for so many.
    fn with_room(alloc: Global, count: usize) -> Result<Members, TermFault>
        ensures { IfOk result (λ members. members ≡ []) }
    {
        Ok(Members {
            list: Vec::with_capacity(alloc, count)?,
        })
    }

    /// The members.
    pub fn as_slice(&self) -> &[Member]
        ensures { result.now ≡ self.now }
    {
        self.list.as_slice()
    }

    /// How many times a member is combined.
    fn times_at(&self, at: usize) -> u64
        requires { at < length self.now }
        ensures { result ≡ (get_or self.now at no_member).times }
    {
        self.list[at].times
    }

    /// The member is combined so many times.
    fn set_times(&mut self, at: usize, times: u64)
        requires { at < length self.old }
        ensures { self.new ≡ set self.old at (record { word = (get_or self.old at no_member).word; times = times }) }
    {
        let word = self.list[at].word;
        self.list[at] = Member { word, times };
    }

    /// Takes a member out.
    fn take_out(&mut self, at: usize)
        requires { at < length self.old }
        ensures { self.new ≡ take at self.old ++ drop (suc at) self.old }
    {
        self.list.remove(at);
    }

    /// Combines the word of the last member so many times more.
    fn count_up(
        &mut self,
        op: AtomicOp,
        ty: ElemType,
        at: usize,
        times: u64,
    ) -> Result<(), TermFault>
        requires { at + 1 ≡ length self.old }
        ensures more { OnOk result (IsMore op ty self.old self.new (get_or self.old at no_member).word times) }
        ensures rising { OnOk result (AreRising self.old → AreRising self.new) }
        ensures up_to { OnOk result ((word : ℕ) → AreUpTo word self.old → AreUpTo word self.new) }
    {
        match times_of(op, self.times_at(at), times) {
            None => Err(TermFault::TooMany),
            Some(kept) => {
                if kept == 0 {
                    self.take_out(at);
                } else {
                    self.set_times(at, kept);
                }
                Ok(())
            }
        }
    }

    /// Puts a member at the end.
    fn push(&mut self, member: Member) -> Result<(), TermFault>
        ensures { OnOk result (self.new ≡ self.old ++ member ∷ []) }
    {
        self.list.push(member)?;
        Ok(())
    }

    /// Adds a member at the end.
    fn put(&mut self, op: AtomicOp, ty: ElemType, member: Member) -> Result<(), TermFault>
        ensures more { OnOk result (IsMore op ty self.old self.new member.word member.times) }
        ensures put { OnOk result (self.new ≡ self.old ++ member ∷ []) }
    {
        self.push(member)
    }

    /// The last member, if its word is this one.
    fn last_of(&self, word: u32) -> Option<usize>
        ensures last { IfSome result (λ at. at + 1 ≡ length self.now) }
        ensures is { IfSome result (λ at. (get_or self.now at no_member).word ≡ word) }
        ensures none { IfNone result ((at : ℕ) → at + 1 ≡ length self.now → (get_or self.now at no_member).word ≢ word) }
    {
        let end = self.list.len();
        if end == 0 || self.list[end - 1].word != word {
            return None;
        }
        Some(end - 1)
    }

    /// Combines a word so many times more: it is that of the last member, or the new last one.
    fn append(&mut self, op: AtomicOp, ty: ElemType, member: Member) -> Result<(), TermFault>
        ensures more { OnOk result (IsMore op ty self.old self.new member.word member.times) }
        ensures rising { OnOk result (AreRising self.old → AreUpTo member.word self.old → AreRising self.new) }
        ensures up_to { OnOk result (AreUpTo member.word self.old → AreUpTo member.word self.new) }
    {
        match self.last_of(member.word) {
            Some(at) => self.count_up(op, ty, at, member.times),
            None => self.put(op, ty, member),
        }
    }

    /// Whether the members stand by rising places, each once.
    pub(crate) fn is_settled(&self) -> bool
        ensures { result ≡ true → AreRising self.now }
    {
        are_rising(self.list.as_slice())
    }

    /// The members by rising places, each once. It takes the order of n log n steps.
    pub(crate) fn in_order(
        &self,
        alloc: Global,
        op: AtomicOp,
        ty: ElemType,
    ) -> Result<Members, TermFault>
        ensures more { IfOk result (λ all. AreMore op ty self.now all []) }
        ensures rising { IfOk result (λ all. AreRising all) }
    {
        settled(alloc, op, ty, self.list.as_slice())
    }

    /// Puts the members by rising places, each once.
    #[tactic(auto, using(crate::proofs::terms::Folds::no_more))]
    fn settle(&mut self, alloc: Global, op: AtomicOp, ty: ElemType) -> Result<(), TermFault>
        ensures more { OnOk result (AreMore op ty self.old self.new []) }
        ensures rising { OnOk result (AreRising self.new) }
    {
        if self.is_settled() {
            return Ok(());
        }
        *self = self.in_order(alloc, op, ty)?;
        Ok(())
    }

    /// Takes room for as many members again, where there isn't.
    fn make_room(&mut self) -> Result<(), TermFault>
        ensures { OnOk result (self.new ≡ self.old) }
    {
        self.list.reserve(self.list.len())?;
        Ok(())
    }

    /// Where there is no room for a further member, puts them by rising places, each once, and sees that there is room for as many again:
    /// so before this is done once more at least half of the members are new.
    #[tactic(auto, using(crate::proofs::terms::Folds::no_more))]
    fn settle_full(&mut self, alloc: Global, op: AtomicOp, ty: ElemType) -> Result<(), TermFault>
        ensures { OnOk result (AreMore op ty self.old self.new []) }
    {
        if self.list.len() < self.list.capacity() {
            return Ok(());
        }
        self.settle(alloc, op, ty)?;
        self.make_room()
    }

    /// Combines a word so many times more.
    pub(crate) fn add(
        &mut self,
        alloc: Global,
        op: AtomicOp,
        ty: ElemType,
        member: Member,
    ) -> Result<(), TermFault>
        ensures { OnOk result (IsMore op ty self.old self.new member.word member.times) }
    {
        self.settle_full(alloc, op, ty)?;
        self.append(op, ty, member)
    }

    /// Combines the words of these members, which are few, as many times as they say.
    fn add_each(
        &mut self,
        alloc: Global,
        op: AtomicOp,
        ty: ElemType,
        members: &[Member],
    ) -> Result<(), TermFault>
        ensures { OnOk result (AreMore op ty self.old self.new members.now) }
    {
        for member in members {
            self.add(alloc, op, ty, *member)?;
        }
        Ok(())
    }

    /// Joins the members with these. All stand by rising places.
    fn join(
        &mut self,
        alloc: Global,
        op: AtomicOp,
        ty: ElemType,
        members: &[Member],
    ) -> Result<(), TermFault>
        ensures { OnOk result (AreMore op ty self.old self.new members.now) }
    {
        *self = merged(alloc, op, ty, self.list.as_slice(), members)?;
        Ok(())
    }

    /// Combines the words of these members as many times as they say. They stand by rising places.
    pub(crate) fn add_all(
        &mut self,
        alloc: Global,
        op: AtomicOp,
        ty: ElemType,
        members: &[Member],
    ) -> Result<(), TermFault>
        ensures { OnOk result (AreMore op ty self.old self.new members.now) }
    {
        if members.len() <= 1 + self.list.len() / FEW {
            return self.add_each(alloc, op, ty, members);
        }
        self.settle(alloc, op, ty)?;
        self.join(alloc, op, ty, members)
    }
}

/// Whether the next member of the first list comes before that of the second.
fn is_first_next(first: &[Member], i: usize, second: &[Member], j: usize) -> bool
    requires some { i + j < length first.now + length second.now }
    requires within { j ≤ length second.now }
    ensures first { result ≡ true → i < length first.now }
    ensures second { result ≡ false → j < length second.now }
    ensures before { result ≡ true → j < length second.now →
        (get_or first.now i no_member).word ≤ (get_or second.now j no_member).word }
    ensures after { result ≡ false → i < length first.now →
        (get_or second.now j no_member).word ≤ (get_or first.now i no_member).word }
{
    if i >= first.len() {
        return false;
    }
    j >= second.len() || first[i].word <= second[j].word
}

/// The members of two lists together; by rising places, each once, where each list is so.
#[tactic(auto, using(crate::proofs::terms::Folds::one_more_member, crate::proofs::terms::Folds::one_member_before))]
fn merged(
    alloc: Global,
    op: AtomicOp,
    ty: ElemType,
    first: &[Member],
    second: &[Member],
) -> Result<Members, TermFault>
    ensures more { IfOk result (λ all. AreMore op ty first.now all second.now) }
    ensures rising { IfOk result (λ all. AreRising first.now → AreRising second.now → AreRising all) }
{
    let total = first.len() + second.len();
    let mut all = Members::with_room(alloc, total)?;
    let mut i = 0usize;
    let mut j = 0usize;
    for _k in 0..total {
        if is_first_next(first, i, second, j) {
            all.append(op, ty, first[i])?;
            i += 1;
        } else {
            all.append(op, ty, second[j])?;
            j += 1;
        }
    }
    Ok(all)
}

/// The members of two lists together; by rising places, each once, where each list is so.
fn joined(
    alloc: Global,
    op: AtomicOp,
    ty: ElemType,
    first: &Members,
    second: &Members,
) -> Result<Members, TermFault>
    ensures more { IfOk result (λ all. AreMore op ty first.now all second.now) }
    ensures rising { IfOk result (λ all. AreRising first.now → AreRising second.now → AreRising all) }
{
    merged(alloc, op, ty, first.as_slice(), second.as_slice())
}

/// The first half of a list, and the rest.
fn halves(list: &[Member]) -> (&[Member], &[Member])
    requires { 2 ≤ length list.now }
    ensures together { list.now ≡ result.0.now ++ result.1.now }
    ensures first { length result.0.now < length list.now }
    ensures second { length result.1.now < length list.now }
{
    list.split_at(list.len() / 2)
}

/// The same members.
fn copied(alloc: Global, list: &[Member]) -> Result<Members, TermFault>
    ensures { IfOk result (λ all. all ≡ list.now) }
{
    Ok(Members {
        list: Vec::from_slice(alloc, list)?,
    })
}

/// The members of a list by rising places, each once.
fn settled(alloc: Global, op: AtomicOp, ty: ElemType, list: &[Member]) -> Result<Members, TermFault>
    ensures more { IfOk result (λ all. AreMore op ty list.now all []) }
    ensures rising { IfOk result (λ all. AreRising all) }
{
    if are_rising(list) {
        return copied(alloc, list);
    }
    let (first, second) = halves(list);
    let early = settled(alloc, op, ty, first)?;
    let late = settled(alloc, op, ty, second)?;
    joined(alloc, op, ty, &early, &late)
}
