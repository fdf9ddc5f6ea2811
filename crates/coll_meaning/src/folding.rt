//! What collectives make of the members' lists: folds, concatenations and blocks.

ghost use Rattle.std.specs.Prelude.{◌≡◌, ◌++◌, ◌<◌, ◌≤◌, ◌+◌, ◌%◌, ◌*◌, ◌/◌, ℕ, [], suc, length, map, get_or, IfOk, OnOk};
ghost use Rattle.number_lists.specs.Numbers.{from_to};
ghost use Rattle.ptl_types.specs.Elements.{combined};
ghost use Rattle.ptl_types.specs.Operations.{bytes_of};
ghost use Rattle.coll_shape.specs.Folding.{at, reduced, joined_lists, block, exchanged};
ghost use Rattle.coll_meaning.specs.Lengths.{AreEven};

use crate::buffers::Taken;
use crate::lists::ByteList;
use lane_ops::{combine, start_values};
use ptl_types::{AtomicOp, ElemType};
use std::alloc::{AllocError, Global};

/// A copy of a list.
pub fn copied(alloc: Global, list: &[u8]) -> Result<ByteList, AllocError>
    ensures { IfOk result (λ copy. copy ≡ list.now) }
{
    Ok(ByteList::of(Vec::from_slice(alloc, list)?))
}

/// The bytes of all lists together, for which room is taken at once.
fn bytes_of_all(xs: &Taken) -> usize {
    let mut bytes = 0usize;
    for i in 0..xs.len() {
        bytes = bytes.saturating_add(xs.list(i).len());
    }
    bytes
}

/// All lists, one after the other in order of places.
#[tactic(auto, using(crate::proofs::Rows::flat_more))]
pub fn joined(alloc: Global, xs: &Taken) -> Result<ByteList, AllocError>
    ensures { IfOk result (λ list. list ≡ joined_lists xs.now) }
{
    let mut bytes = Vec::with_capacity(alloc, bytes_of_all(xs))?;
    for i in 0..xs.len() {
        bytes.extend_from_slice(xs.list(i))?;
    }
    Ok(ByteList::of(bytes))
}

/// A list of starting values, as long as the members' lists.
fn started(alloc: Global, op: AtomicOp, ty: ElemType, xs: &Taken) -> Result<Vec<u8>, AllocError>
    requires { length (at xs.now 0) % bytes_of ty ≡ 0 }
    ensures { IfOk result (λ list. list.items ≡ reduced op ty 0 xs.now) }
{
    let mut list = vec![in alloc; 0u8; xs.list(0).len()]?;
    start_values(op, ty, &mut list);
    Ok(list)
}

/// The fold so far with one list more.
#[tactic(auto, using(crate::proofs::Folds::written_whole, crate::proofs::Folds::length_of_combined))]
fn combine_next(op: AtomicOp, ty: ElemType, so_far: &mut Vec<u8>, list: &[u8])
    requires same { length so_far.old.items ≡ length list.now }
    requires whole { length so_far.old.items % bytes_of ty ≡ 0 }
    ensures { so_far.new.items ≡ combined op ty so_far.old.items list.now }
{
    combine(op, ty, so_far.as_mut_slice(), list);
}

/// The elementwise fold of all lists in order of places.
#[tactic(auto, using(crate::proofs::Folds::fold_by_fold))]
pub fn reduced(
    alloc: Global,
    op: AtomicOp,
    ty: ElemType,
    xs: &Taken,
) -> Result<ByteList, AllocError>
    requires { AreEven ty xs.now }
    ensures { IfOk result (λ list. list ≡ reduced op ty (length xs.now) xs.now) }
{
    let mut so_far = started(alloc, op, ty, xs)?;
    for i in 0..xs.len() {
        combine_next(op, ty, &mut so_far, xs.list(i));
    }
    Ok(ByteList::of(so_far))
}

/// For each of the first `count` places the fold of the lists up to its own, after what is there.
#[tactic(auto, using(crate::proofs::Rows::row_more, crate::proofs::Folds::fold_by_fold))]
pub fn push_folds(
    alloc: Global,
    op: AtomicOp,
    ty: ElemType,
    xs: &Taken,
    count: usize,
    folds: &mut Vec<ByteList>,
) -> Result<(), AllocError>
    requires even { AreEven ty xs.now }
    requires at_most { count ≤ length xs.now }
    ensures { OnOk result (folds.new.items ≡ folds.old.items ++ map (λ i. reduced op ty (suc i) xs.now) (from_to 0 count)) }
{
    let mut so_far = started(alloc, op, ty, xs)?;
    for i in 0..count {
        combine_next(op, ty, &mut so_far, xs.list(i));
        folds.push(copied(alloc, so_far.as_slice())?)?;
    }
    Ok(())
}

/// Block i of a list that has one for each of m places.
fn block(m: usize, i: usize, list: &[u8]) -> &[u8]
    requires { i < m }
    ensures { result.now ≡ block m i list.now }
{
    let size = list.len() / m;
    let from = i * size;
    &list[from..from + size]
}

/// Each block of a list that has one for each of m places.
#[tactic(auto, using(crate::proofs::Rows::row_more, crate::proofs::Rows::row_get))]
pub fn blocks(alloc: Global, m: usize, list: &[u8]) -> Result<Vec<ByteList>, AllocError>
    ensures { IfOk result (λ lists. (i : ℕ) → i < m → get_or lists.items i [] ≡ block m i list.now) }
{
    let mut lists = Vec::with_capacity(alloc, m)?;
    for i in 0..m {
        lists.push(copied(alloc, block(m, i, list))?)?;
    }
    Ok(lists)
}

/// Block i of each list, in order of places.
#[tactic(auto, using(crate::proofs::Rows::flat_more))]
fn exchanged(alloc: Global, xs: &Taken, i: usize) -> Result<ByteList, AllocError>
    requires even { (q : ℕ) → q < length xs.now → length (at xs.now q) ≡ length (at xs.now 0) }
    requires place { i < length xs.now }
    ensures { IfOk result (λ list. list ≡ exchanged xs.now i) }
{
    let mut bytes = Vec::with_capacity(alloc, xs.list(i).len())?;
    for q in 0..xs.len() {
        bytes.extend_from_slice(block(xs.len(), i, xs.list(q)))?;
    }
    Ok(ByteList::of(bytes))
}

/// What each place gets of an exchange of blocks.
#[tactic(auto, using(crate::proofs::Rows::row_more, crate::proofs::Rows::row_get))]
pub fn all_exchanged(alloc: Global, xs: &Taken) -> Result<Vec<ByteList>, AllocError>
    requires { (q : ℕ) → q < length xs.now → length (at xs.now q) ≡ length (at xs.now 0) }
    ensures { IfOk result (λ lists. (i : ℕ) → i < length xs.now → get_or lists.items i [] ≡ exchanged xs.now i) }
{
    let mut lists = Vec::with_capacity(alloc, xs.len())?;
    for i in 0..xs.len() {
        lists.push(exchanged(alloc, xs, i)?)?;
    }
    Ok(lists)
}
