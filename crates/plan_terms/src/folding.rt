//! The places of a cell whose bytes are combined.

ghost use Rattle.std.specs.Prelude.{◌≡◌, ◌<◌, ◌≤◌, ◌+◌, ◌*◌, [], ℕ, All, Some, true, length, get_or, map, replicate, IfOk, OnOk};
ghost use Rattle.ptl_types.specs.Elements.{part};
ghost use Rattle.ptl_types.specs.Operations.{bytes_of};
ghost use Rattle.plan_core.specs.Plan.{cell};
ghost use Rattle.plan_core.specs.Values.{land_all, land_as};
ghost use Rattle.plan_terms.specs.terms.Terms.{IsSolution, Keeps, Lists};
ghost use Rattle.plan_terms.specs.terms.Folds.{AreCombined, AreFoldsBytes, folds_bytes};
ghost use Rattle.plan_terms.specs.Cells.{ComesTo, carried_from};

use crate::next_cell::NextCell;
use crate::places::{Places, carried, is_within, push_run};
use crate::terms::{Members, TermFault, Terms};
use plan_core::reading::{cell_at, link_at};
use plan_core::{Cell, Link, LinkKind, Plan};
use ptl_types::{AtomicOp, ElemType};
use std::alloc::{AllocError, Global};

/// A cell with the operation by which it is combined.
#[derive(Clone, Copy)]
struct FoldedCell {
    cell: Cell,
    op: AtomicOp,
}

/// So many folds of nothing yet.
pub(crate) fn none_yet(alloc: Global, count: u64) -> Result<Vec<Members>, AllocError>
    ensures { IfOk result (λ v. v.items ≡ replicate count []) }
{
    let mut folds = Vec::with_capacity(alloc, count as usize)?;
    for _i in 0..count {
        folds.push(Members::new(alloc))?;
    }
    Ok(folds)
}

/// The places of an element of a size.
fn element(places: &[u32], i: usize, size: usize) -> &[u32]
    requires { i * size + size ≤ length places.now }
    ensures { result.now ≡ part (i * size) size places.now }
{
    let from = i * size;
    &places[from..from + size]
}

/// Combines each fold with the element at its place.
fn land_elements(
    terms: &mut Terms,
    alloc: Global,
    op: AtomicOp,
    ty: ElemType,
    folds: &mut [Members],
    places: &[u32],
) -> Result<(), TermFault>
    requires { length places.now ≡ length folds.old * bytes_of ty }
    ensures keeps { Keeps terms.old terms.new }
    ensures combined { OnOk result (AreCombined terms.new op ty folds.old folds.new places.now) }
{
    let size = ty.size() as usize;
    for i in 0..folds.len() {
        let word = terms.word_of(alloc, element(places, i, size))?;
        terms.combine(alloc, op, ty, &mut folds[i], word)?;
    }
    Ok(())
}

/// Whether a length is that of so many elements of a size.
fn is_so_many(length: u64, count: u64, size: u64) -> bool
    requires { 0 < size }
    ensures { result ≡ true → length ≡ count * size }
{
    length / size == count && length % size == 0
}

/// Whether an atomic is over the whole of a cell of so many elements, out of one of the cells before it.
fn is_whole(link: &Link, count: usize, ty: ElemType, before: &[Places]) -> bool
    ensures begins { result ≡ true → link.now.target_offset ≡ 0 }
    ensures long { result ≡ true → link.now.length ≡ count * bytes_of ty }
    ensures source { result ≡ true → link.now.source < length before.now }
    ensures within { result ≡ true → link.now.source_offset + link.now.length ≤ length (get_or before.now link.now.source []) }
{
    link.target_offset == 0
        && is_so_many(link.length, count as u64, ty.size())
        && is_within(link, before)
}

/// What a link does to the folds of its target. An atomic is over the whole cell.
fn land_atomic(
    terms: &mut Terms,
    alloc: Global,
    target: FoldedCell,
    folds: &mut [Members],
    link: &Link,
    before: &[Places],
) -> Result<(), TermFault>
    requires { target.cell.op ≡ Some target.op }
    ensures keeps { Keeps terms.old terms.new }
    ensures landed { OnOk result ((inputs : Lists) (V : ℕ → ℕ) → IsSolution terms.new inputs V →
        folds_bytes V target.op target.cell.ty folds.new ≡ land_as link.now.kind target.cell link.now.target_offset
        (map V (part link.now.source_offset link.now.length (get_or before.now link.now.source [])))
        (folds_bytes V target.op target.cell.ty folds.old)) }
{
    match link.kind {
        LinkKind::Put => Err(TermFault::Unfit),
        LinkKind::Atomic => {
            if !is_whole(link, folds.len(), target.cell.ty, before) {
                return Err(TermFault::Unfit);
            }
            land_elements(
                terms,
                alloc,
                target.op,
                target.cell.ty,
                folds,
                carried(link, before),
            )
        }
        LinkKind::Bump => Ok(()),
    }
}

/// What these links do to the folds of their target, the next cell, one after the other.
pub(crate) fn land_atomics(
    terms: &mut Terms,
    alloc: Global,
    next: NextCell,
    op: AtomicOp,
    folds: &mut [Members],
    links: &[u32],
) -> Result<(), TermFault>
    requires cell { next.number < length next.plan.now.cells }
    requires op { (cell next.plan.now next.number).op ≡ Some op }
    requires links { All (ComesTo next.plan.now next.number) links.now }
    ensures keeps { Keeps terms.old terms.new }
    ensures landed { OnOk result ((inputs : Lists) (V : ℕ → ℕ) → IsSolution terms.new inputs V →
        folds_bytes V op (cell next.entry.plan.now next.entry.number).ty folds.new ≡
        land_all next.entry.plan.now (carried_from next.entry.plan.now (map (map V) next.entry.before.now)) links.now
        (folds_bytes V op (cell next.entry.plan.now next.entry.number).ty folds.old)) }
{
    let cell = cell_at(next.plan, next.number);
    let target = FoldedCell { cell, op };
    for l in links {
        let link = link_at(next.plan, *l);
        land_atomic(terms, alloc, target, folds, &link, next.before)?;
    }
    Ok(())
}

/// The first place of a fold's bytes, whose members are put by rising places.
fn place_in_order(
    terms: &mut Terms,
    alloc: Global,
    op: AtomicOp,
    ty: ElemType,
    fold: &Members,
) -> Result<u32, TermFault>
    ensures keeps { Keeps terms.old terms.new }
    ensures is { IfOk result (λ s. AreFoldsBytes terms.new op ty s fold.now) }
{
    let all = fold.in_order(alloc, op, ty)?;
    terms.fold_place(alloc, op, ty, all.as_slice())
}

/// The first place of a fold's bytes.
fn place_of_fold(
    terms: &mut Terms,
    alloc: Global,
    op: AtomicOp,
    ty: ElemType,
    fold: &Members,
) -> Result<u32, TermFault>
    ensures keeps { Keeps terms.old terms.new }
    ensures is { IfOk result (λ s. AreFoldsBytes terms.new op ty s fold.now) }
{
    if fold.is_settled() {
        terms.fold_place(alloc, op, ty, fold.as_slice())
    } else {
        place_in_order(terms, alloc, op, ty, fold)
    }
}

/// The places of the bytes of folds.
pub(crate) fn fold_places(
    terms: &mut Terms,
    alloc: Global,
    op: AtomicOp,
    ty: ElemType,
    folds: &[Members],
) -> Result<Vec<u32>, TermFault>
    ensures keeps { Keeps terms.old terms.new }
    ensures are { IfOk result (λ v. (inputs : Lists) (V : ℕ → ℕ) → IsSolution terms.new inputs V →
        map V v.items ≡ folds_bytes V op ty folds.now) }
{
    let size = ty.size() as u32;
    let mut places = Vec::new(alloc);
    for fold in folds {
        let first = place_of_fold(terms, alloc, op, ty, fold)?;
        push_run(&mut places, first, size)?;
    }
    Ok(places)
}
