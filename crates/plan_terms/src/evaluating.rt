//! The places of the bytes of all cells.

ghost use Rattle.std.specs.Prelude.{◌≡◌, ◌<◌, ◌≤◌, ◌+◌, ◌-◌, ◌*◌, ◌^◌, ◌&&◌, [], ℕ, List, All, Some, IfOk, OnOk, length, get_or, map};
ghost use Rattle.std.specs.Prelude.{nat_le, nat_lt};
ghost use Rattle.std.specs.Prelude.{true, false};
ghost use Rattle.plan_core.specs.Plan.{all_cells, cell, in_links};
ghost use Rattle.plan_core.specs.Values.{is_input, land_all};
ghost use Rattle.plan_terms.specs.terms.Terms.{Keeps, Lists};
ghost use Rattle.plan_terms.specs.Cells.{AreCells, AreInitial, ComesTo, IsNext, Suits, carried_from};

use crate::folding::{fold_places, land_atomics, none_yet};
use crate::next_cell::NextCell;
use crate::places::{Places, input, land, zeros};
use crate::terms::{TermFault, Terms};
use plan_core::reading::{cell_at, cell_count, link_at};
use plan_core::{Cell, Plan};
use plan_judge::links_by_target;
use plan_tables::ByRank;
use ptl_types::AtomicOp;
use std::alloc::Global;
use std::marker::Model;

/// The places of each cell's bytes, by the cells' numbers.
#[derive(Drop)]
pub struct CellPlaces {
    cells: Vec<Places>,
}

impl Model for CellPlaces {
    ghost use Rattle.std.specs.Prelude.{List, ℕ};

    ghost Value = { List (List ℕ) };

    ghost view = { λ v. v.cells.items };
}

impl CellPlaces {
    /// The places of one cell; none, where there is no such cell.
    pub fn cell(&self, c: u32) -> &[u32]
        ensures { result.now ≡ get_or self.now c [] }
    {
        match self.cells.get(c as usize) {
            Some(places) => places.as_slice(),
            None => &[],
        }
    }
}

/// Whether a cell is one of the input cells, of which there are so many a rank after the go cells.
fn is_input(ranks: u32, count: u32, c: u32) -> bool
    ensures { result ≡ (nat_le ranks c && nat_lt c (ranks + count * ranks)) }
{
    ranks <= c && u64::from(c) < u64::from(ranks) + u64::from(count) * u64::from(ranks)
}

/// What these links, none of which is an atomic, do to the places of their target, cell c, one after the other.
fn land_all(
    places: &mut [u32],
    plan: &Plan,
    before: &[Places],
    c: u32,
    links: &[u32],
) -> Result<(), TermFault>
    requires { All (ComesTo plan.now c) links.now }
    ensures { OnOk result ((V : ℕ → ℕ) → map V places.new ≡
        land_all plan.now (carried_from plan.now (map (map V) before.now)) links.now (map V places.old)) }
{
    for l in links {
        land(places, &link_at(plan, *l), before)?;
    }
    Ok(())
}

/// The places of what cell c holds at the beginning, where nothing is combined there.
fn first_places(
    terms: &mut Terms,
    alloc: Global,
    plan: &Plan,
    count: u32,
    c: u32,
    target: &Cell,
) -> Result<Vec<u32>, TermFault>
    requires cell { target.now ≡ cell plan.now c }
    requires ranks { terms.old.ranks ≡ plan.now.ranks }
    requires starts { target.now.op ≡ None }
    ensures keeps { Keeps terms.old terms.new }
    ensures are { IfOk result (λ v. AreInitial plan.now count terms.new c v.items) }
{
    let ranks = plan.ranks();
    if is_input(ranks, count, c) {
        input(terms, alloc, c - ranks, target.length)
    } else {
        zeros(terms, alloc, target.length)
    }
}

/// The places of a cell in which nothing is combined.
fn put_places(
    terms: &mut Terms,
    alloc: Global,
    next: NextCell,
    target: &Cell,
    links: &[u32],
) -> Result<Places, TermFault>
    requires cell { target.now ≡ cell next.plan.now next.number }
    requires ranks { terms.old.ranks ≡ next.plan.now.ranks }
    requires starts { target.now.op ≡ None }
    requires comes { All (ComesTo next.plan.now next.number) links.now }
    requires links { links.now ≡ in_links next.plan.now next.number }
    ensures keeps { Keeps terms.old terms.new }
    ensures is { IfOk result (λ v. IsNext next.entry.plan.now next.entry.count terms.new next.entry.number next.entry.before.now v) }
{
    let mut places = first_places(terms, alloc, next.plan, next.count, next.number, target)?;
    land_all(&mut places, next.plan, next.before, next.number, links)?;
    Ok(Places { list: places })
}

/// The places of a cell in which something is combined, and which is no input cell.
fn folded_places(
    terms: &mut Terms,
    alloc: Global,
    next: NextCell,
    op: AtomicOp,
    links: &[u32],
) -> Result<Places, TermFault>
    requires cell { next.number < length next.plan.now.cells }
    requires op { (cell next.plan.now next.number).op ≡ Some op }
    requires other { (inputs : Lists) → length inputs ≡ next.count → is_input next.plan.now inputs next.number ≡ false }
    requires comes { All (ComesTo next.plan.now next.number) links.now }
    requires links { links.now ≡ in_links next.plan.now next.number }
    ensures keeps { Keeps terms.old terms.new }
    ensures is { IfOk result (λ v. IsNext next.entry.plan.now next.entry.count terms.new next.entry.number next.entry.before.now v) }
{
    let cell = cell_at(next.plan, next.number);
    let size = cell.ty.size();
    if cell.length % size != 0 {
        return Err(TermFault::Unfit);
    }
    let mut folds = none_yet(alloc, cell.length / size)?;
    land_atomics(terms, alloc, next, op, &mut folds, links)?;
    let places = fold_places(terms, alloc, op, cell.ty, &folds)?;
    Ok(Places { list: places })
}

/// The places of a cell, from those of the cells before it. These links come to it.
fn next_places(
    terms: &mut Terms,
    alloc: Global,
    next: NextCell,
    links: &[u32],
) -> Result<Places, TermFault>
    requires cell { next.number < length next.plan.now.cells }
    requires ranks { terms.old.ranks ≡ next.plan.now.ranks }
    requires comes { All (ComesTo next.plan.now next.number) links.now }
    requires links { links.now ≡ in_links next.plan.now next.number }
    ensures keeps { Keeps terms.old terms.new }
    ensures is { IfOk result (λ v. IsNext next.entry.plan.now next.entry.count terms.new next.entry.number next.entry.before.now v) }
{
    let cell = cell_at(next.plan, next.number);
    match cell.op {
        None => put_places(terms, alloc, next, &cell, links),
        Some(op) => {
            if is_input(next.plan.ranks(), next.count, next.number) {
                Err(TermFault::Unfit)
            } else {
                folded_places(terms, alloc, next, op, links)
            }
        }
    }
}

/// The places of each cell, cell by cell.
fn all_places(
    terms: &mut Terms,
    alloc: Global,
    plan: &Plan,
    count: u32,
    into: &ByRank,
) -> Result<Vec<Places>, TermFault>
    requires together { length plan.now.cells + length plan.now.links < 2 ^ 32 - 1 }
    requires ranks { terms.old.ranks ≡ plan.now.ranks }
    requires table { into.now ≡ map (in_links plan.now) (all_cells plan.now) }
    ensures keeps { Keeps terms.old terms.new }
    ensures are { IfOk result (λ v. AreCells plan.now count terms.new (length plan.now.cells) v.items) }
{
    let mut cells = Vec::with_capacity(alloc, cell_count(plan) as usize)?;
    for c in 0..cell_count(plan) {
        let next = NextCell {
            plan,
            count,
            number: c,
            before: cells.as_slice(),
        };
        let places = next_places(terms, alloc, next, into.at(c))?;
        cells.push(places)?;
    }
    Ok(cells)
}

/// The places of each cell of a plan that has so many inputs: for all inputs, what stands there is what the cell holds in the end.
///
/// # Errors
///
/// `Unfit` where the plan isn't sound. `TooMany` where there are too many places. Or there was no memory.
pub fn cell_places(
    terms: &mut Terms,
    alloc: Global,
    plan: &Plan,
    count: u32,
) -> Result<CellPlaces, TermFault>
    requires few { length plan.now.cells < 2 ^ 24 }
    requires together { length plan.now.cells + length plan.now.links < 2 ^ 32 - 1 }
    requires ranks { terms.old.ranks ≡ plan.now.ranks }
    ensures keeps { Keeps terms.old terms.new }
    ensures are { IfOk result (λ cells. AreCells plan.now count terms.new (length plan.now.cells) cells) }
{
    let into = links_by_target(alloc, plan)?;
    let cells = all_places(terms, alloc, plan, count, &into)?;
    Ok(CellPlaces { cells })
}
