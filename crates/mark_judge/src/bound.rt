//! Whether ranks enter barriers in cells that can't be reached before their own start.

ghost use Rattle.std.specs.Prelude.{ℕ, ◌≡◌, ◌<◌, ◌+◌, ◌-◌, ◌^◌, if◌then◌else◌, None, Some, All, IfOk, length, map};
ghost use Rattle.std.specs.List.{list_any};
ghost use Rattle.number_lists.specs.Numbers.{from_to};
ghost use Rattle.mark_judge.specs.declared.flaw.MarkFlaw.TheVariants.{EarlyEntry};
ghost use Rattle.mark_judge.specs.Bound.{is_bound};
ghost use Rattle.mark_judge.specs.Due.{cell_of, mark_at};
ghost use Rattle.mark_judge.specs.Judged.{early_flaw};
ghost use Rattle.mark_judge.specs.Tables.{AreBound, does_bind, is_unbound};
ghost use Rattle.plan_core.specs.Plan.{all_cells, in_links};
ghost use Rattle.plan_core.specs.Sound.{SoundLink};
ghost use Rattle.plan_judge.specs.Causes.{first_found};

use crate::asked::mark_at;
use crate::flaw::MarkFlaw;
use given_lines::Mark;
use plan_core::reading::{cell_count, link_at};
use plan_core::{LinkKind, Plan};
use plan_judge::links_to;
use plan_tables::ByRank;
use ptl_types::NoMemory;
use std::alloc::{AllocError, Global};

/// Whether a link keeps its target from being reached before the start of the target's rank: it is a message, or comes from such a cell.
fn does_bind(plan: &Plan, before: &[bool], l: u32) -> bool
    requires { l < length plan.now.links }
    ensures { result ≡ does_bind plan.now before.now l }
{
    let link = link_at(plan, l);
    match link.kind {
        LinkKind::Bump => before.get(link.source as usize).copied().unwrap_or(false),
        LinkKind::Put | LinkKind::Atomic => true,
    }
}

/// Whether one of these links does.
fn one_binds(plan: &Plan, before: &[bool], links: &[u32]) -> bool
    requires { All (λ l. l < length plan.now.links) links.now }
    ensures { result ≡ list_any (does_bind plan.now before.now) links.now }
{
    for l in links {
        if does_bind(plan, before, *l) {
            return true;
        }
    }
    false
}

/// Whether a cell can't be reached before its rank's start, from those before it. These links come to it.
fn next_bound(plan: &Plan, before: &[bool], c: u32, links: &[u32]) -> bool
    requires rising { (l : ℕ) → l < length plan.now.links → SoundLink plan.now l }
    requires before { AreBound plan.now c before.now }
    requires links { links.now ≡ in_links plan.now c }
    ensures { result ≡ is_bound plan.now c }
{
    c < plan.ranks() || one_binds(plan, before, links)
}

/// Of each cell whether it can't be reached before its own rank's start, in one pass over the links, which rise.
fn bound_cells(alloc: Global, plan: &Plan, into: &ByRank) -> Result<Vec<bool>, AllocError>
    requires at_most { length plan.now.cells + length plan.now.links < 2 ^ 32 - 1 }
    requires links { (l : ℕ) → l < length plan.now.links → SoundLink plan.now l }
    requires table { into.now ≡ map (in_links plan.now) (all_cells plan.now) }
    ensures { IfOk result (λ bound. AreBound plan.now (length plan.now.cells) bound.items) }
{
    let mut bound = Vec::new(alloc);
    for c in 0..cell_count(plan) {
        let so = next_bound(plan, bound.as_slice(), c, links_to(plan, into, c));
        bound.push(so)?;
    }
    Ok(bound)
}

/// Whether a line names where a rank enters a step in none of the cells that this table tells.
fn is_unbound(bound: &[bool], mark: Mark) -> bool
    ensures { result ≡ is_unbound bound.now mark }
{
    match mark {
        Mark::Enter { cell, .. } => !bound.get(cell as usize).copied().unwrap_or(false),
        _ => false,
    }
}

/// The first line that names where a rank enters a step in none of the cells that this table tells.
fn first_unbound(bound: &[bool], marks: &[Mark]) -> Option<MarkFlaw>
    requires { length marks.now < 2 ^ 32 }
    ensures { result ≡ first_found (λ i. if is_unbound bound.now (mark_at marks.now i) then Some (EarlyEntry i) else None)
        (from_to 0 (length marks.now)) }
{
    for i in 0..marks.len() {
        if is_unbound(bound, mark_at(marks, i)) {
            return Some(MarkFlaw::EarlyEntry { mark: i as u32 });
        }
    }
    None
}

/// The first line that names where a rank enters a step in a cell which may be reached before that rank's start.
///
/// # Errors
///
/// There was no memory for the table.
pub(crate) fn first_early_flaw(
    alloc: Global,
    plan: &Plan,
    into: &ByRank,
    marks: &[Mark],
) -> Result<Option<MarkFlaw>, NoMemory>
    requires at_most { length plan.now.cells + length plan.now.links < 2 ^ 32 - 1 }
    requires links { (l : ℕ) → l < length plan.now.links → SoundLink plan.now l }
    requires table { into.now ≡ map (in_links plan.now) (all_cells plan.now) }
    requires few_marks { length marks.now < 2 ^ 32 }
    requires known { (i : ℕ) → i < length marks.now → cell_of (mark_at marks.now i) < length plan.now.cells }
    ensures { IfOk result (λ flaw. flaw ≡ first_found (early_flaw plan.now marks.now) (from_to 0 (length marks.now))) }
{
    match bound_cells(alloc, plan, into) {
        Ok(bound) => Ok(first_unbound(bound.as_slice(), marks)),
        Err(_) => Err(NoMemory),
    }
}
