//! The root of each cell. A cell to which one link comes, and in which no entry lies, is reached from the entries that reach the cell from
//! which the link comes: both have one root. Any other cell is its own root. So chains and trees cost one look, however long they are.

ghost use Rattle.std.specs.Prelude.{ℕ, ◌≡◌, ◌<◌, ◌+◌, ◌-◌, ◌^◌, ◌++◌, ◌∷◌, [], false, true, IfOk, get_or, length, map};
ghost use Rattle.mark_judge.specs.Tables.{AreEntered, AreKept, AreRoots, AreSources};
ghost use Rattle.plan_core.specs.Plan.{all_cells, in_links, link};
ghost use Rattle.plan_core.specs.Sound.{SoundLink};

use crate::entries::{Entry, entry_at};
use crate::named::all_false;
use plan_core::Plan;
use plan_core::reading::{cell_count, link_at, link_count};
use plan_judge::links_to;
use plan_tables::ByRank;
use std::alloc::{AllocError, Global};

/// Notes that an entry lies in a cell, if there is one.
fn enter(entered: &mut Vec<bool>, cell: u32)
    ensures many { length entered.new.items ≡ length entered.old.items }
    ensures told { cell < length entered.old.items → get_or entered.new.items cell false ≡ true }
    ensures kept { (c : ℕ) → get_or entered.old.items c false ≡ true → get_or entered.new.items c false ≡ true }
{
    if (cell as usize) < entered.len() {
        entered[cell as usize] = true;
    }
}

/// Of each of so many cells whether an entry lies there.
fn entered_cells(alloc: Global, cells: usize, entries: &[Entry]) -> Result<Vec<bool>, AllocError>
    ensures many { IfOk result (λ entered. length entered.items ≡ cells) }
    ensures told { IfOk result (λ entered. AreEntered entries.now (length entries.now) cells entered.items) }
{
    let mut entered = all_false(alloc, cells)?;
    for k in 0..entries.len() {
        enter(&mut entered, entry_at(entries, k).cell);
    }
    Ok(entered)
}

/// The root of a cell, from those of the cells before it. These links come to it.
fn root_of(roots: &[u32], entered: &[bool], plan: &Plan, links: &[u32], c: u32) -> u32
    requires rising { (l : ℕ) → l < length plan.now.links → SoundLink plan.now l }
    requires place { length roots.now ≡ c }
    requires cell { c < length entered.now }
    requires before { AreRoots plan.now c roots.now }
    requires links { links.now ≡ in_links plan.now c }
    ensures roots { AreRoots plan.now (c + 1) (roots.now ++ result ∷ []) }
    ensures kept { get_or entered.now c false ≡ true → result ≡ c }
{
    if entered[c as usize] {
        return c;
    }
    if links.len() != 1 {
        return c;
    }
    roots[link_at(plan, links[0]).source as usize]
}

/// Of each cell its root, such that entries lie in roots. One pass over the links, which rise.
///
/// # Errors
///
/// There was no memory for them.
pub(crate) fn roots_of(
    alloc: Global,
    plan: &Plan,
    into: &ByRank,
    entries: &[Entry],
) -> Result<Vec<u32>, AllocError>
    requires at_most { length plan.now.cells + length plan.now.links < 2 ^ 32 - 1 }
    requires links { (l : ℕ) → l < length plan.now.links → SoundLink plan.now l }
    requires table { into.now ≡ map (in_links plan.now) (all_cells plan.now) }
    ensures many { IfOk result (λ roots. length roots.items ≡ length plan.now.cells) }
    ensures roots { IfOk result (λ roots. AreRoots plan.now (length plan.now.cells) roots.items) }
    ensures kept { IfOk result (λ roots. AreKept entries.now (length plan.now.cells) roots.items) }
{
    let cells = cell_count(plan);
    let entered = entered_cells(alloc, cells as usize, entries)?;
    let mut roots = Vec::with_capacity(alloc, cells as usize)?;
    for c in 0..cells {
        let links = links_to(plan, into, c);
        let root = root_of(roots.as_slice(), entered.as_slice(), plan, links, c);
        roots.push(root)?;
    }
    Ok(roots)
}

/// Of each link the root of the cell from which it comes.
///
/// # Errors
///
/// There was no memory for them.
pub(crate) fn sources_of(alloc: Global, plan: &Plan, roots: &[u32]) -> Result<Vec<u32>, AllocError>
    requires at_most { length plan.now.cells + length plan.now.links < 2 ^ 32 - 1 }
    requires links { (l : ℕ) → l < length plan.now.links → SoundLink plan.now l }
    requires roots { length roots.now ≡ length plan.now.cells }
    ensures many { IfOk result (λ sources. length sources.items ≡ length plan.now.links) }
    ensures sources { IfOk result (λ sources. AreSources plan.now roots.now (length plan.now.links) sources.items) }
{
    let mut sources = Vec::with_capacity(alloc, plan.links().len())?;
    for l in 0..link_count(plan) {
        sources.push(roots[link_at(plan, l).source as usize])?;
    }
    Ok(sources)
}
