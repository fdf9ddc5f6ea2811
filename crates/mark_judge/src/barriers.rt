//! Whether ranks enter barriers after their start alone, and from each cell where a barrier is entered links lead to each where it is left.

ghost use Rattle.std.specs.Prelude.{ℕ, ◌≡◌, ◌<◌, ◌≤◌, ◌+◌, ◌-◌, ◌^◌, ◌||◌, ◌&&◌, not, false, if◌then◌else◌, None, Some, true, IfOk};
ghost use Rattle.std.specs.Prelude.{get_or, length, map, set};
ghost use Rattle.std.specs.List.{list_any};
ghost use Rattle.number_lists.specs.Numbers.{from_to};
ghost use Rattle.mark_judge.specs.declared.flaw.MarkFlaw.TheVariants.{BarrierOpen};
ghost use Rattle.mark_judge.specs.Due.{cell_of, mark_at};
ghost use Rattle.mark_judge.specs.Judged.{barriers_flaw, is_open, open_flaw};
ghost use Rattle.mark_judge.specs.Tables.{AreMasks, does_miss, is_unmet};
ghost use Rattle.plan_core.specs.Plan.{all_cells, in_links};
ghost use Rattle.plan_core.specs.Sound.{SoundLink};
ghost use Rattle.plan_judge.specs.Causes.{first_found};

use crate::asked::mark_at;
use crate::bound::first_early_flaw;
use crate::entries::{Entry, begin, entries_of, no_bits};
use crate::entry_bits::Bits;
use crate::flaw::MarkFlaw;
use crate::masks::{does_lack_one, masks_of};
use crate::named::all_false;
use crate::reaching::reach;
use crate::roots::{roots_of, sources_of};
use given_lines::Mark;
use plan_core::Plan;
use plan_judge::links_by_target;
use plan_tables::ByRank;
use ptl_types::NoMemory;
use std::alloc::{AllocError, Global};

/// Whether a line names where a rank leaves a step, and one of these entries into that step doesn't lead there.
fn is_unmet(words: &[Bits], roots: &[u32], masks: &[Bits], entries: &[Entry], mark: Mark) -> bool
    requires few { length entries.now ≤ 256 }
    requires masks { AreMasks entries.now masks.now }
    requires cell { cell_of mark < length roots.now }
    requires root { get_or roots.now (cell_of mark) 0 < length words.now }
    ensures { result ≡ is_unmet roots.now words.now entries.now mark }
{
    match mark {
        Mark::Leave { step, cell, .. } => {
            does_lack_one(words[roots[cell as usize] as usize], masks, entries, step)
        }
        _ => false,
    }
}

/// Whether that is so, and isn't noted yet.
fn is_new(
    noted: bool,
    words: &[Bits],
    roots: &[u32],
    masks: &[Bits],
    entries: &[Entry],
    mark: Mark,
) -> bool
    requires few { length entries.now ≤ 256 }
    requires masks { AreMasks entries.now masks.now }
    requires cell { cell_of mark < length roots.now }
    requires root { get_or roots.now (cell_of mark) 0 < length words.now }
    ensures { result ≡ (not noted && is_unmet roots.now words.now entries.now mark) }
{
    !noted && is_unmet(words, roots, masks, entries, mark)
}

/// Notes of a line that some entry doesn't lead to it, where that is so.
fn note_line(unmet: &mut Vec<bool>, i: usize, so: bool)
    requires { i < length unmet.old.items }
    ensures { unmet.new.items ≡ (if so then set unmet.old.items i true else unmet.old.items) }
{
    if so {
        unmet[i] = true;
    }
}

/// Notes of each line whether one of these entries doesn't lead to it.
fn note_unmet(
    unmet: &mut Vec<bool>,
    marks: &[Mark],
    words: &[Bits],
    roots: &[u32],
    masks: &[Bits],
    entries: &[Entry],
)
    requires many { length unmet.old.items ≡ length marks.now }
    requires few { length entries.now ≤ 256 }
    requires masks { AreMasks entries.now masks.now }
    requires known { (i : ℕ) → i < length marks.now → cell_of (mark_at marks.now i) < length roots.now }
    requires roots { (i : ℕ) → i < length marks.now → get_or roots.now (cell_of (mark_at marks.now i)) 0 < length words.now }
    ensures many { length unmet.new.items ≡ length marks.now }
    ensures noted { (i : ℕ) → i < length marks.now → get_or unmet.new.items i false ≡
        (get_or unmet.old.items i false || is_unmet roots.now words.now entries.now (mark_at marks.now i)) }
{
    for i in 0..marks.len() {
        let so = is_new(unmet[i], words, roots, masks, entries, mark_at(marks, i));
        note_line(unmet, i, so);
    }
}

/// Notes of each line whether one of these entries doesn't lead to it. For each 256 of them it takes one pass over the plan.
fn note_entries(
    alloc: Global,
    unmet: &mut Vec<bool>,
    plan: &Plan,
    into: &ByRank,
    marks: &[Mark],
    entries: &[Entry],
) -> Result<(), AllocError>
    requires many { length unmet.old.items ≡ length marks.now }
    requires at_most { length plan.now.cells + length plan.now.links < 2 ^ 32 - 1 }
    requires links { (l : ℕ) → l < length plan.now.links → SoundLink plan.now l }
    requires table { into.now ≡ map (in_links plan.now) (all_cells plan.now) }
    requires known { (i : ℕ) → i < length marks.now → cell_of (mark_at marks.now i) < length plan.now.cells }
    ensures many { IfOk result (λ u. length unmet.new.items ≡ length marks.now) }
    ensures noted { IfOk result (λ u. (i : ℕ) → i < length marks.now → get_or unmet.new.items i false ≡
        (get_or unmet.old.items i false || list_any (does_miss plan.now (mark_at marks.now i)) entries.now)) }
{
    let root_table = roots_of(alloc, plan, into, entries)?;
    let roots = root_table.as_slice();
    let source_table = sources_of(alloc, plan, roots)?;
    let sources = source_table.as_slice();
    let mut words = no_bits(alloc, plan.cells().len())?;
    let mut left = entries;
    while !left.is_empty() {
        let (some, rest) = left.split_at(left.len().min(256));
        let masks = masks_of(alloc, some)?;
        begin(&mut words, some);
        reach(&mut words, plan, into, roots, sources, some);
        note_unmet(
            unmet,
            marks,
            words.as_slice(),
            roots,
            masks.as_slice(),
            some,
        );
        left = rest;
    }
    Ok(())
}

/// Of each line whether some entry into its step doesn't lead to it, where it names where a rank leaves one.
fn open_lines(
    alloc: Global,
    plan: &Plan,
    into: &ByRank,
    marks: &[Mark],
) -> Result<Vec<bool>, AllocError>
    requires at_most { length plan.now.cells + length plan.now.links < 2 ^ 32 - 1 }
    requires links { (l : ℕ) → l < length plan.now.links → SoundLink plan.now l }
    requires table { into.now ≡ map (in_links plan.now) (all_cells plan.now) }
    requires known { (i : ℕ) → i < length marks.now → cell_of (mark_at marks.now i) < length plan.now.cells }
    ensures many { IfOk result (λ unmet. length unmet.items ≡ length marks.now) }
    ensures unmet { IfOk result (λ unmet. (i : ℕ) → i < length marks.now → get_or unmet.items i false ≡
        is_open plan.now marks.now (mark_at marks.now i)) }
{
    let list = entries_of(alloc, marks)?;
    let entries = list.as_slice();
    let mut unmet = all_false(alloc, marks.len())?;
    if entries.is_empty() {
        return Ok(unmet);
    }
    note_entries(alloc, &mut unmet, plan, into, marks, entries)?;
    Ok(unmet)
}

/// The first line that is an open one.
fn first_open(unmet: &[bool]) -> Option<MarkFlaw>
    requires { length unmet.now < 2 ^ 32 }
    ensures { result ≡ first_found (λ i. if get_or unmet.now i false then Some (BarrierOpen i) else None) (from_to 0 (length unmet.now)) }
{
    for i in 0..unmet.len() {
        if unmet[i] {
            return Some(MarkFlaw::BarrierOpen { mark: i as u32 });
        }
    }
    None
}

/// The first line that names where a rank leaves a step such that some cell where a rank enters that step doesn't lead there.
///
/// # Errors
///
/// There was no memory for the tables.
fn first_open_flaw(
    alloc: Global,
    plan: &Plan,
    into: &ByRank,
    marks: &[Mark],
) -> Result<Option<MarkFlaw>, NoMemory>
    requires at_most { length plan.now.cells + length plan.now.links < 2 ^ 32 - 1 }
    requires links { (l : ℕ) → l < length plan.now.links → SoundLink plan.now l }
    requires table { into.now ≡ map (in_links plan.now) (all_cells plan.now) }
    requires few_marks { length marks.now < 2 ^ 32 }
    requires known { (i : ℕ) → i < length marks.now → cell_of (mark_at marks.now i) < length plan.now.cells }
    ensures { IfOk result (λ flaw. flaw ≡ first_found (open_flaw plan.now marks.now) (from_to 0 (length marks.now))) }
{
    match open_lines(alloc, plan, into, marks) {
        Ok(unmet) => Ok(first_open(unmet.as_slice())),
        Err(_) => Err(NoMemory),
    }
}

/// The first line that names where a rank enters a step in a cell which may be reached before that rank's start; else the first that names
/// where a rank leaves a step such that some cell where a rank enters that step doesn't lead there.
///
/// # Errors
///
/// There was no memory for the tables.
pub(crate) fn first_barrier_flaw(
    alloc: Global,
    plan: &Plan,
    marks: &[Mark],
) -> Result<Option<MarkFlaw>, NoMemory>
    requires at_most { length plan.now.cells + length plan.now.links < 2 ^ 32 - 1 }
    requires links { (l : ℕ) → l < length plan.now.links → SoundLink plan.now l }
    requires few_marks { length marks.now < 2 ^ 32 }
    requires known { (i : ℕ) → i < length marks.now → cell_of (mark_at marks.now i) < length plan.now.cells }
    ensures { IfOk result (λ flaw. flaw ≡ barriers_flaw plan.now marks.now) }
{
    let into = links_by_target(alloc, plan)?;
    let early = first_early_flaw(alloc, plan, &into, marks)?;
    if early.is_some() {
        return Ok(early);
    }
    first_open_flaw(alloc, plan, &into, marks)
}
