//! Which of up to 256 entries lead to each cell.

ghost use Rattle.std.specs.Prelude.{ℕ, ◌≡◌, ◌<◌, ◌+◌, ◌-◌, ◌^◌, ◌||◌, All, get_or, length, map};
ghost use Rattle.std.specs.List.{list_any};
ghost use Rattle.mark_judge.specs.Tables.{AreBegun, AreKept, AreReached, AreRoots, AreSources, has_bit, no_bits};
ghost use Rattle.plan_core.specs.Plan.{all_cells, in_links};
ghost use Rattle.plan_core.specs.Sound.{SoundLink};

use crate::entries::Entry;
use crate::entry_bits::{Bits, joined};
use plan_core::Plan;
use plan_core::reading::cell_count;
use plan_judge::links_to;
use plan_tables::ByRank;

/// The entries of a cell itself and of the cells from which these links come.
fn gathered(words: &[Bits], sources: &[u32], links: &[u32], own: Bits) -> Bits
    requires known { All (λ l. l < length sources.now) links.now }
    requires sources { All (λ l. get_or sources.now l 0 < length words.now) links.now }
    ensures { (k : ℕ) → has_bit result k ≡
        (has_bit own k || list_any (λ l. has_bit (get_or words.now (get_or sources.now l 0) no_bits) k) links.now) }
{
    let mut word = own;
    for l in links {
        word = joined(word, words[sources[*l as usize] as usize]);
    }
    word
}

/// Adds to the entries of a cell those of the cells from which these links come.
fn reach_cell(words: &mut Vec<Bits>, sources: &[u32], links: &[u32], c: u32)
    requires cell { c < length words.old.items }
    requires known { All (λ l. l < length sources.now) links.now }
    requires sources { All (λ l. get_or sources.now l 0 < length words.old.items) links.now }
    ensures many { length words.new.items ≡ length words.old.items }
    ensures others { (d : ℕ) → (d ≡ c → ⊥) → get_or words.new.items d no_bits ≡ get_or words.old.items d no_bits }
    ensures here { (k : ℕ) → has_bit (get_or words.new.items c no_bits) k ≡ (has_bit (get_or words.old.items c no_bits) k
        || list_any (λ l. has_bit (get_or words.old.items (get_or sources.now l 0) no_bits) k) links.now) }
{
    let word = gathered(words.as_slice(), sources, links, words[c as usize]);
    words[c as usize] = word;
}

/// The same with the links that come to a cell, where it is a root.
fn reach_root(
    words: &mut Vec<Bits>,
    plan: &Plan,
    into: &ByRank,
    roots: &[u32],
    sources: &[u32],
    c: u32,
)
    requires cell { c < length plan.now.cells }
    requires links { (l : ℕ) → l < length plan.now.links → SoundLink plan.now l }
    requires table { into.now ≡ map (in_links plan.now) (all_cells plan.now) }
    requires words { length words.old.items ≡ length plan.now.cells }
    requires cells { length roots.now ≡ length plan.now.cells }
    requires roots { AreRoots plan.now (length plan.now.cells) roots.now }
    requires known { length sources.now ≡ length plan.now.links }
    requires sources { AreSources plan.now roots.now (length plan.now.links) sources.now }
    ensures many { length words.new.items ≡ length words.old.items }
    ensures others { (d : ℕ) → (d ≡ c → ⊥) → get_or words.new.items d no_bits ≡ get_or words.old.items d no_bits }
    ensures here { get_or roots.now c 0 ≡ c → (k : ℕ) → has_bit (get_or words.new.items c no_bits) k ≡
        (has_bit (get_or words.old.items c no_bits) k
        || list_any (λ l. has_bit (get_or words.old.items (get_or sources.now l 0) no_bits) k) (in_links plan.now c)) }
{
    if roots[c as usize] == c {
        reach_cell(words, sources, links_to(plan, into, c), c);
    }
}

/// Adds to the entries of each root those that lead there. One pass over the links, which rise.
pub(crate) fn reach(
    words: &mut Vec<Bits>,
    plan: &Plan,
    into: &ByRank,
    roots: &[u32],
    sources: &[u32],
    entries: &[Entry],
)
    requires at_most { length plan.now.cells + length plan.now.links < 2 ^ 32 - 1 }
    requires links { (l : ℕ) → l < length plan.now.links → SoundLink plan.now l }
    requires table { into.now ≡ map (in_links plan.now) (all_cells plan.now) }
    requires words { length words.old.items ≡ length plan.now.cells }
    requires begun { AreBegun entries.now (length plan.now.cells) words.old.items }
    requires cells { length roots.now ≡ length plan.now.cells }
    requires roots { AreRoots plan.now (length plan.now.cells) roots.now }
    requires kept { AreKept entries.now (length plan.now.cells) roots.now }
    requires known { length sources.now ≡ length plan.now.links }
    requires sources { AreSources plan.now roots.now (length plan.now.links) sources.now }
    ensures many { length words.new.items ≡ length words.old.items }
    ensures reached { AreReached plan.now entries.now roots.now words.new.items }
{
    for c in 0..cell_count(plan) {
        reach_root(words, plan, into, roots, sources, c);
    }
}
