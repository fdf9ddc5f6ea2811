//! The cells at which barriers are entered.

ghost use Rattle.std.specs.Prelude.{ℕ, ◌≡◌, ◌<◌, ◌≤◌, ◌==◌, ◌||◌, ◌&&◌, false, IfOk, get_or, length};
ghost use Rattle.mark_judge.specs.Tables.{AreBegun, does_lack, entries_in, entry_at, entry_of, has_bit, lacks_one, no_bits};

use crate::entry_bits::{Bits, NO_BITS, has_bit, with_bit};
use given_lines::Mark;
use std::alloc::{AllocError, Global};

/// Where a rank enters a barrier.
#[derive(Clone, Copy, Debug, PartialEq, Eq)]
pub(crate) struct Entry {
    /// The number of the step.
    pub step: u32,
    /// The cell.
    pub cell: u32,
}

/// Where a line says that a rank enters one.
fn entry_of(mark: Mark) -> Option<Entry>
    ensures { result ≡ entry_of mark }
{
    match mark {
        Mark::Enter { step, cell, .. } => Some(Entry { step, cell }),
        _ => None,
    }
}

/// Where barriers are entered, by the order of these lines.
pub(crate) fn entries_of(alloc: Global, marks: &[Mark]) -> Result<Vec<Entry>, AllocError>
    ensures { IfOk result (λ entries. entries.items ≡ entries_in marks.now) }
{
    marks
        .iter()
        .filter_map(|mark| entry_of(*mark))
        .collect(alloc)
}

/// The entry at a place.
pub(crate) fn entry_at(entries: &[Entry], k: usize) -> Entry
    requires { k < length entries.now }
    ensures { result ≡ entry_at entries.now k }
{
    entries[k]
}

/// Whether the entry at a place is one into a step and is none of these.
fn does_lack(bits: Bits, entries: &[Entry], step: u32, k: usize) -> bool
    requires few { length entries.now ≤ 256 }
    requires place { k < length entries.now }
    ensures { result ≡ does_lack bits entries.now step k }
{
    entry_at(entries, k).step == step && !has_bit(bits, k as u32)
}

/// Whether one of these entries into a step is none of these.
pub(crate) fn lacks_one(bits: Bits, entries: &[Entry], step: u32) -> bool
    requires { length entries.now ≤ 256 }
    ensures { result ≡ lacks_one bits entries.now step }
{
    for k in 0..entries.len() {
        if does_lack(bits, entries, step, k) {
            return true;
        }
    }
    false
}

/// For each of so many cells, or steps, no entry.
///
/// # Errors
///
/// There was no memory for them.
pub(crate) fn no_bits(alloc: Global, cells: usize) -> Result<Vec<Bits>, AllocError>
    ensures many { IfOk result (λ words. length words.items ≡ cells) }
    ensures none { IfOk result (λ words. (c j : ℕ) → c < cells → has_bit (get_or words.items c no_bits) j ≡ false) }
{
    vec![in alloc; NO_BITS; cells]
}

/// Takes the entries of all cells away.
fn clear(words: &mut Vec<Bits>)
    ensures many { length words.new.items ≡ length words.old.items }
    ensures none { (c j : ℕ) → c < length words.old.items → has_bit (get_or words.new.items c no_bits) j ≡ false }
{
    for c in 0..words.len() {
        words[c] = NO_BITS;
    }
}

/// Adds the entry of this number to those of a cell, or of a step, if there is one.
pub(crate) fn begin_at(words: &mut Vec<Bits>, cell: u32, k: u32)
    requires { k < 256 }
    ensures many { length words.new.items ≡ length words.old.items }
    ensures bits { (c j : ℕ) → c < length words.old.items →
        has_bit (get_or words.new.items c no_bits) j ≡ (has_bit (get_or words.old.items c no_bits) j || ((j == k) && (cell == c))) }
{
    if (cell as usize) < words.len() {
        words[cell as usize] = with_bit(words[cell as usize], k);
    }
}

/// Puts into each cell the entries that lie there, and no other.
pub(crate) fn begin(words: &mut Vec<Bits>, entries: &[Entry])
    requires { length entries.now ≤ 256 }
    ensures many { length words.new.items ≡ length words.old.items }
    ensures begun { AreBegun entries.now (length words.old.items) words.new.items }
{
    clear(words);
    for k in 0..entries.len() {
        begin_at(words, entry_at(entries, k).cell, k as u32);
    }
}
