//! Which entries are into each step: a mask for each.

ghost use Rattle.std.specs.Prelude.{ℕ, ◌≡◌, ◌<◌, ◌≤◌, ◌==◌, ◌||◌, ◌&&◌, true, IfOk, get_or, length};
ghost use Rattle.mark_judge.specs.Tables.{AreMasks, entry_at, has_bit, lacks_one, no_bits};

use crate::entries::{Entry, begin_at, entry_at, lacks_one, no_bits};
use crate::entry_bits::{Bits, has_all};
use coll_shape::MOST_STEPS;
use std::alloc::{AllocError, Global};

/// Of each step that a description may have, which of these entries are into it. It takes one look at each entry.
///
/// # Errors
///
/// There was no memory for them.
pub(crate) fn masks_of(alloc: Global, entries: &[Entry]) -> Result<Vec<Bits>, AllocError>
    requires { length entries.now ≤ 256 }
    ensures { IfOk result (λ masks. AreMasks entries.now masks.items) }
{
    let mut masks = no_bits(alloc, MOST_STEPS)?;
    for k in 0..entries.len() {
        begin_at(&mut masks, entry_at(entries, k).step, k as u32);
    }
    Ok(masks)
}

/// Whether there is a mask for a step, and all its entries are among these.
fn has_step(bits: Bits, masks: &[Bits], step: u32) -> bool
    ensures within { result ≡ true → step < length masks.now }
    ensures all { result ≡ true → (k : ℕ) → has_bit (get_or masks.now step no_bits) k ≡ true → has_bit bits k ≡ true }
{
    if (step as usize) < masks.len() {
        has_all(bits, masks[step as usize])
    } else {
        false
    }
}

/// Whether one of these entries into a step is none of these; at once where the step's mask tells that all are.
pub(crate) fn does_lack_one(bits: Bits, masks: &[Bits], entries: &[Entry], step: u32) -> bool
    requires few { length entries.now ≤ 256 }
    requires masks { AreMasks entries.now masks.now }
    ensures { result ≡ lacks_one bits entries.now step }
{
    if has_step(bits, masks, step) {
        return false;
    }
    lacks_one(bits, entries, step)
}
