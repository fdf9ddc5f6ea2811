//! Which things have a line: a table with a place for each.

ghost use Rattle.std.specs.Prelude.{ℕ, ◌≡◌, ◌<◌, ◌+◌, ◌*◌, ◌&&◌, not, true, false, [], IfOk, get_or, length, set};
ghost use Rattle.mark_judge.specs.declared.flaw.Due.{Due};
ghost use Rattle.mark_judge.specs.Due.{due_of, is_good};
ghost use Rattle.mark_judge.specs.Tables.{AreNamed, has, is_small, place_of, places};
ghost use Rattle.plan_tables.specs.Tables.{IsTabled};

use crate::asked::{due_of, is_good};
use crate::flaw::Due;
use coll_shape::{MOST_BUFFERS, MOST_RANKS, MOST_STEPS, Shape};
use given_lines::Mark;
use plan_core::Plan;
use ptl_types::{NoMemory, Rank};
use std::alloc::{AllocError, Global};

/// How many places there are.
const PLACES: usize = 65_536;

/// Whether it is within the limits of descriptions.
fn is_small(due: Due) -> bool
    ensures { result ≡ is_small due }
{
    match due {
        Due::Result { buffer, rank } => (buffer as usize) < MOST_BUFFERS && rank < MOST_RANKS,
        Due::Enter { step, rank } => (step as usize) < MOST_STEPS && rank < MOST_RANKS,
        Due::Leave { step, rank } => (step as usize) < MOST_STEPS && rank < MOST_RANKS,
    }
}

/// The place of a rank in a row.
fn place_in(row: usize, rank: Rank) -> usize
    requires row { row < 256 }
    requires rank { rank < 256 }
    ensures value { result ≡ row * 256 + rank }
    ensures within { result < 65536 }
{
    row * 256 + rank as usize
}

/// Its place.
fn place_of(due: Due) -> usize
    requires { is_small due ≡ true }
    ensures value { result ≡ place_of due }
    ensures within { result < places }
{
    match due {
        Due::Result { buffer, rank } => place_in(buffer as usize, rank),
        Due::Enter { step, rank } => place_in(MOST_BUFFERS + step as usize, rank),
        Due::Leave { step, rank } => place_in(MOST_BUFFERS + MOST_STEPS + step as usize, rank),
    }
}

/// So many answers, all no.
///
/// # Errors
///
/// There was no memory for them.
pub fn all_false(alloc: Global, count: usize) -> Result<Vec<bool>, AllocError>
    ensures many { IfOk result (λ answers. length answers.items ≡ count) }
    ensures none { IfOk result (λ answers. (i : ℕ) → i < count → get_or answers.items i false ≡ false) }
{
    vec![in alloc; false; count]
}

/// A table of nothing.
///
/// # Errors
///
/// There was no memory for it.
pub(crate) fn no_names(alloc: Global) -> Result<Vec<bool>, NoMemory>
    ensures room { IfOk result (λ named. length named.items ≡ places) }
    ensures none { IfOk result (λ named. AreNamed [] named.items) }
{
    match all_false(alloc, PLACES) {
        Ok(named) => Ok(named),
        Err(_) => Err(NoMemory),
    }
}

/// Whether it has a line.
pub(crate) fn has(named: &[bool], due: Due) -> bool
    requires { length named.now ≡ places }
    ensures { result ≡ has named.now due }
{
    is_small(due) && named[place_of(due)]
}

/// Notes that it has a line.
fn note(named: &mut Vec<bool>, due: Due)
    requires room { length named.old.items ≡ places }
    requires small { is_small due ≡ true }
    ensures { named.new.items ≡ set named.old.items (place_of due) true }
{
    named[place_of(due)] = true;
}

/// Whether the description asks for a line, the line names a cell that fits, and it is the first for what it is for. That is then
/// noted.
pub(crate) fn is_first(named: &mut Vec<bool>, plan: &Plan, shape: &Shape, mark: Mark) -> bool
    requires room { length named.old.items ≡ places }
    requires tabled { IsTabled plan.now }
    ensures first { result ≡ (is_good plan.now shape.now mark && not (has named.old.items (due_of mark))) }
    ensures small { result ≡ true → is_small (due_of mark) ≡ true }
    ensures noted { result ≡ true → named.new.items ≡ set named.old.items (place_of (due_of mark)) true }
{
    shape.recall_form();
    let due = due_of(mark);
    if !is_good(plan, shape, mark) {
        return false;
    }
    if has(named.as_slice(), due) {
        return false;
    }
    note(named, due);
    true
}
