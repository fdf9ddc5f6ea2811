//! Results compared by what their bytes are computed from.

ghost use Rattle.std.specs.Prelude.{◌≡◌, ◌<◌, ◌≤◌, true, false, IfSome, MatchOption, length, take};
ghost use Rattle.plan_core.specs.Draw.{held_cell};
ghost use Rattle.schedule_compiler.specs.shapes.Drawing.{drawing_of};
ghost use Rattle.plan_agreement.specs.Agreement.{AreAlikeTo, AreNoResultsTo, IsAlike, IsFirstResult, IsFirstUnlike};
ghost use Rattle.plan_agreement.specs.Agreement.{IsPartAlike, IsResult, held_cut, held_places, unsliced};

use crate::cut_places::CutPlaces;
use coll_shape::Shape;
use given_lines::Mark;
use plan_core::{BufferCells, Plan};
use plan_slices::Cut;
use ptl_types::Rank;

/// A result whose cell isn't computed as the cell is that holds its buffer.
#[derive(Clone, Copy)]
pub(crate) struct Unlike {
    /// The number of its line.
    pub(crate) mark: u32,
    /// How many of its first bytes are computed alike.
    pub(crate) bytes: u64,
}

/// The cell of the shape's own plan that holds a buffer at a rank, if one does.
pub(crate) fn due_cell(shape: &Shape, held: &BufferCells, buffer: u32, rank: Rank) -> Option<u32>
    requires held { held.now ≡ (drawing_of shape.now).held }
    requires buffer { buffer < length shape.now.buffers }
    requires rank { rank < shape.now.ranks }
    ensures { result ≡ held_cell (drawing_of shape.now).held buffer rank }
{
    shape.recall_form();
    held.cell(buffer, rank)
}

/// Its places; none, where no cell does.
fn due_places<'a>(
    shape: &Shape,
    own: &'a CutPlaces,
    held: &BufferCells,
    buffer: u32,
    rank: Rank,
) -> &'a [u32]
    requires held { held.now ≡ (drawing_of shape.now).held }
    requires buffer { buffer < length shape.now.buffers }
    requires rank { rank < shape.now.ranks }
    ensures { result.now ≡ held_places own.now.places (held_cell (drawing_of shape.now).held buffer rank) }
{
    match due_cell(shape, held, buffer, rank) {
        Some(cell) => own.cell(cell),
        None => &[],
    }
}

/// Whether a cell that is cut so is cut as the one that holds a buffer at a rank, if one does.
fn is_cut_alike(
    shape: &Shape,
    own: &CutPlaces,
    held: &BufferCells,
    buffer: u32,
    rank: Rank,
    cut: Cut,
) -> bool
    requires held { held.now ≡ (drawing_of shape.now).held }
    requires buffer { buffer < length shape.now.buffers }
    requires rank { rank < shape.now.ranks }
    ensures { result ≡ true → cut ≡ held_cut own.now.cuts cut (held_cell (drawing_of shape.now).held buffer rank) }
{
    match due_cell(shape, held, buffer, rank) {
        Some(cell) => cut.is(own.cut(cell)),
        None => true,
    }
}

/// Whether there are such a buffer, such a rank and such a cell.
pub(crate) fn is_known(plan: &Plan, shape: &Shape, buffer: u32, rank: Rank, cell: u32) -> bool
    ensures buffer { result ≡ true → buffer < length shape.now.buffers }
    ensures rank { result ≡ true → rank < shape.now.ranks }
    ensures cell { result ≡ true → cell < length plan.now.cells }
{
    (buffer as usize) < shape.buffers().len()
        && rank < shape.ranks()
        && (cell as usize) < plan.cells().len()
}

/// The cell of the shape's own plan that holds a buffer at a rank, if one does, and there are such a buffer, such a rank and such a cell.
pub(crate) fn due_of(
    plan: &Plan,
    shape: &Shape,
    held: &BufferCells,
    buffer: u32,
    rank: Rank,
    cell: u32,
) -> Option<u32>
    requires held { held.now ≡ (drawing_of shape.now).held }
{
    if is_known(plan, shape, buffer, rank, cell) {
        due_cell(shape, held, buffer, rank)
    } else {
        None
    }
}

/// Whether the cell of a mark, where it is a result's, is computed as the cell that holds its buffer is.
pub(crate) fn is_alike(
    plan: &Plan,
    shape: &Shape,
    given: &CutPlaces,
    own: &CutPlaces,
    held: &BufferCells,
    mark: Mark,
) -> bool
    requires held { held.now ≡ (drawing_of shape.now).held }
    ensures alike { result ≡ true → IsAlike plan.now shape.now given.now own.now mark }
    ensures unlike { result ≡ false → IsResult mark }
{
    match mark {
        Mark::Result { buffer, rank, cell } => {
            if !is_known(plan, shape, buffer, rank, cell) {
                return false;
            }
            is_cut_alike(shape, own, held, buffer, rank, given.cut(cell))
                && given.cell(cell) == due_places(shape, own, held, buffer, rank)
        }
        _ => true,
    }
}

/// How many places two lists have before the first that isn't the same.
fn same_places(a: &[u32], b: &[u32]) -> usize
    ensures same { take result a.now ≡ take result b.now }
    ensures first { result ≤ length a.now }
    ensures second { result ≤ length b.now }
{
    let both = a.len().min(b.len());
    for i in 0..both {
        if a[i] != b[i] {
            return i;
        }
    }
    both
}

/// What so many first bytes of each slice are of a cell's bytes, if that number fits.
fn unsliced(cut: Cut, bytes: u64) -> Option<u64>
    ensures { IfSome result (λ n. n ≡ unsliced cut bytes) }
{
    if cut.width == 0 {
        return None;
    }
    let block = cut.block()?;
    let whole = (bytes / cut.width).checked_mul(block)?;
    whole.checked_add(bytes % cut.width)
}

/// How many of the first bytes of the cell of a mark, where it is a result's, are computed as those of the cell that holds its buffer.
fn alike_bytes(
    plan: &Plan,
    shape: &Shape,
    given: &CutPlaces,
    own: &CutPlaces,
    held: &BufferCells,
    mark: Mark,
) -> u64
    requires held { held.now ≡ (drawing_of shape.now).held }
    ensures { IsPartAlike plan.now shape.now given.now own.now mark result }
{
    match mark {
        Mark::Result { buffer, rank, cell } => {
            if !is_known(plan, shape, buffer, rank, cell) {
                return 0;
            }
            let cut = given.cut(cell);
            if !is_cut_alike(shape, own, held, buffer, rank, cut) {
                return 0;
            }
            let due = due_places(shape, own, held, buffer, rank);
            unsliced(cut, same_places(given.cell(cell), due) as u64).unwrap_or(0)
        }
        _ => 0,
    }
}

/// The first mark whose cell isn't computed so.
pub(crate) fn first_unlike(
    plan: &Plan,
    shape: &Shape,
    given: &CutPlaces,
    own: &CutPlaces,
    held: &BufferCells,
    marks: &[Mark],
) -> Option<Unlike>
    requires held { held.now ≡ (drawing_of shape.now).held }
    requires few { length marks.now < 4294967296 }
    ensures { MatchOption result (AreAlikeTo plan.now shape.now given.now own.now marks.now (length marks.now))
        (IsFirstUnlike plan.now shape.now given.now own.now marks.now) }
{
    for i in 0..marks.len() {
        if !is_alike(plan, shape, given, own, held, marks[i]) {
            return Some(Unlike {
                mark: i as u32,
                bytes: alike_bytes(plan, shape, given, own, held, marks[i]),
            });
        }
    }
    None
}

/// Whether a mark names the cell of a result.
fn is_result(mark: Mark) -> bool
    ensures result { result ≡ true → IsResult mark }
    ensures other { result ≡ false → IsResult mark → ⊥ }
{
    matches!(mark, Mark::Result { .. })
}

/// The first mark that names the cell of a result, of which nothing is known.
pub(crate) fn first_result(marks: &[Mark]) -> Option<Unlike>
    requires { length marks.now < 4294967296 }
    ensures { MatchOption result (AreNoResultsTo marks.now (length marks.now)) (IsFirstResult marks.now) }
{
    for i in 0..marks.len() {
        if is_result(marks[i]) {
            return Some(Unlike {
                mark: i as u32,
                bytes: 0,
            });
        }
    }
    None
}
