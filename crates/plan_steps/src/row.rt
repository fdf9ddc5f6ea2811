//! Rows of cells, one cell a place in each.

ghost use Rattle.std.specs.Prelude.{ℕ, ◌≡◌, ◌<◌, ◌≤◌, ◌∷◌, [], IfOk, map};
ghost use Rattle.plan_core.specs.Plan.{from_to};
ghost use Rattle.plan_core.specs.Draw.{HasRoom, NewCell, add, add_all};
ghost use Rattle.plan_steps.specs.StepContext.{StepContext, count, row, rows};

use crate::step_context::StepContext;
use plan_core::Plan;
use ptl_types::NoMemory;

/// Rows of cells of one kind. Where there is one row alone, it is row 0.
pub(crate) trait Rows {
    /// What the row of a number asks of what the step begins with.
    ghost fits: { Self → StepContext → ℕ → Type 0 } = { λ _ _ _. Unit {0} };

    /// How many places have a cell there.
    ghost size: { Self → StepContext → ℕ } = { λ _ s. count s };

    /// The cell of a place in the row of a number, with the links that come to it.
    ghost cell: { Self → StepContext → ℕ → ℕ → NewCell };

    /// Adds the cell of a place to the plan, with its links.
    ///
    /// # Errors
    ///
    /// There was no memory for them.
    fn draw(
        &self,
        plan: &mut Plan,
        site: &StepContext,
        number: u32,
        place: u32,
    ) -> Result<(), NoMemory>
        requires fits { fits self.now site.now number }
        requires place { place < size self.now site.now }
        requires room { HasRoom plan.old (cell self.now site.now number place ∷ []) }
        ensures { IfOk result (λ u. plan.new ≡ add plan.old (cell self.now site.now number place)) };
}

/// The cells of the first n places of a row.
///
/// # Errors
///
/// There was no memory for them.
pub(crate) fn draw_cells<R: Rows>(
    plan: &mut Plan,
    site: &StepContext,
    cells: &R,
    number: u32,
    n: u32,
) -> Result<(), NoMemory>
    requires fits { R.fits cells.now site.now number }
    requires at_most { n ≤ R.size cells.now site.now }
    requires room { HasRoom plan.old (map (R.cell cells.now site.now number) (from_to 0 n)) }
    ensures { IfOk result (λ u. plan.new ≡ add_all plan.old (map (R.cell cells.now site.now number) (from_to 0 n))) }
{
    for place in 0..n {
        cells.draw(plan, site, number, place)?;
    }
    Ok(())
}

/// The cells of all places of a row.
///
/// # Errors
///
/// There was no memory for them.
pub(crate) fn draw_row<R: Rows>(
    plan: &mut Plan,
    site: &StepContext,
    cells: &R,
    number: u32,
) -> Result<(), NoMemory>
    requires fits { R.fits cells.now site.now number }
    requires all { R.size cells.now site.now ≡ count site.now }
    requires room { HasRoom plan.old (row site.now (R.cell cells.now site.now) number) }
    ensures { IfOk result (λ u. plan.new ≡ add_all plan.old (row site.now (R.cell cells.now site.now) number)) }
{
    draw_cells(plan, site, cells, number, site.count())?;
    Ok(())
}

/// The cells of the first n rows, row by row.
///
/// # Errors
///
/// There was no memory for them.
pub(crate) fn draw_rows<R: Rows>(
    plan: &mut Plan,
    site: &StepContext,
    cells: &R,
    n: u32,
) -> Result<(), NoMemory>
    requires fits { (k : ℕ) → k < n → R.fits cells.now site.now k }
    requires all { R.size cells.now site.now ≡ count site.now }
    requires room { HasRoom plan.old (rows site.now (R.cell cells.now site.now) 0 n) }
    ensures { IfOk result (λ u. plan.new ≡ add_all plan.old (rows site.now (R.cell cells.now site.now) 0 n)) }
{
    for number in 0..n {
        draw_row(plan, site, cells, number)?;
    }
    Ok(())
}
