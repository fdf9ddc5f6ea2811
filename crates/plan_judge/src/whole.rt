//! What is wrong with a plan as a whole.

ghost use Rattle.std.specs.Prelude.{◌≡◌, ◌<◌, ◌≤◌, ◌+◌, ◌-◌, ◌*◌, ◌^◌, None, length, sum_by};
ghost use Rattle.plan_judge.specs.Causes.{first_cause, first_other, plan_rows};
ghost use Rattle.plan_judge.specs.Sizes.{IsSized};

use crate::flaw::PlanCause;
use plan_core::{Cell, Link, Plan};

/// The lengths of all cells, in bytes.
fn bytes_of_cells(cells: &[Cell]) -> u128
    requires { length cells.now < 2 ^ 61 }
    ensures value { result ≡ sum_by (λ k. k.length) cells.now }
    ensures most { result ≤ length cells.now * 2 ^ 64 }
{
    let mut bytes = 0;
    for cell in cells {
        bytes += u128::from(cell.length);
    }
    bytes
}

/// The lengths of all links, in bytes.
fn bytes_of_links(links: &[Link]) -> u128
    requires { length links.now < 2 ^ 61 }
    ensures value { result ≡ sum_by (λ k. k.length) links.now }
    ensures most { result ≤ length links.now * 2 ^ 64 }
{
    let mut bytes = 0;
    for link in links {
        bytes += u128::from(link.length);
    }
    bytes
}

/// Both.
fn bytes_of(plan: &Plan) -> u128
    requires { length plan.now.cells + length plan.now.links < 2 ^ 32 - 1 }
    ensures { result ≡ sum_by (λ k. k.length) plan.now.cells + sum_by (λ k. k.length) plan.now.links }
{
    bytes_of_cells(plan.cells()) + bytes_of_links(plan.links())
}

/// How many cells are go cells or hold one of so many inputs.
pub(crate) fn first_other(plan: &Plan, lengths: &[u64]) -> u128
    ensures { result ≡ first_other plan.now lengths.now }
{
    let ranks = u128::from(plan.ranks());
    ranks + lengths.len() as u128 * ranks
}

/// The first cause that a plan as a whole isn't taken, for so many inputs.
pub(crate) fn plan_cause(plan: &Plan, lengths: &[u64]) -> Option<PlanCause>
    ensures cause { result ≡ first_cause (plan_rows plan.now lengths.now) }
    ensures sized { result ≡ None → IsSized plan.now lengths.now }
{
    let cells = plan.cells().len() as u128;
    let links = plan.links().len() as u128;
    if plan.ranks() == 0 {
        return Some(PlanCause::NoRank);
    }
    if plan.ranks() > 256 {
        return Some(PlanCause::TooManyRanks);
    }
    if cells < first_other(plan, lengths) {
        return Some(PlanCause::MissingCells);
    }
    if cells >= 1 << 24 {
        return Some(PlanCause::TooManyCells);
    }
    if cells + links >= (1 << 32) - 1 {
        return Some(PlanCause::TooManyLinks);
    }
    if bytes_of(plan) >= 1 << 64 {
        return Some(PlanCause::TooManyBytes);
    }
    None
}
