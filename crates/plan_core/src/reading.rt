//! The cells and links of a plan by their numbers.

ghost use Rattle.std.specs.Prelude.{◌≡◌, ◌<◌, ◌+◌, ◌-◌, ◌^◌, length};
ghost use Rattle.plan_core.specs.Plan.{cell, link};

use crate::{Cell, Link, Plan};

/// How many cells there are.
pub fn cell_count(plan: &Plan) -> u32
    requires { length plan.now.cells + length plan.now.links < 2 ^ 32 - 1 }
    ensures { result ≡ length plan.now.cells }
{
    plan.cells().len() as u32
}

/// How many links there are.
pub fn link_count(plan: &Plan) -> u32
    requires { length plan.now.cells + length plan.now.links < 2 ^ 32 - 1 }
    ensures { result ≡ length plan.now.links }
{
    plan.links().len() as u32
}

/// The cell of this number.
pub fn cell_at(plan: &Plan, c: u32) -> Cell
    requires { c < length plan.now.cells }
    ensures { result ≡ cell plan.now c }
{
    plan.cells()[c as usize]
}

/// The link of this number.
pub fn link_at(plan: &Plan, l: u32) -> Link
    requires { l < length plan.now.links }
    ensures { result ≡ link plan.now l }
{
    plan.links()[l as usize]
}
