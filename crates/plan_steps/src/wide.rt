//! Cells with many links.

ghost use Rattle.std.specs.Prelude.{ℕ, ◌≡◌, ◌<◌, ◌≤◌, ◌∷◌, [], IfOk, map};
ghost use Rattle.plan_core.specs.declared.Incoming.{Incoming};
ghost use Rattle.plan_core.specs.Draw.{HasRoom, add, new_cell};
ghost use Rattle.plan_steps.specs.StepContext.{StepContext, count, places};

use crate::step_context::StepContext;
use plan_core::{Incoming, Part, Plan};
use ptl_types::NoMemory;

/// Links to one cell, one from each place.
pub(crate) trait Links {
    /// What they ask of what the step begins with.
    ghost fits: { Self → StepContext → Type 0 } = { λ _ _. Unit {0} };

    /// The link of a number.
    ghost link: { Self → StepContext → ℕ → Incoming };

    /// The link of a number, which is a place.
    fn link(&self, site: &StepContext, number: u32) -> Incoming
        requires fits { fits self.now site.now }
        requires number { number < count site.now }
        ensures { result ≡ link self.now site.now number };
}

/// A cell that waits for as many links as there are places.
///
/// # Errors
///
/// There was no memory for them.
pub(crate) fn draw_wide<L: Links>(
    plan: &mut Plan,
    site: &StepContext,
    part: Part,
    links: &L,
) -> Result<(), NoMemory>
    requires fits { L.fits links.now site.now }
    requires room { HasRoom plan.old (new_cell part (map (L.link links.now site.now) (places site.now)) ∷ []) }
    ensures { IfOk result (λ u. plan.new ≡ add plan.old (new_cell part (map (L.link links.now site.now) (places site.now)))) }
{
    let count = site.count();
    let cell = plan.add_cell(part.awaiting(u64::from(count)))?;
    for number in 0..count {
        plan.add_link(links.link(site, number).to(cell))?;
    }
    Ok(())
}
