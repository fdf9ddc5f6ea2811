//! A step of one collective.

ghost use Rattle.std.specs.Prelude.{ℕ, ◌≡◌, ◌<◌, List, IfOk, map};
ghost use Rattle.plan_core.specs.Draw.{HasRoom, NewCell, add_all};
ghost use Rattle.plan_steps.specs.declared.ends.StepExit.{StepExit};
ghost use Rattle.plan_steps.specs.Drawing.{IsBegun, drawn_as, site};
ghost use Rattle.plan_steps.specs.StepContext.{StepContext, count, places};

use crate::drawing::Drawing;
use crate::ends::{StepExit, push_end, set_ends};
use crate::step_context::StepContext;
use coll_shape::{CollStep, Shape};
use plan_core::Plan;
use ptl_types::{NoMemory, Rank};
use std::alloc::Global;

/// A collective: the cells that a step of it adds, with their links, and where it leaves each member.
pub(crate) trait Collective {
    /// What it asks of what the step begins with.
    ghost fits: { Self → StepContext → Type 0 } = { λ _ _. Unit {0} };

    /// Its cells, with the links that come to each.
    ghost cells: { Self → StepContext → List NewCell };

    /// Where it leaves a place.
    ghost end: { Self → StepContext → ℕ → StepExit };

    /// Adds its cells and links to the plan.
    ///
    /// # Errors
    ///
    /// There was no memory for them.
    fn draw(&self, alloc: Global, plan: &mut Plan, site: &StepContext) -> Result<(), NoMemory>
        requires fits { fits self.now site.now }
        requires room { HasRoom plan.old (cells self.now site.now) }
        ensures { IfOk result (λ u. plan.new ≡ add_all plan.old (cells self.now site.now)) };

    /// Where it leaves a place.
    fn end(&self, site: &StepContext, place: u32) -> StepExit
        requires fits { fits self.now site.now }
        requires place { place < count site.now }
        ensures { result ≡ end self.now site.now place };
}

/// Where a step leaves its members, place by place.
pub(crate) fn ends_of<C: Collective>(
    alloc: Global,
    site: &StepContext,
    collective: &C,
) -> Result<Vec<StepExit>, NoMemory>
    requires { C.fits collective.now site.now }
    ensures { IfOk result (λ ends. ends.items ≡ map (C.end collective.now site.now) (places site.now)) }
{
    let mut ends = Vec::new(alloc);
    for place in 0..site.count() {
        push_end(&mut ends, collective.end(site, place))?;
    }
    Ok(ends)
}

/// Adds a step of this collective to a drawing: its cells with their links, after those that are there. The members' exits become the
/// step's, and the cells that hold the new buffer are kept.
///
/// # Errors
///
/// There was no memory.
pub(crate) fn add_as<C: Collective>(
    alloc: Global,
    drawing: &mut Drawing,
    collective: &C,
    step: &CollStep,
    members: &[Rank],
    shape: &Shape,
) -> Result<(), NoMemory>
    requires fits { C.fits collective.now (site shape.now drawing.old step.now members.now) }
    requires begun { IsBegun shape.now drawing.old step.now members.now }
    requires room { HasRoom drawing.old.plan (C.cells collective.now (site shape.now drawing.old step.now members.now)) }
    ensures { IfOk result (λ u.
        drawing.new ≡ drawn_as drawing.old step.now members.now
        (C.cells collective.now (site shape.now drawing.old step.now members.now))
        (map (C.end collective.now (site shape.now drawing.old step.now members.now))
        (places (site shape.now drawing.old step.now members.now)))) }
{
    let begun = StepContext::of(alloc, shape, drawing, step.source(), members)?;
    collective.draw(alloc, &mut drawing.plan, &begun)?;
    let ends = ends_of(alloc, &begun, collective)?;
    set_ends(
        &mut drawing.held,
        &mut drawing.exits,
        members,
        &ends,
        step.result(),
    );
    Ok(())
}
