//! Gather: every list goes to the root.

ghost use Rattle.std.specs.Prelude.{◌<◌, ◌≡◌, ◌∷◌, [], IfOk};
ghost use Rattle.plan_core.specs.Draw.{HasRoom, add};
ghost use Rattle.plan_steps.specs.Collectives.Gather.{gather_cells, gather_end, gather_link, gathered};
ghost use Rattle.plan_steps.specs.StepContext.{count};

use crate::collective::Collective;
use crate::ends::{StepExit, giving, passing};
use crate::first_cells::FullEntries;
use crate::incoming::put;
use crate::row::draw_row;
use crate::step_context::StepContext;
use crate::wide::{Links, draw_wide};
use plan_core::{Incoming, Plan};
use ptl_types::NoMemory;
use std::alloc::Global;

/// Each place's list, where the root keeps it.
#[derive(Drop)]
struct Lists;

impl Links for Lists {
    ghost link = { λ lists s. gather_link s };

    fn link(&self, site: &StepContext, number: u32) -> Incoming {
        site.recall_members();
        let at = u64::from(number) * site.length();
        put(site.length(), site.entry(number), 0, at)
    }
}

/// The cell in which the root has all lists.
fn draw_gathered(plan: &mut Plan, site: &StepContext, root: u32) -> Result<(), NoMemory>
    requires root { root < count site.now }
    requires room { HasRoom plan.old (gathered site.now root ∷ []) }
    ensures { IfOk result (λ u. plan.new ≡ add plan.old (gathered site.now root)) }
{
    let length = u64::from(site.count()) * site.length();
    let part = site.holding(length, root);
    draw_wide(plan, site, part, &Lists)?;
    Ok(())
}

/// A gather to a root.
#[derive(Drop)]
pub(crate) struct Gather {
    pub(crate) root: u32,
}

impl Collective for Gather {
    ghost fits = { λ step s. step.root < count s };

    ghost cells = { λ step s. gather_cells s step.root };

    ghost end = { λ step s. gather_end s step.root };

    fn draw(&self, _alloc: Global, plan: &mut Plan, site: &StepContext) -> Result<(), NoMemory> {
        draw_row(plan, site, &FullEntries, 0)?;
        draw_gathered(plan, site, self.root)?;
        Ok(())
    }

    fn end(&self, site: &StepContext, place: u32) -> StepExit {
        site.recall_members();
        if place == self.root {
            giving(site.further(0))
        } else {
            passing(site.entry(place))
        }
    }
}
