//! Scatter: each member gets its block of the root's list.

ghost use Rattle.std.specs.Prelude.{◌<◌};
ghost use Rattle.plan_steps.specs.Collectives.Scatter.{scatter_cells, scatter_end, scattered};
ghost use Rattle.plan_steps.specs.StepContext.{count};

use crate::collective::Collective;
use crate::ends::{StepExit, giving};
use crate::first_cells::RootEntries;
use crate::incoming::{bump, put};
use crate::row::{Rows, draw_row};
use crate::step_context::StepContext;
use plan_core::Plan;
use ptl_types::NoMemory;
use std::alloc::Global;

/// The cells with the places' blocks.
#[derive(Drop)]
struct Scattered {
    root: u32,
}

impl Rows for Scattered {
    ghost fits = { λ row s k. row.root < count s };

    ghost cell = { λ row s k. scattered s row.root };

    fn draw(
        &self,
        plan: &mut Plan,
        site: &StepContext,
        _number: u32,
        place: u32,
    ) -> Result<(), NoMemory> {
        let block = site.length() / u64::from(site.count());
        let part = site.holding(block, place);
        let own = put(block, site.entry(self.root), u64::from(place) * block, 0);
        if place == self.root {
            plan.draw(part, &[own])
        } else {
            plan.draw(part, &[bump(site.entry(place)), own])
        }
    }
}

/// A scatter from a root.
#[derive(Drop)]
pub(crate) struct Scatter {
    pub(crate) root: u32,
}

impl Collective for Scatter {
    ghost fits = { λ step s. step.root < count s };

    ghost cells = { λ step s. scatter_cells s step.root };

    ghost end = { λ step s. scatter_end s };

    fn draw(&self, _alloc: Global, plan: &mut Plan, site: &StepContext) -> Result<(), NoMemory> {
        draw_row(plan, site, &RootEntries { root: self.root }, 0)?;
        draw_row(plan, site, &Scattered { root: self.root }, 0)?;
        Ok(())
    }

    fn end(&self, site: &StepContext, place: u32) -> StepExit {
        site.recall_members();
        giving(site.further(place))
    }
}
