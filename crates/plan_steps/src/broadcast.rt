//! Broadcast: the root's list goes down a tree.

ghost use Rattle.std.specs.Prelude.{◌<◌};
ghost use Rattle.plan_steps.specs.Collectives.Broadcast.{broadcast_cells, broadcast_end, copy_cell};
ghost use Rattle.plan_steps.specs.StepContext.{count};

use crate::collective::Collective;
use crate::ends::{StepExit, giving};
use crate::first_cells::RootEntries;
use crate::row::{Rows, draw_row};
use crate::step_context::StepContext;
use crate::tree::{Down, draw_down_cell, turned, unturned};
use plan_core::Plan;
use ptl_types::NoMemory;
use std::alloc::Global;

/// The copies down the tree.
#[derive(Drop)]
struct Copies {
    root: u32,
}

impl Rows for Copies {
    ghost fits = { λ copies s k. copies.root < count s };

    ghost cell = { λ copies s k. copy_cell s copies.root };

    fn draw(
        &self,
        plan: &mut Plan,
        site: &StepContext,
        _number: u32,
        place: u32,
    ) -> Result<(), NoMemory> {
        site.recall_members();
        let down = Down {
            root: self.root,
            base: site.further(0),
            top: site.entry(self.root),
        };
        let below = site.entry(turned(site, self.root, place));
        draw_down_cell(plan, site, down, below, place)
    }
}

/// A broadcast from a root.
#[derive(Drop)]
pub(crate) struct Broadcast {
    pub(crate) root: u32,
}

impl Collective for Broadcast {
    ghost fits = { λ step s. step.root < count s };

    ghost cells = { λ step s. broadcast_cells s step.root };

    ghost end = { λ step s. broadcast_end s step.root };

    fn draw(&self, _alloc: Global, plan: &mut Plan, site: &StepContext) -> Result<(), NoMemory> {
        draw_row(plan, site, &RootEntries { root: self.root }, 0)?;
        draw_row(plan, site, &Copies { root: self.root }, 0)?;
        Ok(())
    }

    fn end(&self, site: &StepContext, place: u32) -> StepExit {
        site.recall_members();
        giving(site.further(unturned(site, self.root, place)))
    }
}
