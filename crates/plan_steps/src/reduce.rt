//! Reduce: the lists are combined up a tree.

ghost use Rattle.std.specs.Prelude.{◌<◌};
ghost use Rattle.plan_steps.specs.Collectives.Reduce.{reduce_cells, reduce_end};
ghost use Rattle.plan_steps.specs.StepContext.{count};

use crate::collective::Collective;
use crate::ends::{StepExit, giving, passing};
use crate::first_cells::FullEntries;
use crate::row::draw_row;
use crate::step_context::StepContext;
use crate::tree::{Up, unturned, up_number};
use plan_core::Plan;
use ptl_types::{AtomicOp, NoMemory};
use std::alloc::Global;

/// A reduce to a root.
#[derive(Drop)]
pub(crate) struct Reduce {
    pub(crate) root: u32,
    pub(crate) op: AtomicOp,
}

impl Collective for Reduce {
    ghost fits = { λ step s. step.root < count s };

    ghost cells = { λ step s. reduce_cells s step.root step.op };

    ghost end = { λ step s. reduce_end s step.root };

    fn draw(&self, alloc: Global, plan: &mut Plan, site: &StepContext) -> Result<(), NoMemory> {
        let up = Up {
            alloc,
            root: self.root,
            op: self.op,
        };
        draw_row(plan, site, &FullEntries, 0)?;
        draw_row(plan, site, &up, 0)?;
        Ok(())
    }

    fn end(&self, site: &StepContext, place: u32) -> StepExit {
        if place == self.root {
            giving(up_number(site, 0))
        } else {
            passing(up_number(site, unturned(site, self.root, place)))
        }
    }
}
