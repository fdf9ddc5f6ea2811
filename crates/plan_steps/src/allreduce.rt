//! Allreduce: the lists are combined up a tree, and the result goes down it.

ghost use Rattle.plan_steps.specs.Collectives.Allreduce.{allreduce_cells, allreduce_end, result_cell};

use crate::collective::Collective;
use crate::ends::{StepExit, giving};
use crate::first_cells::FullEntries;
use crate::row::{Rows, draw_row};
use crate::step_context::StepContext;
use crate::tree::{Down, Up, draw_down_cell, up_number};
use plan_core::Plan;
use ptl_types::{AtomicOp, NoMemory};
use std::alloc::Global;

/// The result's copies down the tree.
#[derive(Drop)]
struct Results;

impl Rows for Results {
    ghost cell = { λ results s k. result_cell s };

    fn draw(
        &self,
        plan: &mut Plan,
        site: &StepContext,
        _number: u32,
        place: u32,
    ) -> Result<(), NoMemory> {
        let down = Down {
            root: 0,
            base: site.further(site.count()),
            top: up_number(site, 0),
        };
        draw_down_cell(plan, site, down, up_number(site, place), place)
    }
}

/// An allreduce.
#[derive(Drop)]
pub(crate) struct Allreduce {
    pub(crate) op: AtomicOp,
}

impl Collective for Allreduce {
    ghost cells = { λ step s. allreduce_cells s step.op };

    ghost end = { λ step s. allreduce_end s };

    fn draw(&self, alloc: Global, plan: &mut Plan, site: &StepContext) -> Result<(), NoMemory> {
        let up = Up {
            alloc,
            root: 0,
            op: self.op,
        };
        site.recall_members();
        draw_row(plan, site, &FullEntries, 0)?;
        draw_row(plan, site, &up, 0)?;
        draw_row(plan, site, &Results, 0)?;
        Ok(())
    }

    fn end(&self, site: &StepContext, place: u32) -> StepExit {
        let count = site.count();
        giving(site.further(count + place))
    }
}
