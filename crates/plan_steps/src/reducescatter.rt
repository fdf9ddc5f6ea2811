//! Reduce-scatter: each member gets its block of the fold.

ghost use Rattle.plan_steps.specs.Collectives.Reducescatter.{reducescatter_cells, reducescatter_end, result_block};

use crate::collective::Collective;
use crate::ends::{StepExit, giving};
use crate::first_cells::FullEntries;
use crate::incoming::{bump, put};
use crate::row::{Rows, draw_row};
use crate::step_context::StepContext;
use crate::tree::{Up, up_number};
use plan_core::Plan;
use ptl_types::{AtomicOp, NoMemory};
use std::alloc::Global;

/// The cells with the places' blocks of the fold.
#[derive(Drop)]
struct ResultBlocks;

impl Rows for ResultBlocks {
    ghost cell = { λ row s k. result_block s };

    fn draw(
        &self,
        plan: &mut Plan,
        site: &StepContext,
        _number: u32,
        place: u32,
    ) -> Result<(), NoMemory> {
        let block = site.length() / u64::from(site.count());
        let part = site.holding(block, place);
        let own = put(block, up_number(site, 0), u64::from(place) * block, 0);
        if place == 0 {
            plan.draw(part, &[own])
        } else {
            plan.draw(part, &[bump(up_number(site, place)), own])
        }
    }
}

/// A reduce-scatter.
#[derive(Drop)]
pub(crate) struct Reducescatter {
    pub(crate) op: AtomicOp,
}

impl Collective for Reducescatter {
    ghost cells = { λ step s. reducescatter_cells s step.op };

    ghost end = { λ step s. reducescatter_end s };

    fn draw(&self, alloc: Global, plan: &mut Plan, site: &StepContext) -> Result<(), NoMemory> {
        let up = Up {
            alloc,
            root: 0,
            op: self.op,
        };
        site.recall_members();
        draw_row(plan, site, &FullEntries, 0)?;
        draw_row(plan, site, &up, 0)?;
        draw_row(plan, site, &ResultBlocks, 0)?;
        Ok(())
    }

    fn end(&self, site: &StepContext, place: u32) -> StepExit {
        let count = site.count();
        giving(site.further(count + place))
    }
}
