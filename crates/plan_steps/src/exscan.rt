//! Exclusive scan: the rounds of a scan, and each member gets what the place before it has.

ghost use Rattle.plan_steps.specs.Collectives.Exscan.{exscan_cells, exscan_end, shifted};
ghost use Rattle.plan_steps.specs.StepContext.{count};

use crate::collective::Collective;
use crate::doubling::rounds;
use crate::ends::{StepExit, giving, passing};
use crate::first_cells::FullEntries;
use crate::incoming::{bump, put_whole};
use crate::row::{Rows, draw_cells, draw_row, draw_rows};
use crate::scan::{ScanRounds, scan_number};
use crate::step_context::StepContext;
use plan_core::Plan;
use ptl_types::{AtomicOp, NoMemory};
use std::alloc::Global;

/// The cells of the places but the first: each gets what the place before it has. They are counted by that place.
#[derive(Drop)]
struct Shifted;

impl Rows for Shifted {
    ghost use Rattle.std.specs.Prelude.{◌-◌};

    ghost size = { λ row s. count s - 1 };

    ghost cell = { λ row s k. shifted s };

    fn draw(
        &self,
        plan: &mut Plan,
        site: &StepContext,
        _number: u32,
        place: u32,
    ) -> Result<(), NoMemory> {
        let last = rounds(site.count());
        let own = bump(scan_number(site, last, place + 1));
        let before = put_whole(site.length(), scan_number(site, last, place));
        plan.draw(site.holding(site.length(), place + 1), &[own, before])
    }
}

/// An exclusive scan.
#[derive(Drop)]
pub(crate) struct Exscan {
    pub(crate) op: AtomicOp,
}

impl Collective for Exscan {
    ghost cells = { λ step s. exscan_cells s step.op };

    ghost end = { λ step s. exscan_end s };

    fn draw(&self, _alloc: Global, plan: &mut Plan, site: &StepContext) -> Result<(), NoMemory> {
        let count = site.count();
        let last = rounds(count);
        draw_row(plan, site, &FullEntries, 0)?;
        draw_rows(plan, site, &ScanRounds { op: self.op }, last + 1)?;
        draw_cells(plan, site, &Shifted, 0, count - 1)?;
        Ok(())
    }

    fn end(&self, site: &StepContext, place: u32) -> StepExit {
        let last = rounds(site.count());
        if place == 0 {
            passing(scan_number(site, last, 0))
        } else {
            giving(site.in_row(last + 2, place - 1))
        }
    }
}
