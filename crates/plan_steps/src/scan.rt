//! Scan: rounds of doubling distance.

ghost use Rattle.std.specs.Prelude.{◌≡◌, ◌≤◌, ◌<◌, ◌^◌};
ghost use Rattle.plan_steps.specs.Collectives.Scan.{scan_cell, scan_cells, scan_end, scan_number};

use crate::collective::Collective;
use crate::doubling::rounds;
use crate::ends::{StepExit, giving};
use crate::first_cells::FullEntries;
use crate::incoming::atomic;
use crate::row::{Rows, draw_row, draw_rows};
use crate::step_context::StepContext;
use plan_core::Plan;
use ptl_types::{AtomicOp, NoMemory};
use std::alloc::Global;

/// The cell of a place in a round.
pub(crate) fn scan_number(site: &StepContext, round: u32, place: u32) -> u32
    requires round { round ≤ 8 }
    requires place { place ≤ 256 }
    ensures value { result ≡ scan_number site.now round place }
    ensures at_most { result < 2 ^ 25 }
{
    site.in_row(round + 1, place)
}

/// The rounds.
#[derive(Drop)]
pub(crate) struct ScanRounds {
    pub(crate) op: AtomicOp,
}

impl Rows for ScanRounds {
    ghost fits = { λ rounds s round. round ≤ 8 };

    ghost cell = { λ rounds s. scan_cell s rounds.op };

    fn draw(
        &self,
        plan: &mut Plan,
        site: &StepContext,
        number: u32,
        place: u32,
    ) -> Result<(), NoMemory> {
        site.recall_members();
        let part = site.summing(self.op, place);
        let length = site.length();
        if number == 0 {
            return plan.draw(part, &[atomic(length, site.entry(place))]);
        }
        let distance = 2u32.pow(number - 1);
        let own = atomic(length, scan_number(site, number - 1, place));
        if distance <= place {
            let other = atomic(length, scan_number(site, number - 1, place - distance));
            plan.draw(part, &[own, other])
        } else {
            plan.draw(part, &[own])
        }
    }
}

/// A scan.
#[derive(Drop)]
pub(crate) struct Scan {
    pub(crate) op: AtomicOp,
}

impl Collective for Scan {
    ghost cells = { λ step s. scan_cells s step.op };

    ghost end = { λ step s. scan_end s };

    fn draw(&self, _alloc: Global, plan: &mut Plan, site: &StepContext) -> Result<(), NoMemory> {
        let last = rounds(site.count());
        draw_row(plan, site, &FullEntries, 0)?;
        draw_rows(plan, site, &ScanRounds { op: self.op }, last + 1)?;
        Ok(())
    }

    fn end(&self, site: &StepContext, place: u32) -> StepExit {
        let last = rounds(site.count());
        giving(scan_number(site, last, place))
    }
}
