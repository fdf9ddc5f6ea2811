//! Barrier: dissemination in rounds of doubling distance.

ghost use Rattle.std.specs.Prelude.{◌≤◌};
ghost use Rattle.plan_steps.specs.Collectives.Barrier.{barrier_cells, barrier_end, round_cell};

use crate::collective::Collective;
use crate::doubling::rounds;
use crate::ends::{StepExit, passing};
use crate::first_cells::BareEntries;
use crate::incoming::{bump, put, silent};
use crate::row::{Rows, draw_row, draw_rows};
use crate::step_context::StepContext;
use plan_core::Plan;
use ptl_types::NoMemory;
use std::alloc::Global;

/// The rounds: in each a place tells the one at twice the distance.
#[derive(Drop)]
struct Told;

impl Rows for Told {
    ghost fits = { λ told s round. round ≤ 8 };

    ghost cell = { λ told s. round_cell s };

    fn draw(
        &self,
        plan: &mut Plan,
        site: &StepContext,
        number: u32,
        place: u32,
    ) -> Result<(), NoMemory> {
        let count = site.count();
        let from = (place + count.saturating_sub(2u32.pow(number))) % count;
        let told = put(0, site.in_row(number, from), 0, 0);
        plan.draw(
            silent(site.rank(place)),
            &[bump(site.in_row(number, place)), told],
        )
    }
}

/// A barrier.
#[derive(Drop)]
pub(crate) struct Barrier;

impl Collective for Barrier {
    ghost cells = { λ step s. barrier_cells s };

    ghost end = { λ step s. barrier_end s };

    fn draw(&self, _alloc: Global, plan: &mut Plan, site: &StepContext) -> Result<(), NoMemory> {
        let last = rounds(site.count());
        draw_row(plan, site, &BareEntries, 0)?;
        draw_rows(plan, site, &Told, last)?;
        Ok(())
    }

    fn end(&self, site: &StepContext, place: u32) -> StepExit {
        let last = rounds(site.count());
        passing(site.in_row(last, place))
    }
}
