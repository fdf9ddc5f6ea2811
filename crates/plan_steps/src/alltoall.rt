//! Alltoall: every member gets its block of every list.

ghost use Rattle.std.specs.Prelude.{◌<◌};
ghost use Rattle.plan_steps.specs.Collectives.Alltoall.{alltoall_cells, alltoall_end, exchange_link, exchanged};
ghost use Rattle.plan_steps.specs.StepContext.{count};

use crate::collective::Collective;
use crate::ends::{StepExit, giving};
use crate::first_cells::FullEntries;
use crate::incoming::put;
use crate::row::{Rows, draw_row};
use crate::step_context::StepContext;
use crate::wide::{Links, draw_wide};
use plan_core::{Incoming, Plan};
use ptl_types::NoMemory;
use std::alloc::Global;

/// A place's block of each list.
#[derive(Drop)]
struct Blocks {
    place: u32,
}

impl Links for Blocks {
    ghost fits = { λ blocks s. blocks.place < count s };

    ghost link = { λ blocks s. exchange_link s blocks.place };

    fn link(&self, site: &StepContext, number: u32) -> Incoming {
        let block = site.length() / u64::from(site.count());
        put(
            block,
            site.entry(number),
            u64::from(self.place) * block,
            u64::from(number) * block,
        )
    }
}

/// The cells in which the places have their blocks.
#[derive(Drop)]
struct Exchanged;

impl Rows for Exchanged {
    ghost cell = { λ row s k. exchanged s };

    fn draw(
        &self,
        plan: &mut Plan,
        site: &StepContext,
        _number: u32,
        place: u32,
    ) -> Result<(), NoMemory> {
        let part = site.holding(site.length(), place);
        draw_wide(plan, site, part, &Blocks { place })?;
        Ok(())
    }
}

/// An alltoall.
#[derive(Drop)]
pub(crate) struct Alltoall;

impl Collective for Alltoall {
    ghost cells = { λ step s. alltoall_cells s };

    ghost end = { λ step s. alltoall_end s };

    fn draw(&self, _alloc: Global, plan: &mut Plan, site: &StepContext) -> Result<(), NoMemory> {
        draw_row(plan, site, &FullEntries, 0)?;
        draw_row(plan, site, &Exchanged, 0)?;
        Ok(())
    }

    fn end(&self, site: &StepContext, place: u32) -> StepExit {
        site.recall_members();
        giving(site.further(place))
    }
}
