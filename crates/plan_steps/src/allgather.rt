//! Allgather: a ring of the members.

ghost use Rattle.std.specs.Prelude.{◌≡◌, ◌<◌};
ghost use Rattle.plan_steps.specs.Collectives.Allgather.{allgather_cells, allgather_end, collect_link, collected, ring_cell, ring_node};
ghost use Rattle.plan_steps.specs.Collectives.Allgather.{ring_source};
ghost use Rattle.plan_steps.specs.StepContext.{count};

use crate::collective::Collective;
use crate::ends::{StepExit, giving};
use crate::first_cells::FullEntries;
use crate::incoming::{put, put_whole};
use crate::row::{Rows, draw_row, draw_rows};
use crate::step_context::StepContext;
use crate::wide::{Links, draw_wide};
use plan_core::{Incoming, Plan};
use ptl_types::NoMemory;
use std::alloc::Global;

/// What a place has after so many turns.
fn ring_cell(site: &StepContext, turn: u32, place: u32) -> u32
    requires turn { turn < count site.now }
    requires place { place < count site.now }
    ensures { result ≡ ring_cell site.now turn place }
{
    site.recall_members();
    site.in_row(turn + 1, place)
}

/// Where that comes from: the place's own entry, or the place before it on the ring.
fn ring_source(site: &StepContext, turn: u32, place: u32) -> u32
    requires turn { turn < count site.now }
    requires place { place < count site.now }
    ensures { result ≡ ring_source site.now turn place }
{
    let count = site.count();
    if turn == 0 {
        site.entry(place)
    } else {
        ring_cell(site, turn - 1, (place + (count - 1)) % count)
    }
}

/// The turns of the ring.
#[derive(Drop)]
struct Turns;

impl Rows for Turns {
    ghost fits = { λ turns s turn. turn < count s };

    ghost cell = { λ turns s. ring_node s };

    fn draw(
        &self,
        plan: &mut Plan,
        site: &StepContext,
        number: u32,
        place: u32,
    ) -> Result<(), NoMemory> {
        let copy = put_whole(site.length(), ring_source(site, number, place));
        plan.draw(site.holding(site.length(), place), &[copy])
    }
}

/// What a place collects, turn by turn.
#[derive(Drop)]
struct Passed {
    place: u32,
}

impl Links for Passed {
    ghost fits = { λ passed s. passed.place < count s };

    ghost link = { λ passed s. collect_link s passed.place };

    fn link(&self, site: &StepContext, number: u32) -> Incoming {
        let count = site.count();
        let origin = (self.place + (count - number)) % count;
        let at = u64::from(origin) * site.length();
        put(site.length(), ring_cell(site, number, self.place), 0, at)
    }
}

/// The cells in which the places collect all lists.
#[derive(Drop)]
struct Collected;

impl Rows for Collected {
    ghost cell = { λ row s k. collected s };

    fn draw(
        &self,
        plan: &mut Plan,
        site: &StepContext,
        _number: u32,
        place: u32,
    ) -> Result<(), NoMemory> {
        let length = u64::from(site.count()) * site.length();
        let part = site.holding(length, place);
        draw_wide(plan, site, part, &Passed { place })?;
        Ok(())
    }
}

/// An allgather.
#[derive(Drop)]
pub(crate) struct Allgather;

impl Collective for Allgather {
    ghost cells = { λ step s. allgather_cells s };

    ghost end = { λ step s. allgather_end s };

    fn draw(&self, _alloc: Global, plan: &mut Plan, site: &StepContext) -> Result<(), NoMemory> {
        let count = site.count();
        draw_row(plan, site, &FullEntries, 0)?;
        draw_rows(plan, site, &Turns, count)?;
        draw_row(plan, site, &Collected, 0)?;
        Ok(())
    }

    fn end(&self, site: &StepContext, place: u32) -> StepExit {
        let count = site.count();
        giving(site.in_row(count + 1, place))
    }
}
