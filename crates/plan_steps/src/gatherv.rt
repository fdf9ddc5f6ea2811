//! Gather of what is held: the lists of the members that hold one go to the root.

ghost use Rattle.std.specs.Prelude.{◌≡◌, ◌<◌, ◌∷◌, [], IfOk, length, map};
ghost use Rattle.plan_core.specs.Plan.{from_to};
ghost use Rattle.plan_core.specs.Draw.{HasRoom, add};
ghost use Rattle.plan_steps.specs.StepContext.{bump, count, entry};
ghost use Rattle.plan_steps.specs.Collectives.Gatherv.{concatenated, gatherv_cells, gatherv_end, held_entry, holder_put};

use crate::collective::Collective;
use crate::ends::{StepExit, giving, passing};
use crate::first_cells::{draw_bare, draw_full};
use crate::incoming::{bump, put};
use crate::row::{Rows, draw_row};
use crate::step_context::StepContext;
use coll_shape::is_in;
use plan_core::{Incoming, Plan};
use ptl_types::NoMemory;
use std::alloc::{AllocError, Global};

/// Entries with data where the buffer is held.
#[derive(Drop)]
struct HeldEntries;

impl Rows for HeldEntries {
    ghost cell = { λ entries s k. held_entry s };

    fn draw(
        &self,
        plan: &mut Plan,
        site: &StepContext,
        _number: u32,
        place: u32,
    ) -> Result<(), NoMemory> {
        if is_in(place, site.holders()) {
            draw_full(plan, site, place)
        } else {
            draw_bare(plan, site, place)
        }
    }
}

/// What the i-th holder sends.
fn holder_put(site: &StepContext, i: u32) -> Incoming
    requires { i < length site.now.holding }
    ensures { result ≡ holder_put site.now i }
{
    site.recall_members();
    let place = site.holders()[i as usize];
    put(
        site.length(),
        site.entry(place),
        0,
        u64::from(i) * site.length(),
    )
}

/// What comes to the root's last cell: an increment, and the lists of the holders.
fn concatenated_links(
    alloc: Global,
    site: &StepContext,
    root: u32,
) -> Result<Vec<Incoming>, AllocError>
    requires { root < count site.now }
    ensures { IfOk result (λ links.
        links.items ≡ bump (entry site.now root) ∷ map (holder_put site.now) (from_to 0 (length site.now.holding))) }
{
    site.recall_members();
    let holders = site.holders().len() as u32;
    let mut links = Vec::new(alloc);
    links.push(bump(site.entry(root)))?;
    for i in 0..holders {
        links.push(holder_put(site, i))?;
    }
    Ok(links)
}

/// The cell in which the root has the lists.
fn draw_concatenated(
    alloc: Global,
    plan: &mut Plan,
    site: &StepContext,
    root: u32,
) -> Result<(), NoMemory>
    requires root { root < count site.now }
    requires room { HasRoom plan.old (concatenated site.now root ∷ []) }
    ensures { IfOk result (λ u. plan.new ≡ add plan.old (concatenated site.now root)) }
{
    site.recall_members();
    let holders = site.holders().len() as u64;
    let part = site.holding(holders * site.length(), root);
    match concatenated_links(alloc, site, root) {
        Ok(links) => plan.draw(part, links.as_slice()),
        Err(_) => Err(NoMemory),
    }
}

/// A gather of what is held, to a root.
#[derive(Drop)]
pub(crate) struct Gatherv {
    pub(crate) root: u32,
}

impl Collective for Gatherv {
    ghost fits = { λ step s. step.root < count s };

    ghost cells = { λ step s. gatherv_cells s step.root };

    ghost end = { λ step s. gatherv_end s step.root };

    fn draw(&self, alloc: Global, plan: &mut Plan, site: &StepContext) -> Result<(), NoMemory> {
        draw_row(plan, site, &HeldEntries, 0)?;
        draw_concatenated(alloc, plan, site, self.root)?;
        Ok(())
    }

    fn end(&self, site: &StepContext, place: u32) -> StepExit {
        site.recall_members();
        if place == self.root {
            giving(site.further(0))
        } else {
            passing(site.entry(place))
        }
    }
}
