//! The steps of a plan that a description's compiler made, as its links tell them.
//!
//! The first cells of a step are its entries, one for each member by rising rank. An entry has no operation, waits for a bump,
//! and, where it has data, for a put of a buffer that lies on its own rank; no other cell does. So the steps can be told from
//! the links alone, but for a step of one entry, as a barrier on one rank: it counts to the step after it where that one's
//! first rank is higher.

use crate::layout::{Layout, Place};
use crate::lines::PlanText;
use plan_core::{Cell, Link, LinkKind};
use ptl_types::Rank;
use std::alloc::{AllocError, Global};

/// The heights that the cells of a step have at a rank.
#[derive(Clone, Copy, Debug, PartialEq, Eq)]
pub struct Strip {
    /// The step, from 1.
    pub step: u32,
    /// The rank.
    pub rank: Rank,
    /// The lowest height.
    pub top: u32,
    /// The greatest height.
    pub bottom: u32,
}

/// The steps of a plan.
#[derive(Drop)]
pub struct Bands {
    /// How many cells stand before the first step: the go cells and those of inputs.
    pub before: usize,
    /// The strips of all steps, a step's side by side.
    pub strips: Vec<Strip>,
}

impl Bands {
    /// No bands: a plan that anybody made need not go step by step.
    pub fn none(alloc: Global, plan: &PlanText) -> Bands {
        Bands {
            before: plan.ranks as usize,
            strips: Vec::new(alloc),
        }
    }
}

/// What comes to a cell.
#[derive(Clone, Copy)]
enum Incoming {
    Nothing,
    Bump,
    /// A bump, and then a put from this cell.
    BumpAndPut(u32),
    Other,
}

impl Incoming {
    /// The same, and then this link.
    fn and(self, link: &Link) -> Incoming {
        match (self, link.kind) {
            (Incoming::Nothing, LinkKind::Bump) => Incoming::Bump,
            (Incoming::Bump, LinkKind::Put) => Incoming::BumpAndPut(link.source),
            _ => Incoming::Other,
        }
    }
}

/// What comes to each cell.
fn incoming_of(alloc: Global, plan: &PlanText) -> Result<Vec<Incoming>, AllocError> {
    let mut list = Vec::with_capacity(alloc, plan.cells().len())?;
    for _ in 0..plan.cells().len() {
        list.push(Incoming::Nothing)?;
    }
    for link in plan.links() {
        if let Some(incoming) = list.get_mut(link.target as usize) {
            *incoming = (*incoming).and(link);
        }
    }
    Ok(list)
}

/// Whether a cell to which this comes is an entry, where it is known of the cells before it.
fn is_entry(plan: &PlanText, cell: &Cell, incoming: Incoming, entries: &[bool]) -> bool {
    match incoming {
        Incoming::Bump => cell.op.is_none() && cell.length == 0,
        Incoming::BumpAndPut(source) => {
            let holds = match plan.cells().get(source as usize) {
                Some(held) => held.rank == cell.rank,
                None => false,
            };
            let entered = entries.get(source as usize).copied().unwrap_or(false);
            cell.op.is_none() && holds && !entered
        }
        _ => false,
    }
}

/// Which cells are entries.
fn entries_of(alloc: Global, plan: &PlanText) -> Result<Vec<bool>, AllocError> {
    let list = incoming_of(alloc, plan)?;
    let mut entries = Vec::with_capacity(alloc, plan.cells().len())?;
    for (cell, incoming) in plan.cells().iter().zip(list.iter()) {
        let entry = is_entry(plan, cell, *incoming, entries.as_slice());
        entries.push(entry)?;
    }
    Ok(entries)
}

/// Adds a cell's height to the strip of its step and rank, among those from the given place on.
fn put(strips: &mut Vec<Strip>, from: usize, step: u32, place: Place) -> Result<(), AllocError> {
    for strip in strips.iter_mut().skip(from) {
        if strip.rank == place.rank {
            strip.top = strip.top.min(place.height);
            strip.bottom = strip.bottom.max(place.height);
            return Ok(());
        }
    }
    strips.push(Strip {
        step,
        rank: place.rank,
        top: place.height,
        bottom: place.height,
    })?;
    Ok(())
}

/// The steps of a plan that is laid out so.
pub fn bands_of(alloc: Global, plan: &PlanText, layout: &Layout) -> Result<Bands, AllocError> {
    let entries = entries_of(alloc, plan)?;
    let mut strips = Vec::new(alloc);
    let (mut before, mut from, mut step) = (0usize, 0usize, 0u32);
    let mut entered = None;
    for (place, entry) in layout.places.iter().zip(entries.iter()) {
        if *entry {
            let goes_on = match entered {
                Some(rank) => rank < place.rank,
                None => false,
            };
            if !goes_on {
                step = step.saturating_add(1);
                from = strips.len();
            }
        }
        entered = if *entry { Some(place.rank) } else { None };
        if step == 0 {
            before = before.saturating_add(1);
        } else {
            put(&mut strips, from, step, *place)?;
        }
    }
    Ok(Bands { before, strips })
}
