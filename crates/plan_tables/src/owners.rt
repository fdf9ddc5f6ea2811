//! The cells of each rank, and the links that each rank fires.

ghost use Rattle.std.specs.Prelude.{◌≡◌, ◌<◌, ◌++◌, ◌∷◌, [], nat_lt, if◌then◌else◌, IfOk, get_or, length, map, set};
ghost use Rattle.plan_core.specs.Plan.{own, out_links};
ghost use Rattle.plan_core.specs.calls.Areas.{links_to};
ghost use Rattle.plan_tables.specs.Tables.{IsTabled, all_ranks, arrival_key};

use crate::by_rank::ByRank;
use crate::reading::{from_rank, rank_of, to_rank};
use plan_core::reading::link_at;
use plan_core::{LinkKind, Plan};
use ptl_types::NoMemory;
use std::alloc::Global;

/// The cells of each rank, rising, in one pass.
///
/// # Errors
///
/// There was no memory for them.
pub(crate) fn cells_by_rank(alloc: Global, plan: &Plan) -> Result<ByRank, NoMemory>
    requires { IsTabled plan.now }
    ensures { IfOk result (λ table. table ≡ map (own plan.now) (all_ranks plan.now)) }
{
    let mut own = ByRank::open(alloc, plan.ranks())?;
    for c in 0..plan.cells().len() as u32 {
        own.add(rank_of(plan, c), c)?;
    }
    Ok(own)
}

/// The links that each rank fires, rising, in one pass.
///
/// # Errors
///
/// There was no memory for them.
pub(crate) fn links_by_rank(alloc: Global, plan: &Plan) -> Result<ByRank, NoMemory>
    requires { IsTabled plan.now }
    ensures { IfOk result (λ table. table ≡ map (out_links plan.now) (all_ranks plan.now)) }
{
    let mut out = ByRank::open(alloc, plan.ranks())?;
    for l in 0..plan.links().len() as u32 {
        out.add(from_rank(plan, l), l)?;
    }
    Ok(out)
}

/// Adds a link to those that come to its target's rank, if it is a message.
fn add_message(into: &mut ByRank, plan: &Plan, l: u32) -> Result<(), NoMemory>
    requires tabled { IsTabled plan.now }
    requires link { l < length plan.now.links }
    requires ranks { length into.old ≡ plan.now.ranks }
    ensures { IfOk result (λ u. into.new ≡ (if nat_lt (arrival_key plan.now l) plan.now.ranks then set into.old (arrival_key plan.now l)
        (get_or into.old (arrival_key plan.now l) [] ++ l ∷ []) else into.old)) }
{
    match link_at(plan, l).kind {
        LinkKind::Bump => Ok(()),
        _ => into.add(to_rank(plan, l), l),
    }
}

/// The links along which messages come to each rank, rising, in one pass.
///
/// # Errors
///
/// There was no memory for them.
pub(crate) fn messages_by_rank(alloc: Global, plan: &Plan) -> Result<ByRank, NoMemory>
    requires { IsTabled plan.now }
    ensures { IfOk result (λ table. table ≡ map (links_to plan.now) (all_ranks plan.now)) }
{
    let mut into = ByRank::open(alloc, plan.ranks())?;
    for l in 0..plan.links().len() as u32 {
        add_message(&mut into, plan, l)?;
    }
    Ok(into)
}
