//! What is counted over all links or cells of a plan.

ghost use Rattle.std.specs.Prelude.{◌≡◌, ◌==◌, ◌&&◌, ◌<◌, ◌≤◌, ◌-◌, ◌^◌, min, length, if◌then◌else◌};
ghost use Rattle.plan_core.specs.Plan.{cell, in_links, is_bump, link, own};
ghost use Rattle.plan_core.specs.Sound.{put_bytes};
ghost use Rattle.plan_core.specs.calls.RankOps.{done_threshold, is_message, sends_of};

use crate::notes::parts::{cell_at, link_at};
use plan_core::{LinkKind, Plan};
use ptl_types::Rank;

/// 1 where something holds, else 0.
fn one_if(holds: bool) -> u64
    ensures value { result ≡ (if holds then 1 else 0) }
    ensures most { result ≤ 1 }
{
    if holds { 1 } else { 0 }
}

/// Whether a link only counts.
fn is_bump(kind: LinkKind) -> bool
    ensures { result ≡ is_bump kind }
{
    match kind {
        LinkKind::Bump => true,
        _ => false,
    }
}

/// The bytes that a link puts into this cell.
fn put_to(plan: &Plan, l: u64, c: u64) -> u64
    ensures { result ≡ (if (link plan.now l).target == c
        then (if is_bump (link plan.now l).kind then 0 else (link plan.now l).length)
        else 0) }
{
    let link = link_at(plan, l);
    if u64::from(link.target) != c || is_bump(link.kind) {
        0
    } else {
        link.length
    }
}

/// Whether a link sends a message of a rank.
fn is_sent_by(plan: &Plan, l: u64, r: Rank) -> bool
    ensures { result ≡ (((cell plan.now (link plan.now l).source).rank == r) && is_message plan.now l) }
{
    let link = link_at(plan, l);
    cell_at(plan, u64::from(link.source)).rank == r && !is_bump(link.kind)
}

/// How many links come to a cell.
pub(crate) fn links_to(plan: &Plan, c: u64) -> u64
    ensures { result ≡ length (in_links plan.now c) }
{
    let mut count = 0u64;
    for l in 0..plan.links().len() as u64 {
        count += one_if(u64::from(link_at(plan, l).target) == c);
    }
    count
}

/// The bytes that the puts to a cell have together, or the greatest number.
pub(crate) fn bytes_to(plan: &Plan, c: u64) -> u64
    ensures { result ≡ min (put_bytes plan.now c) (2 ^ 64 - 1) }
{
    let mut bytes = 0u64;
    for l in 0..plan.links().len() as u64 {
        bytes = bytes.saturating_add(put_to(plan, l, c));
    }
    bytes
}

/// How many cells lie on a rank.
fn cells_on(plan: &Plan, r: Rank) -> u64
    ensures { result ≡ length (own plan.now r) }
{
    let mut count = 0u64;
    for c in 0..plan.cells().len() as u64 {
        count += one_if(cell_at(plan, c).rank == r);
    }
    count
}

/// How many messages a rank sends.
fn sends_of(plan: &Plan, r: Rank) -> u64
    ensures { result ≡ sends_of plan.now r }
{
    let mut count = 0u64;
    for l in 0..plan.links().len() as u64 {
        count += one_if(is_sent_by(plan, l, r));
    }
    count
}

/// Where the done counter of a rank stands when all is done, or the greatest number.
pub(crate) fn done_at(plan: &Plan, r: Rank) -> u64
    ensures { result ≡ min (done_threshold plan.now r) (2 ^ 64 - 1) }
{
    let cells = cells_on(plan, r);
    if plan.remote() {
        cells.saturating_add(sends_of(plan, r))
    } else {
        cells
    }
}
