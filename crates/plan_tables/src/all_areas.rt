//! The areas for messages that come before a rank's start.

ghost use Rattle.std.specs.Prelude.{◌≡◌, ◌<◌, ◌+◌, ◌*◌, ◌^◌, IfOk, get_or, length, set, nat_lt, if◌then◌else◌};
ghost use Rattle.plan_core.specs.Plan.{link};
ghost use Rattle.plan_tables.specs.Tables.{IsTabled};
ghost use Rattle.plan_tables.specs.AreaTables.{area_counts, area_sums, message_key};

use crate::calls::class_of;
use crate::reading::to_rank;
use crate::tallies::Tallies;
use plan_core::reading::{cell_at, link_at};
use plan_core::{LinkKind, Plan};
use ptl_types::NoMemory;
use std::alloc::Global;

/// For each rank and each of its 81 classes, at rank * 81 + class: how many messages come, and how many bytes they have.
#[derive(Debug, Drop)]
pub struct Areas {
    /// Messages. A class that has some has an area, also where they have no bytes.
    pub counts: Tallies,
    /// Bytes.
    pub bytes: Tallies,
}

/// Where a link is counted, past the end where it is no message.
fn area_of(plan: &Plan, l: u32) -> usize
    requires tabled { IsTabled plan.now }
    requires link { l < length plan.now.links }
    ensures { result ≡ message_key plan.now l }
{
    let link = link_at(plan, l);
    match link.kind {
        LinkKind::Bump => plan.ranks() as usize * 81,
        _ => {
            let target = cell_at(plan, link.target);
            to_rank(plan, l) as usize * 81 + class_of(target.op, target.ty) as usize
        }
    }
}

/// Adds to a table, where it has the key.
pub(crate) fn tally(table: &mut Tallies, key: usize, by: u64)
    requires { get_or table.old key 0 + by < 2 ^ 64 }
    ensures { table.new ≡ (if nat_lt key (length table.old) then set table.old key (get_or table.old key 0 + by) else table.old) }
{
    if key < table.len() {
        table.add(key, by);
    }
}

/// The areas of all ranks. One pass over the links.
///
/// # Errors
///
/// There was no memory for the tables.
pub(crate) fn find_areas(alloc: Global, plan: &Plan) -> Result<Areas, NoMemory>
    requires { IsTabled plan.now }
    ensures counts { IfOk result (λ areas. areas.counts ≡ area_counts plan.now) }
    ensures bytes { IfOk result (λ areas. areas.bytes ≡ area_sums plan.now) }
{
    let keys = plan.ranks() * 81;
    let mut counts = Tallies::open(alloc, keys)?;
    let mut bytes = Tallies::open(alloc, keys)?;
    for l in 0..plan.links().len() as u32 {
        let key = area_of(plan, l);
        tally(&mut counts, key, 1);
        tally(&mut bytes, key, link_at(plan, l).length);
    }
    Ok(Areas { counts, bytes })
}
