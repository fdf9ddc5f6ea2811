//! How many messages and bytes there are on each lane.

ghost use Rattle.std.specs.Prelude.{◌≡◌, ◌<◌, ◌+◌, ◌*◌, IfOk, length};
ghost use Rattle.ptl_types.specs.declared.headers.Lane.TheVariants.{Request};
ghost use Rattle.plan_core.specs.calls.Lanes.{lane_bytes, lane_messages};
ghost use Rattle.plan_tables.specs.Tables.{IsTabled, lane_counts, lane_sums};

use crate::all_areas::tally;
use crate::reading::lane_of;
use crate::tallies::Tallies;
use plan_core::Plan;
use plan_core::reading::link_at;
use ptl_types::{NoMemory, Rank};
use std::alloc::Global;

/// The messages of each pair of ranks, by source and then by target: dense tables, of at most 65,536 places.
#[derive(Debug, Drop)]
pub struct Lanes {
    /// Messages.
    pub counts: Tallies,
    /// Bytes.
    pub bytes: Tallies,
}

/// The lanes of requests between all ranks. One pass over the links.
///
/// # Errors
///
/// There was no memory for the tables.
pub(crate) fn find_lanes(alloc: Global, plan: &Plan) -> Result<Lanes, NoMemory>
    requires { IsTabled plan.now }
    ensures counts { IfOk result (λ lanes. lanes.counts ≡ lane_counts plan.now) }
    ensures bytes { IfOk result (λ lanes. lanes.bytes ≡ lane_sums plan.now) }
{
    let ranks = plan.ranks();
    let keys = ranks * ranks;
    let mut counts = Tallies::open(alloc, keys)?;
    let mut bytes = Tallies::open(alloc, keys)?;
    for l in 0..plan.links().len() as u32 {
        let key = lane_of(plan, l);
        tally(&mut counts, key, 1);
        tally(&mut bytes, key, link_at(plan, l).length);
    }
    Ok(Lanes { counts, bytes })
}

impl Lanes {
    /// How many requests go from one rank to another.
    pub fn messages(&self, plan: &Plan, s: Rank, d: Rank) -> u64
        requires counts { self.now.counts ≡ lane_counts plan.now }
        requires tabled { IsTabled plan.now }
        requires source { s < plan.now.ranks }
        requires target { d < plan.now.ranks }
        ensures { result ≡ lane_messages plan.now s d Request }
    {
        let ranks = plan.ranks() as usize;
        self.counts.at(s as usize * ranks + d as usize)
    }

    /// Their bytes together.
    pub fn sent_bytes(&self, plan: &Plan, s: Rank, d: Rank) -> u64
        requires bytes { self.now.bytes ≡ lane_sums plan.now }
        requires tabled { IsTabled plan.now }
        requires source { s < plan.now.ranks }
        requires target { d < plan.now.ranks }
        ensures { result ≡ lane_bytes plan.now s d }
    {
        let ranks = plan.ranks() as usize;
        self.bytes.at(s as usize * ranks + d as usize)
    }
}
