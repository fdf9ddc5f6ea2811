//! The parts of a world before its first step, together.

ghost use Rattle.std.specs.Prelude.{ℕ, [], ◌≡◌, ◌<◌, IfOk};
ghost use Rattle.cuts.specs.orders.Chosen.{first_scene};
ghost use Rattle.worlds.specs.parts.Keeps.{IsWorld};
ghost use Rattle.worlds.specs.parts.Layout.{node_at, scene_of};
ghost use Rattle.worlds.specs.opening.Laying.{FitLanes};

use crate::opening::installing::install_all;
use crate::opening::laying::{Room, lay_all};
use crate::parts::lanes::{LaneTable, Setting};
use crate::parts::marks::{Firings, Starts};
use crate::parts::traffic::Traffic;
use count_tree::CountTree;
use ptl_types::NoMemory;
use rank_node::Node;
use schedule_compiler::Job;
use std::alloc::Global;

/// The nodes of a job's world by rank, and the traffic between them, before its first step, under a window. In each node and in each
/// request lane there is room for so many strays, of at most 64 bytes each, beside the plan's messages. All the memory that the world
/// needs is taken here.
///
/// # Errors
///
/// There was no memory for it. The job is as it was.
pub fn opened(
    alloc: Global,
    job: &Job,
    window: u64,
    strays: u32,
) -> Result<(Vec<Node>, Traffic), NoMemory>
    requires window { 0 < window }
    requires at_most { FitLanes job.now.schedule.plan strays }
    ensures world { IfOk result (λ w. IsWorld job.now.schedule.plan job.now.inputs w.0.items w.1) }
    ensures setting { IfOk result (λ w.
        w.1.setting ≡ record { ranks = job.now.schedule.plan.ranks; window = window; strays = strays; spare = strays }) }
    ensures first { IfOk result (λ w. scene_of job.now.schedule.plan.ranks w.0.items w.1.lanes ≡ first_scene) }
    ensures steps { IfOk result (λ w. (r : ℕ) → r < job.now.schedule.plan.ranks → (node_at w.0.items r).diary.steps ≡ []) }
{
    let schedule = job.schedule();
    let ranks = schedule.ranks();
    let _ = schedule.plan();
    let places = 2 * (ranks * ranks);
    let _ = job.inputs();
    let nodes = install_all(alloc, job, strays)?;
    let lanes = lay_all(alloc, schedule, Room::Whole(strays))?;
    let starts = CountTree::of::<Node, Starts>(alloc, &nodes)?;
    let deliveries = CountTree::open(alloc, places)?;
    let firings = CountTree::of::<Node, Firings>(alloc, &nodes)?;
    let traffic = Traffic {
        setting: Setting {
            ranks,
            window,
            strays,
            spare: strays,
        },
        lanes: LaneTable::of_lanes(lanes),
        starts,
        deliveries,
        firings,
    };
    Ok((nodes, traffic))
}
