//! The parts of a world whose nodes come from elsewhere.

ghost use Rattle.std.specs.Prelude.{ℕ, false, not, ◌≡◌, ◌<◌, ◌≤◌, ◌*◌, IfOk, length, slice_index_or};
ghost use Rattle.ptl_types.specs.declared.headers.Lane.{Lane};
ghost use Rattle.ptl_types.specs.declared.headers.Lane.TheVariants.{Request};
ghost use Rattle.cuts.specs.windows.Places.{lane_place};
ghost use Rattle.rank_node.specs.Node.{IsNode};
ghost use Rattle.worlds.specs.parts.Keeps.{AreCounted};
ghost use Rattle.worlds.specs.parts.Layout.{lane_at, node_at};
ghost use Rattle.worlds.specs.parts.Marks.{delivery_count, lane_has};
ghost use Rattle.worlds.specs.opening.Frames.{AreSized, IsBare, IsSameButGates, frame_lane, frame_setting};

use crate::opening::laying::{Room, lay_all};
use crate::parts::lanes::{LaneTable, Setting};
use crate::parts::marks::{Firings, Starts, gate, mark_pair};
use crate::parts::traffic::Traffic;
use count_tree::CountTree;
use ptl_types::{Lane, NoMemory};
use rank_node::Node;
use schedule_compiler::Job;
use std::alloc::Global;

/// How many messages a lane of a frame may hold.
pub const FRAME_WINDOW: u32 = 4;

/// The traffic of a job for nodes that come from elsewhere, without strays: empty lanes, each with room for four messages, or for all
/// that are sent on it where these are fewer, and room for the counts of a world.
///
/// # Errors
///
/// There was no memory for it. The job is as it was.
pub fn open_bare(alloc: Global, job: &Job) -> Result<Traffic, NoMemory>
    ensures setting { IfOk result (λ b. b.setting ≡ frame_setting job.now.schedule.plan.ranks) }
    ensures bare { IfOk result (λ b. IsBare job.now.schedule.plan job.now.inputs b) }
    ensures lanes { IfOk result (λ b. (s d : ℕ) (lane : Lane) → s < job.now.schedule.plan.ranks → d < job.now.schedule.plan.ranks →
        lane_at b.lanes (lane_place job.now.schedule.plan.ranks s d lane) ≡ frame_lane job.now.schedule.plan s d lane) }
{
    let schedule = job.schedule();
    let ranks = schedule.ranks();
    let _ = schedule.plan();
    let places = 2 * (ranks * ranks);
    let _ = job.inputs();
    let lanes = lay_all(alloc, schedule, Room::Window(FRAME_WINDOW))?;
    let starts = CountTree::open(alloc, ranks)?;
    let deliveries = CountTree::open(alloc, places)?;
    let firings = CountTree::open(alloc, ranks)?;
    Ok(Traffic {
        setting: Setting {
            ranks,
            window: u64::from(FRAME_WINDOW),
            strays: 0,
            spare: 0,
        },
        lanes: LaneTable::of_lanes(lanes),
        starts,
        deliveries,
        firings,
    })
}

/// What holds of each node whatever was done with it.
fn recall_nodes(nodes: &[Node])
    ensures { (r : ℕ) → r < length nodes.now → IsNode (node_at nodes.now r) }
{
    for r in 0..nodes.len() {
        let node = &nodes[r];
        node.recall_history();
    }
}

/// Tells each node which of its request lanes have room under the window.
fn gate_all(nodes: &mut [Node], lanes: &LaneTable, setting: Setting)
    requires nonempty { 0 < setting.ranks }
    requires at_most { setting.ranks ≤ 256 }
    requires nodes { length nodes.old ≡ setting.ranks }
    requires lanes { length lanes.now ≡ 2 * (setting.ranks * setting.ranks) }
    requires wide { (r : ℕ) → r < setting.ranks → length (node_at nodes.old r).closed ≡ setting.ranks }
    ensures size { length nodes.new ≡ setting.ranks }
    ensures same { (r : ℕ) → IsSameButGates (node_at nodes.old r) (node_at nodes.new r) }
    ensures gates { (r d : ℕ) → r < setting.ranks → d < setting.ranks →
        slice_index_or (node_at nodes.new r).closed d false ≡ not (lane_has lanes.now setting.ranks setting.window r d Request) }
{
    let ranks = setting.ranks;
    let pairs = ranks * ranks;
    for pair in 0..pairs {
        let s = pair / ranks;
        let d = pair % ranks;
        gate(nodes, lanes, setting, s, d);
    }
}

/// Counts the deliveries that are possible, by lane.
fn fill_deliveries(deliveries: &mut CountTree, lanes: &LaneTable, setting: Setting)
    requires nonempty { 0 < setting.ranks }
    requires at_most { setting.ranks ≤ 256 }
    requires counted { length deliveries.old ≡ 2 * (setting.ranks * setting.ranks) }
    requires lanes { length lanes.now ≡ 2 * (setting.ranks * setting.ranks) }
    ensures size { length deliveries.new ≡ 2 * (setting.ranks * setting.ranks) }
    ensures counts { (s d : ℕ) (lane : Lane) → s < setting.ranks → d < setting.ranks →
        slice_index_or deliveries.new (lane_place setting.ranks s d lane) 0
        ≡ delivery_count lanes.now setting.ranks setting.window s d lane }
{
    let ranks = setting.ranks;
    let pairs = ranks * ranks;
    for pair in 0..pairs {
        let s = pair / ranks;
        let d = pair % ranks;
        mark_pair(deliveries, lanes, setting, s, d);
    }
}

/// Counts what is possible at nodes and on lanes that come from elsewhere, and tells the nodes which of their lanes have room.
pub fn mark_all(nodes: &mut [Node], traffic: &mut Traffic)
    requires sized { AreSized traffic.old }
    requires nodes { length nodes.old ≡ traffic.old.setting.ranks }
    requires tasks { (r : ℕ) → r < traffic.old.setting.ranks → (node_at nodes.old r).task.ranks ≡ traffic.old.setting.ranks }
    ensures setting { traffic.new.setting ≡ traffic.old.setting }
    ensures lanes { traffic.new.lanes ≡ traffic.old.lanes }
    ensures size { length nodes.new ≡ traffic.old.setting.ranks }
    ensures kept { (r : ℕ) → r < traffic.old.setting.ranks → IsNode (node_at nodes.old r) }
    ensures same { (r : ℕ) → IsSameButGates (node_at nodes.old r) (node_at nodes.new r) }
    ensures counted { AreCounted traffic.old.setting.ranks nodes.new traffic.old.lanes traffic.new.starts traffic.new.deliveries
        traffic.new.firings traffic.old.setting.window }
{
    let setting = traffic.setting;
    recall_nodes(nodes);
    gate_all(nodes, &traffic.lanes, setting);
    traffic.starts.count_all::<Node, Starts>(nodes);
    fill_deliveries(&mut traffic.deliveries, &traffic.lanes, setting);
    traffic.firings.count_all::<Node, Firings>(nodes);
}
