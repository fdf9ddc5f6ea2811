//! The counts of what is possible, kept up to date after a step.

ghost use Rattle.std.specs.Prelude.{false, not, ◌≡◌, ◌<◌, ◌≤◌, ◌*◌, length, slice_index_or, if◌then◌else◌};
ghost use Rattle.ptl_types.specs.declared.headers.Lane.TheVariants.{Request, Answer};
ghost use Rattle.worlds.specs.parts.Layout.{node_at};
ghost use Rattle.worlds.specs.parts.Marks.{start_count, start_mark, firing_count, firing_mark, delivery_mark, gated, lane_back, with_marks};

use crate::parts::lanes::{LaneTable, Setting, lane_index};
use crate::parts::traffic::Traffic;
use count_tree::{CountTree, Counted};
use ptl_types::{Lane, Rank};
use rank_node::Node;

/// Counts the start of a node: one, where there was none.
pub struct Starts;

impl Counted<Node> for Starts {
    ghost count = { start_count };

    fn count(node: &Node) -> u32 {
        if node.started() { 0 } else { 1 }
    }
}

/// Counts the firings of a node: what is ready after open lanes.
pub struct Firings;

impl Counted<Node> for Firings {
    ghost count = { firing_count };

    fn count(node: &Node) -> u32 {
        node.ready()
    }
}

/// Counts the start of a rank.
pub fn mark_start(starts: &mut CountTree, nodes: &[Node], r: Rank)
    requires counted { r < length starts.old }
    requires rank { r < length nodes.now }
    ensures { starts.new ≡ start_mark nodes.now r starts.old }
{
    starts.set(r as usize, Starts::count(&nodes[r as usize]));
}

/// Counts the firings of a rank.
pub fn mark_firings(firings: &mut CountTree, nodes: &[Node], r: Rank)
    requires counted { r < length firings.old }
    requires rank { r < length nodes.now }
    ensures { firings.new ≡ firing_mark nodes.now r firings.old }
{
    firings.set(r as usize, Firings::count(&nodes[r as usize]));
}

/// Counts the delivery of a lane.
pub fn mark_delivery(
    deliveries: &mut CountTree,
    lanes: &LaneTable,
    setting: Setting,
    s: Rank,
    d: Rank,
    lane: Lane,
)
    requires at_most { setting.ranks ≤ 256 }
    requires counted { length deliveries.old ≡ 2 * (setting.ranks * setting.ranks) }
    requires size { length lanes.now ≡ 2 * (setting.ranks * setting.ranks) }
    requires source { s < setting.ranks }
    requires destination { d < setting.ranks }
    ensures { deliveries.new ≡ delivery_mark lanes.now setting.ranks setting.window s d lane deliveries.old }
{
    let count = if lanes.may_deliver(setting, s, d, lane) {
        1
    } else {
        0
    };
    deliveries.set(lane_index(setting.ranks, s, d, lane), count);
}

/// Counts the deliveries of both lanes from a rank to a rank.
pub fn mark_pair(deliveries: &mut CountTree, lanes: &LaneTable, setting: Setting, s: Rank, d: Rank)
    requires at_most { setting.ranks ≤ 256 }
    requires counted { length deliveries.old ≡ 2 * (setting.ranks * setting.ranks) }
    requires size { length lanes.now ≡ 2 * (setting.ranks * setting.ranks) }
    requires source { s < setting.ranks }
    requires destination { d < setting.ranks }
    ensures { deliveries.new ≡ delivery_mark lanes.now setting.ranks setting.window s d Answer
        (delivery_mark lanes.now setting.ranks setting.window s d Request deliveries.old) }
{
    mark_delivery(deliveries, lanes, setting, s, d, Lane::Request);
    mark_delivery(deliveries, lanes, setting, s, d, Lane::Answer);
}

/// Tells node s whether its request lane to d has room.
pub fn gate(nodes: &mut [Node], lanes: &LaneTable, setting: Setting, s: Rank, d: Rank)
    requires at_most { setting.ranks ≤ 256 }
    requires size { length lanes.now ≡ 2 * (setting.ranks * setting.ranks) }
    requires source { s < setting.ranks }
    requires destination { d < setting.ranks }
    requires nodes { length nodes.old ≡ setting.ranks }
    requires closed { length (node_at nodes.old s).closed ≡ setting.ranks }
    ensures { nodes.new ≡ gated lanes.now setting.ranks setting.window s d nodes.old }
{
    let closed = !lanes.has_window(setting, s, d, Lane::Request);
    nodes[s as usize].set_closed(d, closed);
}

/// Counts what the start of rank r changed: its starts and its firings.
pub fn started(starts: &mut CountTree, firings: &mut CountTree, nodes: &[Node], r: Rank)
    requires counted_starts { r < length starts.old }
    requires counted_firings { r < length firings.old }
    requires rank { r < length nodes.now }
    ensures starts { starts.new ≡ start_mark nodes.now r starts.old }
    ensures firings { firings.new ≡ firing_mark nodes.now r firings.old }
{
    mark_start(starts, nodes, r);
    mark_firings(firings, nodes, r);
}

/// Makes right what a firing of rank r changed: its firings, and, where it sent a message to rank d, whether the request lane to d has
/// room, and the delivery of that lane.
pub fn fired(nodes: &mut [Node], traffic: &mut Traffic, r: Rank, d: Rank, sends: bool)
    requires at_most { traffic.old.setting.ranks ≤ 256 }
    requires source { r < traffic.old.setting.ranks }
    requires destination { d < traffic.old.setting.ranks }
    requires nodes { length nodes.old ≡ traffic.old.setting.ranks }
    requires size { length traffic.old.lanes ≡ 2 * (traffic.old.setting.ranks * traffic.old.setting.ranks) }
    requires closed { length (node_at nodes.old r).closed ≡ traffic.old.setting.ranks }
    requires counted_deliveries { length traffic.old.deliveries ≡ 2 * (traffic.old.setting.ranks * traffic.old.setting.ranks) }
    requires counted_firings { length traffic.old.firings ≡ traffic.old.setting.ranks }
    ensures gates { nodes.new ≡ (if sends then
        gated traffic.old.lanes traffic.old.setting.ranks traffic.old.setting.window r d nodes.old else nodes.old) }
    ensures marks { traffic.new ≡ with_marks traffic.old (if sends then
        delivery_mark traffic.old.lanes traffic.old.setting.ranks traffic.old.setting.window r d Request traffic.old.deliveries
        else traffic.old.deliveries) (firing_mark nodes.new r traffic.old.firings) }
{
    if sends {
        gate(nodes, &traffic.lanes, traffic.setting, r, d);
        mark_delivery(
            &mut traffic.deliveries,
            &traffic.lanes,
            traffic.setting,
            r,
            d,
            Lane::Request,
        );
    }
    mark_firings(&mut traffic.firings, nodes, r);
}

/// Tells node s whether its request lane to d has room, and counts its firings after that. Where the lane had room, as it was told
/// last, and has room still, or had none and has none, both are right already, and nothing is done.
fn tell(nodes: &mut [Node], traffic: &mut Traffic, s: Rank, d: Rank, had: bool)
    requires at_most { traffic.old.setting.ranks ≤ 256 }
    requires source { s < traffic.old.setting.ranks }
    requires destination { d < traffic.old.setting.ranks }
    requires nodes { length nodes.old ≡ traffic.old.setting.ranks }
    requires size { length traffic.old.lanes ≡ 2 * (traffic.old.setting.ranks * traffic.old.setting.ranks) }
    requires closed { length (node_at nodes.old s).closed ≡ traffic.old.setting.ranks }
    requires counted_firings { length traffic.old.firings ≡ traffic.old.setting.ranks }
    requires told { slice_index_or (node_at nodes.old s).closed d false ≡ not had }
    requires right { slice_index_or traffic.old.firings s 0 ≡ firing_count (node_at nodes.old s) }
    ensures gates { nodes.new ≡ gated traffic.old.lanes traffic.old.setting.ranks traffic.old.setting.window s d nodes.old }
    ensures marks { traffic.new ≡ with_marks traffic.old traffic.old.deliveries (firing_mark nodes.new s traffic.old.firings) }
{
    let has = traffic
        .lanes
        .has_window(traffic.setting, s, d, Lane::Request);
    if has != had {
        gate(nodes, &traffic.lanes, traffic.setting, s, d);
        mark_firings(&mut traffic.firings, nodes, s);
    }
}

/// The lane by which what comes on this one is answered, or was asked for.
fn back(lane: Lane) -> Lane
    ensures { result ≡ lane_back lane }
{
    match lane {
        Lane::Request => Lane::Answer,
        Lane::Answer => Lane::Request,
    }
}

/// Makes right what a delivery from s to d changed: the firings of d, the deliveries of the lane and of the lane back, and, where its
/// request lane to d, which `had` room before, came to have room, the gate and the firings of s.
pub fn delivered(nodes: &mut [Node], traffic: &mut Traffic, s: Rank, d: Rank, lane: Lane, had: bool)
    requires at_most { traffic.old.setting.ranks ≤ 256 }
    requires source { s < traffic.old.setting.ranks }
    requires destination { d < traffic.old.setting.ranks }
    requires nodes { length nodes.old ≡ traffic.old.setting.ranks }
    requires size { length traffic.old.lanes ≡ 2 * (traffic.old.setting.ranks * traffic.old.setting.ranks) }
    requires closed { length (node_at nodes.old s).closed ≡ traffic.old.setting.ranks }
    requires counted_deliveries { length traffic.old.deliveries ≡ 2 * (traffic.old.setting.ranks * traffic.old.setting.ranks) }
    requires counted_firings { length traffic.old.firings ≡ traffic.old.setting.ranks }
    requires told { slice_index_or (node_at nodes.old s).closed d false ≡ not had }
    requires right { slice_index_or (firing_mark nodes.old d traffic.old.firings) s 0 ≡ firing_count (node_at nodes.old s) }
    ensures gates { nodes.new ≡ gated traffic.old.lanes traffic.old.setting.ranks traffic.old.setting.window s d nodes.old }
    ensures marks { traffic.new ≡ with_marks traffic.old
        (delivery_mark traffic.old.lanes traffic.old.setting.ranks traffic.old.setting.window d s (lane_back lane)
        (delivery_mark traffic.old.lanes traffic.old.setting.ranks traffic.old.setting.window s d lane traffic.old.deliveries))
        (firing_mark nodes.new s (firing_mark nodes.old d traffic.old.firings)) }
{
    let setting = traffic.setting;
    mark_delivery(&mut traffic.deliveries, &traffic.lanes, setting, s, d, lane);
    mark_delivery(
        &mut traffic.deliveries,
        &traffic.lanes,
        setting,
        d,
        s,
        back(lane),
    );
    mark_firings(&mut traffic.firings, nodes, d);
    tell(nodes, traffic, s, d, had);
}

/// Makes right what a stray from s to d changed: the delivery of its lane, and, where that lane `had` room and came to have none, the
/// gate and the firings of s.
pub fn joined(nodes: &mut [Node], traffic: &mut Traffic, s: Rank, d: Rank, had: bool)
    requires at_most { traffic.old.setting.ranks ≤ 256 }
    requires source { s < traffic.old.setting.ranks }
    requires destination { d < traffic.old.setting.ranks }
    requires nodes { length nodes.old ≡ traffic.old.setting.ranks }
    requires size { length traffic.old.lanes ≡ 2 * (traffic.old.setting.ranks * traffic.old.setting.ranks) }
    requires closed { length (node_at nodes.old s).closed ≡ traffic.old.setting.ranks }
    requires counted_deliveries { length traffic.old.deliveries ≡ 2 * (traffic.old.setting.ranks * traffic.old.setting.ranks) }
    requires counted_firings { length traffic.old.firings ≡ traffic.old.setting.ranks }
    requires told { slice_index_or (node_at nodes.old s).closed d false ≡ not had }
    requires right { slice_index_or traffic.old.firings s 0 ≡ firing_count (node_at nodes.old s) }
    ensures gates { nodes.new ≡ gated traffic.old.lanes traffic.old.setting.ranks traffic.old.setting.window s d nodes.old }
    ensures marks { traffic.new ≡ with_marks traffic.old
        (delivery_mark traffic.old.lanes traffic.old.setting.ranks traffic.old.setting.window s d Request traffic.old.deliveries)
        (firing_mark nodes.new s traffic.old.firings) }
{
    let setting = traffic.setting;
    mark_delivery(
        &mut traffic.deliveries,
        &traffic.lanes,
        setting,
        s,
        d,
        Lane::Request,
    );
    tell(nodes, traffic, s, d, had);
}
