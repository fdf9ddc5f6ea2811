//! The steps of a world over its parts, each with the counts of what is possible, as far as it changed them, made right after it.

ghost use Rattle.std.specs.Prelude.{true, ◌≡◌, ◌<◌, ◌≤◌, ◌*◌, ◌++◌, ◌∷◌, [], count_by, length, slice_set};
ghost use Rattle.ptl_types.specs.declared.headers.Lane.TheVariants.{Request};
ghost use Rattle.pair_wires.specs.Lanes.{plain};
ghost use Rattle.plan_core.specs.Plan.{Plan};
ghost use Rattle.plan_core.specs.Values.{Inputs};
ghost use Rattle.plan_core.specs.calls.Lanes.{is_used_lane};
ghost use Rattle.cuts.specs.histories.Cut.{is_stray};
ghost use Rattle.cuts.specs.histories.History.{is_start};
ghost use Rattle.cuts.specs.declared.orders.Step.TheVariants.{Start, Deliver, Fire};
ghost use Rattle.ni_model.specs.Conditions.{IsKept};
ghost use Rattle.cuts.specs.windows.Places.{lane_place};
ghost use Rattle.rank_node.specs.Gates.{may_go};
ghost use Rattle.rank_node.specs.Node.{IsNode, IsStarted, stray_bytes};
ghost use Rattle.worlds.specs.parts.Keeps.{IsSomeWorld, IsWorld};
ghost use Rattle.worlds.specs.parts.Layout.{lane_at, node_at};
ghost use Rattle.worlds.specs.parts.Marks.{lane_may};
ghost use Rattle.worlds.specs.parts.Steps.{IsInjected, IsStepped};

use crate::parts::lanes::LaneTable;
use crate::parts::marks::{delivered, fired, joined, started};
use crate::parts::traffic::Traffic;
use ptl_types::{Lane, Message, Rank};
use rank_node::Node;

/// Starts a node. A call of its history tells what a node keeps.
fn start_node(node: &mut Node)
    requires { count_by is_start node.old.diary.locals ≡ 0 }
    ensures step { IsStarted node.old node.new }
    ensures kept { IsNode node.new }
{
    node.start();
    node.recall_history();
}

/// The host of a rank starts it. Condition: it hasn't started.
pub fn start(nodes: &mut [Node], traffic: &mut Traffic, r: Rank)
    requires world { IsSomeWorld nodes.old traffic.old }
    requires rank { r < traffic.old.setting.ranks }
    requires waits { count_by is_start (node_at nodes.old r).diary.locals ≡ 0 }
    ensures step { (p : Plan) (inputs : Inputs) → IsWorld p inputs nodes.old traffic.old →
        IsStepped p inputs (Start r) nodes.old traffic.old nodes.new traffic.new }
    ensures world { (p : Plan) (inputs : Inputs) → IsWorld p inputs nodes.old traffic.old → IsWorld p inputs nodes.new traffic.new }
{
    start_node(&mut nodes[r as usize]);
    started(&mut traffic.starts, &mut traffic.firings, nodes, r);
}

/// An operation of a rank is fired, and its message goes out. Condition: it is ready, and its message finds an open lane.
pub fn fire(nodes: &mut [Node], traffic: &mut Traffic, r: Rank, number: u32)
    requires world { IsSomeWorld nodes.old traffic.old }
    requires rank { r < traffic.old.setting.ranks }
    requires may { may_go (node_at nodes.old r).closed (node_at nodes.old r).nic number ≡ true }
    ensures step { (p : Plan) (inputs : Inputs) → IsWorld p inputs nodes.old traffic.old →
        IsStepped p inputs (Fire r number) nodes.old traffic.old nodes.new traffic.new }
    ensures world { (p : Plan) (inputs : Inputs) → IsWorld p inputs nodes.old traffic.old → IsWorld p inputs nodes.new traffic.new }
{
    let made = nodes[r as usize].fire(number);
    let sends = made.is_some();
    let d = traffic.lanes.send_out(traffic.setting.ranks, r, made);
    fired(nodes, traffic, r, d, sends);
}

/// The first message of a lane is received, and its answer goes out. Condition: there is one, and the lane back has room for the
/// answer to a request.
pub fn deliver(nodes: &mut [Node], traffic: &mut Traffic, s: Rank, d: Rank, lane: Lane)
    requires world { IsSomeWorld nodes.old traffic.old }
    requires source { s < traffic.old.setting.ranks }
    requires destination { d < traffic.old.setting.ranks }
    requires may { lane_may traffic.old.lanes traffic.old.setting.ranks traffic.old.setting.window s d lane ≡ true }
    ensures step { (p : Plan) (inputs : Inputs) → IsWorld p inputs nodes.old traffic.old →
        IsStepped p inputs (Deliver s d lane) nodes.old traffic.old nodes.new traffic.new }
    ensures world { (p : Plan) (inputs : Inputs) → IsWorld p inputs nodes.old traffic.old → IsWorld p inputs nodes.new traffic.new }
{
    let setting = traffic.setting;
    let had = traffic.lanes.has_window(setting, s, d, Lane::Request);
    let message = traffic.lanes.take(setting.ranks, s, d, lane);
    let made = nodes[d as usize].receive(s, lane, message);
    let _ = traffic.lanes.send_out(setting.ranks, d, made);
    delivered(nodes, traffic, s, d, lane, had);
}

/// Puts a message at the end of a request lane. A call of its bytes tells what each message keeps.
fn put_request(lanes: &mut LaneTable, ranks: u32, s: Rank, d: Rank, message: Message)
    requires at_most { ranks ≤ 256 }
    requires size { length lanes.old ≡ 2 * (ranks * ranks) }
    requires source { s < ranks }
    requires destination { d < ranks }
    requires room { length (lane_at lanes.old (lane_place ranks s d Request)).messages
        < (lane_at lanes.old (lane_place ranks s d Request)).capacity }
    ensures put { lanes.new ≡ slice_set lanes.old (lane_place ranks s d Request)
        (plain ((lane_at lanes.old (lane_place ranks s d Request)).messages ++ message ∷ [])
        (lane_at lanes.old (lane_place ranks s d Request)).capacity) }
    ensures size { length lanes.new ≡ length lanes.old }
    ensures kept { IsKept message }
{
    let _ = message.bytes();
    lanes.put(ranks, s, d, Lane::Request, message);
}

/// A stray goes to the end of its request lane, and one fewer may still be injected. Conditions: some may still be injected, and it is
/// a stray of this source and target, of at most 64 bytes.
pub fn inject(nodes: &mut [Node], traffic: &mut Traffic, s: Rank, d: Rank, message: Message)
    requires world { IsSomeWorld nodes.old traffic.old }
    requires left { 0 < traffic.old.setting.strays }
    requires from { s < traffic.old.setting.ranks }
    requires destination { d < traffic.old.setting.ranks }
    requires stray { is_stray message ≡ true }
    requires source { message.header.source ≡ s }
    requires target { message.header.target ≡ d }
    requires short { length message.bytes ≤ stray_bytes }
    ensures step { IsInjected s d message nodes.old traffic.old nodes.new traffic.new }
    ensures world { (p : Plan) (inputs : Inputs) → IsWorld p inputs nodes.old traffic.old → is_used_lane p s d Request ≡ true →
        IsWorld p inputs nodes.new traffic.new }
{
    let setting = traffic.setting;
    let had = traffic.lanes.has_window(setting, s, d, Lane::Request);
    put_request(&mut traffic.lanes, setting.ranks, s, d, message);
    traffic.setting.strays -= 1;
    joined(nodes, traffic, s, d, had);
}
