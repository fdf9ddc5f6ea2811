//! How a fabric is closed.

ghost use Rattle.std.specs.Prelude.{ℕ, false, ◌≡◌, ◌+◌, ◌<◌, ◌≤◌, ◌^◌, ◌++◌, ◌∷◌, [], All, List, length, map, vec_capacity};
ghost use mathlib.Core.Option.{some};
ghost use lib.ListN.{get_elem?};
ghost use Rattle.ptl_types.specs.declared.headers.Lane.{Lane};
ghost use Rattle.pair_wires.specs.Lanes.{Plain};
ghost use Rattle.pair_wires.specs.Wires.{WireState};
ghost use Rattle.plan_core.specs.calls.Lanes.{is_used_lane};
ghost use Rattle.cuts.specs.view.Slots.{Slots};
ghost use Rattle.cuts.specs.windows.Places.{lane_place};
ghost use Rattle.cuts.specs.cells.Cells.{AreRoundsKept};
ghost use Rattle.rank_node.specs.Node.{IsNode};
ghost use Rattle.turn_table.specs.Hands.{IsFree, parts_of};
ghost use Rattle.worlds.specs.FrameLends.{with_lane};
ghost use Rattle.worlds.specs.Frames.{frame_lane, lane_in};
ghost use Rattle.worlds.specs.Standing.{IsStanding};
ghost use Rattle.worlds.specs.World.{AreSlots, histories_in};
ghost use Rattle.rank_slots.specs.declared.turn_rank.TurnRank.{TurnRank};
ghost use Rattle.rank_threads.specs.Closing.{IsLifted, IsWorldOf};
ghost use Rattle.rank_slots.specs.Lanes.{AreLanes, IsLane};
ghost use Rattle.rank_slots.specs.Lists.{Each};
ghost use Rattle.rank_wiring.specs.Opening.{AllLaid, HasWireRoom, IsBetween};
ghost use Rattle.rank_slots.specs.Moves.{SameNode, Slotwise};
ghost use Rattle.rank_wiring.specs.Wiring.{bounds_of};

use crate::fabric::{Fabric, Hand};
use pair_wires::Wire;
use rank_node::Node;
use rank_slots::{Gate, TurnRank, pull_in, pull_out};
use std::sync::Wait;
use worlds::{Frame, World};

// The last wire gives up its two ends, which leave their slots, and what it held, the message that waits among it, goes to its lane.
fn lift_wire<R: Wait>(rt: &R, wire: &Wire, slots: &mut [TurnRank], frame: &mut Frame)
    requires laid { (before : List WireState) × AllLaid (before ++ wire.now ∷ []) slots.old }
    requires between { IsBetween (length slots.old) wire.now }
    requires ranks { length slots.old ≡ frame.old.schedule.plan.ranks }
    requires lane { IsLane frame.old.schedule.plan wire.now.bounds }
    requires room { HasWireRoom wire.now }
    requires empty { lane_in frame.old wire.now.bounds.source wire.now.bounds.target wire.now.bounds.lane
        ≡ frame_lane frame.old.schedule.plan wire.now.bounds.source wire.now.bounds.target wire.now.bounds.lane }
    ensures count { length slots.new ≡ length slots.old }
    ensures nodes { Slotwise SameNode slots.old slots.new }
    ensures laid { (before : List WireState) → AllLaid (before ++ wire.now ∷ []) slots.old → AllLaid before slots.new }
    ensures lifted { (l : Plain)
        × (frame.new ≡ with_lane frame.old
        (lane_place frame.old.schedule.plan.ranks wire.now.bounds.source wire.now.bounds.target wire.now.bounds.lane) l)
        × IsLifted wire.now.bounds slots.old l }
{
    let bounds = wire.bounds();
    let out = pull_out(slots, bounds.source);
    let into = pull_in(slots, bounds.target);
    let lane = frame.lane(bounds.source, bounds.target, bounds.lane);
    wire.drain(rt, out.end, into.end, lane);
}

// All wires give up their ends, the last one first.
fn lift_wires<R: Wait>(rt: &R, wires: &[Wire], slots: &mut [TurnRank], frame: &mut Frame)
    requires laid { AllLaid wires.now slots.old }
    requires ranks { length slots.old ≡ frame.old.schedule.plan.ranks }
    requires lanes { AreLanes frame.old.schedule.plan (bounds_of wires.now) }
    requires rooms { Each HasWireRoom wires.now }
    requires empty { (s d : ℕ) (lane : Lane) → s < frame.old.schedule.plan.ranks → d < frame.old.schedule.plan.ranks →
        lane_in frame.old s d lane ≡ frame_lane frame.old.schedule.plan s d lane }
    ensures count { length slots.new ≡ length slots.old }
    ensures nodes { Slotwise SameNode slots.old slots.new }
    ensures schedule { frame.new.schedule ≡ frame.old.schedule }
    ensures inputs { frame.new.inputs ≡ frame.old.inputs }
    ensures lifted { (k : ℕ) (w : WireState) → get_elem? wires.now k ≡ some w →
        IsLifted w.bounds slots.old (lane_in frame.new w.bounds.source w.bounds.target w.bounds.lane) }
    ensures unused { (s d : ℕ) (lane : Lane) → s < frame.old.schedule.plan.ranks → d < frame.old.schedule.plan.ranks →
        is_used_lane frame.old.schedule.plan s d lane ≡ false → lane_in frame.new s d lane ≡ frame_lane frame.old.schedule.plan s d lane }
{
    let mut wires = wires;
    while let Some((wire, before)) = wires.split_last() {
        lift_wire(rt, wire, slots, frame);
        wires = before;
    }
}

// The nodes of the slots, in order.
fn take_nodes(slots: Vec<TurnRank>, room: Vec<Node>) -> Vec<Node>
    requires room { (room.items ≡ []) × (length slots.items ≤ vec_capacity room) }
    ensures nodes { result.items ≡ map (λ (x : TurnRank). x.node.value) slots.items }
    ensures kept { Each (λ n. IsNode n) result.items }
{
    let mut nodes = room;
    for slot in slots {
        let TurnRank { node, .. } = slot;
        let node = Box::into_inner(node);
        // What every node keeps is told here.
        node.recall_history();
        nodes.push_reserved(node);
    }
    nodes
}

/// The wires of a fabric that was closed: they have given up their ends and hold no message, so nothing is left of them but memory. To
/// let this go gives that memory back, which takes time for each wire: a caller does so when it has nothing more urgent to do.
#[derive(Drop)]
pub struct SpentWires {
    _wires: Vec<Wire>,
}

impl<G: Gate + Drop> Fabric<G> {
    /// Ends the fabric as `close` does, and hands over its wires beside the world: their memory is given back when the caller lets them go.
    pub(crate) fn close_keeping<R: Wait>(self, rt: &R, hands: Vec<Hand>) -> (World, SpentWires)
        requires hands { All (λ h. IsFree self.turns h) hands.items }
        requires all { parts_of hands.items ≡ 2 ^ 32 }
        ensures world { IsWorldOf self hands.items result.0 }
        ensures kept { IsStanding result.0 }
        ensures barriers { (slots : ℕ → Slots) → AreSlots result.0 slots →
            AreRoundsKept result.0.schedule.plan result.0.inputs slots (histories_in result.0) }
    {
        let Fabric {
            turns,
            wires,
            mail: _mail,
            gate: _gate,
            job: _job,
            ranks: _ranks,
            mut frame,
            room,
        } = self;
        let mut slots = turns.close(hands);
        lift_wires(rt, &wires, &mut slots, &mut frame);
        let nodes = take_nodes(slots, room);
        let world = frame.into_world(nodes);
        // What every world keeps is told here.
        let _ = world.enabled();
        (world, SpentWires { _wires: wires })
    }

    /// Ends the fabric, and hands over the world that it is: of the same job, under a window of four messages on a lane. The hands are
    /// all that it has, so together they have its parts, and none of them has a turn. The history of each rank begins with what each
    /// hand saw there, and its places are those that the hands added, each once. The histories are a cut, and on each lane what was
    /// sent is what was received, followed by what the world holds. It takes no memory; it may wait inside the wires' queues.
    pub fn close<R: Wait>(self, rt: &R, hands: Vec<Hand>) -> World
        requires hands { All (λ h. IsFree self.turns h) hands.items }
        requires all { parts_of hands.items ≡ 2 ^ 32 }
        ensures world { IsWorldOf self hands.items result }
        ensures kept { IsStanding result }
        ensures barriers { (slots : ℕ → Slots) → AreSlots result slots →
            AreRoundsKept result.schedule.plan result.inputs slots (histories_in result) }
    {
        let (world, _wires) = self.close_keeping(rt, hands);
        world
    }
}
