//! How messages enter and leave the wires at the ends of one rank.

ghost use Rattle.std.specs.Prelude.{◌≡◌, ◌<◌, ◌++◌, ◌∷◌, [], true, false, IsTrue, IfSome, IfNone, Some, ◌↔◌, length, slice_set};
ghost use mathlib.Core.Option.{some};
ghost use lib.ListN.{get_elem?};
ghost use Rattle.pair_wires.specs.Bounds.{KeepsBounds};
ghost use Rattle.ptl_types.specs.Handles.{one_more};
ghost use Rattle.rank_slots.specs.declared.ports.OutPort.{OutPort};
ghost use Rattle.rank_slots.specs.declared.ports.InPort.{InPort};
ghost use Rattle.rank_slots.specs.Lists.{Each, Pairwise};
ghost use Rattle.rank_slots.specs.Joints.{Fits, in_joint, out_joint};
ghost use Rattle.rank_slots.specs.Ports.{AreEnds, Flushed, MayPost, Posted, Regated, SameIn, SameOut, gate_after};

use crate::hints::LikelyPlaces;
use crate::mail::Mail;
use crate::network::Network;
use crate::ports::{InPort, OutPort};
use pair_wires::Wire;
use ptl_types::{Lane, Message, Rank};
use rank_node::Node;
use std::sync::Wait;

// The place of the out end of a lane, looked for among all.
fn search_outs(outs: &[OutPort], target: Rank, lane: Lane) -> Option<usize>
    ensures some { IfSome result (λ i. (p : OutPort) × (get_elem? outs.now i ≡ some p) × (p.target ≡ target) × (p.lane ≡ lane)) }
    ensures none { IfNone result (Each (λ (p : OutPort). p.target ≡ target → p.lane ≡ lane → ⊥) outs.now) }
{
    for (at, port) in outs.iter().enumerate() {
        if port.is_to(target, lane) {
            return Some(at);
        }
    }
    None
}

// The place of the in end of a lane, looked for among all.
fn search_ins(ins: &[InPort], source: Rank, lane: Lane) -> Option<usize>
    ensures some { IfSome result (λ i. (p : InPort) × (get_elem? ins.now i ≡ some p) × (p.source ≡ source) × (p.lane ≡ lane)) }
    ensures none { IfNone result (Each (λ (p : InPort). p.source ≡ source → p.lane ≡ lane → ⊥) ins.now) }
{
    for (at, port) in ins.iter().enumerate() {
        if port.is_from(source, lane) {
            return Some(at);
        }
    }
    None
}

/// The place of the out end of a lane. `None` exactly where the rank has none. It is looked for where it is likely to stand first.
pub(crate) fn find_out(
    outs: &[OutPort],
    places: &LikelyPlaces,
    target: Rank,
    lane: Lane,
) -> Option<usize>
    ensures some { IfSome result (λ i. (p : OutPort) × (get_elem? outs.now i ≡ some p) × (p.target ≡ target) × (p.lane ≡ lane)) }
    ensures none { IfNone result (Each (λ (p : OutPort). p.target ≡ target → p.lane ≡ lane → ⊥) outs.now) }
{
    let likely = places.of(target, lane);
    if likely < outs.len() {
        let port = &outs[likely];
        if port.is_to(target, lane) {
            return Some(likely);
        }
    }
    search_outs(outs, target, lane)
}

/// The place of the in end of a lane. `None` exactly where the rank has none. It is looked for where it is likely to stand first.
pub(crate) fn find_in(
    ins: &[InPort],
    places: &LikelyPlaces,
    source: Rank,
    lane: Lane,
) -> Option<usize>
    ensures some { IfSome result (λ i. (p : InPort) × (get_elem? ins.now i ≡ some p) × (p.source ≡ source) × (p.lane ≡ lane)) }
    ensures none { IfNone result (Each (λ (p : InPort). p.source ≡ source → p.lane ≡ lane → ⊥) ins.now) }
{
    let likely = places.of(source, lane);
    if likely < ins.len() {
        let port = &ins[likely];
        if port.is_from(source, lane) {
            return Some(likely);
        }
    }
    search_ins(ins, source, lane)
}

/// Sends a message by an end. It may have to wait there for room.
fn send_at<R: Wait>(rt: &R, wires: &[Wire], port: &mut OutPort, message: Message)
    requires wired { Fits wires.now (out_joint port.old) }
    requires free { port.old.end.waits ≡ false }
    requires bounds { KeepsBounds port.old.end.bounds (port.old.end.sent ++ message ∷ []) }
    ensures same { SameOut port.old port.new }
    ensures sent { port.new.end.sent ≡ port.old.end.sent ++ message ∷ [] }
{
    wires[port.wire as usize].send(rt, &mut port.end, message);
}

/// Tries what waits at an end again, and answers whether nothing waits there now.
fn flush_at<R: Wait>(rt: &R, wires: &[Wire], port: &mut OutPort) -> bool
    requires { Fits wires.now (out_joint port.old) }
    ensures flushed { Flushed port.old port.new }
    ensures free { port.new.end.waits ≡ false ↔ IsTrue result }
{
    wires[port.wire as usize].flush(rt, &mut port.end)
}

/// The oldest message of the lane of an end.
pub(crate) fn pop_at<R: Wait>(rt: &R, wires: &[Wire], port: &mut InPort) -> Option<Message>
    requires { Fits wires.now (in_joint port.old) }
    ensures same { SameIn port.old port.new }
    ensures some { IfSome result (λ m. (port.new.end.received ≡ port.old.end.received ++ m ∷ []) ×
        KeepsBounds port.old.end.bounds port.new.end.received) }
    ensures none { IfNone result ((port.new.end.received ≡ port.old.end.received) × (port.new.end.empty ≡ one_more port.old.end.empty)) }
{
    wires[port.wire as usize].pop(rt, &mut port.end)
}

/// Notes at the node whether a message waits at this end for room on a request lane, and answers whether one waits at it. The rank that
/// the lane leads to is told.
fn note_post(mail: &Mail, node: &mut Node, port: &OutPort) -> bool
    requires { port.now.target < length node.old.closed }
    ensures { node.new ≡ record node.old { closed = gate_after port.now.lane port.now.target port.now.end.waits node.old.closed } }
{
    mail.note(node.nic().rank(), port.target, port.lane);
    let waits = port.end.waits();
    match port.lane {
        Lane::Request => {
            node.set_closed(port.target, waits);
            waits
        }
        Lane::Answer => waits,
    }
}

/// Tries what waits at the end of this place again, if anything does, and answers whether nothing waits there now.
fn flush_one<R: Wait>(
    rt: &R,
    network: Network,
    node: &mut Node,
    outs: &mut Vec<OutPort>,
    at: usize,
) -> bool
    requires at { at < length outs.old.items }
    requires ends { AreEnds network.wires.now node.old.closed outs.old.items }
    ensures node { Regated node.old node.new }
    ensures ends { AreEnds network.entry.wires.now node.new.closed outs.new.items }
    ensures flushed { (p : OutPort) × (q : OutPort) × (get_elem? outs.old.items at ≡ some p) × Flushed p q ×
        (outs.new.items ≡ slice_set outs.old.items at q) × (q.end.waits ≡ false ↔ IsTrue result) }
{
    if !outs[at].end.waits() {
        return true;
    }
    let free = flush_at(rt, network.wires, &mut outs[at]);
    note_post(network.mail, node, &outs[at]);
    free
}

/// Tries all that waits at the ends of a rank again, and answers whether nothing waits there now.
pub(crate) fn flush_all<R: Wait>(
    rt: &R,
    network: Network,
    node: &mut Node,
    outs: &mut Vec<OutPort>,
) -> bool
    requires { AreEnds network.wires.now node.old.closed outs.old.items }
    ensures node { Regated node.old node.new }
    ensures ends { AreEnds network.entry.wires.now node.new.closed outs.new.items }
    ensures flushed { Pairwise Flushed outs.old.items outs.new.items }
    ensures free { IsTrue result → Each (λ (p : OutPort). p.end.waits ≡ false) outs.new.items }
{
    let mut free = true;
    let count = outs.len();
    for at in 0..count {
        free &= flush_one(rt, network, node, outs, at);
    }
    free
}

/// Sends a message by the end of its lane, where it may have to wait. Where the rank has no such lane there is nothing to send it on,
/// and it is let go: no message of the job asks for that, but what other ranks sent isn't known here. It answers whether it waits.
fn post<R: Wait>(
    rt: &R,
    network: Network,
    places: &LikelyPlaces,
    node: &mut Node,
    outs: &mut Vec<OutPort>,
    message: Message,
) -> bool
    requires ends { AreEnds network.wires.now node.old.closed outs.old.items }
    requires may { Each (MayPost (Some message)) outs.old.items }
    ensures node { Regated node.old node.new }
    ensures ends { AreEnds network.entry.wires.now node.new.closed outs.new.items }
    ensures posted { Pairwise (Posted (Some message)) outs.old.items outs.new.items }
{
    let target = message.header().target;
    let lane = message.header().kind.lane();
    if let Some(at) = find_out(outs, places, target, lane) {
        send_at(rt, network.wires, &mut outs[at], message);
        note_post(network.mail, node, &outs[at])
    } else {
        false
    }
}

/// Sends a message, if there is one, by the end of its lane, and answers whether it waits.
pub(crate) fn pass_on<R: Wait>(
    rt: &R,
    network: Network,
    places: &LikelyPlaces,
    node: &mut Node,
    outs: &mut Vec<OutPort>,
    made: Option<Message>,
) -> bool
    requires ends { AreEnds network.wires.now node.old.closed outs.old.items }
    requires may { Each (MayPost made) outs.old.items }
    ensures node { Regated node.old node.new }
    ensures ends { AreEnds network.entry.wires.now node.new.closed outs.new.items }
    ensures posted { Pairwise (Posted made) outs.old.items outs.new.items }
{
    if let Some(message) = made {
        post(rt, network, places, node, outs, message)
    } else {
        false
    }
}
