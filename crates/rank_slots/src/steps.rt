//! What a rank does in a turn.

ghost use Rattle.std.specs.Prelude.{true, false, ◌≡◌, ◌<◌, ◌++◌, ◌∷◌, [], length, IsTrue, IsFalse, IfSome, IfNone};
ghost use mathlib.Core.Option.{some};
ghost use Rattle.ptl_types.specs.declared.headers.Lane.TheVariants.{Answer};
ghost use Rattle.ni_model.specs.Ready.{is_ready, target_at};
ghost use Rattle.cuts.specs.histories.History.Local.{Start as Started, Fire as Fired};
ghost use Rattle.rank_node.specs.Copies.{has_start};
ghost use Rattle.rank_node.specs.Gates.{goes_out};
ghost use Rattle.rank_slots.specs.declared.ports.OutPort.{OutPort};
ghost use Rattle.rank_slots.specs.Chronicles.{KeepsHandles};
ghost use Rattle.rank_slots.specs.Lists.{Each};
ghost use Rattle.rank_slots.specs.Names.{IsWired, history, mark, plate};
ghost use Rattle.rank_slots.specs.Ports.{IsOpen};
ghost use Rattle.rank_slots.specs.Missing.{AreShut, HasFlushed, Idled, IsDueAt, IsKeptBack, IsOpenAt, IsShut, MissedAll, MissedAt};
ghost use Rattle.rank_slots.specs.Missing.{ReceivedAt};
ghost use Rattle.rank_slots.specs.Steps.{Grew, Made};
ghost use Rattle.rank_slots.specs.Sound.{IsSound};

use crate::gate::Gate;
use crate::network::Network;
use crate::posts::{find_out, flush_all, pass_on, pop_at};
use crate::turn_rank::TurnRank;
use ptl_types::{Lane, LocalStep, Rank};
use std::sync::Wait;

impl TurnRank {
    /// Starts the rank.
    pub(crate) fn begin(&mut self)
        requires sound { IsSound self.old.job }
        requires first { has_start (history self.old) ≡ false }
        ensures grew { history self.new ≡ history self.old ++ Started ∷ [] }
        ensures handles { KeepsHandles self.old self.new }
        ensures name { plate self.new ≡ plate self.old }
    {
        // What every node keeps is told here.
        self.node.recall_history();
        self.node.start();
    }

    /// Tries what waits at the out ends again, and answers whether nothing waits now.
    pub(crate) fn flush<R: Wait>(&mut self, rt: &R, network: Network) -> bool
        requires wired { IsWired network.wires.now (plate self.old) }
        ensures flushed { HasFlushed self.old self.new }
        ensures free { IsTrue result → Each (λ (p : OutPort). p.end.waits ≡ false) self.new.outs.items }
        ensures name { plate self.new ≡ plate self.old }
    {
        self.node.recall_history();
        let free = flush_all(rt, network, &mut self.node, &mut self.outs);
        self.hints.note_flushed(free);
        free
    }

    /// Fires an operation, whose message, if it has one, finds room.
    pub(crate) fn fire<R: Wait>(&mut self, rt: &R, network: Network, number: u32)
        requires sound { IsSound self.old.job }
        requires wired { IsWired network.wires.now (plate self.old) }
        requires ready { is_ready self.old.node.value.nic number ≡ true }
        requires open { goes_out self.old.node.value.closed (target_at self.old.node.value.nic number) ≡ true }
        ensures grew { history self.new ≡ history self.old ++ Fired number ∷ [] }
        ensures handles { KeepsHandles self.old self.new }
        ensures name { plate self.new ≡ plate self.old }
    {
        self.node.recall_history();
        let made = self.node.fire(number);
        self.node.recall_history();
        let rank = self.node.nic().rank();
        let waits = pass_on(
            rt,
            network,
            &self.hints.outs,
            &mut self.node,
            &mut self.outs,
            made,
        );
        self.hints.note_waiting(network.mail, rank, waits);
    }

    /// Whether a message waits at the out end of a lane to a rank.
    pub(crate) fn is_shut(&self, d: Rank, lane: Lane) -> bool
        ensures shut { IsTrue result → IsShut d lane self.now.outs.items }
        ensures open { IsFalse result → IsOpen d lane self.now.outs.items }
    {
        match find_out(&self.outs, &self.hints.outs, d, lane) {
            Some(at) => self.outs[at].end.waits(),
            None => false,
        }
    }

    /// Whether a message may be taken from the in end of this place: on a lane of answers where one is awaited, on a lane of requests
    /// where an answer would find room.
    pub(crate) fn may_take(&self, at: usize, free: bool) -> bool
        requires at { at < length self.now.ins.items }
        requires free { IsTrue free → Each (λ (p : OutPort). p.end.waits ≡ false) self.now.outs.items }
        ensures due { IsTrue result → IsDueAt at self.now }
        ensures open { IsTrue result → IsOpenAt at self.now }
        ensures no { IsFalse result → IsKeptBack at self.now }
    {
        let port = &self.ins[at];
        match port.lane {
            Lane::Answer => self.node.awaits(),
            Lane::Request => {
                if free {
                    return true;
                }
                !self.is_shut(port.source, Lane::Answer)
            }
        }
    }

    /// Receives the oldest message of an in end.
    pub(crate) fn receive<R: Wait, G: Gate>(
        &mut self,
        rt: &R,
        network: Network,
        gate: &G,
        at: usize,
    ) -> bool
        requires sound { IsSound self.old.job }
        requires wired { IsWired network.wires.now (plate self.old) }
        requires at { at < length self.old.ins.items }
        requires due { IsDueAt at self.old }
        requires open { IsOpenAt at self.old }
        ensures some { IsTrue result → ReceivedAt at self.old self.new }
        ensures none { IsFalse result → MissedAt at self.old self.new }
        ensures handles { KeepsHandles self.old self.new }
        ensures name { plate self.new ≡ plate self.old }
    {
        self.node.recall_history();
        let rank = self.node.nic().rank();
        let port = &mut self.ins[at];
        let source = port.source;
        let lane = port.lane;
        let Some(message) = pop_at(rt, network.wires, port) else {
            return false;
        };
        network.mail.made_room(source);
        gate.pass(rank, LocalStep::Receive { source, lane });
        let answer = self.node.receive(source, lane, message);
        self.node.recall_history();
        let waits = pass_on(
            rt,
            network,
            &self.hints.outs,
            &mut self.node,
            &mut self.outs,
            answer,
        );
        self.hints.note_waiting(network.mail, rank, waits);
        true
    }

    /// Receives the oldest message of an in end, if one may be taken.
    pub(crate) fn pull<R: Wait, G: Gate>(
        &mut self,
        rt: &R,
        network: Network,
        gate: &G,
        at: usize,
        free: bool,
    ) -> bool
        requires sound { IsSound self.old.job }
        requires wired { IsWired network.wires.now (plate self.old) }
        requires at { at < length self.old.ins.items }
        requires free { IsTrue free → Each (λ (p : OutPort). p.end.waits ≡ false) self.old.outs.items }
        ensures some { IsTrue result → ReceivedAt at self.old self.new }
        ensures none { IsFalse result → MissedAt at self.old self.new }
        ensures handles { KeepsHandles self.old self.new }
        ensures name { plate self.new ≡ plate self.old }
    {
        if !self.may_take(at, free) {
            return false;
        }
        self.receive(rt, network, gate, at)
    }

    /// Receives the oldest message of the first in end that has one to be taken.
    fn receive_any<R: Wait, G: Gate>(
        &mut self,
        rt: &R,
        network: Network,
        gate: &G,
        free: bool,
    ) -> Option<LocalStep>
        requires sound { IsSound self.old.job }
        requires wired { IsWired network.wires.now (plate self.old) }
        requires free { IsTrue free → Each (λ (p : OutPort). p.end.waits ≡ false) self.old.outs.items }
        ensures some { IfSome result (λ step. Made step (mark self.old) (mark self.new)) }
        ensures none { IfNone result (MissedAll self.old self.new) }
        ensures handles { KeepsHandles self.old self.new }
        ensures name { plate self.new ≡ plate self.old }
    {
        let count = self.ins.len();
        for at in 0..count {
            let source = self.ins[at].source;
            let lane = self.ins[at].lane;
            if self.pull(rt, network, gate, at, free) {
                return Some(LocalStep::Receive { source, lane });
            }
        }
        None
    }

    /// Fires an operation that is ready and whose message, if it has one, finds room.
    pub(crate) fn fire_any<R: Wait, G: Gate>(
        &mut self,
        rt: &R,
        network: Network,
        gate: &G,
    ) -> Option<u32>
        requires sound { IsSound self.old.job }
        requires wired { IsWired network.wires.now (plate self.old) }
        ensures some { IfSome result (λ t. (is_ready self.old.node.value.nic t ≡ true) × Grew (Fired t) (mark self.old) (mark self.new)) }
        ensures none { IfNone result ((self.new ≡ self.old) × AreShut self.old.node.value) }
        ensures handles { KeepsHandles self.old self.new }
        ensures name { plate self.new ≡ plate self.old }
    {
        if self.node.ready() == 0 {
            return None;
        }
        let number = self.node.ready_at(0);
        let target = self.node.nic().lane_of(number);
        gate.pass(self.node.nic().rank(), LocalStep::Fire { number });
        self.fire(rt, network, number);
        self.hints.parked.forget(target, number);
        Some(number)
    }

    /// Makes one step of the rank and answers it: the start; else the firing of an operation that is ready; else the receipt of the oldest
    /// message of a lane. What waits is tried again before. `None` only where there was none to make, and what was found is said of the
    /// slot as it was and as it is. It may wait inside the wires' queues, and takes no memory.
    pub fn step<R: Wait, G: Gate>(
        &mut self,
        rt: &R,
        network: Network,
        gate: &G,
    ) -> Option<LocalStep>
        requires sound { IsSound self.old.job }
        requires wired { IsWired network.wires.now (plate self.old) }
        ensures some { IfSome result (λ step. Made step (mark self.old) (mark self.new)) }
        ensures none { IfNone result (Idled self.old self.new) }
        ensures handles { KeepsHandles self.old self.new }
        ensures name { plate self.new ≡ plate self.old }
    {
        let free = self.flush(rt, network);
        if !self.node.started() {
            gate.pass(self.node.nic().rank(), LocalStep::Start);
            self.begin();
            return Some(LocalStep::Start);
        }
        if let Some(number) = self.fire_any(rt, network, gate) {
            return Some(LocalStep::Fire { number });
        }
        self.receive_any(rt, network, gate, free)
    }
}
