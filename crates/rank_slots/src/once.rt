//! The calls of a slot that make one kind of step.

ghost use Rattle.std.specs.Prelude.{true, ◌≡◌, IsTrue, IsFalse, IfSome, IfNone};
ghost use mathlib.Core.Option.{some};
ghost use lib.ListN.{get_elem?};
ghost use Rattle.ptl_types.specs.Messages.{Sent};
ghost use Rattle.ni_model.specs.Ready.{is_ready};
ghost use Rattle.cuts.specs.histories.History.Local.{Receive as Receives, Fire as Fires};
ghost use Rattle.rank_slots.specs.declared.ports.InPort.{InPort};
ghost use Rattle.rank_slots.specs.Chronicles.{KeepsHandles};
ghost use Rattle.rank_slots.specs.Lists.{Each};
ghost use Rattle.rank_slots.specs.Names.{IsWired, mark, plate};
ghost use Rattle.rank_slots.specs.Sound.{IsSound};
ghost use Rattle.rank_slots.specs.Missing.{AreShut, HasFlushed, PassedAt};
ghost use Rattle.rank_slots.specs.Steps.{Begun, Grew};

use crate::gate::{Gate, StartAnswer};
use crate::network::Network;
use crate::posts::find_in;
use crate::turn_rank::TurnRank;
use ptl_types::{Lane, LocalStep, Rank};
use std::sync::Wait;

impl TurnRank {
    /// Starts the rank, if it hasn't started, and answers which. The gate is passed before. It takes no memory.
    pub fn start_once<G: Gate>(&mut self, gate: &G) -> StartAnswer
        requires sound { IsSound self.old.job }
        ensures begun { Begun result (mark self.old) (mark self.new) }
        ensures handles { KeepsHandles self.old self.new }
        ensures name { plate self.new ≡ plate self.old }
    {
        if self.node.started() {
            return StartAnswer::AlreadyStarted;
        }
        gate.pass(self.node.nic().rank(), LocalStep::Start);
        self.begin();
        StartAnswer::Started
    }

    /// Fires an operation that is ready and whose message, if it has one, finds room, and answers its number. What waits is tried again
    /// before. `None` only where each operation that was ready sends a message whose lane was found full. It may wait inside the wires'
    /// queues, and takes no memory.
    pub fn fire_one<R: Wait, G: Gate>(&mut self, rt: &R, network: Network, gate: &G) -> Option<u32>
        requires sound { IsSound self.old.job }
        requires wired { IsWired network.wires.now (plate self.old) }
        ensures some { IfSome result (λ t. (is_ready self.old.node.value.nic t ≡ true) × Grew (Fires t) (mark self.old) (mark self.new)) }
        ensures none { IfNone result (HasFlushed self.old self.new × AreShut self.new.node.value) }
        ensures handles { KeepsHandles self.old self.new }
        ensures name { plate self.new ≡ plate self.old }
    {
        self.flush(rt, network);
        self.fire_any(rt, network, gate)
    }

    /// The place of the in end of a lane. `None` exactly where the rank has none.
    fn in_of(&self, source: Rank, lane: Lane) -> Option<usize>
        ensures some { IfSome result (λ i. (p : InPort) × (get_elem? self.now.ins.items i ≡ some p) × (p.source ≡ source) ×
            (p.lane ≡ lane)) }
        ensures none { IfNone result (Each (λ (p : InPort). p.source ≡ source → p.lane ≡ lane → ⊥) self.now.ins.items) }
    {
        find_in(&self.ins, &self.hints.ins, source, lane)
    }

    /// Receives the oldest message of a lane to the rank, and answers whether it did. What waits is tried again before. `false` only where
    /// the lane was found empty, or is one of answers while none is awaited, or carries requests whose answer would have to wait. It may
    /// wait inside the wires' queues, and takes no memory.
    pub fn deliver<R: Wait, G: Gate>(
        &mut self,
        rt: &R,
        network: Network,
        gate: &G,
        source: Rank,
        lane: Lane,
    ) -> bool
        requires sound { IsSound self.old.job }
        requires wired { IsWired network.wires.now (plate self.old) }
        requires end { (i : _) × (p : InPort) × (get_elem? self.old.ins.items i ≡ some p) × (p.source ≡ source) × (p.lane ≡ lane) }
        ensures some { IsTrue result → (m : Sent) × Grew (Receives source lane m) (mark self.old) (mark self.new) }
        ensures none { IsFalse result → PassedAt source lane self.old self.new }
        ensures handles { KeepsHandles self.old self.new }
        ensures name { plate self.new ≡ plate self.old }
    {
        let free = self.flush(rt, network);
        let Some(at) = self.in_of(source, lane) else {
            unreachable!()
        };
        self.pull(rt, network, gate, at, free)
    }
}
