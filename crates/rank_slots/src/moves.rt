//! Ends that come to slots, and that leave them.

ghost use Rattle.std.specs.Prelude.{◌≡◌, ◌<◌, ◌++◌, ◌∷◌, [], length, IfOk};
ghost use mathlib.Core.Option.{some};
ghost use lib.ListN.{get_elem?};
ghost use Rattle.rank_slots.specs.declared.turn_rank.TurnRank.{TurnRank};
ghost use Rattle.rank_slots.specs.Slots.{InOk, OutOk};
ghost use Rattle.rank_slots.specs.Moves.{GainsIn, LosesIn, LosesOut, MayGainIn, MayGainOut, SameNode, Slotwise};

use crate::ports::{InPort, OutPort};
use crate::turn_rank::TurnRank;
use ptl_types::{NoMemory, Rank};

impl TurnRank {
    /// One out end more, after the others.
    ///
    /// # Errors
    ///
    /// There was no memory for it. The end is let go; the job, the node and the in ends are as they were.
    pub fn add_out(&mut self, port: OutPort) -> Result<(), NoMemory>
        requires { MayGainOut self.old port }
        ensures job { self.new.job ≡ self.old.job }
        ensures node { self.new.node.value ≡ self.old.node.value }
        ensures ins { self.new.ins ≡ self.old.ins }
        ensures outs { IfOk result (λ _. self.new.outs.items ≡ self.old.outs.items ++ port ∷ []) }
    {
        self.hints.outs.set(port.target, port.lane, self.outs.len());
        match self.outs.push(port) {
            Ok(()) => Ok(()),
            Err(_) => Err(NoMemory),
        }
    }

    // One in end more.
    fn add_in(&mut self, port: InPort) -> Result<(), NoMemory>
        requires { MayGainIn self.old port }
        ensures job { self.new.job ≡ self.old.job }
        ensures node { self.new.node.value ≡ self.old.node.value }
        ensures outs { self.new.outs ≡ self.old.outs }
        ensures ins { IfOk result (λ _. self.new.ins.items ≡ self.old.ins.items ++ port ∷ []) }
    {
        self.hints.ins.set(port.source, port.lane, self.ins.len());
        match self.ins.push(port) {
            Ok(()) => Ok(()),
            Err(_) => Err(NoMemory),
        }
    }

    // The last out end leaves.
    fn take_out(&mut self) -> OutPort
        requires { 0 < length self.old.outs.items }
        ensures job { self.new.job ≡ self.old.job }
        ensures node { self.new.node.value ≡ self.old.node.value }
        ensures ins { self.new.ins ≡ self.old.ins }
        ensures outs { self.old.outs.items ≡ self.new.outs.items ++ result ∷ [] }
        ensures port { OutOk self.old.job.schedule.plan self.old.job.inputs self.old.node.value result }
    {
        match self.outs.pop() {
            Some(port) => port,
            None => unreachable!(),
        }
    }

    // The last in end leaves.
    fn take_in(&mut self) -> InPort
        requires { 0 < length self.old.ins.items }
        ensures job { self.new.job ≡ self.old.job }
        ensures node { self.new.node.value ≡ self.old.node.value }
        ensures outs { self.new.outs ≡ self.old.outs }
        ensures ins { self.old.ins.items ≡ self.new.ins.items ++ result ∷ [] }
        ensures port { InOk self.old.job.schedule.plan self.old.node.value result }
    {
        match self.ins.pop() {
            Some(port) => port,
            None => unreachable!(),
        }
    }
}

/// An in end comes to the slot of a rank, after its others.
///
/// # Errors
///
/// There was no memory for it. The end is let go; there are as many slots as before, with the same nodes.
pub fn put_in(slots: &mut [TurnRank], rank: Rank, port: InPort) -> Result<(), NoMemory>
    requires rank { rank < length slots.old }
    requires port { (x : TurnRank) → get_elem? slots.old rank ≡ some x → MayGainIn x port }
    ensures count { length slots.new ≡ length slots.old }
    ensures nodes { Slotwise SameNode slots.old slots.new }
    ensures put { IfOk result (λ _. Slotwise (GainsIn rank port) slots.old slots.new) }
{
    slots[rank as usize].add_in(port)
}

/// The last out end of a rank, which has one, leaves its slot.
pub fn pull_out(slots: &mut [TurnRank], rank: Rank) -> OutPort
    requires rank { rank < length slots.old }
    requires nonempty { (x : TurnRank) → get_elem? slots.old rank ≡ some x → 0 < length x.outs.items }
    ensures count { length slots.new ≡ length slots.old }
    ensures port { (x : TurnRank) → get_elem? slots.old rank ≡ some x → OutOk x.job.schedule.plan x.job.inputs x.node.value result }
    ensures pulled { Slotwise (LosesOut rank result) slots.old slots.new }
{
    slots[rank as usize].take_out()
}

/// The last in end of a rank, which has one, leaves its slot.
pub fn pull_in(slots: &mut [TurnRank], rank: Rank) -> InPort
    requires rank { rank < length slots.old }
    requires nonempty { (x : TurnRank) → get_elem? slots.old rank ≡ some x → 0 < length x.ins.items }
    ensures count { length slots.new ≡ length slots.old }
    ensures port { (x : TurnRank) → get_elem? slots.old rank ≡ some x → InOk x.job.schedule.plan x.node.value result }
    ensures pulled { Slotwise (LosesIn rank result) slots.old slots.new }
{
    slots[rank as usize].take_in()
}
