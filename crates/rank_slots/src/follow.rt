//! How a worker finds steps by hints.

ghost use Rattle.std.specs.Prelude.{◌≡◌, ◌≤◌, true, None, Some, IfSome, length};
ghost use Rattle.ptl_types.specs.declared.steps.LocalStep.TheVariants.{Fire};
ghost use Rattle.ni_model.specs.Ready.{ready_numbers};
ghost use Rattle.rank_node.specs.Gates.{may_go};
ghost use Rattle.rank_slots.specs.Names.{IsWired, plate};
ghost use Rattle.rank_slots.specs.Sound.{IsSound};
ghost use Rattle.rank_slots.specs.Onward.{Onward};

use crate::gate::{Gate, StartAnswer};
use crate::network::Network;
use crate::parked::Parked;
use crate::turn_rank::TurnRank;
use ptl_types::{Lane, LocalStep, Rank};
use rank_node::Node;
use std::sync::Wait;

// The number of an operation that is ready, isn't parked, and whose message, if it has one, finds room: looked for among those that are
// ready, from one place to before another. Those before it that find none are parked.
fn search(node: &Node, parked: &mut Parked, first: u32, end: u32) -> Option<u32>
    requires { end ≤ length (ready_numbers node.now.nic) }
    ensures { IfSome result (λ t. may_go node.now.closed node.now.nic t ≡ true) }
{
    for i in first..end {
        let number = node.nic().ready_at(i);
        if parked.holds(number) {
            continue;
        }
        if node.may_fire(number) {
            parked.go_on(i);
            return Some(number);
        }
        if let Some(target) = node.nic().lane_of(number) {
            parked.add(target, number);
        }
    }
    None
}

// Such a number, looked for among all that are ready, from where the last one was found. Where all are parked there is nothing to look for.
fn search_all(node: &Node, parked: &mut Parked) -> Option<u32>
    ensures { IfSome result (λ t. may_go node.now.closed node.now.nic t ≡ true) }
{
    let count = node.nic().ready_count();
    if count <= parked.count() {
        return None;
    }
    let from = parked.from().min(count);
    if let Some(number) = search(node, parked, from, count) {
        return Some(number);
    }
    search(node, parked, 0, from)
}

impl TurnRank {
    /// Receives a message of the lane of this number, which may have some, and answers the step, if there was one. A lane that has none
    /// isn't looked at again before there is mail for it.
    fn receive_of<R: Wait, G: Gate>(
        &mut self,
        rt: &R,
        network: Network,
        gate: &G,
        number: usize,
    ) -> Option<LocalStep>
        requires sound { IsSound self.old.job }
        requires wired { IsWired network.wires.now (plate self.old) }
        ensures { Onward result self.old self.new }
    {
        let at = self.hints.ins.at(number);
        if at >= self.ins.len() {
            self.hints.note_look(number, false);
            return None;
        }
        if !self.may_take(at, false) {
            self.hints.note_held_back(number);
            return None;
        }
        let port = &self.ins[at];
        let source = port.source;
        let lane = port.lane;
        let received = self.receive(rt, network, gate, at);
        self.hints.note_look(number, received);
        if received {
            return Some(LocalStep::Receive { source, lane });
        }
        None
    }

    /// Receives a message of one of the lanes that may have some, and answers the step, if there was one.
    fn receive_pending<R: Wait, G: Gate>(
        &mut self,
        rt: &R,
        network: Network,
        gate: &G,
    ) -> Option<LocalStep>
        requires sound { IsSound self.old.job }
        requires wired { IsWired network.wires.now (plate self.old) }
        ensures { Onward result self.old self.new }
    {
        let mut from = 0;
        for _ in 0..self.ins.len() {
            let Some(number) = self.hints.next(from) else {
                return None;
            };
            if let Some(step) = self.receive_of(rt, network, gate, number) {
                return Some(step);
            }
            from = number.wrapping_add(1);
        }
        None
    }

    /// Tries what waits at the out ends again, if something may wait there.
    fn flush_waiting<R: Wait>(&mut self, rt: &R, network: Network)
        requires { IsWired network.wires.now (plate self.old) }
        ensures { Onward None self.old self.new }
    {
        if !self.hints.waits {
            return;
        }
        self.flush(rt, network);
    }

    /// Fires an operation that is ready and whose message, if it has one, finds room.
    fn fire_open<R: Wait, G: Gate>(&mut self, rt: &R, network: Network, gate: &G, number: u32)
        requires sound { IsSound self.old.job }
        requires wired { IsWired network.wires.now (plate self.old) }
        requires may { may_go self.old.node.value.closed self.old.node.value.nic number ≡ true }
        ensures { Onward (Some (Fire number)) self.old self.new }
    {
        gate.pass(self.node.nic().rank(), LocalStep::Fire { number });
        self.fire(rt, network, number);
    }

    /// The first rank whose lane has room now and for whose messages operations are parked.
    fn open_queue(&self) -> Option<Rank> {
        let mut from = 0;
        for _ in 0..self.outs.len() {
            let target = self.hints.parked.queue(from)?;
            if !self.is_shut(target, Lane::Request) {
                return Some(target);
            }
            from = target.checked_add(1)?;
        }
        None
    }

    /// Fires an operation that was parked, if the lane of its message has room now, and answers the step, if there was one.
    fn fire_parked<R: Wait, G: Gate>(
        &mut self,
        rt: &R,
        network: Network,
        gate: &G,
    ) -> Option<LocalStep>
        requires sound { IsSound self.old.job }
        requires wired { IsWired network.wires.now (plate self.old) }
        ensures { Onward result self.old self.new }
    {
        if !self.hints.parked.may_have_room() {
            return None;
        }
        let Some(target) = self.open_queue() else {
            self.hints.parked.note_room(false);
            return None;
        };
        match self.hints.parked.take(target) {
            Some(number) if self.node.may_fire(number) => {
                self.fire_open(rt, network, gate, number);
                Some(LocalStep::Fire { number })
            }
            _ => None,
        }
    }

    /// Fires an operation that is ready and isn't parked, if the message of one finds room, and answers the step, if there was one.
    fn fire_other<R: Wait, G: Gate>(
        &mut self,
        rt: &R,
        network: Network,
        gate: &G,
    ) -> Option<LocalStep>
        requires sound { IsSound self.old.job }
        requires wired { IsWired network.wires.now (plate self.old) }
        ensures { Onward result self.old self.new }
    {
        let Some(number) = search_all(&self.node, &mut self.hints.parked) else {
            return None;
        };
        self.fire_open(rt, network, gate, number);
        Some(LocalStep::Fire { number })
    }

    /// Starts the rank, or fires an operation that is ready, and answers the step, if there was one.
    fn start_or_fire<R: Wait, G: Gate>(
        &mut self,
        rt: &R,
        network: Network,
        gate: &G,
    ) -> Option<LocalStep>
        requires sound { IsSound self.old.job }
        requires wired { IsWired network.wires.now (plate self.old) }
        ensures { Onward result self.old self.new }
    {
        if let StartAnswer::Started = self.start_once(gate) {
            return Some(LocalStep::Start);
        }
        if let Some(step) = self.fire_parked(rt, network, gate) {
            return Some(step);
        }
        self.fire_other(rt, network, gate)
    }

    /// Tries what waits at the out ends again, and then starts the rank, or fires, or receives, and answers the step, if there was one.
    fn advance<R: Wait, G: Gate>(&mut self, rt: &R, network: Network, gate: &G) -> Option<LocalStep>
        requires sound { IsSound self.old.job }
        requires wired { IsWired network.wires.now (plate self.old) }
        ensures { Onward result self.old self.new }
    {
        self.flush_waiting(rt, network);
        if let Some(step) = self.start_or_fire(rt, network, gate) {
            return Some(step);
        }
        self.receive_pending(rt, network, gate)
    }

    /// Advances, and where that did nothing and something waits at an out end, says so and looks once more: what was taken out of a full
    /// wire before that wakes nobody.
    fn advance_or_wait<R: Wait, G: Gate>(
        &mut self,
        rt: &R,
        network: Network,
        gate: &G,
    ) -> Option<LocalStep>
        requires sound { IsSound self.old.job }
        requires wired { IsWired network.wires.now (plate self.old) }
        ensures { Onward result self.old self.new }
    {
        if let Some(step) = self.advance(rt, network, gate) {
            return Some(step);
        }
        if !self.hints.waits {
            return None;
        }
        network.mail.wait_for_credit(self.node.nic().rank());
        self.advance(rt, network, gate)
    }

    /// Makes one step that the hints lead to, and answers it: the history grew by it and by no other. `None` where the hints lead to none,
    /// and nothing was made; that there was none to make isn't ruled out. Then word is left in the mail if the rank may have more to do
    /// now, and where it waits for room the mail knows it. It may wait inside the wires' queues, and takes no memory.
    pub fn follow_hints<R: Wait, G: Gate>(
        &mut self,
        rt: &R,
        network: Network,
        gate: &G,
    ) -> Option<LocalStep>
        requires sound { IsSound self.old.job }
        requires wired { IsWired network.wires.now (plate self.old) }
        ensures { Onward result self.old self.new }
    {
        let rank = self.node.nic().rank();
        self.hints.collect(network.mail, rank);
        let made = self.advance_or_wait(rt, network, gate);
        if made.is_none() {
            self.hints.leave_word(network.mail, rank);
        }
        made
    }
}
