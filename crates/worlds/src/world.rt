//! The world and its steps.

ghost use Rattle.std.specs.Prelude.{ℕ, true, ◌≡◌, ◌<◌, ◌≤◌, ◌-◌, ◌↔◌, IsTrue, IfOk, Some, [], length, map, slice_get};
ghost use Rattle.ptl_types.specs.declared.headers.Lane.TheVariants.{Request};
ghost use Rattle.ni_model.specs.Tables.{lookup};
ghost use Rattle.plan_core.specs.Members.{In};
ghost use Rattle.plan_core.specs.calls.Lanes.{is_used_lane};
ghost use Rattle.plan_core.specs.calls.RankOps.{done_threshold};
ghost use Rattle.cuts.specs.view.Slots.{Slots, done_ct};
ghost use Rattle.cuts.specs.histories.Cut.{IsAtRest, is_stray};
ghost use Rattle.cuts.specs.histories.Plans.{IsComplete};
ghost use Rattle.cuts.specs.histories.System.{state_at};
ghost use Rattle.cuts.specs.orders.Chosen.{step_made};
ghost use Rattle.cuts.specs.orders.Taking.{listed};
ghost use Rattle.rank_node.specs.Node.{stray_bytes};
ghost use Rattle.cuts.specs.done.Done.{HasCounted};
ghost use Rattle.cuts.specs.cells.Cells.{AreRoundsKept, AreValues, AreValuesAt, result_in};
ghost use Rattle.worlds.specs.parts.Steps.{injected};
ghost use Rattle.worlds.specs.opening.Laying.{FitLanes};
ghost use Rattle.worlds.specs.Done.{KeepsValues, StaysAlone};
ghost use Rattle.worlds.specs.Standing.{AreFields, IsStanding};
ghost use Rattle.worlds.specs.Later.{IsLater, IsOpened};
ghost use Rattle.worlds.specs.Runs.{IsRun, chosen_run};
ghost use Rattle.worlds.specs.World.{AreSlots, histories_in, memory_in, nic_in, ranks_in, scene_in, state_of, steps_in};

use crate::finding::{delivery_at, part_of};
use crate::making::{allows, make};
use crate::opening::opened as parts_of_job;
use crate::parts::acts;
use crate::parts::traffic::Traffic;
use cuts::orders::Step;
use portals_ni::Nic;
use ptl_types::{Count, LocalStep, Message, NoMemory, Rank};
use rank_node::Node;
use schedule_compiler::{Job, Schedule};
use std::alloc::Global;
use std::marker::Model;

/// Chooses among the possible steps. Its answer and its next state are functions of its state and of how many there are.
pub trait Chooser {
    ghost answer: { Self → ℕ → ℕ };

    ghost after: { Self → ℕ → Self };

    /// A number below `n`.
    fn choose(&mut self, n: u64) -> u64
        requires { 0 < n }
        ensures below { result < n }
        ensures answer { result ≡ answer self.old n }
        ensures after { self.new ≡ after self.old n };
}

/// All ranks of a job on one thread, with the messages that are on their way. After its opening no call answers that memory ran out.
pub struct World {
    job: Job,
    nodes: Vec<Node>,
    traffic: Traffic,
}

impl Model for World {
    ghost use Rattle.worlds.specs.World.{WorldState};
    ghost use Rattle.worlds.specs.Standing.{AreFields};

    ghost Value = { WorldState };

    ghost view = { λ w. record {
      schedule = w.job.schedule;
      inputs = w.job.inputs;
      nodes = w.nodes.items;
      lanes = w.traffic.lanes;
      window = w.traffic.setting.window;
      strays = w.traffic.setting.strays;
      spare = w.traffic.setting.spare;
    } };

    ghost invariant = { λ w. AreFields w.job w.nodes.items w.traffic };
}

// Written out, so that letting one go is one call: docs/DECISIONS.md, "Large types have a drop of their own".
impl Drop for World {
    fn drop(self) {
        let World {
            job: _,
            nodes: _,
            traffic: _,
        } = self;
    }
}

/// A job's plan has few links.
fn recall_few_links(job: &Job)
    ensures { FitLanes job.now.schedule.plan 0 }
{
    let _ = job.schedule().plan();
}

impl World {
    /// The world of a job: each rank is prepared, nothing was done, and nothing is on its way.
    ///
    /// # Errors
    ///
    /// There was no memory for it.
    pub fn open(alloc: Global, job: &Job) -> Result<World, NoMemory>
        ensures { IfOk result (λ world. IsOpened job.now u64.MAX 0 world) }
    {
        recall_few_links(job);
        World::opened(alloc, job, u64::MAX, 0)
    }

    /// The world of a job under a window: a step that would put a message into a lane that holds so many has to wait. Strays are
    /// put in whatever the window is.
    ///
    /// # Errors
    ///
    /// There was no memory for it.
    pub fn open_windowed(alloc: Global, job: &Job, window: u32) -> Result<World, NoMemory>
        requires { 0 < window }
        ensures { IfOk result (λ world. IsOpened job.now window 0 world) }
    {
        recall_few_links(job);
        World::opened(alloc, job, u64::from(window), 0)
    }

    /// The world of a job, with room for so many strays that may be injected, of at most 64 bytes each. Condition: the links of the
    /// plan and the strays together are fewer than 2^32, so that a lane holds fewer messages than that.
    ///
    /// # Errors
    ///
    /// There was no memory for it.
    pub fn open_with_strays(alloc: Global, job: &Job, strays: u32) -> Result<World, NoMemory>
        requires { FitLanes job.now.schedule.plan strays }
        ensures { IfOk result (λ world. IsOpened job.now u64.MAX strays world) }
    {
        World::opened(alloc, job, u64::MAX, strays)
    }

    /// Under a window, and with room for strays.
    fn opened(alloc: Global, job: &Job, window: u64, strays: u32) -> Result<World, NoMemory>
        requires window { 0 < window }
        requires at_most { FitLanes job.now.schedule.plan strays }
        ensures { IfOk result (λ world. IsOpened job.now window strays world) }
    {
        let shared = job.share()?;
        let (nodes, traffic) = parts_of_job(alloc, job, window, strays)?;
        Ok(World {
            job: shared,
            nodes,
            traffic,
        })
    }

    /// A world of a job around its nodes and the traffic between them.
    pub(crate) fn around(job: Job, nodes: Vec<Node>, traffic: Traffic) -> World
        requires { AreFields job nodes.items traffic }
        ensures { result ≡ state_of job nodes.items traffic }
    {
        World {
            job,
            nodes,
            traffic,
        }
    }

    /// The schedule.
    pub fn schedule(&self) -> &Schedule
        ensures { result.now ≡ self.now.schedule }
    {
        self.job.schedule()
    }

    /// The job.
    pub fn job(&self) -> &Job
        ensures { result.now ≡ record { schedule = self.now.schedule; inputs = self.now.inputs } }
    {
        &self.job
    }

    /// How many steps are possible. Where none is, the world is at rest. `kept` is what holds of a world whatever was done with it.
    pub fn enabled(&self) -> u64
        ensures number { (slots : ℕ → Slots) → AreSlots self.now slots → result ≡ length (steps_in self.now slots) }
        ensures kept { IsStanding self.now }
        ensures rest { result ≡ 0 → (slots : ℕ → Slots) → AreSlots self.now slots →
            IsAtRest (ranks_in self.now slots) (histories_in self.now) }
    {
        self.traffic.starts.total() + self.traffic.deliveries.total() + self.traffic.firings.total()
    }

    /// The possible step number `i`, from 0: starts by rank; deliveries by source, target, request before answer; firings by
    /// rank, then number.
    pub fn enabled_step(&self, i: u64) -> Step
        requires { (slots : ℕ → Slots) → AreSlots self.now slots → i < length (steps_in self.now slots) }
        ensures { (slots : ℕ → Slots) → AreSlots self.now slots → slice_get (steps_in self.now slots) i ≡ Some result }
    {
        let starts = self.traffic.starts.total();
        if i < starts {
            let (r, _) = self.traffic.starts.find(i);
            return Step::Start(r as u32);
        }
        let later = i - starts;
        let deliveries = self.traffic.deliveries.total();
        if later < deliveries {
            let (place, _) = self.traffic.deliveries.find(later);
            return delivery_at(self.traffic.setting.ranks, place);
        }
        let (r, rest) = self.traffic.firings.find(later - deliveries);
        let node = &self.nodes[r];
        let _ = node.ready();
        Step::Fire(r as u32, node.ready_at(rest as u32))
    }

    /// Whether a step is possible. It isn't on a lane that the job doesn't use, for a rank that isn't one, and for a number that
    /// isn't pending.
    pub fn is_enabled(&self, step: Step) -> bool
        ensures { (slots : ℕ → Slots) → AreSlots self.now slots → (IsTrue result ↔ In step (steps_in self.now slots)) }
    {
        allows(&self.nodes, &self.traffic, step)
    }

    /// Makes a step that is possible: one local step of one rank, whose message, if any, goes to the end of its lane. `kept` is
    /// what holds of a world whatever was done with it.
    pub fn step(&mut self, step: Step)
        requires { (slots : ℕ → Slots) → AreSlots self.old slots → In step (steps_in self.old slots) }
        ensures made { (slots : ℕ → Slots) → AreSlots self.new slots →
            scene_in self.new ≡ step_made (ranks_in self.old slots) step (scene_in self.old) }
        ensures kept { IsStanding self.new }
        ensures later { IsLater self.old self.new }
        ensures strays { self.new.strays ≡ self.old.strays }
        ensures barriers { (slots : ℕ → Slots) → AreSlots self.new slots →
            AreRoundsKept self.new.schedule.plan self.new.inputs slots (histories_in self.new) }
    {
        make(&mut self.nodes, &mut self.traffic, step);
    }

    /// Whether no step is possible. Then the world is at rest: each rank is complete, and each cell holds its value, in its
    /// rank's memory.
    pub fn at_rest(&self) -> bool
        ensures exact { (slots : ℕ → Slots) → AreSlots self.now slots → (IsTrue result ↔ (steps_in self.now slots ≡ [])) }
        ensures rest { IsTrue result → (slots : ℕ → Slots) → AreSlots self.now slots →
            IsAtRest (ranks_in self.now slots) (histories_in self.now) }
        ensures complete { IsTrue result → (slots : ℕ → Slots) → AreSlots self.now slots → (r : ℕ) → r < self.now.schedule.plan.ranks →
            IsComplete self.now.schedule.plan self.now.inputs slots (histories_in self.now) r }
        ensures values { IsTrue result → AreValues self.now.schedule.plan self.now.inputs (memory_in self.now) }
    {
        self.enabled() == 0
    }

    /// Makes possible steps until there is none. Then each rank is complete, and each cell holds its value, in its rank's memory.
    pub fn run_to_rest(&mut self)
        ensures none { (slots : ℕ → Slots) → AreSlots self.new slots → steps_in self.new slots ≡ [] }
        ensures later { IsLater self.old self.new }
        ensures strays { self.new.strays ≡ self.old.strays }
        ensures steps { (slots : ℕ → Slots) → AreSlots self.new slots →
            IsRun (ranks_in self.old slots) self.old.window (scene_in self.old) (scene_in self.new) }
        ensures rest { (slots : ℕ → Slots) → AreSlots self.new slots → IsAtRest (ranks_in self.new slots) (histories_in self.new) }
        ensures complete { (slots : ℕ → Slots) → AreSlots self.new slots → (r : ℕ) → r < self.new.schedule.plan.ranks →
            IsComplete self.new.schedule.plan self.new.inputs slots (histories_in self.new) r }
        ensures values { AreValues self.new.schedule.plan self.new.inputs (memory_in self.new) }
        ensures barriers { (slots : ℕ → Slots) → AreSlots self.new slots →
            AreRoundsKept self.new.schedule.plan self.new.inputs slots (histories_in self.new) }
    {
        while 0 < self.enabled() {
            let step = self.enabled_step(0);
            self.step(step);
        }
    }

    /// Makes the steps that a chooser names among the possible ones, until there is none. Then each rank is complete, and each
    /// cell holds its value, in its rank's memory.
    pub fn run_chosen<C: Chooser>(&mut self, chooser: &mut C)
        ensures none { (slots : ℕ → Slots) → AreSlots self.new slots → steps_in self.new slots ≡ [] }
        ensures later { IsLater self.old self.new }
        ensures strays { self.new.strays ≡ self.old.strays }
        ensures chosen { (slots : ℕ → Slots) → AreSlots self.new slots → ((n : ℕ) ×
            (chosen_run (ranks_in self.old slots) self.old.window C.answer C.after n
            (record { scene = scene_in self.old; chooser = chooser.old }) ≡
            record { scene = scene_in self.new; chooser = chooser.new })) }
        ensures rest { (slots : ℕ → Slots) → AreSlots self.new slots → IsAtRest (ranks_in self.new slots) (histories_in self.new) }
        ensures complete { (slots : ℕ → Slots) → AreSlots self.new slots → (r : ℕ) → r < self.new.schedule.plan.ranks →
            IsComplete self.new.schedule.plan self.new.inputs slots (histories_in self.new) r }
        ensures values { AreValues self.new.schedule.plan self.new.inputs (memory_in self.new) }
        ensures barriers { (slots : ℕ → Slots) → AreSlots self.new slots →
            AreRoundsKept self.new.schedule.plan self.new.inputs slots (histories_in self.new) }
    {
        loop {
            let n = self.enabled();
            if n == 0 {
                return;
            }
            let i = chooser.choose(n);
            let step = self.enabled_step(i);
            self.step(step);
        }
    }

    /// Puts a stray at the end of a request lane that the job uses. Conditions: some may still be injected, and it is a stray of
    /// this source and target, of at most 64 bytes.
    pub fn inject(&mut self, s: Rank, d: Rank, message: Message)
        requires left { 0 < self.old.strays }
        requires from { s < self.old.schedule.plan.ranks }
        requires to { d < self.old.schedule.plan.ranks }
        requires used { is_used_lane self.old.schedule.plan s d Request ≡ true }
        requires stray { is_stray message ≡ true }
        requires source { message.header.source ≡ s }
        requires target { message.header.target ≡ d }
        requires short { length message.bytes ≤ stray_bytes }
        ensures put { scene_in self.new ≡ injected s d message (scene_in self.old) }
        ensures later { IsLater self.old self.new }
        ensures strays { self.new.strays ≡ self.old.strays - 1 }
    {
        acts::inject(&mut self.nodes, &mut self.traffic, s, d, message);
    }

    /// The local steps of a rank, oldest first.
    pub fn history(&self, r: Rank) -> &[LocalStep]
        requires { r < self.now.schedule.plan.ranks }
        ensures { result.now ≡ map listed (histories_in self.now r) }
    {
        self.nodes[r as usize].history()
    }

    /// The interface of a rank.
    pub fn nic(&self, r: Rank) -> &Nic
        requires { r < self.now.schedule.plan.ranks }
        ensures value { result.now ≡ nic_in self.now r }
        ensures state { (slots : ℕ → Slots) → AreSlots self.now slots →
            result.now ≡ state_at (ranks_in self.now slots) (histories_in self.now) r }
    {
        self.nodes[r as usize].nic()
    }

    /// The counting event of what is done at a rank. Where it has counted as much as `Schedule::done` says, each cell of the
    /// rank holds its value, and goes on so, whatever the other ranks have still to do. Under `complete remote` nothing of the
    /// job is left there then, and otherwise once no operation of the rank is pending: strays alone come to it.
    pub fn done(&self, r: Rank) -> Count
        requires { r < self.now.schedule.plan.ranks }
        ensures counter { (slots : ℕ → Slots) → AreSlots self.now slots →
            lookup (done_ct (slots r)) (nic_in self.now r).cts.live ≡ Some result }
        ensures values { HasCounted result (done_threshold self.now.schedule.plan r) →
            AreValuesAt self.now.schedule.plan self.now.inputs r (memory_in self.now r) }
        ensures stays { HasCounted result (done_threshold self.now.schedule.plan r) → KeepsValues self.now r }
        ensures none_left { HasCounted result (done_threshold self.now.schedule.plan r) → self.now.schedule.plan.remote ≡ true →
            (nic_in self.now r).pending.waiting ≡ [] }
        ensures left_alone { HasCounted result (done_threshold self.now.schedule.plan r) →
            (nic_in self.now r).pending.waiting ≡ [] → StaysAlone self.now r }
    {
        self.counted(r)
    }

    /// What the done counter of a rank has counted.
    fn counted(&self, r: Rank) -> Count
        requires { r < self.now.schedule.plan.ranks }
        ensures value { (slots : ℕ → Slots) → AreSlots self.now slots →
            lookup (done_ct (slots r)) (nic_in self.now r).cts.live ≡ Some result }
        ensures kept { IsStanding self.now }
    {
        self.nodes[r as usize].done()
    }

    /// The bytes of a buffer at a rank, as they stand in its memory now, elements in order, little-endian: none where no cell holds it.
    pub fn result(&self, buffer: u32, r: Rank) -> &[u8]
        requires buffer { buffer < self.now.schedule.held.buffers }
        requires rank { r < self.now.schedule.plan.ranks }
        ensures { result.now ≡ result_in self.now.schedule.plan self.now.schedule.held buffer r (memory_in self.now r) }
    {
        let schedule = self.job.schedule();
        match schedule.result(buffer, r) {
            Some(cell) => part_of(self.nodes[r as usize].nic().memory(), schedule.place(cell)),
            None => &[],
        }
    }
}
