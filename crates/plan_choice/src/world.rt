//! The choice world and its steps.

ghost use Rattle.std.specs.Prelude.{ℕ, ◌≡◌, ◌+◌, ◌<◌, ◌≤◌, ◌↔◌, IsTrue, IfOk, Some, [], length, map, slice_get};
ghost use Rattle.ptl_types.specs.Elements.{part, pattern};
ghost use Rattle.ptl_types.specs.Handles.{top};
ghost use Rattle.plan_core.specs.Members.{In};
ghost use Rattle.cuts.specs.histories.Moment.{IsStill};
ghost use Rattle.cuts.specs.histories.System.{state_at};
ghost use Rattle.cuts.specs.orders.Chosen.{first_scene, step_made};
ghost use Rattle.cuts.specs.orders.Taking.{listed};
ghost use Rattle.worlds.specs.Runs.{IsRun, chosen_run};
ghost use Rattle.plan_choice.specs.ranks.Seats.{kinds_of};
ghost use Rattle.plan_choice.specs.World.{IsDecidedWorld, IsLater, IsStanding, histories_in, nic_in, ranks_in, scene_in, steps_in};
ghost use Rattle.plan_choice.specs.World.{value_in};

use crate::acts::{Firings, Starts, make};
use crate::laying::{lay_all, seat_all};
use crate::ranks::{ChoiceRank, kinds};
use coll_lang::{ChoiceKind, Choices};
use count_tree::CountTree;
use cuts::orders::Step;
use lane_ops::elements::read_pattern;
use portals_ni::Nic;
use ptl_types::{ElemType, LocalStep, NoMemory, Rank};
use std::alloc::Global;
use std::marker::Model;
use worlds::parts::lanes::{LaneTable, Setting};
use worlds::parts::traffic::Traffic;
use worlds::{Chooser, delivery_at};

/// All ranks of a choice text on one thread, with the messages that are on their way. After its opening no call takes memory.
///
/// With N ranks and S steps, `enabled` and `at_rest` take a constant number of steps, `enabled_step` and a step of the world the
/// order of the logarithm of N and S.
pub struct ChoiceWorld {
    kinds: Vec<ChoiceKind>,
    seats: Vec<ChoiceRank>,
    traffic: Traffic,
}

impl Model for ChoiceWorld {
    ghost use Rattle.plan_choice.specs.World.{AreFields, ChoiceState, state_of};

    ghost Value = { ChoiceState };

    ghost view = { λ w. state_of w.kinds.items w.seats.items w.traffic };

    ghost invariant = { λ w. AreFields w.kinds.items w.seats.items w.traffic };
}

// Written out, so that letting one go is one call: docs/DECISIONS.md, "Large types have a drop of their own".
impl Drop for ChoiceWorld {
    fn drop(self) {
        let ChoiceWorld {
            kinds: _,
            seats: _,
            traffic: _,
        } = self;
    }
}

/// The word at a place of a memory, its lowest byte first.
fn word_at(memory: &[u8], from: usize) -> u64
    requires { from + 8 ≤ length memory.now }
    ensures { result ≡ pattern (part from 8 memory.now) }
{
    read_pattern(ElemType::U64, &memory[from..])
}

/// A lane of a choice world never holds so many messages.
const NO_WINDOW: u64 = u64::MAX;

impl ChoiceWorld {
    /// The world of a choice text on so many ranks: each rank is installed, nothing was done, and nothing is on its way. Condition:
    /// there are 1 to 256 ranks. `kept` is what holds of a choice world whatever was done with it.
    ///
    /// # Errors
    ///
    /// There was no memory for it.
    pub fn open(alloc: Global, ranks: u32, choices: &Choices) -> Result<ChoiceWorld, NoMemory>
        requires nonempty { 0 < ranks }
        requires at_most { ranks ≤ 256 }
        ensures ranks { IfOk result (λ w. w.ranks ≡ ranks) }
        ensures steps { IfOk result (λ w. w.kinds ≡ kinds_of choices.now.steps) }
        ensures first { IfOk result (λ w. scene_in w ≡ first_scene) }
        ensures kept { IfOk result (λ w. IsStanding w) }
    {
        let kinds = kinds(alloc, choices.steps())?;
        let seats = seat_all(alloc, ranks, &kinds)?;
        let lanes = lay_all(alloc, ranks, kinds.len() as u32)?;
        let starts = CountTree::of::<ChoiceRank, Starts>(alloc, &seats)?;
        let places = 2 * (ranks * ranks);
        let deliveries = CountTree::open(alloc, places)?;
        let firings = CountTree::of::<ChoiceRank, Firings>(alloc, &seats)?;
        Ok(ChoiceWorld {
            kinds,
            seats,
            traffic: Traffic {
                setting: Setting {
                    ranks,
                    window: NO_WINDOW,
                    strays: 0,
                    spare: 0,
                },
                lanes: LaneTable::of_lanes(lanes),
                starts,
                deliveries,
                firings,
            },
        })
    }

    /// How many ranks there are.
    pub fn ranks(&self) -> u32
        ensures { result ≡ self.now.ranks }
    {
        self.traffic.setting.ranks
    }

    /// What the steps of the text do, in order.
    pub fn kinds(&self) -> &[ChoiceKind]
        ensures { result.now ≡ self.now.kinds }
    {
        self.kinds.as_slice()
    }

    /// How many steps are enabled. `kept` is what holds of a choice world whatever was done with it.
    pub fn enabled(&self) -> u64
        ensures number { result ≡ length (steps_in self.now) }
        ensures kept { IsStanding self.now }
    {
        self.traffic.starts.total() + self.traffic.deliveries.total() + self.traffic.firings.total()
    }

    /// The enabled step number `i`, from 0: starts by rank; deliveries by source, target, request before answer; firings by rank,
    /// then number.
    pub fn enabled_step(&self, i: u64) -> Step
        requires { i < length (steps_in self.now) }
        ensures { slice_get (steps_in self.now) i ≡ Some result }
    {
        let starts = self.traffic.starts.total();
        if i < starts {
            let (r, _) = self.traffic.starts.find(i);
            return Step::Start(r as u32);
        }
        let later = i - starts;
        let deliveries = self.traffic.deliveries.total();
        if later < deliveries {
            let (place, _) = self.traffic.deliveries.find(later);
            return delivery_at(self.traffic.setting.ranks, place);
        }
        let (r, rest) = self.traffic.firings.find(later - deliveries);
        let seat = &self.seats[r];
        let _ = seat.ready();
        Step::Fire(r as u32, seat.ready_at(rest as u32))
    }

    /// Makes a step that is enabled: one local step of one rank, whose message, if any, goes to the end of its lane. `kept` is what
    /// holds of a choice world whatever was done with it.
    pub fn step(&mut self, step: Step)
        requires { In step (steps_in self.old) }
        ensures made { scene_in self.new ≡ step_made (ranks_in self.old) step (scene_in self.old) }
        ensures kept { IsStanding self.new }
        ensures later { IsLater self.old self.new }
    {
        make(&mut self.seats, &mut self.traffic, step);
    }

    /// Whether no step is enabled: each rank has started, no message is on its way, and no operation is ready. Then the results are
    /// decided: each rank has told all steps, each elect names one rank at every rank, and the results of each tickets are the
    /// numbers of the ranks, each once.
    pub fn at_rest(&self) -> bool
        ensures exact { IsTrue result ↔ (steps_in self.now ≡ []) }
        ensures rest { IsTrue result → IsStill (ranks_in self.now) (histories_in self.now) (scene_in self.now).held }
        ensures decided { IsTrue result → IsDecidedWorld self.now }
    {
        self.enabled() == 0
    }

    /// Makes enabled steps until there is none. Then the results are decided.
    pub fn run_to_rest(&mut self)
        ensures none { steps_in self.new ≡ [] }
        ensures rest { IsStill (ranks_in self.new) (histories_in self.new) (scene_in self.new).held }
        ensures decided { IsDecidedWorld self.new }
        ensures later { IsLater self.old self.new }
        ensures steps { IsRun (ranks_in self.old) top (scene_in self.old) (scene_in self.new) }
    {
        while 0 < self.enabled() {
            let step = self.enabled_step(0);
            self.step(step);
        }
    }

    /// Makes the steps that a chooser names among the enabled ones, until there is none. Then the results are decided.
    pub fn run_chosen<C: Chooser>(&mut self, chooser: &mut C)
        ensures none { steps_in self.new ≡ [] }
        ensures rest { IsStill (ranks_in self.new) (histories_in self.new) (scene_in self.new).held }
        ensures decided { IsDecidedWorld self.new }
        ensures later { IsLater self.old self.new }
        ensures chosen { (n : ℕ) ×
            (chosen_run (ranks_in self.old) top C.answer C.after n
            (record { scene = scene_in self.old; chooser = chooser.old }) ≡
            record { scene = scene_in self.new; chooser = chooser.new }) }
    {
        loop {
            let n = self.enabled();
            if n == 0 {
                return;
            }
            let i = chooser.choose(n);
            let step = self.enabled_step(i);
            self.step(step);
        }
    }

    /// The local steps of a rank, oldest first.
    pub fn history(&self, r: Rank) -> &[LocalStep]
        requires { r < self.now.ranks }
        ensures { result.now ≡ map listed (histories_in self.now r) }
    {
        self.seats[r as usize].history()
    }

    /// The interface of a rank.
    pub fn nic(&self, r: Rank) -> &Nic
        requires { r < self.now.ranks }
        ensures value { result.now ≡ nic_in self.now r }
        ensures state { result.now ≡ state_at (ranks_in self.now) (histories_in self.now) r }
    {
        self.seats[r as usize].nic()
    }

    /// The result of a step at a rank, as it stands in its memory now: 0 before it is home.
    pub fn value(&self, step: u32, r: Rank) -> u64
        requires step { step < length self.now.kinds }
        requires rank { r < self.now.ranks }
        ensures { result ≡ value_in self.now step r }
    {
        let memory = self.seats[r as usize].nic().memory();
        word_at(memory, 32 * step as usize + 24)
    }
}
