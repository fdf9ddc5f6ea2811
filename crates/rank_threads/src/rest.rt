//! How a fabric is closed that a wave of probes found at rest.

ghost use Rattle.std.specs.Prelude.{ℕ, ◌≡◌, ◌<◌, ◌^◌, All};
ghost use Rattle.cuts.specs.view.Slots.{Slots};
ghost use Rattle.cuts.specs.histories.Cut.{IsAtRest};
ghost use Rattle.cuts.specs.histories.System.{Histories};
ghost use Rattle.cuts.specs.cells.Cells.{AreRoundsKept};
ghost use Rattle.rest_probe.specs.declared.answers.WaveAnswer.TheVariants.{Rest};
ghost use Rattle.rest_probe.specs.Answered.{Answered};
ghost use Rattle.rest_probe.specs.Waves.{IsFor};
ghost use Rattle.turn_table.specs.Hands.{IsFree, parts_of};
ghost use Rattle.worlds.specs.Standing.{IsStanding};
ghost use Rattle.worlds.specs.World.{AreSlots, histories_in, ranks_in};
ghost use Rattle.rank_threads.specs.Closing.{IsWorldOf};
ghost use Rattle.rank_threads.specs.Resting.{AreFrontsOf};

use crate::close::SpentWires;
use crate::fabric::{Fabric, Hand};
use cuts::rest::one_wave;
use rank_slots::{Gate, recall_soundness};
use rest_probe::Wave;
use std::sync::Wait;
use worlds::World;

impl<G: Gate + Drop> Fabric<G> {
    /// Ends the fabric as `close` does, where a wave of probes answered that the job is at rest, and hands over its wires beside the
    /// world: their memory is given back when the caller lets them go. The note of each rank is what a beginning of a history says that
    /// one of these hands has seen there. The world is at rest, and each of its histories is that beginning: no rank made a further step.
    pub fn close_at_rest<R: Wait>(self, rt: &R, hands: Vec<Hand>, wave: Wave) -> (World, SpentWires)
        requires hands { All (λ h. IsFree self.turns h) hands.items }
        requires all { parts_of hands.items ≡ 2 ^ 32 }
        requires lanes { IsFor self.job.schedule.plan wave }
        requires answer { Answered wave Rest }
        requires noted { (fronts : Histories) × AreFrontsOf self.job hands.items fronts wave }
        ensures world { IsWorldOf self hands.items result.0 }
        ensures kept { IsStanding result.0 }
        ensures barriers { (slots : ℕ → Slots) → AreSlots result.0 slots →
            AreRoundsKept result.0.schedule.plan result.0.inputs slots (histories_in result.0) }
        ensures rest { (slots : ℕ → Slots) → AreSlots result.0 slots → IsAtRest (ranks_in result.0 slots) (histories_in result.0) }
        ensures whole { (fronts : Histories) → AreFrontsOf self.job hands.items fronts wave → (r : ℕ) → r < self.job.schedule.plan.ranks →
            histories_in result.0 r ≡ fronts r }
    {
        // What every job is, and the law of one wave, are told here.
        recall_soundness(&self.job);
        one_wave();
        let _wave = wave;
        self.close_keeping(rt, hands)
    }
}
