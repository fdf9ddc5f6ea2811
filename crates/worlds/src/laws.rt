//! What holds of every world, whatever was done with it.

ghost use Rattle.std.specs.Prelude.{ℕ, suc, ◌≡◌, ◌<◌, ◌%◌, []};
ghost use Rattle.plan_core.specs.Members.{Distinct, In};
ghost use Rattle.cuts.specs.view.Slots.{Slots};
ghost use Rattle.cuts.specs.histories.Cut.{IsCut};
ghost use Rattle.cuts.specs.histories.History.{Local};
ghost use Rattle.cuts.specs.histories.Moment.{IsEnabled, IsPossible};
ghost use Rattle.cuts.specs.orders.Chosen.{IsChosen, Scene, enabled_steps, first_scene};
ghost use Rattle.cuts.specs.declared.orders.Step.{Step};
ghost use Rattle.cuts.specs.windows.Named.{named};
ghost use Rattle.cuts.specs.windows.Possible.{possible_steps};
ghost use Rattle.cuts.specs.cells.Cells.{AreCellsInOrder, AreRoundsKept};
ghost use Rattle.worlds.specs.Runs.{chosen_run};
ghost use Rattle.worlds.specs.Standing.{IsStanding};
ghost use Rattle.worlds.specs.World.{AreSlots, WorldState, histories_in, ranks_in, scene_in, steps_in};

/// There are slots that agree with the handles that a world's nodes were given: so what is said under all such slots is never said
/// of none.
pub fn slots_agree()
    ensures { (w : WorldState) → IsStanding w → ((slots : ℕ → Slots) × AreSlots w slots) }
{}

/// The histories of a world are a cut, each cell is reached after those that lead to it, and every dissemination is kept.
pub fn worlds_stand()
    ensures cut { (w : WorldState) (slots : ℕ → Slots) → IsStanding w → AreSlots w slots → IsCut (ranks_in w slots) (histories_in w) }
    ensures order { (w : WorldState) (slots : ℕ → Slots) → IsStanding w → AreSlots w slots →
        AreCellsInOrder w.schedule.plan w.inputs slots (histories_in w) }
    ensures barriers { (w : WorldState) (slots : ℕ → Slots) → IsStanding w → AreSlots w slots →
        AreRoundsKept w.schedule.plan w.inputs slots (histories_in w) }
{}

/// The possible steps are local steps of ranks that are enabled, and possible under the window; none is listed twice; and under the
/// widest window they are all that are enabled, strays or none.
pub fn possible_steps_of_worlds()
    ensures possible { (w : WorldState) (slots : ℕ → Slots) (step : Step) → IsStanding w → AreSlots w slots → In step (steps_in w slots) →
        ((r : ℕ) × ((e : Local) × ((named r e ≡ step) × (r < (ranks_in w slots).count) ×
        IsEnabled (ranks_in w slots) (scene_in w).world (scene_in w).held r e ×
        IsPossible (ranks_in w slots) (scene_in w).world (scene_in w).held w.window r e))) }
    ensures once { (w : WorldState) (slots : ℕ → Slots) → IsStanding w → AreSlots w slots → Distinct (steps_in w slots) }
    ensures widest { (w : WorldState) (slots : ℕ → Slots) → IsStanding w → AreSlots w slots → w.window ≡ u64.MAX →
        steps_in w slots ≡ enabled_steps (ranks_in w slots) (scene_in w) }
{}

/// From the first scene, under the widest window, the run of a chooser that answers with words, each modulo the number of possible
/// steps, is the chosen run of the words, once no step is possible.
pub fn runs_by_words<C>()
    ensures { (w : WorldState) (slots : ℕ → Slots) (words : ℕ → ℕ) (chooser : ℕ → C) (answer : C → ℕ → ℕ) (after : C → ℕ → C)
        (n : ℕ) (last : Scene) (then : C) →
        IsStanding w → AreSlots w slots → w.window ≡ u64.MAX →
        ((i m : ℕ) → answer (chooser i) m ≡ words i % m) → ((i m : ℕ) → after (chooser i) m ≡ chooser (suc i)) →
        chosen_run (ranks_in w slots) w.window answer after n (record { scene = first_scene; chooser = chooser 0 }) ≡
        record { scene = last; chooser = then } → possible_steps (ranks_in w slots) w.window last ≡ [] →
        IsChosen (ranks_in w slots) words last.world }
{}
