//! What holds of every choice world, whatever was done with it.

ghost use Rattle.std.specs.Prelude.{ℕ, suc, ◌≡◌, ◌%◌, []};
ghost use Rattle.ptl_types.specs.Handles.{top};
ghost use Rattle.cuts.specs.orders.Chosen.{IsChosen, Scene, enabled_steps, first_scene};
ghost use Rattle.worlds.specs.Runs.{chosen_run};
ghost use Rattle.plan_choice.specs.World.{ChoiceState, IsStanding, ranks_in};

/// From the first scene the run of a chooser that answers with words, each modulo the number of enabled steps, is the chosen run of
/// the words, once no step is enabled.
pub fn choices_by_words<C>()
    ensures { (w : ChoiceState) (words : ℕ → ℕ) (chooser : ℕ → C) (answer : C → ℕ → ℕ) (after : C → ℕ → C)
        (n : ℕ) (last : Scene) (then : C) → IsStanding w →
        ((i m : ℕ) → answer (chooser i) m ≡ words i % m) → ((i m : ℕ) → after (chooser i) m ≡ chooser (suc i)) →
        chosen_run (ranks_in w) top answer after n (record { scene = first_scene; chooser = chooser 0 }) ≡
        record { scene = last; chooser = then } → enabled_steps (ranks_in w) last ≡ [] →
        IsChosen (ranks_in w) words last.world }
{}
