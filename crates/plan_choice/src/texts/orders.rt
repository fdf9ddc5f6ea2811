//! The runs that words choose of a choice text: each ends, and the slots that tables of handles give out have no part in it.

ghost use Rattle.std.specs.Prelude.{ℕ, ◌≡◌, ◌<◌, List, map};
ghost use Rattle.coll_lang.specs.declared.choices.ChoiceKind.{ChoiceKind};
ghost use Rattle.cuts.specs.histories.System.{Histories, state_at};
ghost use Rattle.cuts.specs.orders.Chosen.{IsChosen};
ghost use Rattle.cuts.specs.orders.Taking.{listed};
ghost use Rattle.plan_choice.specs.texts.view.Install.{Slots};
ghost use Rattle.plan_choice.specs.texts.laws.Decided.{IsInRange, choice_system, result_of};

/// Words choose one run of a choice text, whatever slots the tables of its interfaces gave out: the local steps of each rank are the
/// same, and so is its memory, byte for byte, the results of the steps among it.
pub fn words_choose_one_run()
    ensures steps { (ranks : ℕ) (choices : List ChoiceKind) (slots others : ℕ → Slots) (words : ℕ → ℕ) (one other : Histories) →
        IsInRange ranks choices →
        IsChosen (choice_system ranks choices slots) words one → IsChosen (choice_system ranks choices others) words other →
        (r : ℕ) → r < ranks → map listed (one r) ≡ map listed (other r) }
    ensures memory { (ranks : ℕ) (choices : List ChoiceKind) (slots others : ℕ → Slots) (words : ℕ → ℕ) (one other : Histories) →
        IsInRange ranks choices →
        IsChosen (choice_system ranks choices slots) words one → IsChosen (choice_system ranks choices others) words other →
        (r : ℕ) → r < ranks →
        (state_at (choice_system ranks choices slots) one r).memory ≡ (state_at (choice_system ranks choices others) other r).memory }
    ensures results { (ranks : ℕ) (choices : List ChoiceKind) (slots others : ℕ → Slots) (words : ℕ → ℕ) (one other : Histories) →
        IsInRange ranks choices →
        IsChosen (choice_system ranks choices slots) words one → IsChosen (choice_system ranks choices others) words other →
        (s r : ℕ) → r < ranks →
        result_of s (state_at (choice_system ranks choices slots) one r) ≡
        result_of s (state_at (choice_system ranks choices others) other r) }
{}

/// The run that words choose of a choice text ends, whatever the words are.
pub fn chosen_runs_end()
    ensures { (ranks : ℕ) (choices : List ChoiceKind) (slots : ℕ → Slots) (words : ℕ → ℕ) → IsInRange ranks choices →
        ((world : Histories) × IsChosen (choice_system ranks choices slots) words world) }
{}
