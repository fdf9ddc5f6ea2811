//! What holds of each two runs of one description.

ghost use Rattle.std.specs.Prelude.{ℕ, ◌≡◌, ◌++◌, List, Some};
ghost use Rattle.coll_lang.specs.Program.{Chosen, Program};
ghost use Rattle.plan_choice.specs.texts.view.Install.{Slots as ChoiceSlots};
ghost use Rattle.cuts.specs.view.Slots.{Slots};
ghost use Rattle.cuts.specs.histories.System.{Histories};
ghost use Rattle.cuts.specs.orders.Chosen.{IsChosen};
ghost use Rattle.run_text.specs.Lines.{result_text};
ghost use Rattle.portals_top.specs.declared.ran.Ran.{Ran};
ghost use Rattle.portals_top.specs.Answered.{RunLeaves};
ghost use Rattle.portals_top.specs.Due.{due};
ghost use Rattle.portals_top.specs.Headline.{ranks_of};
ghost use Rattle.portals_top.specs.OneText.{IsChoosing, IsPlanned, choosers_of, run_orders, run_values, sim_task};
ghost use Rattle.job_runs.specs.Runs.{word};

/// What `sim X` writes of any bytes is a function of the words and the bytes, whatever world the call leaves.
pub fn sim_owes_one_text_of_any_bytes()
    ensures { (bytes : List ℕ) (seed : ℕ) (one other : Ran) →
        RunLeaves (Some (sim_task seed)) bytes one → RunLeaves (Some (sim_task seed)) bytes other →
        (due (Some (sim_task seed)) bytes one).text ≡ (due (Some (sim_task seed)) bytes other).text }
{}

/// What `sim X` writes of a choice text is a function of the words and the bytes, whatever slots the tables of the interfaces give out.
/// There is a run that the seed's words choose; the text that is owed is the results and the orders of any such run, which no world has
/// a part in; and so two calls that leave choice worlds of the same bytes owe the same text.
pub fn sim_owes_one_choice_text()
    ensures some { (bytes : List ℕ) (d : Program) (c : Chosen) (slots : ℕ → ChoiceSlots) (seed : ℕ) → IsChoosing bytes d c →
        ((run : Histories) × IsChosen (choosers_of d c slots) (word seed) run) }
    ensures text { (bytes : List ℕ) (d : Program) (c : Chosen) (slots : ℕ → ChoiceSlots) (seed : ℕ) (run : Histories) (ran : Ran) →
        IsChoosing bytes d c → IsChosen (choosers_of d c slots) (word seed) run → RunLeaves (Some (sim_task seed)) bytes ran →
        (due (Some (sim_task seed)) bytes ran).text ≡ run_values d c slots run ++ run_orders d run }
    ensures same { (bytes : List ℕ) (d : Program) (c : Chosen) (seed : ℕ) (one other : Ran) → IsChoosing bytes d c →
        RunLeaves (Some (sim_task seed)) bytes one → RunLeaves (Some (sim_task seed)) bytes other →
        (due (Some (sim_task seed)) bytes one).text ≡ (due (Some (sim_task seed)) bytes other).text }
{}

/// What `sim X` writes of a description that isn't a choice text is a function of the words and the bytes, whatever slots the tables of the
/// interfaces give out. There is a run that the seed's words choose; the text that is owed is the results and the orders of any such run,
/// which no world has a part in; and so two calls that leave worlds of the same bytes owe the same text.
pub fn sim_owes_one_text()
    ensures some { (bytes : List ℕ) (d : Program) (slots : ℕ → Slots) (seed : ℕ) → IsPlanned bytes d →
        ((run : Histories) × IsChosen (ranks_of d slots) (word seed) run) }
    ensures text { (bytes : List ℕ) (d : Program) (slots : ℕ → Slots) (seed : ℕ) (run : Histories) (ran : Ran) → IsPlanned bytes d →
        IsChosen (ranks_of d slots) (word seed) run → RunLeaves (Some (sim_task seed)) bytes ran →
        (due (Some (sim_task seed)) bytes ran).text ≡ result_text d.shape d.inputs ++ run_orders d run }
    ensures same { (bytes : List ℕ) (d : Program) (seed : ℕ) (one other : Ran) → IsPlanned bytes d →
        RunLeaves (Some (sim_task seed)) bytes one → RunLeaves (Some (sim_task seed)) bytes other →
        (due (Some (sim_task seed)) bytes one).text ≡ (due (Some (sim_task seed)) bytes other).text }
{}
