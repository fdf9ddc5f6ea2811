//! What ranks write that end each by itself, one a process: together it is the result of what they ran.

ghost use Rattle.std.specs.Prelude.{ℕ, List, ◌≡◌, ◌++◌, length};
ghost use Rattle.coll_lang.specs.Program.{Program};
ghost use Rattle.cuts.specs.cells.Cells.{AreValues};
ghost use Rattle.cuts.specs.histories.Cut.{IsAtRest, IsCut};
ghost use Rattle.cuts.specs.histories.Plans.{system_of};
ghost use Rattle.cuts.specs.histories.System.{Histories, state_at};
ghost use Rattle.cuts.specs.view.Slots.{Slots};
ghost use Rattle.job_laws.specs.Results.{AreMeant};
ghost use Rattle.plan_core.specs.Plan.{Plan};
ghost use Rattle.plan_core.specs.Sound.{AreInputsOf, SoundPlan};
ghost use Rattle.plan_core.specs.Values.{Inputs};
ghost use Rattle.run_text.specs.Lines.{rest_line, result_text};
ghost use Rattle.schedule_compiler.specs.shapes.Drawing.{plan_of};
ghost use Rattle.given_verdicts.specs.declared.answer.FlawlessText.{FlawlessText};
ghost use Rattle.rank_process.specs.laws.Ended.{AreCarried, HaveEnded, gathered, results_text};
ghost use Rattle.rank_process.specs.lines.Rank.{IsDescribed, IsGiven, given_work, own_work};

use coll_lang::reads_exactly;

/// Where each rank of a sound plan has ended by what it sees of itself, and what came to it on each lane is a beginning of what was sent
/// there, their histories are a cut at rest, and each cell holds its value. So ranks need no agreement on when to end.
pub fn ended_ranks_are_at_rest()
    ensures cut { (p : Plan) (inputs : Inputs) (slots : ℕ → Slots) (world : Histories) →
        HaveEnded p inputs slots world → AreCarried p inputs slots world → IsCut (system_of p inputs slots) world }
    ensures rest { (p : Plan) (inputs : Inputs) (slots : ℕ → Slots) (world : Histories) → SoundPlan p (length inputs) →
        AreInputsOf p inputs → HaveEnded p inputs slots world → AreCarried p inputs slots world →
        IsAtRest (system_of p inputs slots) world }
    ensures values { (p : Plan) (inputs : Inputs) (slots : ℕ → Slots) (world : Histories) → SoundPlan p (length inputs) →
        AreInputsOf p inputs → HaveEnded p inputs slots world → AreCarried p inputs slots world →
        AreValues p inputs (λ r. (state_at (system_of p inputs slots) world r).memory) }
{}

/// Of the ranks of a description that have ended so the buffers are what the description means, and the lines that they wrote, gathered
/// buffer by buffer and rank by rank, with the line that follows the last, are the description's result.
pub fn ended_ranks_write_the_result()
    ensures meant { (text : List ℕ) (d : Program) (slots : ℕ → Slots) (world : Histories) → IsDescribed text d →
        HaveEnded (plan_of d.shape) d.inputs slots world → AreCarried (plan_of d.shape) d.inputs slots world →
        AreMeant d.shape d.inputs (λ r. (state_at (system_of (plan_of d.shape) d.inputs slots) world r).memory) }
    ensures lines { (text : List ℕ) (d : Program) (slots : ℕ → Slots) (world : Histories) → IsDescribed text d →
        HaveEnded (plan_of d.shape) d.inputs slots world → AreCarried (plan_of d.shape) d.inputs slots world →
        gathered (own_work d) slots world ++ rest_line ≡ result_text d.shape d.inputs }
{}

/// Of the ranks of a plan that was given for a description, and in which no flaw is, that have ended so the lines, gathered so, are what
/// the cells hold that the plan's lines name: the values that the plan and the inputs determine.
pub fn ended_ranks_write_what_a_plan_holds()
    ensures { (text : List ℕ) (t : FlawlessText) (slots : ℕ → Slots) (world : Histories) → IsGiven text t →
        HaveEnded t.given.plan t.description.inputs slots world → AreCarried t.given.plan t.description.inputs slots world →
        gathered (given_work t) slots world ++ rest_line ≡ results_text (given_work t) }
{
    reads_exactly();
}
