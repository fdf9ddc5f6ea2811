//! What a verdict on a given plan tells its user. A plan in which nothing is at fault meets the conditions under which all ranks run to
//! their end, its barriers are kept, and its results are the values of their cells; where these are what the description means, the plan
//! is right in every cut and at the end of every interleaving. And the job of such a plan.
#![tactic(auto)]

ghost use Rattle.std.specs.Prelude.{ℕ, List, Some, ◌≡◌, ◌<◌, ◌^◌, get_or, length};
ghost use Rattle.ni_model.specs.Counts.{successes};
ghost use Rattle.ni_model.specs.Tables.{lookup};
ghost use Rattle.coll_shape.specs.Meaning.{AreInputs};
ghost use Rattle.coll_shape.specs.Outline.{Outline};
ghost use Rattle.given_lines.specs.declared.given.Mark.{Mark};
ghost use Rattle.given_lines.specs.Given.{Given};
ghost use Rattle.given_verdicts.specs.Answers.{answer_of};
ghost use Rattle.given_verdicts.specs.declared.answer.GivenAnswer.TheVariants.{Holds};
ghost use Rattle.given_verdicts.specs.general.General.{IsGeneralAnswer};
ghost use Rattle.plan_core.specs.Draw.{HeldCells};
ghost use Rattle.plan_core.specs.Plan.{Plan};
ghost use Rattle.plan_core.specs.Sound.{AreInputsOf, SoundPlan};
ghost use Rattle.plan_core.specs.Values.{Inputs};
ghost use Rattle.plan_judge.specs.Guards.{AreGuarded};
ghost use Rattle.schedule_compiler.specs.Keeping.{CanRun};
ghost use Rattle.schedule_compiler.specs.Schedules.{scheduled};
ghost use Rattle.cuts.specs.histories.Cut.{IsCut};
ghost use Rattle.cuts.specs.histories.Moment.{Lanes};
ghost use Rattle.cuts.specs.histories.Plans.{IsComplete, system_of};
ghost use Rattle.cuts.specs.histories.System.{Histories, state_at};
ghost use Rattle.cuts.specs.interleavings.Interleaving.{IsReachedIn, IsStillButStrays};
ghost use Rattle.cuts.specs.view.Slots.{Slots, done_ct};
ghost use Rattle.verdict_laws.specs.Flawless.{AreEntriesBegun, AreNamedBarriersKept, AreNamedMeant, AreNamedResults, AreResultsIn};
ghost use Rattle.verdict_laws.specs.Flawless.{IsFlawless};
ghost use Rattle.verdict_laws.specs.Right.{IsRightFor};
ghost use Rattle.verdict_laws.specs.Verdicts.{IsRightForAll, IsRightGiven};

pub mod drawn;
pub mod jobs;

use coll_lang::reads_exactly;
use cuts::cells::{cells_hold_values, cells_in_order};
use cuts::done::{done_ranks, released_ranks};
use cuts::interleavings::{interleavings_end, strays_change_no_end};

/// A plan in which nothing is at fault, for a description, meets the conditions of all that is proved of plans: it is sound for as many
/// inputs as the description has, all inputs of the description's shape are inputs of it, each of their cells is reached after its
/// rank's start, and with so few links as are read it can run, with the cells that its lines name as those of its results.
pub fn flawless_plans_can_run()
    ensures sound { (p : Plan) (o : Outline) (said : List ℕ) (marks : List Mark) → IsFlawless p o said marks → SoundPlan p o.inputs }
    ensures inputs { (p : Plan) (o : Outline) (said : List ℕ) (marks : List Mark) (inputs : Inputs) →
        IsFlawless p o said marks → AreInputs o inputs → AreInputsOf p inputs }
    ensures guarded { (p : Plan) (o : Outline) (said : List ℕ) (marks : List Mark) → IsFlawless p o said marks → AreGuarded p o.inputs }
    ensures can_run { (p : Plan) (o : Outline) (said : List ℕ) (marks : List Mark) (held : HeldCells) →
        IsFlawless p o said marks → length p.links < 2 ^ 26 → AreNamedResults p marks held → CanRun (scheduled p held o.inputs) }
{}

/// Of a plan in which nothing is at fault, for all inputs of the description's shape: in every cut, whatever the order of steps, each
/// barrier is kept, and entered by no rank before its start. And at the end of every interleaving of starts, deliveries and firings, with
/// any messages of other jobs among them, once every rank has started, no operation is ready and nothing but such messages is left: every
/// rank is complete, its done counter stands where the text says, and the cell of each result holds its value.
pub fn flawless_plans_end()
    ensures barriers { (p : Plan) (o : Outline) (said : List ℕ) (marks : List Mark) (inputs : Inputs) (slots : ℕ → Slots)
        (world : Histories) → IsFlawless p o said marks → AreInputs o inputs → IsCut (system_of p inputs slots) world →
        AreNamedBarriersKept p marks inputs slots world }
    ensures entries { (p : Plan) (o : Outline) (said : List ℕ) (marks : List Mark) (inputs : Inputs) (slots : ℕ → Slots)
        (world : Histories) → IsFlawless p o said marks → AreInputs o inputs → IsCut (system_of p inputs slots) world →
        AreEntriesBegun p marks inputs slots world }
    ensures complete { (p : Plan) (o : Outline) (said : List ℕ) (marks : List Mark) (inputs : Inputs) (slots : ℕ → Slots)
        (steps strays : ℕ) (world : Histories) (held : Lanes) → IsFlawless p o said marks → AreInputs o inputs →
        IsReachedIn (system_of p inputs slots) steps strays world held → IsStillButStrays (system_of p inputs slots) world held →
        (r : ℕ) → r < p.ranks → IsComplete p inputs slots world r }
    ensures done { (p : Plan) (o : Outline) (said : List ℕ) (marks : List Mark) (inputs : Inputs) (slots : ℕ → Slots)
        (steps strays : ℕ) (world : Histories) (held : Lanes) → IsFlawless p o said marks → AreInputs o inputs →
        IsReachedIn (system_of p inputs slots) steps strays world held → IsStillButStrays (system_of p inputs slots) world held →
        (r : ℕ) → r < p.ranks →
        lookup (done_ct (slots r)) (state_at (system_of p inputs slots) world r).cts.live ≡ Some (successes (get_or said r 0)) }
    ensures results { (p : Plan) (o : Outline) (said : List ℕ) (marks : List Mark) (inputs : Inputs) (slots : ℕ → Slots)
        (steps strays : ℕ) (world : Histories) (held : Lanes) → IsFlawless p o said marks → AreInputs o inputs →
        IsReachedIn (system_of p inputs slots) steps strays world held → IsStillButStrays (system_of p inputs slots) world held →
        AreResultsIn p marks inputs (λ r. (state_at (system_of p inputs slots) world r).memory) }
{
    strays_change_no_end();
    cells_hold_values();
    cells_in_order();
}

/// A plan in which nothing is at fault, for a description, and whose results are what the description means of these inputs, is right for
/// them: all that its user may rely on holds, in every cut and at the end of every interleaving.
pub fn flawless_plans_are_right()
    ensures { (o : Outline) (g : Given) (inputs : Inputs) → IsFlawless g.plan o g.done g.marks → AreInputs o inputs →
        AreNamedMeant o g inputs → IsRightFor o g inputs }
{
    flawless_plans_can_run();
    flawless_plans_end();
    interleavings_end();
    cells_hold_values();
    cells_in_order();
    done_ranks();
    released_ranks();
}

/// The answer that a plan holds, for the inputs of its description, tells that it is right for them: the text is that of a description
/// and of a plan for it, which can run, and all that the plan's user may rely on holds of it with these inputs.
pub fn given_verdicts_are_right()
    ensures { (bytes : List ℕ) → answer_of bytes ≡ Holds → IsRightGiven bytes }
{
    reads_exactly();
    flawless_plans_are_right();
}

/// The answer that a plan holds, for all inputs of its description's shape, tells that it is right for each of them: the text is that of a
/// description and of a plan for it, which can run, and all that the plan's user may rely on holds of it whatever the inputs.
pub fn general_verdicts_are_right()
    ensures { (bytes : List ℕ) → IsGeneralAnswer bytes Holds → IsRightForAll bytes }
{
    reads_exactly();
    flawless_plans_are_right();
}
