//! Laws of the cells of a plan in the cuts of its ranks: at rest, and at a rank that is done, each cell holds its value in the rank's
//! memory; a cell is reached after those that lead to it, so each dissemination is a barrier that is kept.

ghost use Rattle.std.specs.Prelude.{ℕ, ◌<◌, ◌≤◌, ◌+◌, ◌≡◌, length};
ghost use Rattle.plan_core.specs.Plan.{Plan, cell};
ghost use Rattle.plan_core.specs.Sound.{AreInputsOf, SoundPlan};
ghost use Rattle.plan_core.specs.Values.{Inputs};
ghost use Rattle.plan_core.specs.calls.Calls.{cell_start};
ghost use Rattle.cuts.specs.view.Slots.{Slots};
ghost use Rattle.cuts.specs.histories.Cut.{IsAtRest, IsCut};
ghost use Rattle.cuts.specs.histories.Plans.{IsComplete, system_of};
ghost use Rattle.cuts.specs.histories.System.{Histories, state_at};
ghost use Rattle.cuts.specs.done.Done.{IsDone};
ghost use Rattle.cuts.specs.cells.Cells.{AreCellsInOrder, AreRoundsKept, AreValues, AreValuesAt};

/// Whatever the inputs of a sound plan and the order of steps: at rest each cell holds its value, in its rank's memory, and so do the
/// cells of a rank that is complete, and of one whose done counter has reached its threshold, whatever the others have still to do.
pub fn cells_hold_values()
    ensures rest { (plan : Plan) (inputs : Inputs) (slots : ℕ → Slots) (world : Histories) →
        SoundPlan plan (length inputs) → AreInputsOf plan inputs →
        IsCut (system_of plan inputs slots) world → IsAtRest (system_of plan inputs slots) world →
        AreValues plan inputs (λ r. (state_at (system_of plan inputs slots) world r).memory) }
    ensures complete { (plan : Plan) (inputs : Inputs) (slots : ℕ → Slots) (world : Histories) (r : ℕ) →
        IsComplete plan inputs slots world r →
        AreValuesAt plan inputs r (state_at (system_of plan inputs slots) world r).memory }
    ensures done { (plan : Plan) (inputs : Inputs) (slots : ℕ → Slots) (world : Histories) →
        SoundPlan plan (length inputs) → AreInputsOf plan inputs →
        IsCut (system_of plan inputs slots) world → (r : ℕ) → r < plan.ranks → IsDone plan inputs slots world r →
        AreValuesAt plan inputs r (state_at (system_of plan inputs slots) world r).memory }
{}

/// In every cut of the ranks of a sound plan a cell that has reached its needs is one after which all come from which links lead to
/// it; so each dissemination is kept.
pub fn cells_in_order()
    ensures order { (plan : Plan) (inputs : Inputs) (slots : ℕ → Slots) (world : Histories) →
        SoundPlan plan (length inputs) → AreInputsOf plan inputs →
        IsCut (system_of plan inputs slots) world → AreCellsInOrder plan inputs slots world }
    ensures rounds { (plan : Plan) (inputs : Inputs) (slots : ℕ → Slots) (world : Histories) →
        AreCellsInOrder plan inputs slots world → AreRoundsKept plan inputs slots world }
{}

/// In every cut each cell lies in its rank's memory.
pub fn cells_lie()
    ensures { (plan : Plan) (inputs : Inputs) (slots : ℕ → Slots) (world : Histories) →
        SoundPlan plan (length inputs) → AreInputsOf plan inputs →
        IsCut (system_of plan inputs slots) world → (c : ℕ) → c < length plan.cells →
        cell_start plan c + (cell plan c).length ≤ length (state_at (system_of plan inputs slots) world (cell plan c).rank).memory }
{}
