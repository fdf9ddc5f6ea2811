//! Where plans and shapes meet: laws of the cuts of compiled shapes. At rest each buffer at each rank is what the description means, and
//! so it is at a rank that is done; the steps of a rank follow each other, and barriers are kept.
#![tactic(auto)]

pub mod interleavings;
pub mod steps;

ghost use Rattle.std.specs.Prelude.{ℕ, List, None, ◌<◌, ◌≡◌};
ghost use Rattle.plan_core.specs.Values.{Inputs};
ghost use Rattle.cuts.specs.view.Slots.{Slots};
ghost use Rattle.cuts.specs.histories.Cut.{IsAtRest, IsCut};
ghost use Rattle.cuts.specs.histories.Plans.{IsComplete, system_of};
ghost use Rattle.cuts.specs.histories.System.{Histories, state_at};
ghost use Rattle.coll_shape.specs.Meaning.{AreInputs};
ghost use Rattle.coll_shape.specs.Outline.{Outline};
ghost use Rattle.coll_shape.specs.WellFormed.{IsWellFormed};
ghost use Rattle.schedule_compiler.specs.shapes.Drawing.{plan_of};
ghost use Rattle.schedule_compiler.specs.shapes.Footprint.{refusal};
ghost use Rattle.cuts.specs.done.Done.{IsDone};
ghost use Rattle.cuts.specs.cells.Cells.{AreCellsInOrder, AreValues, AreValuesAt};
ghost use Rattle.job_laws.specs.Barriers.{AreBarriersKept, AreStepsInOrder};
ghost use Rattle.job_laws.specs.Results.{AreMeant, AreMeantAt};

/// For every shape that isn't refused, whatever its inputs and whatever the order of steps: at rest each rank is complete, and in the
/// ranks' memories each buffer is what the shape means of the inputs.
pub fn rest_is_meant()
    ensures complete { (o : Outline) (inputs : Inputs) (slots : ℕ → Slots) (world : Histories) →
        IsWellFormed o → refusal o ≡ None → AreInputs o inputs →
        IsCut (system_of (plan_of o) inputs slots) world → IsAtRest (system_of (plan_of o) inputs slots) world →
        (r : ℕ) → r < o.ranks → IsComplete (plan_of o) inputs slots world r }
    ensures meant { (o : Outline) (inputs : Inputs) (slots : ℕ → Slots) (world : Histories) →
        IsWellFormed o → refusal o ≡ None → AreInputs o inputs →
        IsCut (system_of (plan_of o) inputs slots) world → IsAtRest (system_of (plan_of o) inputs slots) world →
        AreMeant o inputs (λ r. (state_at (system_of (plan_of o) inputs slots) world r).memory) }
{}

/// In every cut of the ranks of a shape that isn't refused, where a rank's done counter has reached its threshold each buffer at that
/// rank is what the shape means of the inputs, in the rank's memory, whatever the other ranks have still to do.
pub fn done_is_meant()
    ensures { (o : Outline) (inputs : Inputs) (slots : ℕ → Slots) (world : Histories) →
        IsWellFormed o → refusal o ≡ None → AreInputs o inputs →
        IsCut (system_of (plan_of o) inputs slots) world → (r : ℕ) → r < o.ranks → IsDone (plan_of o) inputs slots world r →
        AreMeantAt o inputs r (state_at (system_of (plan_of o) inputs slots) world r).memory }
{}

/// In every cut of the ranks of a shape that isn't refused the steps of each rank follow each other.
pub fn steps_are_in_order()
    ensures { (o : Outline) (inputs : Inputs) (slots : ℕ → Slots) (world : Histories) →
        IsWellFormed o → refusal o ≡ None → AreInputs o inputs →
        IsCut (system_of (plan_of o) inputs slots) world → AreStepsInOrder o inputs slots world }
{}

/// In every cut of the ranks of a shape that isn't refused each barrier is kept, and what comes after it comes after it.
pub fn barriers_are_kept()
    ensures { (o : Outline) (inputs : Inputs) (slots : ℕ → Slots) (world : Histories) →
        IsWellFormed o → refusal o ≡ None → AreInputs o inputs →
        IsCut (system_of (plan_of o) inputs slots) world → AreBarriersKept o inputs slots world }
{}

/// In memories in which each cell of the plan of a shape holds its value each buffer is what the shape means of the inputs: at all ranks,
/// and at one.
pub fn values_are_meant()
    ensures all { (o : Outline) (inputs : Inputs) (memory : ℕ → List ℕ) → IsWellFormed o → AreInputs o inputs →
        AreValues (plan_of o) inputs memory → AreMeant o inputs memory }
    ensures at_rank { (o : Outline) (inputs : Inputs) (r : ℕ) (memory : List ℕ) → IsWellFormed o → AreInputs o inputs → r < o.ranks →
        AreValuesAt (plan_of o) inputs r memory → AreMeantAt o inputs r memory }
{}

/// Where the cells of the plan of a shape that isn't refused are reached after those that lead to them, the steps of each rank follow each
/// other, and each barrier is kept.
pub fn order_is_kept()
    ensures steps { (o : Outline) (inputs : Inputs) (slots : ℕ → Slots) (world : Histories) →
        IsWellFormed o → refusal o ≡ None →
        AreCellsInOrder (plan_of o) inputs slots world → AreStepsInOrder o inputs slots world }
    ensures barriers { (o : Outline) (inputs : Inputs) (slots : ℕ → Slots) (world : Histories) →
        IsWellFormed o → refusal o ≡ None →
        AreCellsInOrder (plan_of o) inputs slots world → AreBarriersKept o inputs slots world }
{}
