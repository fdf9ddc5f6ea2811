//! What holds of each world of the plan of a shape.

ghost use Rattle.std.specs.Prelude.{ℕ, List, ◌<◌};
ghost use Rattle.coll_shape.specs.Outline.{Outline};
ghost use Rattle.cuts.specs.view.Slots.{Slots};
ghost use Rattle.cuts.specs.cells.Cells.{AreValues, AreValuesAt};
ghost use Rattle.job_laws.specs.Barriers.{AreBarriersKept, AreStepsInOrder};
ghost use Rattle.job_laws.specs.Results.{AreMeant, AreMeantAt};
ghost use Rattle.worlds.specs.Standing.{IsStanding};
ghost use Rattle.worlds.specs.World.{AreSlots, WorldState, histories_in};
ghost use Rattle.portals_top.specs.Resting.{IsOfShape};

/// What the calls of worlds tell of a plan, told of the shape whose plan it is. Whatever was done with the world, the steps of each rank
/// follow each other, and each barrier is kept; and in memories in which the cells hold their values, of all ranks or of one, now or later,
/// each buffer is what the shape means of the inputs.
pub fn worlds_of_shapes()
    ensures steps { (o : Outline) (w : WorldState) (slots : ℕ → Slots) → IsOfShape o w → IsStanding w → AreSlots w slots →
        AreStepsInOrder o w.inputs slots (histories_in w) }
    ensures barriers { (o : Outline) (w : WorldState) (slots : ℕ → Slots) → IsOfShape o w → IsStanding w → AreSlots w slots →
        AreBarriersKept o w.inputs slots (histories_in w) }
    ensures meant { (o : Outline) (w : WorldState) (memory : ℕ → List ℕ) → IsOfShape o w →
        AreValues w.schedule.plan w.inputs memory → AreMeant o w.inputs memory }
    ensures meant_at_rank { (o : Outline) (w : WorldState) (r : ℕ) (memory : List ℕ) → IsOfShape o w → r < o.ranks →
        AreValuesAt w.schedule.plan w.inputs r memory → AreMeantAt o w.inputs r memory }
{}
