//! Laws of the plans of shapes: such a plan is sound, its cells hold what the collectives mean, and a barrier's rounds are rounds.

ghost use Rattle.std.specs.Prelude.{ℕ, Some, None, [], ◌<◌, ◌≤◌, ◌≡◌, ◌↔◌, length};
ghost use Rattle.plan_core.specs.Draw.{held_cell};
ghost use Rattle.plan_core.specs.Rounds.{IsRounds};
ghost use Rattle.plan_core.specs.Sound.{AreInputsOf, SoundPlan};
ghost use Rattle.plan_core.specs.Values.{Inputs, value};
ghost use Rattle.coll_shape.specs.declared.types.CollStep.TheVariants.{Barrier};
ghost use Rattle.coll_shape.specs.Folding.{at};
ghost use Rattle.coll_shape.specs.Meaning.{AreInputs, lists_of, meaning_of};
ghost use Rattle.coll_shape.specs.Outline.{Outline, buffer_at, group_at, step_at};
ghost use Rattle.coll_shape.specs.WellFormed.{IsWellFormed};
ghost use Rattle.plan_steps.specs.StepContext.{entry, in_row};
ghost use Rattle.plan_steps.specs.Rounds.{rounds};
ghost use Rattle.plan_steps.specs.Collectives.{end_of};
ghost use Rattle.schedule_compiler.specs.shapes.Drawing.{drawing_of, drawn_upto, plan_of};
ghost use Rattle.plan_steps.specs.Drawing.{site};
ghost use Rattle.schedule_compiler.specs.shapes.Footprint.{refusal};
ghost use Rattle.schedule_compiler.specs.declared.shapes.judging.TheConstants.{MOST_LINKS};
ghost use Rattle.schedule_compiler.specs.shapes.Results.{IsResultCell};

/// The plan of a shape that isn't refused is sound, and has the shape's ranks.
pub fn plan_sound()
    ensures sound { (o : Outline) → IsWellFormed o → refusal o ≡ None → SoundPlan (plan_of o) o.inputs }
    ensures ranks { (o : Outline) → IsWellFormed o → (plan_of o).ranks ≡ o.ranks }
{}

/// The plan of a shape that isn't refused has no more links than the limit.
pub fn plan_within()
    ensures { (o : Outline) → IsWellFormed o → refusal o ≡ None → length (plan_of o).links ≤ MOST_LINKS }
{}

/// For all inputs, the value of the cell that holds a buffer at a rank is that buffer's list there. No cell holds it exactly
/// where the list is empty.
pub fn plan_values()
    ensures fit { (o : Outline) (inputs : Inputs) → IsWellFormed o → AreInputs o inputs → AreInputsOf (plan_of o) inputs }
    ensures values { (o : Outline) (inputs : Inputs) → IsWellFormed o → AreInputs o inputs →
        (b r c : ℕ) → b < length o.buffers → r < o.ranks → held_cell (drawing_of o).held b r ≡ Some c →
        value (plan_of o) inputs c ≡ at (lists_of (meaning_of o inputs) b) r }
    ensures empty { (o : Outline) (inputs : Inputs) → IsWellFormed o → AreInputs o inputs →
        (b r : ℕ) → b < length o.buffers → r < o.ranks →
        held_cell (drawing_of o).held b r ≡ None ↔ at (lists_of (meaning_of o inputs) b) r ≡ [] }
{}

/// A cell that holds a buffer at a rank lies on that rank, with the buffer's type and length.
pub fn result_cells()
    ensures { (o : Outline) → IsWellFormed o → (b r c : ℕ) → b < length o.buffers → r < o.ranks →
        held_cell (drawing_of o).held b r ≡ Some c → IsResultCell (plan_of o) (buffer_at o b) r c }
{}

/// The rows of a barrier are the rounds of a dissemination over the places of its group: the entries are round 0, and the exits
/// the last.
pub fn barrier_rounds()
    ensures rounds { (o : Outline) → IsWellFormed o → (k : ℕ) → k < length o.steps → step_at o k ≡ Barrier →
        IsRounds (plan_of o) (length (group_at o k)) (rounds (length (group_at o k)))
        (in_row (site o (drawn_upto o k) Barrier (group_at o k))) }
    ensures cells { (o : Outline) → IsWellFormed o → (k : ℕ) → k < length o.steps → step_at o k ≡ Barrier →
        (j i : ℕ) → j ≤ rounds (length (group_at o k)) → i < length (group_at o k) →
        in_row (site o (drawn_upto o k) Barrier (group_at o k)) j i < length (plan_of o).cells }
    ensures entries { (o : Outline) (k i : ℕ) →
        in_row (site o (drawn_upto o k) Barrier (group_at o k)) 0 i ≡ entry (site o (drawn_upto o k) Barrier (group_at o k)) i }
    ensures exits { (o : Outline) (k i : ℕ) →
        in_row (site o (drawn_upto o k) Barrier (group_at o k)) (rounds (length (group_at o k))) i ≡
        (end_of (site o (drawn_upto o k) Barrier (group_at o k)) Barrier i).exit }
{}
