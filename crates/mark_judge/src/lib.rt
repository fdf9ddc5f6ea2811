//! Whether the lines after the links of a given plan are those that a description asks for: where done counters stand, the cells of
//! results, and the cells where barriers are entered and left, which must hold them back; else the first line at fault.
#![tactic(auto)]

ghost use Rattle.std.specs.Prelude.{ℕ, List, ◌≡◌, ◌↔◌, None, true};
ghost use Rattle.coll_shape.specs.Outline.{Outline};
ghost use Rattle.given_lines.specs.declared.given.Mark.{Mark};
ghost use Rattle.mark_judge.specs.Bound.{IsBound, is_bound};
ghost use Rattle.mark_judge.specs.Judged.{marks_judged};
ghost use Rattle.mark_judge.specs.Marked.{AreMarked};
ghost use Rattle.plan_core.specs.Plan.{Plan};
ghost use Rattle.plan_core.specs.Sound.{SoundPlan};

mod asked;
mod barriers;
mod bound;
mod done;
mod entries;
mod entry_bits;
mod flaw;
mod judging;
mod lines;
mod masks;
mod missing;
mod named;
mod reaching;
mod roots;

pub use flaw::{Due, MarkFlaw, line_of};
pub use judging::judge_marks;
pub use named::all_false;

/// The lines after the links of a sound plan have no flaw exactly where they are those that the description asks for.
pub fn no_mark_flaw()
    ensures { (p : Plan) (o : Outline) (done : List ℕ) (marks : List Mark) → SoundPlan p o.inputs →
        (marks_judged p o done marks ≡ None ↔ AreMarked p o done marks) }
{}

/// In a sound plan the test by which entries are judged tells exactly the cells that can't be reached before their own rank's start.
pub fn bound_cells_are_told()
    ensures { (p : Plan) (inputs c : ℕ) → SoundPlan p inputs → (is_bound p c ≡ true ↔ IsBound p c) }
{}
