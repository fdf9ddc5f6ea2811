//! Laws of the plans that are drawn with marks: their lines are those that the judge of given plans asks for. No code.

ghost use Rattle.std.specs.Prelude.{◌≡◌, None, map};
ghost use Rattle.coll_shape.specs.Outline.{Outline};
ghost use Rattle.coll_shape.specs.WellFormed.{IsWellFormed};
ghost use Rattle.mark_judge.specs.Marked.{AreMarked};
ghost use Rattle.marked_plans.specs.Marks.{marks_of};
ghost use Rattle.number_lists.specs.Numbers.{from_to};
ghost use Rattle.plan_core.specs.calls.RankOps.{done_threshold};
ghost use Rattle.schedule_compiler.specs.shapes.Drawing.{plan_of};
ghost use Rattle.schedule_compiler.specs.shapes.Footprint.{refusal};

use job_laws::steps::steps_in_order;

/// The lines of a shape's own plan are what its description asks for: there is one for each printed buffer and rank that holds a list and
/// for each member of a barrier where it enters and where it leaves, and none for another; each names a cell that fits; and from where a
/// member enters a barrier, which it can't before its start, links lead to where any member leaves it.
pub fn drawn_plans_are_marked()
    ensures { (o : Outline) → IsWellFormed o → refusal o ≡ None →
        AreMarked (plan_of o) o (map (done_threshold (plan_of o)) (from_to 0 (plan_of o).ranks)) (marks_of o) }
{
    steps_in_order();
}
