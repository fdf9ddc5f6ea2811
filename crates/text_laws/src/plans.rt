//! The text that is written of a plan is read as the plan.

ghost use Rattle.std.specs.Prelude.{ℕ, ◌≡◌, List, [], Ok, map};
ghost use Rattle.number_lists.specs.Numbers.{from_to};
ghost use Rattle.coll_text.specs.Text.{lines};
ghost use Rattle.coll_shape.specs.declared.types.Buffer.{Buffer};
ghost use Rattle.plan_core.specs.Plan.{Plan};
ghost use Rattle.plan_core.specs.calls.RankOps.{done_threshold};
ghost use Rattle.run_text.specs.Plans.{plan_text};
ghost use Rattle.given_lines.specs.Given.{given, read_given};
ghost use Rattle.text_laws.specs.Written.{CanBeWritten};

/// The text that is written of a plan is read as the plan and the thresholds of its done counters, without named cells, whatever the
/// number of its first line is. Its numbers are those that words can have, and its cells and links are as many as are read.
pub fn plans_are_read_back()
    ensures { (p : Plan) (least first : ℕ) (buffers : List Buffer) → CanBeWritten least p →
        read_given p.ranks least buffers first (lines (plan_text p)) ≡
        Ok (given p.ranks p.remote p.cells p.links (map (done_threshold p) (from_to 0 p.ranks)) []) }
{}
