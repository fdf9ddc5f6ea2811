//! The order of steps in the plans of shapes: at each rank one step is ended before the next begins.

ghost use Rattle.std.specs.Prelude.{ℕ, ◌<◌, ◌≡◌, length};
ghost use Rattle.cuts.specs.machine.Machine.{Leads};
ghost use Rattle.coll_shape.specs.Outline.{Outline};
ghost use Rattle.coll_shape.specs.WellFormed.{IsWellFormed};
ghost use Rattle.schedule_compiler.specs.shapes.Drawing.{plan_of};
ghost use Rattle.job_laws.specs.steps.Order.{IsAt, entry_cell, exit_cell};

/// In the plan of a shape a chain of links leads at each rank from its go cell to its entry of each step of which it is a member, from
/// there to its exit of that step, and from that exit to its entry of each later step of which it is a member.
pub fn steps_in_order()
    ensures entries { (o : Outline) → IsWellFormed o → (k i r : ℕ) → IsAt o k i r → entry_cell o k i < length (plan_of o).cells }
    ensures exits { (o : Outline) → IsWellFormed o → (k i r : ℕ) → IsAt o k i r → exit_cell o k i < length (plan_of o).cells }
    ensures begins { (o : Outline) → IsWellFormed o → (k i r : ℕ) → IsAt o k i r → Leads (plan_of o) r (entry_cell o k i) }
    ensures through { (o : Outline) → IsWellFormed o → (k i r : ℕ) → IsAt o k i r → Leads (plan_of o) (entry_cell o k i) (exit_cell o k i) }
    ensures next { (o : Outline) → IsWellFormed o → (j k i m r : ℕ) → j < k → IsAt o j i r → IsAt o k m r →
        Leads (plan_of o) (exit_cell o j i) (entry_cell o k m) }
{}

/// The plan of a shape asks for acknowledgements, and counts them, exactly where the shape does.
pub fn acknowledgements_are_asked()
    ensures { (o : Outline) → (plan_of o).remote ≡ o.remote }
{}
