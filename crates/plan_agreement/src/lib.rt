//! Whether the results of a plan are what its shape means, for all inputs.
#![tactic(auto)]

ghost use Rattle.std.specs.Prelude.{◌≡◌, None, All, map};
ghost use Rattle.number_lists.specs.Numbers.{from_to};
ghost use Rattle.coll_shape.specs.Outline.{Outline, buffer_at, list_bytes};
ghost use Rattle.coll_shape.specs.WellFormed.{IsWellFormed};
ghost use Rattle.plan_core.specs.Plan.{Plan};
ghost use Rattle.plan_judge.specs.Causes.{judged};
ghost use Rattle.schedule_compiler.specs.shapes.Drawing.{plan_of};
ghost use Rattle.schedule_compiler.specs.shapes.Footprint.{refusal};
ghost use Rattle.given_lines.specs.declared.given.Mark.{Mark};
ghost use Rattle.plan_agreement.specs.Agreement.{IsAlwaysMeant, IsMeantIfThere, IsPlanFor};
ghost use Rattle.plan_agreement.specs.Bare.{IsBare, IsNamed};
ghost use Rattle.plan_agreement.specs.Witness.{number_units};

mod agreement;
mod comparing;
mod cut_places;
mod exact;
mod numbers;
mod sources;
mod witness;

pub use agreement::{Agreement, NUMBER_UNITS, agree};
pub use numbers::numbered;

/// The plan of a shape that isn't refused is one for the shape.
pub fn own_plans_fit()
    ensures { (o : Outline) → IsWellFormed o → refusal o ≡ None → IsPlanFor (plan_of o) o }
{}

/// A plan in which no flaw was found for the lengths of a shape's inputs is one for the shape, if it has its ranks.
pub fn judged_plans_fit()
    ensures { (p : Plan) (o : Outline) → p.ranks ≡ o.ranks →
        judged p (map (λ b. list_bytes (buffer_at o b)) (from_to 0 o.inputs)) ≡ None → IsPlanFor p o }
{}

/// Where nothing is combined, neither in a plan nor in the shape's own, a result that is meant for the inputs of numbered bytes always is.
pub fn numbers_tell()
    ensures { (p : Plan) (o : Outline) (m : Mark) → IsWellFormed o → IsBare p → IsBare (plan_of o) → IsNamed p o m →
        All (IsMeantIfThere p o m) number_units → IsAlwaysMeant p o m }
{}
