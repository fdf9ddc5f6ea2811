//! What each cell of a sound plan holds in the end, for given inputs. No counter, no message and no order of arrival occurs here: each
//! cell's bytes follow from those of the cells before it.

ghost use Rattle.std.specs.Prelude.{ℕ, List, ◌≡◌, None};
ghost use Rattle.plan_core.specs.Plan.{Plan};
ghost use Rattle.plan_core.specs.Values.{Inputs};
ghost use Rattle.plan_judge.specs.Causes.{judged};
ghost use Rattle.plan_judge.specs.values.Given.{AreLists, IsGiven};

mod evaluating;
mod initial;
mod landing;

pub use evaluating::{CellValues, values};

/// A plan in which no flaw was found for inputs of these lengths can be evaluated for such inputs.
pub fn judged_plans()
    ensures { (p : Plan) (inputs : Inputs) (lengths : List ℕ) → judged p lengths ≡ None →
        AreLists p.ranks lengths inputs → IsGiven p inputs }
{}
