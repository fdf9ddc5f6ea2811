//! Whether a plan is sound and guarded, and takes inputs of given lengths; where it doesn't, what is the first at fault.
#![tactic(auto)]

ghost use Rattle.std.specs.Prelude.{ℕ, List, ◌≡◌, ◌↔◌, None, length};
ghost use Rattle.plan_core.specs.Plan.{Plan};
ghost use Rattle.plan_core.specs.Sound.{SoundPlan};
ghost use Rattle.plan_judge.specs.Causes.{judged};
ghost use Rattle.plan_judge.specs.Fit.{AreFit};
ghost use Rattle.plan_judge.specs.Guards.{AreGuarded};

mod cells;
mod flaw;
mod guards;
mod incoming;
mod judging;
mod kinds;
mod links;
mod overlap;
pub mod values;
mod whole;

pub use flaw::{CellCause, Flaw, LinkCause, PlanCause};
pub use incoming::{links_by_target, links_to};
pub use judging::judge;
pub use links::same_type;

/// A plan has no flaw exactly where it is sound for so many inputs, takes lists of these lengths, and guards them.
pub fn no_flaw()
    ensures { (p : Plan) (lengths : List ℕ) →
        (judged p lengths ≡ None ↔ SoundPlan p (length lengths) × AreFit p lengths × AreGuarded p (length lengths)) }
{}
