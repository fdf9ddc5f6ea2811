//! Plans whose bytes are treated alike block by block: they are cut into slices, and what a slice holds is what a plan of shorter cells
//! holds.
#![tactic(auto)]

ghost use Rattle.std.specs.Prelude.{◌≡◌, ◌<◌, [], ℕ, List, length};
ghost use Rattle.plan_core.specs.Plan.{Plan};
ghost use Rattle.plan_core.specs.Sound.{AreInputsOf, SoundPlan};
ghost use Rattle.plan_core.specs.Values.{Inputs, value};
ghost use Rattle.plan_slices.specs.declared.cut.Cut.{Cut};
ghost use Rattle.plan_slices.specs.Slices.{AreCuts, AreSlices, slice_at, sliced};

mod checking;
mod cut;
mod finding;
mod groups;
mod slicing;

pub use checking::are_cuts;
pub use cut::{Cut, cut_at};
pub use finding::{CutPlans, cut_plans};
use plan_core::Plan;
pub use slicing::sliced;

/// From slices of the inputs the plan of a slice computes, cell by cell, the slices of what the plan computes.
pub fn slices_are_computed()
    ensures { (p : Plan) (cuts : List Cut) (j : ℕ) (inputs inner : Inputs) → SoundPlan p (length inputs) → AreInputsOf p inputs
        → AreCuts p cuts → AreSlices p cuts j inputs inner → (c : ℕ) → c < length p.cells
        → value (sliced p cuts) inner c ≡ slice_at cuts j c (value p inputs c) }
{}

/// A plan that isn't cut is the plan of its slices. Where the list of cuts is empty, each byte of each cell stands by itself: all plans can
/// be cut so, and their one slice is all of them.
pub fn recall_uncut(plan: &Plan)
    ensures cuts { AreCuts plan.now [] }
    ensures sliced { sliced plan.now [] ≡ plan.now }
{}
