//! Worked cases that the check computes: what an interface answers, what descriptions mean, which texts are written, plans, cuts, moments,
//! orders and choices, and what the program owes; with histories that miss a definition by one fault. A definition that is changed by
//! mistake fails one of them.
#![tactic(auto)]

ghost use Rattle.std.specs.Prelude.{◌≡◌, true};

pub mod barriers;
pub mod choices;
pub mod done;
pub mod interleavings;
pub mod jobs;
pub mod meaning;
pub mod model;
pub mod orders;
pub mod plans;
pub mod texts;
pub mod top;

/// The cases stand in `proofs/`. This function is there so that the crate has one.
pub fn cases_stand() -> bool
    ensures { result ≡ true }
{
    true
}
