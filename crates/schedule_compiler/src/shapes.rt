//! The plan of a shape: judged by closed forms, before anything is drawn, and then drawn step by step. What is too large is refused
//! at the first step at which it is. Laws of these plans: they are sound, their cells hold what the collectives mean, and a barrier's
//! rounds are rounds.

ghost use Rattle.std.specs.Prelude.{◌≡◌, length};
ghost use Rattle.coll_shape.specs.Outline.{Outline};
ghost use Rattle.schedule_compiler.specs.shapes.Footprint.{refusal};
ghost use Rattle.schedule_compiler.specs.shapes.Judging.{AreSteps, found_from};

mod compiling;
mod drawing;
mod faults;
mod footprints;
mod judging;
mod laws;

pub use compiling::drawn_shape;
pub use drawing::DrawnShape;
pub use faults::CompileFault;
pub use footprints::Size;
pub use judging::{MOST_BYTES, MOST_LINKS};
pub use laws::{barrier_rounds, plan_sound, plan_values, plan_within, result_cells};

/// The first excess of the closed forms is that of the plan, drawn step by step.
pub fn refusal_laws()
    ensures { (o : Outline) → AreSteps o → refusal o ≡ found_from o 0 (length o.steps) }
{}
