//! Pictures of plans: the text of a plan, as a drawing in SVG, with what was answered of it; and reading the orders that a run wrote.
#![tactic(auto)]

mod layout;
pub mod lines;
mod name_drawing;
mod plan_drawing;
mod strips;
pub mod svg;

use crate::lines::{PlanText, TextFault, Verdict, read_plan};
pub use plan_drawing::kind_word;
use std::alloc::{AllocError, Global};

/// The drawing of a plan: a column for each rank, a box for each cell at its height, which is the longest way of links to it, an
/// arrow for each link; of a plan without a description a light band behind the cells of each step, of one with a description the
/// names that its lines give cells. The cell or link at fault is marked, and named by the answer.
///
/// # Errors
///
/// There was no memory.
pub fn drawn_plan(
    alloc: Global,
    plan: &PlanText,
    verdict: Option<&Verdict>,
) -> Result<String, AllocError> {
    let layout = layout::layout_of(alloc, plan)?;
    let bands = if plan.description.is_none() {
        strips::bands_of(alloc, plan, &layout)?
    } else {
        strips::Bands::none(alloc, plan)
    };
    let picture = plan_drawing::PlanPicture::of(plan, &layout, &bands, verdict);
    format!(in alloc; "{picture}")
}

/// The drawing of a plan's text, with what was answered of it where that is the last line.
///
/// # Errors
///
/// As `read_plan` of the text; or that there was no memory.
pub fn plan_picture(alloc: Global, text: &[u8]) -> Result<String, TextFault> {
    let text = read_plan(alloc, text)?;
    Ok(drawn_plan(alloc, &text.plan, text.verdict.as_ref())?)
}
