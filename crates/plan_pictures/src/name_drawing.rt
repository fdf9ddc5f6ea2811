//! The names that a plan's text gives cells: those of the description's inputs, and those of the lines after the plan.

use crate::layout::{Label, Layout, Place};
use crate::lines::{PlanText, named_cell};
use crate::plan_drawing::ascii;
use crate::svg;
use given_lines::Mark;
use std::fmt;

/// From one name of a cell to the next, in pixels.
const LINE: u64 = 9;

/// Begins a name above a cell, with so many others below it.
fn begin_name<W: fmt::Write>(
    out: &mut fmt::Formatter<W>,
    place: &Place,
    above: u32,
) -> fmt::Result {
    let y = place
        .y()
        .saturating_sub(u64::from(above).saturating_mul(LINE) + 3);
    svg::begin_text(out, "label", (place.x(), y))
}

/// What the cell of this line is.
fn draw_label<W: fmt::Write>(
    out: &mut fmt::Formatter<W>,
    plan: &PlanText,
    label: &Label,
    place: &Place,
) -> fmt::Result {
    begin_name(out, place, label.above)?;
    match label.mark {
        Mark::Result { buffer, .. } => write!(out, "result {}", ascii(plan.name(buffer)))?,
        Mark::Enter { step, .. } => write!(out, "enters step {step}")?,
        Mark::Leave { step, .. } => write!(out, "leaves step {step}")?,
    }
    out.write_str("</text>\n")
}

/// The names of the inputs, above their cells.
fn draw_inputs<W: fmt::Write>(
    out: &mut fmt::Formatter<W>,
    plan: &PlanText,
    places: &[Place],
) -> fmt::Result {
    let inputs = plan.inputs();
    let mut others = places.iter().skip(plan.ranks as usize);
    for input in 0..inputs {
        for _ in 0..plan.ranks {
            if let Some(place) = others.next() {
                begin_name(out, place, 0)?;
                writeln!(out, "input {}</text>", ascii(plan.name(input)))?;
            }
        }
    }
    Ok(())
}

/// The names of cells, where a description stands before the plan.
pub fn draw_names<W: fmt::Write>(
    out: &mut fmt::Formatter<W>,
    plan: &PlanText,
    layout: &Layout,
) -> fmt::Result {
    if plan.description.is_none() {
        return Ok(());
    }
    svg::label_styles(out)?;
    draw_inputs(out, plan, layout.places.as_slice())?;
    for label in layout.labels.iter() {
        if let Some(place) = layout.places.get(named_cell(label.mark)) {
            draw_label(out, plan, label, place)?;
        }
    }
    Ok(())
}
