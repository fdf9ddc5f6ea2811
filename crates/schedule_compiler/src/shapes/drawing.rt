//! The drawing of a shape: its inputs, then step after step.

ghost use Rattle.std.specs.Prelude.{◌≡◌, ◌<◌, ◌≤◌, ◌+◌, ◌^◌, ◌∷◌, [], IfOk, length, map};
ghost use Rattle.plan_core.specs.Draw.{HasRoom, add, add_all};
ghost use Rattle.plan_core.specs.Plan.{from_to};
ghost use Rattle.coll_shape.specs.Outline.{list_bytes};
ghost use Rattle.coll_shape.specs.declared.limits.TheConstants.{MOST_ELEMENTS};
ghost use Rattle.schedule_compiler.specs.shapes.Drawing.{drawing_of, drawn_inputs, hold_row, input_cell, opened, plan_of};
ghost use Rattle.schedule_compiler.specs.shapes.Judging.{AreSteps, size_upto};
ghost use Rattle.schedule_compiler.specs.declared.shapes.judging.TheConstants.{MOST_LINKS};

use coll_shape::{Buffer, MOST_RANKS, Shape};
use plan_core::{BufferCells, Frontier, Part, Plan};
use plan_steps::{Drawing, add_step, bump};
use ptl_types::{NoMemory, Rank};
use std::alloc::Global;

/// The cell of an input at a rank, after the go cell there.
fn draw_input(plan: &mut Plan, buffer: &Buffer, length: u64, r: Rank) -> Result<(), NoMemory>
    requires length { length ≡ list_bytes buffer.now }
    requires room { HasRoom plan.old (input_cell buffer.now r ∷ []) }
    ensures { IfOk result (λ u. plan.new ≡ add plan.old (input_cell buffer.now r)) }
{
    let part = Part {
        rank: r,
        ty: buffer.ty,
        op: None,
        length,
    };
    plan.draw(part, &[bump(r)])
}

/// The cells of an input, one a rank.
fn draw_inputs(plan: &mut Plan, buffer: &Buffer, ranks: u32) -> Result<(), NoMemory>
    requires short { buffer.now.spread.length ≤ MOST_ELEMENTS }
    requires room { HasRoom plan.old (map (input_cell buffer.now) (from_to 0 ranks)) }
    ensures { IfOk result (λ u. plan.new ≡ add_all plan.old (map (input_cell buffer.now) (from_to 0 ranks))) }
{
    let length = buffer.list_bytes();
    for r in 0..ranks {
        draw_input(plan, buffer, length, r)?;
    }
    Ok(())
}

/// Cells that follow one another hold a buffer, one at each of the first ranks.
fn hold_inputs(held: &mut BufferCells, b: u32, first: u32, ranks: u32)
    requires ranks { ranks ≤ held.old.ranks }
    requires buffer { b < held.old.buffers }
    requires at_most { first + ranks < 2 ^ 32 }
    ensures { held.new ≡ hold_row held.old b first ranks }
{
    for r in 0..ranks {
        held.set(b, r, first + r);
    }
}

/// The go cells alone, with room for so many links.
fn opened(alloc: Global, shape: &Shape, links: u32) -> Result<Drawing, NoMemory>
    requires { links ≤ MOST_LINKS }
    ensures { IfOk result (λ d. d ≡ opened shape.now) }
{
    shape.recall_form();
    let ranks = shape.ranks();
    let buffers = shape.buffers().len() as u32;
    let plan = Plan::open(alloc, ranks, shape.remote(), links + MOST_RANKS, links)?;
    let held = BufferCells::open(alloc, buffers, ranks)?;
    let exits = Frontier::open(alloc, ranks)?;
    Ok(Drawing { plan, held, exits })
}

/// All inputs, each at every rank.
fn add_inputs(drawing: &mut Drawing, shape: &Shape) -> Result<(), NoMemory>
    requires { drawing.old ≡ opened shape.now }
    ensures { IfOk result (λ u. drawing.new ≡ drawn_inputs shape.now shape.now.inputs) }
{
    shape.recall_form();
    let ranks = shape.ranks();
    for b in 0..shape.input_count() {
        let first = drawing.plan.cells().len() as u32;
        draw_inputs(&mut drawing.plan, &shape.buffers()[b as usize], ranks)?;
        hold_inputs(&mut drawing.held, b, first, ranks);
    }
    Ok(())
}

/// All steps, one after the other.
fn add_steps(alloc: Global, drawing: &mut Drawing, shape: &Shape) -> Result<(), NoMemory>
    requires steps { AreSteps shape.now }
    requires at_most { (size_upto shape.now (length shape.now.steps)).links ≤ MOST_LINKS }
    requires inputs { drawing.old ≡ drawn_inputs shape.now shape.now.inputs }
    ensures { IfOk result (λ u. drawing.new ≡ drawing_of shape.now) }
{
    shape.recall_form();
    for k in 0..shape.steps().len() as u32 {
        let step = &shape.steps()[k as usize];
        add_step(alloc, drawing, step, shape.group(k), shape)?;
    }
    Ok(())
}

/// A plan, and the cell that holds each buffer at each rank.
#[derive(Debug, Drop)]
pub struct DrawnShape {
    /// The cells and links.
    pub plan: Plan,
    /// The cells that hold the buffers.
    pub held: BufferCells,
}

/// Draws a shape whose plan has so many links.
pub(crate) fn draw(alloc: Global, shape: &Shape, links: u64) -> Result<DrawnShape, NoMemory>
    requires steps { AreSteps shape.now }
    requires at_most { (size_upto shape.now (length shape.now.steps)).links ≤ MOST_LINKS }
    requires most { links ≤ MOST_LINKS }
    ensures plan { IfOk result (λ c. c.plan ≡ plan_of shape.now) }
    ensures held { IfOk result (λ c. c.held ≡ (drawing_of shape.now).held) }
{
    let mut drawing = opened(alloc, shape, links as u32)?;
    add_inputs(&mut drawing, shape)?;
    add_steps(alloc, &mut drawing, shape)?;
    Ok(DrawnShape {
        plan: drawing.plan,
        held: drawing.held,
    })
}
