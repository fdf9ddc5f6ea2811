//! The plan that a description is compiled to.

ghost use Rattle.std.specs.Prelude.{◌≡◌, List, ℕ, Err};
ghost use Rattle.coll_lang.specs.Language.{read};
ghost use Rattle.marked_plans.specs.Marks.{marked_of};
ghost use Rattle.plan_top.specs.Texts.{marked_text};
ghost use Rattle.plan_top.specs.Owed.{due_described, due_plan, owed_drawn};
ghost use Rattle.plan_top.specs.Explained.{BesideDescribed, BesideDrawn, BesidePlan, TellsOf};
ghost use Rattle.run_text.specs.Ending.{Written, done};
ghost use Rattle.schedule_compiler.specs.shapes.Compiling.{Answers};
ghost use Rattle.schedule_compiler.specs.shapes.Footprint.{refusal};

use crate::excess::excess_of;
use crate::notes::{cause_note, line_note};
use crate::writing::write_marked;
use coll_lang::{Description, ParseFault, Refusal, parse};
use coll_shape::Shape;
use marked_plans::{MarkedPlan, marked_shape};
use port_io::Sink;
use run_text::{Pieces, Status, refuse, step_line};
use schedule_compiler::shapes::CompileFault;
use std::alloc::Global;
use text_notes::notes::{Cause, Printable};

/// Refuses a description whose plan is too large, unless there was no memory.
fn refuse_plan<K: Sink>(
    alloc: Global,
    shape: &Shape,
    fault: CompileFault,
    sink: &mut K,
    told: &mut Printable,
) -> Status
    requires { Answers shape.now (λ m. m ≡ marked_of shape.now) (Err fault) }
    ensures written { Written (due_plan shape.now (refusal shape.now)) (K.outflow sink.old) (K.outflow sink.new) result }
    ensures told { (bytes : List ℕ) → TellsOf (BesidePlan bytes shape.now (refusal shape.now)) result told.new }
{
    match excess_of(fault) {
        Some((step, cause)) => {
            let line = step_line(shape, step);
            *told = cause_note(line, cause);
            refuse(alloc, sink, line, cause.name())
        }
        None => Status::NoMemory,
    }
}

/// Writes a shape's plan.
fn write_drawn<K: Sink>(alloc: Global, shape: &Shape, marked: &MarkedPlan, sink: &mut K) -> Status
    ensures { Written (done (marked_text shape.now.buffers marked.now)) (K.outflow sink.old) (K.outflow sink.new) result }
{
    let Ok(mut out) = Pieces::open(alloc) else {
        return Status::NoMemory;
    };
    match write_marked(&mut out, sink, shape, marked) {
        Ok(()) => Status::Done,
        Err(_) => Status::WriteFault,
    }
}

/// Draws a shape's plan.
fn draw_shape<K: Sink>(alloc: Global, shape: &Shape, sink: &mut K, told: &mut Printable) -> Status
    ensures written { Written (due_plan shape.now (refusal shape.now)) (K.outflow sink.old) (K.outflow sink.new) result }
    ensures told { (bytes : List ℕ) → TellsOf (BesidePlan bytes shape.now (refusal shape.now)) result told.new }
{
    match marked_shape(alloc, shape) {
        Ok(marked) => write_drawn(alloc, shape, &marked, sink),
        Err(fault) => refuse_plan(alloc, shape, fault, sink, told),
    }
}

/// Draws the plan of a description, unless it is a choice text.
fn draw_described<K: Sink>(
    alloc: Global,
    d: &Description,
    sink: &mut K,
    told: &mut Printable,
) -> Status
    ensures written { Written (due_described d.now.shape d.now.choices) (K.outflow sink.old) (K.outflow sink.new) result }
    ensures told { (bytes : List ℕ) → TellsOf (BesideDescribed bytes d.now.shape d.now.choices) result told.new }
{
    match d.choices() {
        Some(_) => {
            *told = cause_note(0, Cause::OneThread);
            refuse(alloc, sink, 0, Refusal::OneThread)
        }
        None => draw_shape(alloc, d.shape(), sink, told),
    }
}

/// Draws the plan of the description that a text is.
pub(crate) fn draw_text<K: Sink>(
    alloc: Global,
    text: &[u8],
    sink: &mut K,
    told: &mut Printable,
) -> Status
    ensures written { Written (owed_drawn (read text.now)) (K.outflow sink.old) (K.outflow sink.new) result }
    ensures told { TellsOf (BesideDrawn text.now (read text.now)) result told.new }
{
    match parse(alloc, text) {
        Ok(d) => draw_described(alloc, &d, sink, told),
        Err(ParseFault::Refused { line, name }) => {
            *told = line_note(text, line, name);
            refuse(alloc, sink, line, name)
        }
        Err(ParseFault::NoMemory) => Status::NoMemory,
    }
}
