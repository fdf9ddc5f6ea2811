//! Why a text is refused.

ghost use Rattle.std.specs.Prelude.{◌≡◌, ◌<◌, Err, None, Option, length};
ghost use Rattle.coll_shape.specs.Meaning.{Lists};
ghost use Rattle.schedule_compiler.specs.shapes.Footprint.{refusal};
ghost use Rattle.schedule_compiler.specs.Answers.{Compiles};
ghost use Rattle.worlds.specs.World.{WorldState};
ghost use Rattle.run_text.specs.Refused.{step_line};
ghost use Rattle.run_text.specs.Ending.{Written, refused};
ghost use Rattle.portals_top.specs.Due.{due_compiled};
ghost use Rattle.text_notes.specs.notes.Causes.{name_of};
ghost use Rattle.text_notes.specs.Places.{IsNamed};
ghost use Rattle.portals_top.specs.Explained.{Tells};

use crate::words::Command;
use coll_lang::Refusal;
use coll_shape::Shape;
use port_io::Sink;
use run_text::{Status, refuse, step_line};
use schedule_compiler::CompileFault;
use schedule_compiler::shapes::{MOST_BYTES, MOST_LINKS};
use std::alloc::Global;
use text_notes::notes::{About, Cause, Excess, Limit, Note};
use text_notes::plain_note;

/// Refuses a text, as `refuse` does, and keeps the note of it.
pub(crate) fn refuse_with<K: Sink>(
    alloc: Global,
    sink: &mut K,
    line: u32,
    name: Refusal,
    note: Note,
    told: &mut Option<Note>,
) -> Status
    requires line { note.line ≡ line }
    requires name { IsNamed name note.about }
    ensures written { Written (refused line name) (K.outflow sink.old) (K.outflow sink.new) result }
    ensures told { Tells result (K.outflow sink.old) (K.outflow sink.new) told.new }
{
    *told = Some(note);
    refuse(alloc, sink, line, name)
}

/// Refuses a text in the line of a step.
pub(crate) fn refuse_step<K: Sink>(
    alloc: Global,
    sink: &mut K,
    shape: &Shape,
    step: u32,
    cause: Cause,
    told: &mut Option<Note>,
) -> Status
    requires { step < length shape.now.steps }
    ensures written { Written (refused (step_line shape.now step) (name_of cause)) (K.outflow sink.old) (K.outflow sink.new) result }
    ensures told { Tells result (K.outflow sink.old) (K.outflow sink.new) told.new }
{
    let line = step_line(shape, step);
    let note = plain_note(line, About::Refused(cause));
    refuse_with(alloc, sink, line, cause.name(), note, told)
}

/// Why a plan has too many links.
fn many_links() -> Cause
    ensures { name_of result ≡ Refusal.TooMany }
{
    Cause::TooMany(Limit::Links {
        most: MOST_LINKS as u32,
    })
}

/// Why the cells of a plan are too large.
fn large_cells() -> Cause
    ensures { name_of result ≡ Refusal.TooLarge }
{
    Cause::TooLarge(Excess::Cells {
        most: MOST_BYTES as u32,
    })
}

/// Refuses a description whose plan is too large, unless there was no memory.
pub(crate) fn refuse_plan<K: Sink>(
    alloc: Global,
    sink: &mut K,
    shape: &Shape,
    fault: CompileFault,
    told: &mut Option<Note>,
) -> Status
    requires { Compiles shape.now (Err fault) }
    // Whatever the command is: nothing is run.
    ensures written { (c : Command) (inputs : Lists) (ran : Option WorldState) →
        Written (due_compiled c shape.now inputs ran (refusal shape.now)) (K.outflow sink.old) (K.outflow sink.new) result }
    ensures memory { refusal shape.now ≡ None → result ≡ Status.NoMemory }
    ensures told { Tells result (K.outflow sink.old) (K.outflow sink.new) told.new }
{
    match fault {
        CompileFault::TooMany { step } => {
            refuse_step(alloc, sink, shape, step, many_links(), told)
        }
        CompileFault::TooLarge { step } => {
            refuse_step(alloc, sink, shape, step, large_cells(), told)
        }
        CompileFault::NoMemory => Status::NoMemory,
    }
}
