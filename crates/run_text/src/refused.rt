//! Texts that are refused.

ghost use Rattle.std.specs.Prelude.{◌≡◌, ◌<◌, [], length};
ghost use Rattle.run_text.specs.Ending.{Written, refused};
ghost use Rattle.run_text.specs.Refused.{refusal_line, step_line};
ghost use Rattle.run_text.specs.Putting.{EndsWith, Puts};

use crate::lines::{put_number, put_word};
use crate::pieces::Pieces;
use crate::status::Status;
use coll_lang::Refusal;
use coll_shape::Shape;
use port_io::{Failed, Sink};
use std::alloc::Global;

/// Adds the line of a refusal: `refused`, the line's number and the refusal's name, parted by one space.
///
/// At `Failed` the count of the sink's faults rose, and a beginning of the text stands. It takes no memory.
pub fn refusal_line<K: Sink>(
    out: &mut Pieces,
    sink: &mut K,
    number: u32,
    name: Refusal,
) -> Result<(), Failed>
    ensures { Puts (K.outflow sink.old) (K.outflow sink.new) out.old out.new (refusal_line number name) result }
{
    out.put(sink, b"refused")?;
    put_number(out, sink, number)?;
    put_word(out, sink, name.word().as_bytes())?;
    out.put(sink, b"\n")
}

/// The line of a description on which a step stands, counted from 1.
pub fn step_line(shape: &Shape, step: u32) -> u32
    requires { step < length shape.now.steps }
    ensures { result ≡ step_line shape.now step }
{
    shape.recall_form();
    let ranks = shape.ranks();
    let options = if shape.remote() { 1 } else { 0 };
    let inputs = shape.input_count() * (ranks + 1);
    3 + options + shape.group_count() + inputs + step
}

/// Writes why a text is refused, and finishes the sink.
fn write_refusal<K: Sink>(
    out: &mut Pieces,
    sink: &mut K,
    line: u32,
    name: Refusal,
) -> Result<(), Failed>
    requires { out.old ≡ [] }
    ensures { EndsWith (K.outflow sink.old) (K.outflow sink.new) (refusal_line line name) result }
{
    refusal_line(out, sink, line, name)?;
    out.end(sink)
}

/// Refuses a text in one of its lines, or as a whole, which is line 0: writes why, and finishes the sink.
pub fn refuse<K: Sink>(alloc: Global, sink: &mut K, line: u32, name: Refusal) -> Status
    ensures { Written (refused line name) (K.outflow sink.old) (K.outflow sink.new) result }
{
    let Ok(mut out) = Pieces::open(alloc) else {
        return Status::NoMemory;
    };
    match write_refusal(&mut out, sink, line, name) {
        Ok(()) => Status::Refused,
        Err(_) => Status::WriteFault,
    }
}
