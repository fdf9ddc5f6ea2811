//! What a rank does by frames.

ghost use Rattle.std.specs.Prelude.{◌≡◌, ◌+◌, ◌<◌, ◌^◌, None, Ok, OnOk, IfOk, IfErr, length};
ghost use Rattle.message_codec.specs.Encoding.{encoding};
ghost use Rattle.message_codec.specs.Reading.{reading};
ghost use Rattle.rank_frames.specs.Frames.{frame, mark, nobody};
ghost use Rattle.rank_frames.specs.Due.{messages_due};
ghost use Rattle.rank_frames.specs.Going.{Goes, HasStarted, IsIdle, IsOver, TakesFrames};
ghost use Rattle.rank_frames.specs.Place.{fault_of, fault_of_head, frames_left, Refuses, RefusesHead};

use crate::fault::{FrameFault, Stop};
use crate::frames::{NOBODY, read_bytes, read_head};
use crate::going::{fire_all, send_any};
use crate::place::Place;
use message_codec::{DecodeError, decode};
use port_io::{Sink, Source};
use ptl_types::{Message, Rank};
use std::alloc::Global;

/// Starts the rank, which hasn't started, and fires what is ready then.
fn start<K: Sink>(place: &mut Place, sink: &mut K, buffer: &mut Vec<u8>) -> Result<(), Stop>
    requires { fault_of_head place.old nobody 0 ≡ None }
    ensures went { Goes result place.old place.new (K.outflow sink.old) (K.outflow sink.new) mark }
    ensures idle { OnOk result (IsIdle place.new) }
    ensures fewer { OnOk result (frames_left place.new < frames_left place.old) }
{
    place.start();
    fire_all(place, sink, buffer)
}

/// Receives a message that nothing keeps from it, and sends its answer.
fn receive<K: Sink>(
    place: &mut Place,
    sink: &mut K,
    buffer: &mut Vec<u8>,
    source: Rank,
    message: Message,
) -> Result<(), Stop>
    requires { fault_of place.old source message ≡ None }
    ensures went { Goes result place.old place.new (K.outflow sink.old) (K.outflow sink.new) (frame source (encoding message)) }
    ensures fewer { messages_due place.new.due + 1 ≡ messages_due place.old.due }
{
    let answer = place.receive(source, message);
    send_any(sink, buffer, answer)
}

/// Receives a message that nothing keeps from it, and sends its answer and what is ready then.
fn follow<K: Sink>(
    place: &mut Place,
    sink: &mut K,
    buffer: &mut Vec<u8>,
    source: Rank,
    message: Message,
) -> Result<(), Stop>
    requires { fault_of place.old source message ≡ None }
    ensures went { Goes result place.old place.new (K.outflow sink.old) (K.outflow sink.new) (frame source (encoding message)) }
    ensures idle { OnOk result (IsIdle place.new) }
    ensures fewer { OnOk result (frames_left place.new < frames_left place.old) }
{
    receive(place, sink, buffer, source, message)?;
    fire_all(place, sink, buffer)
}

/// The message of a frame of this source, unless the frame is refused.
fn read_message(alloc: Global, place: &Place, source: Rank, bytes: &[u8]) -> Result<Message, Stop>
    ensures found { IfOk result (λ m. bytes.now ≡ encoding m) }
    ensures clear { IfOk result (λ m. fault_of place.now source m ≡ None) }
    ensures refused { IfErr result (λ e. Refuses place.now source e (reading bytes.now)) }
{
    let message = match decode(alloc, bytes) {
        Ok(message) => message,
        Err(DecodeError::NoMemory) => return Err(Stop::NoMemory),
        Err(DecodeError::Fault(fault)) => return Err(Stop::Frame(FrameFault::Message(fault))),
    };
    match place.fault_of(source, &message) {
        None => Ok(message),
        Some(fault) => Err(Stop::Frame(fault)),
    }
}

/// Refuses a frame for its head, if anything keeps its bytes from being read.
fn pass_head(place: &Place, source: Rank, count: u32) -> Result<(), Stop>
    ensures passes { OnOk result (fault_of_head place.now source count ≡ None) }
    ensures refused { IfErr result (λ e. RefusesHead e (fault_of_head place.now source count)) }
{
    match place.fault_of_head(source, count) {
        None => Ok(()),
        Some(fault) => Err(Stop::Frame(fault)),
    }
}

/// Takes one frame; the rank hasn't ended, and after its start nothing is ready. A frame that is refused changes nothing.
fn take_frame<S: Source, K: Sink>(
    alloc: Global,
    place: &mut Place,
    source: &mut S,
    sink: &mut K,
    buffer: &mut Vec<u8>,
) -> Result<(), Stop>
    requires waits { IsOver place.old → ⊥ }
    requires idle { HasStarted place.old → IsIdle place.old }
    ensures went { TakesFrames result place.old place.new (S.inflow source.old) (S.inflow source.new)
        (K.outflow sink.old) (K.outflow sink.new) }
    ensures fewer { OnOk result (frames_left place.new < frames_left place.old) }
{
    let (from, count) = read_head(source)?;
    pass_head(place, from, count)?;
    if from == NOBODY {
        return start(place, sink, buffer);
    }
    read_bytes(source, buffer, count)?;
    let message = read_message(alloc, place, from, buffer.as_slice())?;
    follow(place, sink, buffer, from, message)
}

/// Takes frames until the rank has started and nothing is due.
pub fn take_frames<S: Source, K: Sink>(
    alloc: Global,
    place: &mut Place,
    source: &mut S,
    sink: &mut K,
) -> Result<(), Stop>
    requires { HasStarted place.old → IsIdle place.old }
    ensures went { TakesFrames result place.old place.new (S.inflow source.old) (S.inflow source.new)
        (K.outflow sink.old) (K.outflow sink.new) }
    ensures over { OnOk result (IsOver place.new) }
{
    let mut buffer = Vec::new(alloc);
    while !place.has_all() {
        take_frame(alloc, place, source, sink, &mut buffer)?;
    }
    Ok(())
}
