//! What a rank sends.

ghost use Rattle.std.specs.Prelude.{◌≡◌, ◌<◌, OnOk, IsTrue, [], ◌∷◌, length};
ghost use Rattle.ni_model.specs.Ready.{is_ready};
ghost use Rattle.cuts.specs.histories.History.{and_then};
ghost use Rattle.rank_frames.specs.Frames.{frame, frames_of};
ghost use Rattle.rank_frames.specs.Going.{Goes, IsIdle, Writes};

use crate::fault::Stop;
use crate::frames::write_frame;
use crate::place::Place;
use message_codec::encode;
use port_io::Sink;
use ptl_types::{Message, NoMemory, Rank};

/// The most bytes that the head of a frame can tell of.
const LONGEST: usize = 4_294_967_295;

/// Writes a frame, unless it is longer than its head can tell.
fn write<K: Sink>(sink: &mut K, target: Rank, bytes: &[u8]) -> Result<(), Stop>
    ensures { Writes result (K.outflow sink.old) (K.outflow sink.new) (frame target bytes.now) }
{
    if bytes.len() > LONGEST {
        return Err(Stop::NoMemory);
    }
    match write_frame(sink, target, bytes) {
        Ok(()) => Ok(()),
        Err(_) => Err(Stop::Write),
    }
}

/// Writes the frame of a message. `buffer` is for its bytes.
fn send<K: Sink>(sink: &mut K, buffer: &mut Vec<u8>, message: &Message) -> Result<(), Stop>
    ensures { Writes result (K.outflow sink.old) (K.outflow sink.new) (frames_of (message.now ∷ [])) }
{
    match encode(message, buffer) {
        Ok(()) => write(sink, message.header().target, buffer.as_slice()),
        Err(NoMemory) => Err(Stop::NoMemory),
    }
}

/// The same, if there is a message.
pub(crate) fn send_any<K: Sink>(
    sink: &mut K,
    buffer: &mut Vec<u8>,
    message: Option<Message>,
) -> Result<(), Stop>
    ensures { Writes result (K.outflow sink.old) (K.outflow sink.new) (frames_of (and_then message [])) }
{
    match message {
        Some(message) => send(sink, buffer, &message),
        None => Ok(()),
    }
}

/// Fires an operation that is ready, and writes what it sends.
fn fire<K: Sink>(
    place: &mut Place,
    sink: &mut K,
    buffer: &mut Vec<u8>,
    number: u32,
) -> Result<(), Stop>
    requires { IsTrue (is_ready place.old.node.nic number) }
    ensures went { Goes result place.old place.new (K.outflow sink.old) (K.outflow sink.new) [] }
    ensures fewer { length place.new.node.nic.pending.waiting < length place.old.node.nic.pending.waiting }
    ensures due { place.new.due ≡ place.old.due }
{
    let message = place.fire(number);
    send_any(sink, buffer, message)
}

/// Fires all that is ready, and writes what it sends.
pub(crate) fn fire_all<K: Sink>(
    place: &mut Place,
    sink: &mut K,
    buffer: &mut Vec<u8>,
) -> Result<(), Stop>
    ensures went { Goes result place.old place.new (K.outflow sink.old) (K.outflow sink.new) [] }
    ensures idle { OnOk result (IsIdle place.new) }
    ensures due { place.new.due ≡ place.old.due }
{
    while let Some(number) = place.ready() {
        fire(place, sink, buffer, number)?;
    }
    Ok(())
}
