//! Messages as bytes that cross machines, and back (`message_codec`).

ghost use Rattle.std.specs.Prelude.{◌≡◌, ◌<◌, ◌≤◌, length};
ghost use Rattle.message_codec.specs.Reading.{reading};
ghost use Rattle.c_interface.specs.Framing.{Decodes, Encodes};
ghost use Rattle.c_interface.specs.Messages.{Reads, header_of};

use crate::messages::CMessage;
use crate::reading::message_of;
use crate::statuses::{MALFORMED, NO_MEMORY, OK, SHORT};
use crate::telling::{hand_out, onto};
use message_codec::{DecodeError, decode, encode};
use std::alloc::Global;

/// Writes the encoding of a message to the front of `out`, and how many bytes it has.
#[unsafe(no_mangle)]
pub extern "C" fn SfEncode(
    alloc: Global,
    message: &CMessage,
    bytes: &[u8],
    out: &mut [u8],
    written: &mut u64,
) -> u32
    ensures { Encodes (Reads (header_of message.now) bytes.now) (written.old, out.old) (written.new, out.new) result }
{
    let read = match message_of(alloc, message, bytes) {
        Ok(read) => read,
        Err(status) => return status,
    };
    let mut frame = Vec::new(alloc);
    match encode(&read, &mut frame) {
        Ok(()) => {
            let list = frame.as_slice();
            let count = list.len();
            if out.len() < count {
                return SHORT;
            }
            onto(list, out);
            *written = count as u64;
            OK
        }
        Err(_) => NO_MEMORY,
    }
}

/// Reads the message that bytes encode, all of the bytes: its header, and the bytes that go with it to the front of `out`.
#[unsafe(no_mangle)]
pub extern "C" fn SfDecode(
    alloc: Global,
    frame: &[u8],
    message: &mut CMessage,
    out: &mut [u8],
) -> u32
    ensures { Decodes (reading frame.now) (message.old, out.old) (message.new, out.new) result }
{
    match decode(alloc, frame) {
        Ok(read) => {
            if (out.len() as u64) < read.bytes().len() {
                return SHORT;
            }
            hand_out(&read, message, out);
            OK
        }
        Err(DecodeError::Fault(_)) => MALFORMED,
        Err(DecodeError::NoMemory) => NO_MEMORY,
    }
}
