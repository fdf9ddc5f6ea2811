//! From a message to its bytes.

ghost use Rattle.std.specs.Prelude.{◌≡◌, ℕ, ◌<◌, ◌^◌, ◌++◌, [], Ok, OnOk, OnErr, slice_index};
ghost use Rattle.std.specs.List.{flat_map};
ghost use Rattle.std.specs.Int.{w32, w64, to_le_bytes};
ghost use Rattle.message_codec.specs.Encoding.{codes, words, double_words, encoding, home_slot, home_stamp, NumbersFit, HasEncoding};
ghost use Rattle.message_codec.specs.Reading.{reading};

use crate::codes::{ack_code, flag_code, kind_code, operation_code, swap_code, type_code};
use ptl_types::{Handle, Header, Message, NoMemory};

fn put_codes(out: &mut Vec<u8>, h: &Header) -> Result<(), NoMemory>
    ensures { OnOk result (out.new.items ≡ out.old.items ++ codes h.now) }
{
    let codes = [
        kind_code(h.kind),
        flag_code(h.ok),
        ack_code(h.ack),
        operation_code(h.op),
        swap_code(h.swap),
        type_code(h.ty),
        flag_code(h.home.is_some()),
        0,
    ];
    out.extend_from_slice(&codes)?;
    Ok(())
}

fn put_words(out: &mut Vec<u8>, numbers: &[u32]) -> Result<(), NoMemory>
    ensures ok { OnOk result (out.new.items ≡ out.old.items ++ flat_map (to_le_bytes w32) numbers.now) }
    ensures fit { (i : ℕ) → slice_index numbers.now i < 2 ^ 32 }
{
    for number in numbers {
        out.extend_from_slice(&number.to_le_bytes())?;
    }
    Ok(())
}

fn put_double_words(out: &mut Vec<u8>, numbers: &[u64]) -> Result<(), NoMemory>
    ensures ok { OnOk result (out.new.items ≡ out.old.items ++ flat_map (to_le_bytes w64) numbers.now) }
    ensures fit { (i : ℕ) → slice_index numbers.now i < 2 ^ 64 }
{
    for number in numbers {
        out.extend_from_slice(&number.to_le_bytes())?;
    }
    Ok(())
}

/// The descriptor that awaits the answer: 0 twice where none does.
fn home_of(h: &Header) -> Handle
    ensures slot { result.slot ≡ home_slot h.now.home }
    ensures stamp { result.stamp ≡ home_stamp h.now.home }
{
    match h.home {
        Some(handle) => handle,
        None => Handle { slot: 0, stamp: 0 },
    }
}

fn put_numbers(out: &mut Vec<u8>, h: &Header) -> Result<(), NoMemory>
    ensures ok { OnOk result (out.new.items ≡ out.old.items ++ (words h.now ++ double_words h.now)) }
    ensures fit { OnOk result (NumbersFit h.now) }
{
    let home = home_of(h);
    put_words(out, &[h.source, h.target, h.pt, home.slot])?;
    put_double_words(
        out,
        &[
            h.match_bits,
            h.offset,
            h.length,
            h.hdr_data,
            h.operand,
            home.stamp,
            h.home_offset,
        ],
    )
}

fn put_message(out: &mut Vec<u8>, message: &Message) -> Result<(), NoMemory>
    ensures ok { OnOk result (out.new.items ≡ out.old.items ++ encoding message.now) }
    ensures has { OnOk result (HasEncoding message.now) }
{
    let header = message.header();
    put_codes(out, header)?;
    put_numbers(out, header)?;
    out.extend_from_slice(message.bytes().as_slice())?;
    Ok(())
}

/// Takes the bytes of a message in place of what `out` held. Its room stays, so memory is taken only for a message that is longer
/// than all before. Where there is none, `out` is empty.
pub fn encode(message: &Message, out: &mut Vec<u8>) -> Result<(), NoMemory>
    // What is written are the message's bytes,
    ensures ok { OnOk result (out.new.items ≡ encoding message.now) }
    // and what is read of them is the message.
    ensures again { OnOk result (reading out.new.items ≡ Ok message.now) }
    ensures err { OnErr result (out.new.items ≡ []) }
{
    out.clear();
    match put_message(out, message) {
        Ok(()) => Ok(()),
        Err(NoMemory) => {
            out.clear();
            Err(NoMemory)
        }
    }
}
