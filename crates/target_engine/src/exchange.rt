//! What a message does to the region, and what it is answered with.

ghost use Rattle.std.specs.Prelude.{◌≡◌, ◌+◌, ◌≤◌, ◌<◌, ◌%◌, true, false, ◌⊎◌, [], IsTrue, is_some, length, take};
ghost use Rattle.ptl_types.specs.Elements.{part, written};
ghost use Rattle.ptl_types.specs.Operations.{bytes_of};
ghost use Rattle.ptl_types.specs.Kinds.{is_answer, has_op, is_swap, has_elements};
ghost use Rattle.ptl_types.specs.Messages.{message as sent, FillsHeader};
ghost use Rattle.ni_model.specs.Arrive.{memory_after, answer, new_bytes, old_bytes, delivered, place, reply_header};
ghost use Rattle.ni_model.specs.Conditions.{IsPartIn};

use crate::answers::{acknowledge, reply};
use crate::measures::{delivered, first_byte, is_put_or_atomic};
use crate::spare_buffers::SpareBuffers;
use crate::swap::swap_element;
use lane_ops::combine;
use ni_model::Linked;
use ni_objects::descriptors::Region;
use ptl_types::{Bytes, Header, Message, MessageKind};

/// A put writes the bytes that are delivered.
fn write_put(region: &mut Region, linked: &Linked, message: &Message)
    requires part { IsPartIn (length region.old) linked.now }
    requires put { message.now.header.kind ≡ MessageKind.Put }
    ensures { region.new ≡ memory_after linked.now message.now region.old }
{
    // Brings the bound of the region's length to the proof.
    let _size = region.len();
    let count = delivered(linked, message.header());
    let at = first_byte(linked, message.header());
    let bytes = message.bytes();
    region.write(at, &bytes.as_slice()[..count as usize]);
}

/// A get's bytes are read into the room that it brings.
fn read_get(region: &Region, linked: &Linked, message: Message) -> Message
    requires get { message.header.kind ≡ MessageKind.Get }
    requires part { IsPartIn (length region.now) linked.now }
    ensures { result ≡ sent (reply_header true (delivered linked.now message.header) message.header)
        (old_bytes linked.now message.header region.now) }
{
    let _size = region.len();
    let (header, mut bytes) = message.into_parts();
    let count = delivered(linked, &header);
    let at = first_byte(linked, &header);
    bytes.clear();
    region.read_into(at, &mut bytes, count);
    reply(&header, count, bytes)
}

/// The bytes that were delivered.
fn first_bytes(bytes: Bytes, count: u64) -> Vec<u8>
    ensures { result.items ≡ take count bytes.list }
{
    let mut items = bytes.into_vec();
    items.truncate(count as usize);
    items
}

/// What the operation writes over the bytes `old`: `items` holds the bytes that came, and then these.
#[tactic(auto, using(crate::proofs::Exchanging::combining))]
fn combine_into(header: &Header, old: &[u8], items: &mut [u8])
    requires op { is_some header.now.op ≡ has_op header.now.kind }
    requires swap { is_some header.now.swap ≡ is_swap header.now.kind }
    requires same { length items.old ≡ length old.now }
    requires whole { length old.now % bytes_of header.now.ty ≡ 0 }
    requires one { IsTrue (is_swap header.now.kind) → (length old.now ≡ 0) ⊎ (length old.now ≡ bytes_of header.now.ty) }
    ensures { items.new ≡ new_bytes header.now.kind header.now old.now items.old }
{
    if let Some(op) = header.op {
        combine(op, header.ty, items, old);
    } else if let Some(op) = header.swap {
        if !old.is_empty() {
            swap_element(op, header.ty, header.operand, old, items);
        }
    }
}

/// The operation is done on a part of the region, and what stood there is given back.
fn exchange_at(region: &mut Region, at: u64, header: &Header, items: &mut [u8])
    requires part { at + length items.old ≤ length region.old }
    requires op { is_some header.now.op ≡ has_op header.now.kind }
    requires swap { is_some header.now.swap ≡ is_swap header.now.kind }
    requires whole { length items.old % bytes_of header.now.ty ≡ 0 }
    requires one { IsTrue (is_swap header.now.kind) → (length items.old ≡ 0) ⊎ (length items.old ≡ bytes_of header.now.ty) }
    ensures memory { region.new ≡ written at (new_bytes header.now.kind header.now (part at (length items.old) region.old) items.old)
        region.old }
    ensures old { items.new ≡ part at (length items.old) region.old }
{
    let from = at as usize;
    let size = items.len();
    combine_into(header, &region.as_slice()[from..from + size], items);
    region.exchange(at, items);
}

/// The same on the message's own bytes.
#[tactic(auto, using(crate::proofs::Exchanging::exchanging))]
fn exchange_part(region: &mut Region, linked: &Linked, header: &Header, bytes: Bytes) -> Vec<u8>
    requires part { IsPartIn (length region.old) linked.now }
    requires elements { has_elements header.now.kind ≡ true }
    requires kept { FillsHeader header.now bytes }
    ensures memory { region.new ≡ written (place linked.now header.now)
        (new_bytes header.now.kind header.now (old_bytes linked.now header.now region.old)
        (take (delivered linked.now header.now) bytes.list)) region.old }
    ensures old { result.items ≡ old_bytes linked.now header.now region.old }
    ensures size { length result.items ≡ delivered linked.now header.now }
{
    let _size = region.len();
    let count = delivered(linked, header);
    let at = first_byte(linked, header);
    let mut items = first_bytes(bytes, count);
    exchange_at(region, at, header, &mut items);
    items
}

/// An atomic, a fetch-atomic or a swap: the region's elements become new ones, and the old ones are answered where asked.
fn exchange_elements(
    region: &mut Region,
    linked: &Linked,
    message: Message,
    spares: &mut SpareBuffers,
) -> Option<Message>
    requires part { IsPartIn (length region.old) linked.now }
    requires elements { has_elements message.header.kind ≡ true }
    ensures memory { region.new ≡ memory_after linked.now message region.old }
    ensures answer { result ≡ answer true (delivered linked.now message.header) (old_bytes linked.now message.header region.old)
        message.header }
{
    let (header, bytes) = message.into_parts();
    let count = delivered(linked, &header);
    let items = exchange_part(region, linked, &header, bytes);
    let bytes = Bytes::from_vec(items);
    if is_put_or_atomic(header.kind) {
        acknowledge(true, count, &header, bytes, spares)
    } else {
        Some(reply(&header, count, bytes))
    }
}

/// Writes what comes, and answers with what stood there.
pub fn exchange(
    region: &mut Region,
    linked: &Linked,
    message: Message,
    spares: &mut SpareBuffers,
) -> Option<Message>
    requires request { is_answer message.header.kind ≡ false }
    requires part { IsPartIn (length region.old) linked.now }
    ensures memory { region.new ≡ memory_after linked.now message region.old }
    ensures answer { result ≡ answer true (delivered linked.now message.header) (old_bytes linked.now message.header region.old)
        message.header }
{
    match message.header().kind {
        MessageKind::Put => {
            write_put(region, linked, &message);
            let (header, bytes) = message.into_parts();
            acknowledge(true, delivered(linked, &header), &header, bytes, spares)
        }
        MessageKind::Get => Some(read_get(region, linked, message)),
        _ => exchange_elements(region, linked, message, spares),
    }
}
