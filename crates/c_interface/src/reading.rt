//! A message read from the form that C has it in.

ghost use Rattle.std.specs.Prelude.{◌≡◌, IsTrue, false};
ghost use Rattle.ptl_types.specs.Messages.{bytes_due, room_due};
ghost use Rattle.ptl_types.specs.Kinds.{has_elements, has_op, is_swap};
ghost use Rattle.c_interface.specs.Messages.{GoesWith, Reads, header_by, header_of, kind_of, named, operation_of, swap_of, truth_of};

use crate::messages::CMessage;
use crate::statuses::{MALFORMED, NO_MEMORY, UNKNOWN};
use crate::telling::{ack_of, operation_of, swap_of, type_of};
use ptl_types::{AckRequest, AtomicOp, Bytes, ElemType, Header, Message, MessageKind, SwapOp};
use std::alloc::Global;

/// The kind of a number.
fn kind_of(number: u32) -> Option<MessageKind>
    ensures { result ≡ kind_of number }
{
    match number {
        0 => Some(MessageKind::Put),
        1 => Some(MessageKind::Get),
        2 => Some(MessageKind::Atomic),
        3 => Some(MessageKind::FetchAtomic),
        4 => Some(MessageKind::Swap),
        5 => Some(MessageKind::Ack),
        6 => Some(MessageKind::Reply),
        _ => None,
    }
}

/// The operation that a header names, if it names one; none where there is none of its number.
fn named_operation(number: u32) -> Option<Option<AtomicOp>>
    ensures { result ≡ named operation_of number }
{
    if number == 0 {
        return Some(None);
    }
    match operation_of(number - 1) {
        Some(op) => Some(Some(op)),
        None => None,
    }
}

/// The swap that a header names, alike.
fn named_swap(number: u32) -> Option<Option<SwapOp>>
    ensures { result ≡ named swap_of number }
{
    if number == 0 {
        return Some(None);
    }
    match swap_of(number - 1) {
        Some(swap) => Some(Some(swap)),
        None => None,
    }
}

/// 0 and 1 alone are truths.
fn truth_of(number: u32) -> Option<bool>
    ensures { result ≡ truth_of number }
{
    match number {
        0 => Some(false),
        1 => Some(true),
        _ => None,
    }
}

/// What the numbers of a header name, each if there is anything of its number.
#[derive(Clone, Copy)]
struct NamedParts {
    kind: Option<MessageKind>,
    ack: Option<AckRequest>,
    op: Option<Option<AtomicOp>>,
    swap: Option<Option<SwapOp>>,
    ty: Option<ElemType>,
    ok: Option<bool>,
}

/// The header of those parts; none where one of them names nothing.
fn header_by(head: &CMessage, named: NamedParts) -> Option<Header>
    ensures { result ≡ header_by head.now named.kind named.ack named.op named.swap named.ty named.ok }
{
    Some(Header {
        kind: named.kind?,
        source: head.source,
        target: head.target,
        pt: head.pt_index,
        match_bits: head.match_bits,
        offset: head.offset,
        length: head.length,
        hdr_data: head.hdr_data,
        op: named.op?,
        swap: named.swap?,
        ty: named.ty?,
        operand: head.operand,
        ack: named.ack?,
        home: head.home.given(),
        home_offset: head.home_offset,
        ok: named.ok?,
    })
}

/// The header of those numbers; none where one of them names nothing.
fn header_of(head: &CMessage) -> Option<Header>
    ensures { result ≡ header_of head.now }
{
    let named = NamedParts {
        kind: kind_of(head.kind),
        ack: ack_of(head.ack_req),
        op: named_operation(head.operation),
        swap: named_swap(head.swap),
        ty: type_of(head.datatype),
        ok: truth_of(head.ok),
    };
    header_by(head, named)
}

/// How many bytes go with a header.
fn bytes_due(header: &Header) -> u64
    ensures { result ≡ bytes_due header.now.kind header.now.ok header.now.length }
{
    match header.kind {
        MessageKind::Get | MessageKind::Ack => 0,
        MessageKind::Reply => { if header.ok { header.length } else { 0 } }
        _ => header.length,
    }
}

/// How much room goes with it beside them, for a reply.
fn room_due(header: &Header) -> u64
    ensures { result ≡ room_due header.now.kind header.now.length }
{
    match header.kind {
        MessageKind::Get => header.length,
        _ => 0,
    }
}

fn has_elements(kind: MessageKind) -> bool
    ensures { result ≡ has_elements kind }
{
    matches!(
        kind,
        MessageKind::Atomic | MessageKind::FetchAtomic | MessageKind::Swap
    )
}

fn has_op(kind: MessageKind) -> bool
    ensures { result ≡ has_op kind }
{
    matches!(kind, MessageKind::Atomic | MessageKind::FetchAtomic)
}

fn is_swap(kind: MessageKind) -> bool
    ensures { result ≡ is_swap kind }
{
    matches!(kind, MessageKind::Swap)
}

/// Whether the bytes, so many, go with the header.
fn goes_with(header: &Header, count: u64) -> bool
    ensures fits { IsTrue result → GoesWith header.now count }
    ensures misfits { result ≡ false → GoesWith header.now count → ⊥ }
{
    let size = header.ty.size();
    if count != bytes_due(header) {
        return false;
    }
    if has_elements(header.kind) && header.length % size != 0 {
        return false;
    }
    if header.op.is_some() != has_op(header.kind) {
        return false;
    }
    if header.swap.is_some() != is_swap(header.kind) {
        return false;
    }
    if is_swap(header.kind) && header.length != size {
        return false;
    }
    true
}

/// The message of a header and bytes from the caller, `UNKNOWN` where a number names nothing, `MALFORMED` where they don't belong
/// together, and else `NO_MEMORY` for want of memory.
pub fn message_of(alloc: Global, head: &CMessage, bytes: &[u8]) -> Result<Message, u32>
    ensures { Reads (header_of head.now) bytes.now result }
{
    let Some(header) = header_of(head) else {
        return Err(UNKNOWN);
    };
    let count = bytes.len() as u64;
    if !goes_with(&header, count) {
        return Err(MALFORMED);
    }
    let due = room_due(&header);
    let room = if due < count { count } else { due };
    match Bytes::with_room(alloc, room) {
        Ok(mut held) => {
            held.fill(bytes);
            Ok(Message::new(header, held))
        }
        Err(_) => Err(NO_MEMORY),
    }
}
