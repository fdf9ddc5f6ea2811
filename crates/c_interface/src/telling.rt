//! The numbers of a message's parts, and a message handed out by them.

ghost use Rattle.std.specs.Prelude.{◌≡◌};
ghost use Rattle.c_interface.specs.Messages.{ack_number, ack_of, handed, home_told, kind_number, message_told, onto, operation_of};
ghost use Rattle.c_interface.specs.Messages.{operation_told, swap_of, swap_told, type_number, type_of};

use crate::forms::CHandle;
use crate::messages::CMessage;
use crate::told::bit;
use ptl_types::{AckRequest, AtomicOp, ElemType, Handle, Message, MessageKind, SwapOp};

/// The number of a kind of message.
fn kind_number(kind: MessageKind) -> u32
    ensures { result ≡ kind_number kind }
{
    match kind {
        MessageKind::Put => 0,
        MessageKind::Get => 1,
        MessageKind::Atomic => 2,
        MessageKind::FetchAtomic => 3,
        MessageKind::Swap => 4,
        MessageKind::Ack => 5,
        MessageKind::Reply => 6,
    }
}

/// The number of an acknowledgement that is asked for.
fn ack_number(ack: AckRequest) -> u32
    ensures { result ≡ ack_number ack }
{
    match ack {
        AckRequest::NoAck => 0,
        AckRequest::CtAck => 1,
        AckRequest::Ack => 2,
    }
}

/// The acknowledgement of a number.
pub fn ack_of(number: u32) -> Option<AckRequest>
    ensures { result ≡ ack_of number }
{
    match number {
        0 => Some(AckRequest::NoAck),
        1 => Some(AckRequest::CtAck),
        2 => Some(AckRequest::Ack),
        _ => None,
    }
}

/// The operation of a number.
pub fn operation_of(number: u32) -> Option<AtomicOp>
    ensures { result ≡ operation_of number }
{
    match number {
        0 => Some(AtomicOp::Min),
        1 => Some(AtomicOp::Max),
        2 => Some(AtomicOp::Sum),
        3 => Some(AtomicOp::Prod),
        4 => Some(AtomicOp::Lor),
        5 => Some(AtomicOp::Land),
        6 => Some(AtomicOp::Bor),
        7 => Some(AtomicOp::Band),
        8 => Some(AtomicOp::Lxor),
        9 => Some(AtomicOp::Bxor),
        _ => None,
    }
}

/// The number of an operation in a header: 0 for none, else one higher.
fn operation_told(op: Option<AtomicOp>) -> u32
    ensures { result ≡ operation_told op }
{
    match op {
        None => 0,
        Some(AtomicOp::Min) => 1,
        Some(AtomicOp::Max) => 2,
        Some(AtomicOp::Sum) => 3,
        Some(AtomicOp::Prod) => 4,
        Some(AtomicOp::Lor) => 5,
        Some(AtomicOp::Land) => 6,
        Some(AtomicOp::Bor) => 7,
        Some(AtomicOp::Band) => 8,
        Some(AtomicOp::Lxor) => 9,
        Some(AtomicOp::Bxor) => 10,
    }
}

/// The swap of a number.
pub fn swap_of(number: u32) -> Option<SwapOp>
    ensures { result ≡ swap_of number }
{
    match number {
        0 => Some(SwapOp::Swap),
        1 => Some(SwapOp::Cswap),
        2 => Some(SwapOp::Mswap),
        _ => None,
    }
}

/// The number of a swap in a header, alike.
fn swap_told(swap: Option<SwapOp>) -> u32
    ensures { result ≡ swap_told swap }
{
    match swap {
        None => 0,
        Some(SwapOp::Swap) => 1,
        Some(SwapOp::Cswap) => 2,
        Some(SwapOp::Mswap) => 3,
    }
}

/// The number of a type of element.
fn type_number(ty: ElemType) -> u32
    ensures { result ≡ type_number ty }
{
    match ty {
        ElemType::U8 => 0,
        ElemType::I8 => 1,
        ElemType::U16 => 2,
        ElemType::I16 => 3,
        ElemType::U32 => 4,
        ElemType::I32 => 5,
        ElemType::U64 => 6,
        ElemType::I64 => 7,
    }
}

/// The type of a number.
pub fn type_of(number: u32) -> Option<ElemType>
    ensures { result ≡ type_of number }
{
    match number {
        0 => Some(ElemType::U8),
        1 => Some(ElemType::I8),
        2 => Some(ElemType::U16),
        3 => Some(ElemType::I16),
        4 => Some(ElemType::U32),
        5 => Some(ElemType::I32),
        6 => Some(ElemType::U64),
        7 => Some(ElemType::I64),
        _ => None,
    }
}

/// The handle of the descriptor that awaits an answer.
fn home_told(home: Option<Handle>) -> CHandle
    ensures { result ≡ home_told home }
{
    match home {
        Some(home) => CHandle::of(home),
        None => CHandle::NONE,
    }
}

/// What a caller sees of a message.
fn told(message: &Message) -> CMessage
    ensures { result ≡ message_told message.now }
{
    let header = *message.header();
    CMessage {
        kind: kind_number(header.kind),
        source: header.source,
        target: header.target,
        pt_index: header.pt,
        ack_req: ack_number(header.ack),
        operation: operation_told(header.op),
        swap: swap_told(header.swap),
        datatype: type_number(header.ty),
        ok: bit(header.ok),
        home: home_told(header.home),
        home_offset: header.home_offset,
        match_bits: header.match_bits,
        offset: header.offset,
        length: header.length,
        hdr_data: header.hdr_data,
        operand: header.operand,
        bytes: message.bytes().len(),
    }
}

/// Copies bytes to the front of a buffer, as many as it has room for.
pub fn onto(bytes: &[u8], out: &mut [u8])
    ensures { out.new ≡ onto bytes.now out.old }
{
    let count = if bytes.len() <= out.len() {
        bytes.len()
    } else {
        out.len()
    };
    out[..count].copy_from_slice(&bytes[..count]);
}

/// Hands a message to the caller: its header, and as many of its bytes as there is room for.
pub fn hand_out(message: &Message, head: &mut CMessage, out: &mut [u8])
    ensures { (head.new, out.new) ≡ handed message.now (head.old, out.old) }
{
    *head = told(message);
    onto(message.bytes().as_slice(), out);
}
