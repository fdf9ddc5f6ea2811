//! The one-byte codes of a header.

ghost use Rattle.std.specs.Prelude.{◌≡◌, IfSome};
ghost use Rattle.std.specs.List.{slice_get};
ghost use Rattle.message_codec.specs.Codes.{kinds, acks, operations, swaps, types, flags};
ghost use Rattle.message_codec.specs.Codes.{kind_code, ack_code, operation_code, swap_code, type_code, flag_code};

use ptl_types::{AckRequest, AtomicOp, ElemType, MessageKind, SwapOp};

/// The code of a kind of message: from 0 in the order of its definition.
pub fn kind_code(kind: MessageKind) -> u8
    ensures { result ≡ kind_code kind }
{
    match kind {
        MessageKind::Put => 0,
        MessageKind::Get => 1,
        MessageKind::Atomic => 2,
        MessageKind::FetchAtomic => 3,
        MessageKind::Swap => 4,
        MessageKind::Ack => 5,
        MessageKind::Reply => 6,
    }
}

/// The kind of message with this code; `None` where no kind has it.
pub fn kind_of(code: u8) -> Option<MessageKind>
    ensures exact { result ≡ slice_get kinds code }
    ensures back { IfSome result (λ kind. code ≡ kind_code kind) }
{
    match code {
        0 => Some(MessageKind::Put),
        1 => Some(MessageKind::Get),
        2 => Some(MessageKind::Atomic),
        3 => Some(MessageKind::FetchAtomic),
        4 => Some(MessageKind::Swap),
        5 => Some(MessageKind::Ack),
        6 => Some(MessageKind::Reply),
        _ => None,
    }
}

/// The code of how a request asks for an acknowledgement: none 0, counted 1, with an event 2.
pub fn ack_code(ack: AckRequest) -> u8
    ensures { result ≡ ack_code ack }
{
    match ack {
        AckRequest::NoAck => 0,
        AckRequest::CtAck => 1,
        AckRequest::Ack => 2,
    }
}

/// How a request with this code asks for an acknowledgement; `None` where the code is of none.
pub fn ack_of(code: u8) -> Option<AckRequest>
    ensures exact { result ≡ slice_get acks code }
    ensures back { IfSome result (λ ack. code ≡ ack_code ack) }
{
    match code {
        0 => Some(AckRequest::NoAck),
        1 => Some(AckRequest::CtAck),
        2 => Some(AckRequest::Ack),
        _ => None,
    }
}

/// The code of an operation: 0 where there is none, else from 1 in the order of its definition.
pub fn operation_code(op: Option<AtomicOp>) -> u8
    ensures { result ≡ operation_code op }
{
    match op {
        None => 0,
        Some(AtomicOp::Min) => 1,
        Some(AtomicOp::Max) => 2,
        Some(AtomicOp::Sum) => 3,
        Some(AtomicOp::Prod) => 4,
        Some(AtomicOp::Lor) => 5,
        Some(AtomicOp::Land) => 6,
        Some(AtomicOp::Bor) => 7,
        Some(AtomicOp::Band) => 8,
        Some(AtomicOp::Lxor) => 9,
        Some(AtomicOp::Bxor) => 10,
    }
}

/// The operation with this code, none for 0; `None` where the code is of no operation.
pub fn operation_of(code: u8) -> Option<Option<AtomicOp>>
    ensures exact { result ≡ slice_get operations code }
    ensures back { IfSome result (λ op. code ≡ operation_code op) }
{
    match code {
        0 => Some(None),
        1 => Some(Some(AtomicOp::Min)),
        2 => Some(Some(AtomicOp::Max)),
        3 => Some(Some(AtomicOp::Sum)),
        4 => Some(Some(AtomicOp::Prod)),
        5 => Some(Some(AtomicOp::Lor)),
        6 => Some(Some(AtomicOp::Land)),
        7 => Some(Some(AtomicOp::Bor)),
        8 => Some(Some(AtomicOp::Band)),
        9 => Some(Some(AtomicOp::Lxor)),
        10 => Some(Some(AtomicOp::Bxor)),
        _ => None,
    }
}

/// The code of a swap: 0 where there is none, plain 1, conditional 2, masked 3.
pub fn swap_code(swap: Option<SwapOp>) -> u8
    ensures { result ≡ swap_code swap }
{
    match swap {
        None => 0,
        Some(SwapOp::Swap) => 1,
        Some(SwapOp::Cswap) => 2,
        Some(SwapOp::Mswap) => 3,
    }
}

/// The swap with this code, none for 0; `None` where the code is of no swap.
pub fn swap_of(code: u8) -> Option<Option<SwapOp>>
    ensures exact { result ≡ slice_get swaps code }
    ensures back { IfSome result (λ swap. code ≡ swap_code swap) }
{
    match code {
        0 => Some(None),
        1 => Some(Some(SwapOp::Swap)),
        2 => Some(Some(SwapOp::Cswap)),
        3 => Some(Some(SwapOp::Mswap)),
        _ => None,
    }
}

/// The code of an element's type: from 0 in the order of its definition.
pub fn type_code(ty: ElemType) -> u8
    ensures { result ≡ type_code ty }
{
    match ty {
        ElemType::U8 => 0,
        ElemType::I8 => 1,
        ElemType::U16 => 2,
        ElemType::I16 => 3,
        ElemType::U32 => 4,
        ElemType::I32 => 5,
        ElemType::U64 => 6,
        ElemType::I64 => 7,
    }
}

/// The type with this code; `None` where no type has it.
pub fn type_of(code: u8) -> Option<ElemType>
    ensures exact { result ≡ slice_get types code }
    ensures back { IfSome result (λ ty. code ≡ type_code ty) }
{
    match code {
        0 => Some(ElemType::U8),
        1 => Some(ElemType::I8),
        2 => Some(ElemType::U16),
        3 => Some(ElemType::I16),
        4 => Some(ElemType::U32),
        5 => Some(ElemType::I32),
        6 => Some(ElemType::U64),
        7 => Some(ElemType::I64),
        _ => None,
    }
}

/// The code of a flag: 1 where it is set, else 0.
pub fn flag_code(flag: bool) -> u8
    ensures { result ≡ flag_code flag }
{
    if flag { 1 } else { 0 }
}

/// The flag with this code; `None` where the code is neither 0 nor 1.
pub fn flag_of(code: u8) -> Option<bool>
    ensures exact { result ≡ slice_get flags code }
    ensures back { IfSome result (λ flag. code ≡ flag_code flag) }
{
    match code {
        0 => Some(false),
        1 => Some(true),
        _ => None,
    }
}
