//! Single words of answers.

ghost use Rattle.std.specs.Prelude.{◌≡◌};
ghost use Rattle.log_answers.specs.Texts.{ack_word, event_word, kind_word, op_word, outcome_word, swap_word, type_word};

use ptl_types::{AckRequest, AtomicOp, ElemType, EventKind, MessageKind, Outcome, SwapOp};

/// The word of an outcome.
pub(crate) fn outcome_word(outcome: Outcome) -> &'static [u8]
    ensures { result.now ≡ outcome_word outcome }
{
    match outcome {
        Outcome::Matched => b"matched",
        Outcome::Overflow => b"overflow",
        Outcome::Answered => b"answered",
        Outcome::Dropped => b"dropped",
        Outcome::Violation => b"violation",
    }
}

/// The word of a kind of message.
pub(crate) fn kind_word(kind: MessageKind) -> &'static [u8]
    ensures { result.now ≡ kind_word kind }
{
    match kind {
        MessageKind::Put => b"put",
        MessageKind::Get => b"get",
        MessageKind::Atomic => b"atomic",
        MessageKind::FetchAtomic => b"fetch_atomic",
        MessageKind::Swap => b"swap",
        MessageKind::Ack => b"ack",
        MessageKind::Reply => b"reply",
    }
}

/// The word of a kind of event.
pub(crate) fn event_word(kind: EventKind) -> &'static [u8]
    ensures { result.now ≡ event_word kind }
{
    match kind {
        EventKind::Put => b"put",
        EventKind::PutOverflow => b"put_overflow",
        EventKind::Get => b"get",
        EventKind::Atomic => b"atomic",
        EventKind::AtomicOverflow => b"atomic_overflow",
        EventKind::FetchAtomic => b"fetch_atomic",
        EventKind::Reply => b"reply",
        EventKind::Send => b"send",
        EventKind::Ack => b"ack",
        EventKind::Link => b"link",
        EventKind::AutoUnlink => b"auto_unlink",
        EventKind::AutoFree => b"auto_free",
        EventKind::Search => b"search",
    }
}

/// The word of an operation, `-` where there is none.
pub(crate) fn op_word(op: Option<AtomicOp>) -> &'static [u8]
    ensures { result.now ≡ op_word op }
{
    match op {
        None => b"-",
        Some(AtomicOp::Min) => b"min",
        Some(AtomicOp::Max) => b"max",
        Some(AtomicOp::Sum) => b"sum",
        Some(AtomicOp::Prod) => b"prod",
        Some(AtomicOp::Lor) => b"lor",
        Some(AtomicOp::Land) => b"land",
        Some(AtomicOp::Bor) => b"bor",
        Some(AtomicOp::Band) => b"band",
        Some(AtomicOp::Lxor) => b"lxor",
        Some(AtomicOp::Bxor) => b"bxor",
    }
}

/// The word of a swap, `-` where there is none.
pub(crate) fn swap_word(swap: Option<SwapOp>) -> &'static [u8]
    ensures { result.now ≡ swap_word swap }
{
    match swap {
        None => b"-",
        Some(SwapOp::Swap) => b"swap",
        Some(SwapOp::Cswap) => b"cswap",
        Some(SwapOp::Mswap) => b"mswap",
    }
}

/// The word of a type of elements.
pub(crate) fn type_word(ty: ElemType) -> &'static [u8]
    ensures { result.now ≡ type_word ty }
{
    match ty {
        ElemType::U8 => b"u8",
        ElemType::I8 => b"i8",
        ElemType::U16 => b"u16",
        ElemType::I16 => b"i16",
        ElemType::U32 => b"u32",
        ElemType::I32 => b"i32",
        ElemType::U64 => b"u64",
        ElemType::I64 => b"i64",
    }
}

/// The word of the acknowledgement that is asked for.
pub(crate) fn ack_word(ack: AckRequest) -> &'static [u8]
    ensures { result.now ≡ ack_word ack }
{
    match ack {
        AckRequest::NoAck => b"none",
        AckRequest::CtAck => b"ct",
        AckRequest::Ack => b"full",
    }
}
