//! From bytes to a message.

ghost use Rattle.std.specs.Prelude.{◌≡◌, ◌+◌, ◌%◌, ◌==◌, ◌≤◌, Bool, Ok, Some, None, IfOk, length, drop};
ghost use Rattle.ptl_types.specs.Operations.{bytes_of};
ghost use Rattle.ptl_types.specs.Kinds.{has_elements, has_op, is_swap};
ghost use Rattle.ptl_types.specs.Messages.{Sent, FillsHeader, message, bytes_due};
ghost use Rattle.message_codec.specs.Encoding.{encoding, HasEncoding};
ghost use Rattle.message_codec.specs.Reading.{word_at, double_word_at, header_length, CodesAt};
ghost use Rattle.message_codec.specs.Reading.{HeaderAt, HomeAt, codes_at, home_at, header_at};
ghost use Rattle.message_codec.specs.Reading.{is_get, differ, fault_of, judged, reading, Gives};

use crate::HEADER;
use crate::codes::{ack_of, flag_of, kind_of, operation_of, swap_of, type_of};
use crate::fault::{DecodeError, Fault};
use ptl_types::{
    AckRequest, AtomicOp, Bytes, ElemType, Handle, Header, Message, MessageKind, NoMemory, SwapOp,
};
use std::alloc::Global;

fn word_at(frame: &[u8], at: usize) -> u32
    requires { at + 4 ≤ length frame.now }
    ensures { result ≡ word_at at frame.now }
{
    let (_, rest) = frame.split_at(at);
    let (front, _) = rest.split_at(4);
    u32::from_le_bytes([front[0], front[1], front[2], front[3]])
}

fn double_word_at(frame: &[u8], at: usize) -> u64
    requires { at + 8 ≤ length frame.now }
    ensures { result ≡ double_word_at at frame.now }
{
    let (_, rest) = frame.split_at(at);
    let (front, _) = rest.split_at(8);
    u64::from_le_bytes([
        front[0], front[1], front[2], front[3], front[4], front[5], front[6], front[7],
    ])
}

/// What the codes of a header stand for.
#[derive(Clone, Copy)]
struct Codes {
    kind: MessageKind,
    ok: bool,
    ack: AckRequest,
    op: Option<AtomicOp>,
    swap: Option<SwapOp>,
    ty: ElemType,
    home: bool,
}

#[tactic(auto, unfolding(crate::specs::Reading::codes_at))]
fn codes_of(frame: &[u8]) -> Result<Codes, Fault>
    requires { header_length ≤ length frame.now }
    ensures exact { result ≡ codes_at frame.now }
    ensures reads { IfOk result (λ codes. CodesAt frame.now codes) }
{
    let kind = kind_of(frame[0]).ok_or(Fault::Kind)?;
    let ok = flag_of(frame[1]).ok_or(Fault::Delivered)?;
    let ack = ack_of(frame[2]).ok_or(Fault::Ack)?;
    let op = operation_of(frame[3]).ok_or(Fault::Operation)?;
    let swap = swap_of(frame[4]).ok_or(Fault::Swap)?;
    let ty = type_of(frame[5]).ok_or(Fault::ElementType)?;
    let home = flag_of(frame[6]).ok_or(Fault::Home)?;
    if frame[7] != 0 {
        return Err(Fault::Reserved);
    }
    Ok(Codes {
        kind,
        ok,
        ack,
        op,
        swap,
        ty,
        home,
    })
}

#[tactic(auto, unfolding(crate::specs::Reading::home_at))]
fn home_of(is_there: bool, frame: &[u8]) -> Result<Option<Handle>, Fault>
    requires { header_length ≤ length frame.now }
    ensures exact { result ≡ home_at is_there frame.now }
    ensures reads { IfOk result (λ home. HomeAt is_there frame.now home) }
{
    let slot = word_at(frame, 20);
    let stamp = double_word_at(frame, 64);
    if is_there {
        return Ok(Some(Handle { slot, stamp }));
    }
    if slot != 0 || stamp != 0 {
        return Err(Fault::StrayHome);
    }
    Ok(None)
}

#[tactic(auto, unfolding(crate::specs::Reading::header_at))]
fn header_of(frame: &[u8]) -> Result<Header, Fault>
    requires { header_length ≤ length frame.now }
    ensures exact { result ≡ header_at frame.now }
    ensures reads { IfOk result (λ h. HeaderAt frame.now h) }
{
    let codes = codes_of(frame)?;
    let home = home_of(codes.home, frame)?;
    Ok(Header {
        kind: codes.kind,
        source: word_at(frame, 8),
        target: word_at(frame, 12),
        pt: word_at(frame, 16),
        match_bits: double_word_at(frame, 24),
        offset: double_word_at(frame, 32),
        length: double_word_at(frame, 40),
        hdr_data: double_word_at(frame, 48),
        op: codes.op,
        swap: codes.swap,
        ty: codes.ty,
        operand: double_word_at(frame, 56),
        ack: codes.ack,
        home,
        home_offset: double_word_at(frame, 72),
        ok: codes.ok,
    })
}

fn differ(a: bool, b: bool) -> bool
    ensures { result ≡ differ a b }
{
    if a { !b } else { b }
}

fn is_whole(ty: ElemType, n: u64) -> bool
    ensures { result ≡ (n % bytes_of ty == 0) }
{
    match ty {
        ElemType::U8 | ElemType::I8 => n % 1 == 0,
        ElemType::U16 | ElemType::I16 => n % 2 == 0,
        ElemType::U32 | ElemType::I32 => n % 4 == 0,
        ElemType::U64 | ElemType::I64 => n % 8 == 0,
    }
}

fn has_elements(kind: MessageKind) -> bool
    ensures { result ≡ has_elements kind }
{
    matches!(
        kind,
        MessageKind::Atomic | MessageKind::FetchAtomic | MessageKind::Swap
    )
}

fn has_op(kind: MessageKind) -> bool
    ensures { result ≡ has_op kind }
{
    matches!(kind, MessageKind::Atomic | MessageKind::FetchAtomic)
}

fn is_swap(kind: MessageKind) -> bool
    ensures { result ≡ is_swap kind }
{
    matches!(kind, MessageKind::Swap)
}

fn is_get(kind: MessageKind) -> bool
    ensures { result ≡ is_get kind }
{
    matches!(kind, MessageKind::Get)
}

fn bytes_due(h: &Header) -> u64
    ensures { result ≡ bytes_due h.now.kind h.now.ok h.now.length }
{
    match h.kind {
        MessageKind::Get | MessageKind::Ack => 0,
        MessageKind::Reply => { if h.ok { h.length } else { 0 } }
        _ => h.length,
    }
}

/// What is wrong with a header that this many bytes follow.
#[tactic(auto, unfolding(crate::specs::Reading::fault_of))]
fn fault_of(h: &Header, bytes: u64) -> Option<Fault>
    ensures { result ≡ fault_of h.now bytes }
{
    if differ(h.op.is_some(), has_op(h.kind)) {
        return Some(Fault::OperationOfKind);
    }
    if differ(h.swap.is_some(), is_swap(h.kind)) {
        return Some(Fault::SwapOfKind);
    }
    if has_elements(h.kind) && !is_whole(h.ty, h.length) {
        return Some(Fault::PartElement);
    }
    if is_swap(h.kind) && h.length != h.ty.size() {
        return Some(Fault::OneElement);
    }
    let due = bytes_due(h);
    if bytes < due {
        return Some(Fault::Short);
    }
    if due < bytes {
        return Some(Fault::Long);
    }
    None
}

/// The bytes that go with a header: for a get none, with room for what it asks for.
fn bytes_for(alloc: Global, header: &Header, list: &[u8]) -> Result<Bytes, NoMemory>
    requires { fault_of header.now (length list.now) ≡ None }
    ensures list { IfOk result (λ b. b.list ≡ list.now) }
    ensures fills { IfOk result (λ b. FillsHeader header.now b) }
{
    if is_get(header.kind) {
        return Bytes::with_room(alloc, header.length);
    }
    Bytes::of(alloc, list)
}

/// The message of a header and its bytes.
fn message_of(alloc: Global, header: Header, list: &[u8]) -> Result<Message, NoMemory>
    requires { fault_of header (length list.now) ≡ None }
    ensures { IfOk result (λ m. m ≡ message header list.now) }
{
    let bytes = bytes_for(alloc, &header, list)?;
    Ok(Message::new(header, bytes))
}

/// The message of a header and the bytes behind it, unless something is wrong with them.
fn judged(alloc: Global, header: Header, list: &[u8]) -> Result<Message, DecodeError>
    ensures made { IfOk result (λ m. m ≡ message header list.now) }
    ensures exact { Gives result (judged header list.now (fault_of header (length list.now))) }
{
    match fault_of(&header, list.len() as u64) {
        Some(fault) => Err(DecodeError::Fault(fault)),
        None => match message_of(alloc, header, list) {
            Ok(message) => Ok(message),
            Err(NoMemory) => Err(DecodeError::NoMemory),
        },
    }
}

/// What bytes are read as.
#[tactic(auto, unfolding(crate::specs::Reading::reading))]
fn decoded(alloc: Global, frame: &[u8]) -> Result<Message, DecodeError>
    ensures found { IfOk result (λ m. frame.now ≡ encoding m) }
    ensures exact { Gives result (reading frame.now) }
{
    if frame.len() < HEADER {
        return Err(DecodeError::Fault(Fault::Short));
    }
    let header = match header_of(frame) {
        Ok(header) => header,
        Err(fault) => return Err(DecodeError::Fault(fault)),
    };
    let (_, list) = frame.split_at(HEADER);
    judged(alloc, header, list)
}

/// The message of these bytes, all of the bytes. Nothing is kept of what is refused. A get takes memory for what it asks for.
pub fn decode(alloc: Global, frame: &[u8]) -> Result<Message, DecodeError>
    // What is read is encoded so,
    ensures found { IfOk result (λ m. frame.now ≡ encoding m) }
    // what is encoded so is read, unless memory runs out,
    ensures only { (m : Sent) → HasEncoding m → frame.now ≡ encoding m → Gives result (Ok m) }
    // and which fault it is.
    ensures exact { Gives result (reading frame.now) }
{
    decoded(alloc, frame)
}
