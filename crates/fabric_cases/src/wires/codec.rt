//! Messages as bytes, by hand.

use crate::answers::gives;
use message_codec::{DecodeError, Fault, decode, encode};
use ptl_types::{
    AckRequest, AtomicOp, Bytes, ElemType, Handle, Header, Message, MessageKind, SwapOp,
};
use std::alloc::Global;
use std::process::Abort;
use std::test::Fail;

/// An atomic sum of two elements, whose acknowledgement a descriptor awaits: byte by byte, by hand.
const SUM: [u8; 84] = [
    2, 1, 1, 3, 0, 2, 1, 0, // atomic, ok, counted acknowledgement, sum, no swap, U16, a home
    1, 0, 0, 0, 2, 1, 0, 0, 7, 0, 0, 0, 9, 0, 0, 0, // source 1, target 258, index 7, slot 9
    5, 0, 0, 0, 0, 0, 3, 0, 16, 0, 0, 0, 0, 0, 0, 0, // match bits 5 + 3 * 2^48, offset 16
    4, 0, 0, 0, 0, 0, 0, 0, 11, 0, 0, 0, 0, 0, 0, 128, // length 4, header data 11 + 2^63
    0, 0, 0, 0, 0, 0, 0, 0, 255, 255, 255, 255, 255, 255, 255, 255, // operand 0, stamp 2^64 - 1
    32, 0, 0, 0, 0, 0, 0, 0, 1, 2, 3, 4, // home offset 32, then the elements 513 and 1027
];

const SUM_HEADER: Header = Header {
    kind: MessageKind::Atomic,
    source: 1,
    target: 258,
    pt: 7,
    match_bits: 5 + 3 * 281_474_976_710_656,
    offset: 16,
    length: 4,
    hdr_data: 11 + 9_223_372_036_854_775_808,
    op: Some(AtomicOp::Sum),
    ty: ElemType::U16,
    ack: AckRequest::CtAck,
    home: Some(Handle {
        slot: 9,
        stamp: u64::MAX,
    }),
    home_offset: 32,
    ..Header::PLAIN
};

/// The message of these bytes.
fn read(alloc: Global, frame: &[u8]) -> Result<Message, Fail> {
    Ok(decode(alloc, frame).ok().ok_or("it is a message")?)
}

/// A message is written as these bytes.
fn encodes(rt: &impl Abort, alloc: Global, message: &Message, bytes: &[u8]) -> Result<(), Fail> {
    let mut out = Vec::new(alloc);
    encode(message, &mut out)?;
    gives!(rt; out.as_slice(), bytes);
    Ok(())
}

/// This is the sum.
fn is_sum(rt: &impl Abort, message: &Message) {
    gives!(rt; *message.header(), SUM_HEADER);
    gives!(rt; message.bytes().as_slice(), [1, 2, 3, 4].as_slice());
}

#[test]
fn a_sum_is_these_bytes(rt: HostRuntime) -> Result<(), Fail> {
    let elements = Bytes::of(rt.alloc(), &[1, 2, 3, 4])?;
    let message = Message::new(SUM_HEADER, elements);
    encodes(&rt, rt.alloc(), &message, &SUM)?;
    is_sum(&rt, &read(rt.alloc(), &SUM)?);
    Ok(())
}

/// This is a get of 24 bytes.
fn is_get(rt: &impl Abort, message: &Message) {
    gives!(rt; message.header().kind, MessageKind::Get);
    gives!(rt; message.bytes().room(), 24);
    gives!(rt; message.bytes().len(), 0);
}

#[test]
fn a_get_has_room(rt: HostRuntime) -> Result<(), Fail> {
    let mut get = [0; 80];
    get[0] = 1;
    get[1] = 1;
    get[40] = 24;
    is_get(&rt, &read(rt.alloc(), &get)?);
    Ok(())
}

/// This is a swap under a condition, with the operand 200.
fn is_swap(rt: &impl Abort, message: &Message) {
    gives!(rt; message.header().swap, Some(SwapOp::Cswap));
    gives!(rt; message.header().operand, 200);
}

#[test]
fn a_swap_is_read(rt: HostRuntime) -> Result<(), Fail> {
    let mut swap = [0; 81];
    swap[0] = 4;
    swap[1] = 1;
    swap[4] = 2;
    swap[40] = 1;
    swap[56] = 200;
    swap[80] = 6;
    is_swap(&rt, &read(rt.alloc(), &swap)?);
    Ok(())
}

/// The fault of bytes that are no message. `None`: they are one, or there is no memory.
fn fault_of(alloc: Global, frame: &[u8]) -> Option<Fault> {
    match decode(alloc, frame) {
        Err(DecodeError::Fault(fault)) => Some(fault),
        _ => None,
    }
}

/// The place of a byte of the sum, another value for it, and the fault of the bytes with it.
const FAULTS: &[(usize, u8, Fault)] = &[
    (0, 7, Fault::Kind),
    (0, 0, Fault::OperationOfKind),
    (0, 4, Fault::OperationOfKind),
    (1, 2, Fault::Delivered),
    (2, 3, Fault::Ack),
    (3, 11, Fault::Operation),
    (3, 0, Fault::OperationOfKind),
    (4, 4, Fault::Swap),
    (4, 1, Fault::SwapOfKind),
    (5, 8, Fault::ElementType),
    (6, 2, Fault::Home),
    (6, 0, Fault::StrayHome),
    (7, 1, Fault::Reserved),
    (40, 3, Fault::PartElement),
    (40, 6, Fault::Short),
];

/// The bytes of the sum, of which one has another value.
fn changed(place: usize, value: u8) -> [u8; 84] {
    let mut bytes = SUM;
    if let Some(byte) = bytes.get_mut(place) {
        *byte = value;
    }
    bytes
}

/// A swap of two elements, which has no operand for the second.
fn pair() -> [u8; 82] {
    let mut pair = [0; 82];
    pair[0] = 4;
    pair[1] = 1;
    pair[4] = 1;
    pair[40] = 2;
    pair
}

/// Stops the test where one of these has another fault.
fn each_fault(rt: &impl Abort, alloc: Global, rows: &[(usize, u8, Fault)]) {
    for (place, value, fault) in rows {
        gives!(rt; fault_of(alloc, &changed(*place, *value)), Some(*fault));
    }
}

#[test]
fn each_fault_has_its_name(rt: HostRuntime) {
    let alloc = rt.alloc();
    each_fault(&rt, alloc, FAULTS);
    gives!(&rt; fault_of(alloc, &changed(40, 2)), Some(Fault::Long));
    gives!(&rt; fault_of(alloc, &SUM[..79]), Some(Fault::Short));
    gives!(&rt; fault_of(alloc, &SUM[..83]), Some(Fault::Short));
    gives!(&rt; fault_of(alloc, &[]), Some(Fault::Short));
    gives!(&rt; fault_of(alloc, &pair()), Some(Fault::OneElement));
}

#[test]
fn faults_have_words(rt: HostRuntime) -> Result<(), Fail> {
    let text = format!(in rt.alloc();
        "{}; {}",
        DecodeError::Fault(Fault::Long),
        DecodeError::NoMemory
    )?;
    gives!(&rt; text.as_str(), "too many bytes; out of memory");
    Ok(())
}
