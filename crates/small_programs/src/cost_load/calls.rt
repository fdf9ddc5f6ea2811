//! The calls of an interface that take more than a line each.

use portals_ni::Nic;
use ptl_types::{
    AckRequest, Appended, AtomicOp, Count, ElemType, Entry, GetArgs, Handle, List, Message,
    Outcome, PutArgs, SwapOp, TriggeredOp,
};

/// One success.
pub const ONE: Count = Count {
    success: 1,
    failure: 0,
};

/// Links an entry; `None` where it took a header instead.
pub fn append(nic: &mut Nic, pt: u32, list: List, entry: Entry) -> Option<Handle> {
    match nic.me_append(pt, list, entry) {
        Ok(Appended::Linked(me)) => Some(me),
        _ => None,
    }
}

/// The sending half of an operation of one byte to the rank itself.
fn one_byte(md: Handle, pt: u32, match_bits: u64, ack: AckRequest) -> PutArgs {
    PutArgs {
        md,
        local_offset: 0,
        length: 1,
        ack,
        target: 0,
        pt,
        match_bits,
        remote_offset: 0,
        hdr_data: 0,
    }
}

/// The receiving half.
fn one_byte_back(md: Handle, pt: u32, match_bits: u64) -> GetArgs {
    GetArgs {
        md,
        local_offset: 0,
        length: 1,
        target: 0,
        pt,
        match_bits,
        remote_offset: 0,
    }
}

/// Starts a put of one byte, with an acknowledgement where asked.
pub fn put(
    nic: &mut Nic,
    md: Handle,
    pt: u32,
    match_bits: u64,
    ack: AckRequest,
) -> Option<Message> {
    guarded_ni::put(nic, one_byte(md, pt, match_bits, ack)).ok()
}

/// Starts a get of one byte.
pub fn get(nic: &mut Nic, md: Handle, pt: u32, match_bits: u64) -> Option<Message> {
    guarded_ni::get(nic, one_byte_back(md, pt, match_bits)).ok()
}

/// Starts an atomic sum of one byte.
pub fn atomic(nic: &mut Nic, md: Handle, pt: u32, match_bits: u64) -> Option<Message> {
    let args = one_byte(md, pt, match_bits, AckRequest::NoAck);
    guarded_ni::atomic(nic, args, AtomicOp::Sum, ElemType::U8).ok()
}

/// Starts a fetching sum of one byte.
pub fn fetch_atomic(nic: &mut Nic, md: Handle, pt: u32, match_bits: u64) -> Option<Message> {
    let back = one_byte_back(md, pt, match_bits);
    let args = one_byte(md, pt, match_bits, AckRequest::NoAck);
    guarded_ni::fetch_atomic(nic, back, args, AtomicOp::Sum, ElemType::U8).ok()
}

/// Starts a swap of one byte.
pub fn swap(nic: &mut Nic, md: Handle, pt: u32, match_bits: u64) -> Option<Message> {
    let back = one_byte_back(md, pt, match_bits);
    let args = one_byte(md, pt, match_bits, AckRequest::NoAck);
    guarded_ni::swap(nic, back, args, SwapOp::Swap, ElemType::U8, 0).ok()
}

/// Delivers an acknowledgement or a reply; whether a descriptor awaited it.
fn deliver_answer(nic: &mut Nic, answer: Message) -> bool {
    match guarded_ni::deliver(nic, answer) {
        Ok(delivered) => delivered.outcome == Outcome::Answered,
        Err(_) => false,
    }
}

/// Delivers a message, and the answer that it asks for; whether an entry took the one and a descriptor awaited the other.
pub fn exchange(nic: &mut Nic, started: Option<Message>) -> bool {
    let Some(message) = started else {
        return false;
    };
    let Ok(delivered) = guarded_ni::deliver(nic, message) else {
        return false;
    };
    match delivered.answer {
        Some(answer) => deliver_answer(nic, answer),
        None => delivered.outcome == Outcome::Matched || delivered.outcome == Outcome::Overflow,
    }
}

/// Whether the calls that only read one thing answer what an interface of this program has.
pub fn reads(nic: &Nic) -> bool {
    let registers = nic.drops() == 0 && nic.violations() == 0;
    registers
        && nic.rank() == 0
        && nic.ranks() == 1
        && nic.limits().pts > 0
        && nic.pending() > 0
        && !nic.memory().is_empty()
}

/// Posts an increment of one counting event on another.
pub fn post(nic: &mut Nic, counts: Handle, waits: Handle, threshold: u64) -> Option<u32> {
    guarded_ni::triggered(nic, TriggeredOp::Inc(counts, ONE), waits, threshold).ok()
}

/// Fires an operation that is ready; whether there was one.
pub fn fire(nic: &mut Nic) -> bool {
    match nic.ready() {
        Some(number) => guarded_ni::fire(nic, number).is_ok(),
        None => false,
    }
}
