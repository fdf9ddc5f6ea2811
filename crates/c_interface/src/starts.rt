//! The starts of operations (Portals 4.3, data movement operations). The message that a start makes is handed to the caller, to be
//! carried to its target.

ghost use Rattle.std.specs.Prelude.{List, ℕ, ◌≡◌, ◌<◌, nat_lt};
ghost use Rattle.ptl_types.specs.declared.calls.TriggeredOp.TheVariants.{Put, Get, Atomic, FetchAtomic, Swap};
ghost use Rattle.nic_handles.specs.Holding.{held};
ghost use Rattle.c_interface.specs.declared.messages.CMessage.{CMessage as Head};
ghost use Rattle.c_interface.specs.Calls.{Sends, Starts, action_of, fetches, get_args, put_args, sent_with, swaps};
ghost use Rattle.c_interface.specs.Forms.{both_of, handle_of};
ghost use Rattle.c_interface.specs.Messages.{ack_of, handed, operation_of, swap_of, three_of, type_of};
ghost use Rattle.c_interface.specs.Over.{Named, writes};
ghost use Rattle.c_interface.specs.Statuses.{fault_number, status_by};

use crate::forms::CHandle;
use crate::messages::CMessage;
use crate::statuses::{CLOSED, OK, SHORT, UNKNOWN, fault};
use crate::telling::{ack_of, hand_out, operation_of, swap_of, type_of};
use guarded_ni::CallFault;
use nic_handles::NiHandle;
use portals_ni::Nic;
use ptl_types::{AckRequest, AtomicOp, ElemType, GetArgs, Message, PutArgs, SwapOp};
use std::alloc::Global;

/// An operation that is started at once: a `TriggeredOp` but for the changes of counting events.
#[derive(Clone, Copy)]
pub enum StartOp {
    /// A put.
    Put(PutArgs),
    /// A get.
    Get(GetArgs),
    /// An atomic.
    Atomic(PutArgs, AtomicOp, ElemType),
    /// A fetching atomic: where its answer goes, and what is sent.
    FetchAtomic(GetArgs, PutArgs, AtomicOp, ElemType),
    /// A swap, alike, with its operand.
    Swap(GetArgs, PutArgs, SwapOp, ElemType, u64),
}

/// Whether there is no room for each message of an interface.
pub fn is_short(nic: &Nic, room: usize) -> bool
    ensures { result ≡ nat_lt room nic.now.limits.msg }
{
    (room as u64) < nic.limits().msg
}

/// Hands the message of a start to the caller.
fn message_out(made: Result<Message, CallFault>, head: &mut CMessage, out: &mut [u8]) -> u32
    ensures numbered { result ≡ status_by fault_number made }
    ensures written { (head.new, out.new) ≡ writes handed made (head.old, out.old) }
{
    match made {
        Ok(message) => {
            hand_out(&message, head, out);
            OK
        }
        Err(why) => fault(why),
    }
}

/// An acknowledgement, an operation and a type, where each number names one.
pub fn ack_operation_type(
    ack: u32,
    operation: u32,
    datatype: u32,
) -> Option<(AckRequest, AtomicOp, ElemType)>
    ensures { result ≡ three_of (ack_of ack) (operation_of operation) (type_of datatype) }
{
    let ack = ack_of(ack);
    let op = operation_of(operation);
    let ty = type_of(datatype);
    Some((ack?, op?, ty?))
}

/// An operation and a type, alike.
pub fn operation_type(operation: u32, datatype: u32) -> Option<(AtomicOp, ElemType)>
    ensures { result ≡ both_of (operation_of operation) (type_of datatype) }
{
    let op = operation_of(operation);
    let ty = type_of(datatype);
    Some((op?, ty?))
}

/// A swap and a type, alike.
pub fn swap_type(operation: u32, datatype: u32) -> Option<(SwapOp, ElemType)>
    ensures { result ≡ both_of (swap_of operation) (type_of datatype) }
{
    let op = swap_of(operation);
    let ty = type_of(datatype);
    Some((op?, ty?))
}

/// The half that is sent of a fetching operation.
pub fn sent_with(back: GetArgs, md: CHandle, local_offset: u64, hdr_data: u64) -> PutArgs
    ensures { result ≡ sent_with back (handle_of md) local_offset hdr_data }
{
    PutArgs {
        md: md.handle(),
        local_offset,
        length: back.length,
        ack: AckRequest::NoAck,
        target: back.target,
        pt: back.pt,
        match_bits: back.match_bits,
        remote_offset: back.remote_offset,
        hdr_data,
    }
}

/// Starts an operation at an interface.
fn start(nic: &mut Nic, action: StartOp) -> Result<Message, CallFault>
    ensures { Starts (action_of action) nic.old nic.new result }
{
    match action {
        StartOp::Put(args) => guarded_ni::put(nic, args),
        StartOp::Get(args) => guarded_ni::get(nic, args),
        StartOp::Atomic(args, op, ty) => guarded_ni::atomic(nic, args, op, ty),
        StartOp::FetchAtomic(back, args, op, ty) => guarded_ni::fetch_atomic(
            nic, back, args, op, ty,
        ),
        StartOp::Swap(back, args, op, ty, operand) => guarded_ni::swap(
            nic, back, args, op, ty, operand,
        ),
    }
}

/// Starts an operation, and hands its message out.
fn send(
    alloc: Global,
    ni: &mut NiHandle,
    action: StartOp,
    head: &mut CMessage,
    out: &mut [u8],
) -> u32
    ensures { Sends (action_of action) (head.old, out.old) (head.new, out.new) (held ni.old) (held ni.new) result }
{
    match ni.take(alloc) {
        Some(mut nic) => {
            if is_short(nic.as_ref(), out.len()) {
                *ni = NiHandle::of(nic);
                return SHORT;
            }
            let made = start(nic.as_mut(), action);
            *ni = NiHandle::of(nic);
            message_out(made, head, out)
        }
        None => CLOSED,
    }
}

/// `PtlPut`.
#[unsafe(no_mangle)]
pub extern "C" fn PtlPut(
    alloc: Global,
    ni: &mut NiHandle,
    md: CHandle,
    local_offset: u64,
    length: u64,
    ack_req: u32,
    target: u32,
    pt_index: u32,
    match_bits: u64,
    remote_offset: u64,
    hdr_data: u64,
    head: &mut CMessage,
    out: &mut [u8],
) -> u32
    ensures { Named {Out = Head × List ℕ} (λ a. Sends (Put (put_args (handle_of md) local_offset length a target pt_index match_bits
        remote_offset hdr_data))
        (head.old, out.old) (head.new, out.new) (held ni.old) (held ni.new) result)
        (head.old, out.old) (head.new, out.new) (held ni.old) (held ni.new) result (ack_of ack_req) }
{
    match ack_of(ack_req) {
        Some(ack) => send(
            alloc,
            ni,
            StartOp::Put(PutArgs {
                md: md.handle(),
                local_offset,
                length,
                ack,
                target,
                pt: pt_index,
                match_bits,
                remote_offset,
                hdr_data,
            }),
            head,
            out,
        ),
        None => UNKNOWN,
    }
}

/// `PtlGet`.
#[unsafe(no_mangle)]
pub extern "C" fn PtlGet(
    alloc: Global,
    ni: &mut NiHandle,
    md: CHandle,
    local_offset: u64,
    length: u64,
    target: u32,
    pt_index: u32,
    match_bits: u64,
    remote_offset: u64,
    head: &mut CMessage,
    out: &mut [u8],
) -> u32
    ensures { Sends (Get (get_args (handle_of md) local_offset length target pt_index match_bits remote_offset))
        (head.old, out.old) (head.new, out.new) (held ni.old) (held ni.new) result }
{
    let args = GetArgs {
        md: md.handle(),
        local_offset,
        length,
        target,
        pt: pt_index,
        match_bits,
        remote_offset,
    };
    send(alloc, ni, StartOp::Get(args), head, out)
}

/// `PtlAtomic`.
#[unsafe(no_mangle)]
pub extern "C" fn PtlAtomic(
    alloc: Global,
    ni: &mut NiHandle,
    md: CHandle,
    local_offset: u64,
    length: u64,
    ack_req: u32,
    target: u32,
    pt_index: u32,
    match_bits: u64,
    remote_offset: u64,
    hdr_data: u64,
    operation: u32,
    datatype: u32,
    head: &mut CMessage,
    out: &mut [u8],
) -> u32
    ensures { Named {Out = Head × List ℕ} (λ x. Sends (Atomic (put_args (handle_of md) local_offset length x.0 target pt_index match_bits
        remote_offset
        hdr_data) x.1 x.2)
        (head.old, out.old) (head.new, out.new) (held ni.old) (held ni.new) result)
        (head.old, out.old) (head.new, out.new) (held ni.old) (held ni.new) result
        (three_of (ack_of ack_req) (operation_of operation) (type_of datatype)) }
{
    match ack_operation_type(ack_req, operation, datatype) {
        Some((ack, op, ty)) => send(
            alloc,
            ni,
            StartOp::Atomic(
                PutArgs {
                    md: md.handle(),
                    local_offset,
                    length,
                    ack,
                    target,
                    pt: pt_index,
                    match_bits,
                    remote_offset,
                    hdr_data,
                },
                op,
                ty,
            ),
            head,
            out,
        ),
        None => UNKNOWN,
    }
}

/// `PtlFetchAtomic`.
#[unsafe(no_mangle)]
pub extern "C" fn PtlFetchAtomic(
    alloc: Global,
    ni: &mut NiHandle,
    get_md: CHandle,
    local_get_offset: u64,
    put_md: CHandle,
    local_put_offset: u64,
    length: u64,
    target: u32,
    pt_index: u32,
    match_bits: u64,
    remote_offset: u64,
    hdr_data: u64,
    operation: u32,
    datatype: u32,
    head: &mut CMessage,
    out: &mut [u8],
) -> u32
    ensures { Named {Out = Head × List ℕ} (λ x. Sends (fetches
        (get_args (handle_of get_md) local_get_offset length target pt_index match_bits remote_offset)
        (handle_of put_md) local_put_offset hdr_data x.0 x.1) (head.old, out.old) (head.new, out.new) (held ni.old) (held ni.new) result)
        (head.old, out.old) (head.new, out.new) (held ni.old) (held ni.new) result (both_of (operation_of operation) (type_of datatype)) }
{
    let back = GetArgs {
        md: get_md.handle(),
        local_offset: local_get_offset,
        length,
        target,
        pt: pt_index,
        match_bits,
        remote_offset,
    };
    let args = sent_with(back, put_md, local_put_offset, hdr_data);
    match operation_type(operation, datatype) {
        Some((op, ty)) => send(
            alloc,
            ni,
            StartOp::FetchAtomic(back, args, op, ty),
            head,
            out,
        ),
        None => UNKNOWN,
    }
}

/// `PtlSwap`.
#[unsafe(no_mangle)]
pub extern "C" fn PtlSwap(
    alloc: Global,
    ni: &mut NiHandle,
    get_md: CHandle,
    local_get_offset: u64,
    put_md: CHandle,
    local_put_offset: u64,
    length: u64,
    target: u32,
    pt_index: u32,
    match_bits: u64,
    remote_offset: u64,
    hdr_data: u64,
    operand: u64,
    operation: u32,
    datatype: u32,
    head: &mut CMessage,
    out: &mut [u8],
) -> u32
    ensures { Named {Out = Head × List ℕ} (λ x. Sends (swaps
        (get_args (handle_of get_md) local_get_offset length target pt_index match_bits remote_offset)
        (handle_of put_md) local_put_offset hdr_data x.0 x.1 operand) (head.old, out.old) (head.new, out.new) (held ni.old) (held ni.new)
        result)
        (head.old, out.old) (head.new, out.new) (held ni.old) (held ni.new) result (both_of (swap_of operation) (type_of datatype)) }
{
    let back = GetArgs {
        md: get_md.handle(),
        local_offset: local_get_offset,
        length,
        target,
        pt: pt_index,
        match_bits,
        remote_offset,
    };
    let args = sent_with(back, put_md, local_put_offset, hdr_data);
    match swap_type(operation, datatype) {
        Some((op, ty)) => send(
            alloc,
            ni,
            StartOp::Swap(back, args, op, ty, operand),
            head,
            out,
        ),
        None => UNKNOWN,
    }
}
