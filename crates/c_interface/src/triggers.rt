//! Triggered operations (Portals 4.3, triggered operations): the arguments of the plain call, then the counting event, the threshold,
//! and where the operation's number goes.

ghost use Rattle.ptl_types.specs.declared.calls.TriggeredOp.TheVariants.{Put, Get, Atomic, Inc, Set};
ghost use Rattle.nic_handles.specs.Holding.{held};
ghost use Rattle.c_interface.specs.Calls.{PostsTold, fetches, get_args, put_args, swaps};
ghost use Rattle.c_interface.specs.Forms.{both_of, count_of, handle_of};
ghost use Rattle.c_interface.specs.Messages.{ack_of, operation_of, swap_of, three_of, type_of};
ghost use Rattle.c_interface.specs.Over.{Named};

use crate::answers::guarded_number_out;
use crate::forms::{CCount, CHandle};
use crate::starts::{ack_operation_type, operation_type, sent_with, swap_type};
use crate::statuses::{CLOSED, UNKNOWN};
use crate::telling::ack_of;
use nic_handles::NiHandle;
use ptl_types::{GetArgs, PutArgs, TriggeredOp};
use std::alloc::Global;

/// Posts an operation.
fn post(
    alloc: Global,
    ni: &mut NiHandle,
    action: TriggeredOp,
    trig_ct: CHandle,
    threshold: u64,
    number: &mut u32,
) -> u32
    ensures { PostsTold action (handle_of trig_ct) threshold number.old number.new (held ni.old) (held ni.new) result }
{
    match ni.take(alloc) {
        Some(mut nic) => {
            let made = guarded_ni::triggered(nic.as_mut(), action, trig_ct.handle(), threshold);
            *ni = NiHandle::of(nic);
            guarded_number_out(made, number)
        }
        None => CLOSED,
    }
}

/// `PtlTriggeredPut`.
#[unsafe(no_mangle)]
pub extern "C" fn PtlTriggeredPut(
    alloc: Global,
    ni: &mut NiHandle,
    md: CHandle,
    local_offset: u64,
    length: u64,
    ack_req: u32,
    target: u32,
    pt_index: u32,
    match_bits: u64,
    remote_offset: u64,
    hdr_data: u64,
    trig_ct: CHandle,
    threshold: u64,
    number: &mut u32,
) -> u32
    ensures { Named (λ x. PostsTold (Put (put_args (handle_of md) local_offset length x target pt_index match_bits remote_offset hdr_data))
        (handle_of trig_ct) threshold number.old number.new (held ni.old) (held ni.new) result)
        number.old number.new (held ni.old) (held ni.new) result (ack_of ack_req) }
{
    match ack_of(ack_req) {
        Some(ack) => post(
            alloc,
            ni,
            TriggeredOp::Put(PutArgs {
                md: md.handle(),
                local_offset,
                length,
                ack,
                target,
                pt: pt_index,
                match_bits,
                remote_offset,
                hdr_data,
            }),
            trig_ct,
            threshold,
            number,
        ),
        None => UNKNOWN,
    }
}

/// `PtlTriggeredGet`.
#[unsafe(no_mangle)]
pub extern "C" fn PtlTriggeredGet(
    alloc: Global,
    ni: &mut NiHandle,
    md: CHandle,
    local_offset: u64,
    length: u64,
    target: u32,
    pt_index: u32,
    match_bits: u64,
    remote_offset: u64,
    trig_ct: CHandle,
    threshold: u64,
    number: &mut u32,
) -> u32
    ensures { PostsTold (Get (get_args (handle_of md) local_offset length target pt_index match_bits remote_offset))
        (handle_of trig_ct) threshold number.old number.new (held ni.old) (held ni.new) result }
{
    let args = GetArgs {
        md: md.handle(),
        local_offset,
        length,
        target,
        pt: pt_index,
        match_bits,
        remote_offset,
    };
    post(
        alloc,
        ni,
        TriggeredOp::Get(args),
        trig_ct,
        threshold,
        number,
    )
}

/// `PtlTriggeredAtomic`.
#[unsafe(no_mangle)]
pub extern "C" fn PtlTriggeredAtomic(
    alloc: Global,
    ni: &mut NiHandle,
    md: CHandle,
    local_offset: u64,
    length: u64,
    ack_req: u32,
    target: u32,
    pt_index: u32,
    match_bits: u64,
    remote_offset: u64,
    hdr_data: u64,
    operation: u32,
    datatype: u32,
    trig_ct: CHandle,
    threshold: u64,
    number: &mut u32,
) -> u32
    ensures { Named (λ x. PostsTold (Atomic (put_args (handle_of md) local_offset length x.0 target pt_index match_bits remote_offset
        hdr_data) x.1 x.2)
        (handle_of trig_ct) threshold number.old number.new (held ni.old) (held ni.new) result)
        number.old number.new (held ni.old) (held ni.new) result (three_of (ack_of ack_req) (operation_of operation) (type_of datatype)) }
{
    match ack_operation_type(ack_req, operation, datatype) {
        Some((ack, op, ty)) => post(
            alloc,
            ni,
            TriggeredOp::Atomic(
                PutArgs {
                    md: md.handle(),
                    local_offset,
                    length,
                    ack,
                    target,
                    pt: pt_index,
                    match_bits,
                    remote_offset,
                    hdr_data,
                },
                op,
                ty,
            ),
            trig_ct,
            threshold,
            number,
        ),
        None => UNKNOWN,
    }
}

/// `PtlTriggeredFetchAtomic`.
#[unsafe(no_mangle)]
pub extern "C" fn PtlTriggeredFetchAtomic(
    alloc: Global,
    ni: &mut NiHandle,
    get_md: CHandle,
    local_get_offset: u64,
    put_md: CHandle,
    local_put_offset: u64,
    length: u64,
    target: u32,
    pt_index: u32,
    match_bits: u64,
    remote_offset: u64,
    hdr_data: u64,
    operation: u32,
    datatype: u32,
    trig_ct: CHandle,
    threshold: u64,
    number: &mut u32,
) -> u32
    ensures { Named (λ x. PostsTold (fetches (get_args (handle_of get_md) local_get_offset length target pt_index match_bits
        remote_offset) (handle_of put_md) local_put_offset hdr_data x.0 x.1)
        (handle_of trig_ct) threshold number.old number.new (held ni.old) (held ni.new) result)
        number.old number.new (held ni.old) (held ni.new) result (both_of (operation_of operation) (type_of datatype)) }
{
    let back = GetArgs {
        md: get_md.handle(),
        local_offset: local_get_offset,
        length,
        target,
        pt: pt_index,
        match_bits,
        remote_offset,
    };
    let args = sent_with(back, put_md, local_put_offset, hdr_data);
    match operation_type(operation, datatype) {
        Some((op, ty)) => post(
            alloc,
            ni,
            TriggeredOp::FetchAtomic(back, args, op, ty),
            trig_ct,
            threshold,
            number,
        ),
        None => UNKNOWN,
    }
}

/// `PtlTriggeredSwap`.
#[unsafe(no_mangle)]
pub extern "C" fn PtlTriggeredSwap(
    alloc: Global,
    ni: &mut NiHandle,
    get_md: CHandle,
    local_get_offset: u64,
    put_md: CHandle,
    local_put_offset: u64,
    length: u64,
    target: u32,
    pt_index: u32,
    match_bits: u64,
    remote_offset: u64,
    hdr_data: u64,
    operand: u64,
    operation: u32,
    datatype: u32,
    trig_ct: CHandle,
    threshold: u64,
    number: &mut u32,
) -> u32
    ensures { Named (λ x. PostsTold (swaps (get_args (handle_of get_md) local_get_offset length target pt_index match_bits remote_offset)
        (handle_of put_md) local_put_offset hdr_data x.0 x.1 operand)
        (handle_of trig_ct) threshold number.old number.new (held ni.old) (held ni.new) result)
        number.old number.new (held ni.old) (held ni.new) result (both_of (swap_of operation) (type_of datatype)) }
{
    let back = GetArgs {
        md: get_md.handle(),
        local_offset: local_get_offset,
        length,
        target,
        pt: pt_index,
        match_bits,
        remote_offset,
    };
    let args = sent_with(back, put_md, local_put_offset, hdr_data);
    match swap_type(operation, datatype) {
        Some((op, ty)) => post(
            alloc,
            ni,
            TriggeredOp::Swap(back, args, op, ty, operand),
            trig_ct,
            threshold,
            number,
        ),
        None => UNKNOWN,
    }
}

/// `PtlTriggeredCTInc`.
#[unsafe(no_mangle)]
pub extern "C" fn PtlTriggeredCTInc(
    alloc: Global,
    ni: &mut NiHandle,
    ct: CHandle,
    by: CCount,
    trig_ct: CHandle,
    threshold: u64,
    number: &mut u32,
) -> u32
    ensures { PostsTold (Inc (handle_of ct) (count_of by))
        (handle_of trig_ct) threshold number.old number.new (held ni.old) (held ni.new) result }
{
    post(
        alloc,
        ni,
        TriggeredOp::Inc(ct.handle(), by.count()),
        trig_ct,
        threshold,
        number,
    )
}

/// `PtlTriggeredCTSet`.
#[unsafe(no_mangle)]
pub extern "C" fn PtlTriggeredCTSet(
    alloc: Global,
    ni: &mut NiHandle,
    ct: CHandle,
    to: CCount,
    trig_ct: CHandle,
    threshold: u64,
    number: &mut u32,
) -> u32
    ensures { PostsTold (Set (handle_of ct) (count_of to))
        (handle_of trig_ct) threshold number.old number.new (held ni.old) (held ni.new) result }
{
    post(
        alloc,
        ni,
        TriggeredOp::Set(ct.handle(), to.count()),
        trig_ct,
        threshold,
        number,
    )
}
