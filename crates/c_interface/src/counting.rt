//! Counting events (Portals 4.3, counting events).

ghost use Rattle.ni_model.specs.Calls.{ct_cancel, ct_free, ct_get, ct_inc, ct_set};
ghost use Rattle.nic_handles.specs.Holding.{held};
ghost use Rattle.c_interface.specs.Calls.{AllocatesCt};
ghost use Rattle.c_interface.specs.Forms.{count_of, handle_of, one_count, one_handle, one_number};
ghost use Rattle.c_interface.specs.Over.{Asks, Called, Does, Ends};
ghost use Rattle.c_interface.specs.Statuses.{refusal_number};

use crate::answers::{count_out, done, handle_out, number_out};
use crate::forms::{CCount, CHandle};
use crate::statuses::CLOSED;
use nic_handles::NiHandle;
use std::alloc::Global;

/// `PtlCTAlloc`.
#[unsafe(no_mangle)]
pub extern "C" fn PtlCTAlloc(alloc: Global, ni: &mut NiHandle, ct: &mut CHandle) -> u32
    ensures { Called AllocatesCt refusal_number one_handle ct.old ct.new (held ni.old) (held ni.new) result }
{
    match ni.take(alloc) {
        Some(mut nic) => {
            let made = nic.as_mut().ct_alloc();
            *ni = NiHandle::of(nic);
            handle_out(made, ct)
        }
        None => CLOSED,
    }
}

/// `PtlCTFree`.
#[unsafe(no_mangle)]
pub extern "C" fn PtlCTFree(alloc: Global, ni: &mut NiHandle, ct: CHandle) -> u32
    ensures { Ends (Does (ct_free (handle_of ct))) refusal_number (held ni.old) (held ni.new) result }
{
    match ni.take(alloc) {
        Some(mut nic) => {
            let made = nic.as_mut().ct_free(ct.handle());
            *ni = NiHandle::of(nic);
            done(made)
        }
        None => CLOSED,
    }
}

/// `PtlCTGet`.
#[unsafe(no_mangle)]
pub extern "C" fn PtlCTGet(alloc: Global, ni: &mut NiHandle, ct: CHandle, event: &mut CCount) -> u32
    ensures { Called (Asks (ct_get (handle_of ct))) refusal_number one_count event.old event.new (held ni.old) (held ni.new) result }
{
    match ni.take(alloc) {
        Some(nic) => {
            let made = nic.as_ref().ct_get(ct.handle());
            *ni = NiHandle::of(nic);
            count_out(made, event)
        }
        None => CLOSED,
    }
}

/// `PtlCTSet`.
#[unsafe(no_mangle)]
pub extern "C" fn PtlCTSet(alloc: Global, ni: &mut NiHandle, ct: CHandle, to: CCount) -> u32
    ensures { Ends (Does (ct_set (handle_of ct) (count_of to))) refusal_number (held ni.old) (held ni.new) result }
{
    match ni.take(alloc) {
        Some(mut nic) => {
            let made = nic.as_mut().ct_set(ct.handle(), to.count());
            *ni = NiHandle::of(nic);
            done(made)
        }
        None => CLOSED,
    }
}

/// `PtlCTInc`.
#[unsafe(no_mangle)]
pub extern "C" fn PtlCTInc(alloc: Global, ni: &mut NiHandle, ct: CHandle, by: CCount) -> u32
    ensures { Ends (Does (ct_inc (handle_of ct) (count_of by))) refusal_number (held ni.old) (held ni.new) result }
{
    match ni.take(alloc) {
        Some(mut nic) => {
            let made = nic.as_mut().ct_inc(ct.handle(), by.count());
            *ni = NiHandle::of(nic);
            done(made)
        }
        None => CLOSED,
    }
}

/// `PtlCTCancelTriggered`.
#[unsafe(no_mangle)]
pub extern "C" fn PtlCTCancelTriggered(
    alloc: Global,
    ni: &mut NiHandle,
    ct: CHandle,
    cancelled: &mut u32,
) -> u32
    ensures { Called (Does (ct_cancel (handle_of ct))) refusal_number one_number cancelled.old cancelled.new
        (held ni.old) (held ni.new) result }
{
    match ni.take(alloc) {
        Some(mut nic) => {
            let made = nic.as_mut().ct_cancel(ct.handle());
            *ni = NiHandle::of(nic);
            number_out(made, cancelled)
        }
        None => CLOSED,
    }
}
