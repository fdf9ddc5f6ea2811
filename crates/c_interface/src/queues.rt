//! Event queues (Portals 4.3, event queues).

ghost use Rattle.ni_model.specs.Calls.{eq_free, eq_get};
ghost use Rattle.nic_handles.specs.Holding.{held};
ghost use Rattle.c_interface.specs.Calls.{AllocatesEq};
ghost use Rattle.c_interface.specs.Forms.{got_told, handle_of, one_handle};
ghost use Rattle.c_interface.specs.Over.{Called, Does, Ends};
ghost use Rattle.c_interface.specs.Statuses.{fault_number, refusal_number};

use crate::answers::{done, event_out, guarded_handle_out};
use crate::forms::{CEvent, CHandle};
use crate::statuses::CLOSED;
use nic_handles::NiHandle;
use std::alloc::Global;

/// `PtlEQAlloc`.
#[unsafe(no_mangle)]
pub extern "C" fn PtlEQAlloc(alloc: Global, ni: &mut NiHandle, count: u32, eq: &mut CHandle) -> u32
    ensures { Called (AllocatesEq count) fault_number one_handle eq.old eq.new (held ni.old) (held ni.new) result }
{
    match ni.take(alloc) {
        Some(mut nic) => {
            let made = guarded_ni::eq_alloc(nic.as_mut(), count);
            *ni = NiHandle::of(nic);
            guarded_handle_out(made, eq)
        }
        None => CLOSED,
    }
}

/// `PtlEQFree`.
#[unsafe(no_mangle)]
pub extern "C" fn PtlEQFree(alloc: Global, ni: &mut NiHandle, eq: CHandle) -> u32
    ensures { Ends (Does (eq_free (handle_of eq))) refusal_number (held ni.old) (held ni.new) result }
{
    match ni.take(alloc) {
        Some(mut nic) => {
            let made = nic.as_mut().eq_free(eq.handle());
            *ni = NiHandle::of(nic);
            done(made)
        }
        None => CLOSED,
    }
}

/// `PtlEQGet`: `got` is 0 where the queue is empty, 1 with an event, 2 where one was lost.
#[unsafe(no_mangle)]
pub extern "C" fn PtlEQGet(
    alloc: Global,
    ni: &mut NiHandle,
    eq: CHandle,
    event: &mut CEvent,
    got: &mut u32,
) -> u32
    ensures { Called (Does (eq_get (handle_of eq))) refusal_number got_told (event.old, got.old) (event.new, got.new)
        (held ni.old) (held ni.new) result }
{
    match ni.take(alloc) {
        Some(mut nic) => {
            let made = nic.as_mut().eq_get(eq.handle());
            *ni = NiHandle::of(nic);
            event_out(made, event, got)
        }
        None => CLOSED,
    }
}
