//! The answers of calls, written out: each status is 0 where there is an answer, which goes where C wants it, or the number of the fault.

ghost use Rattle.std.specs.Prelude.{◌≡◌};
ghost use Rattle.c_interface.specs.Forms.{appended_told, found_told, got_told, one_count, one_handle, one_number};
ghost use Rattle.c_interface.specs.Over.{writes};
ghost use Rattle.c_interface.specs.Statuses.{fault_number, misuse_number, refusal_number, status_by};

use crate::forms::{CCount, CEvent, CHandle};
use crate::statuses::{OK, fault, misuse, refusal};
use guarded_ni::{CallFault, Misuse};
use ptl_types::{Appended, Count, EqGot, Handle, NiFault, UnexpectedHeader};

/// Of a call that answers nothing else.
pub fn done(answer: Result<(), NiFault>) -> u32
    ensures { result ≡ status_by refusal_number answer }
{
    match answer {
        Ok(()) => OK,
        Err(why) => refusal(why),
    }
}

/// Of one that the interface never refuses.
pub fn tested(answer: Result<(), Misuse>) -> u32
    ensures { result ≡ status_by misuse_number answer }
{
    match answer {
        Ok(()) => OK,
        Err(rule) => misuse(rule),
    }
}

/// A handle.
pub fn handle_out(answer: Result<Handle, NiFault>, out: &mut CHandle) -> u32
    ensures numbered { result ≡ status_by refusal_number answer }
    ensures written { out.new ≡ writes one_handle answer out.old }
{
    match answer {
        Ok(handle) => {
            *out = CHandle::of(handle);
            OK
        }
        Err(why) => refusal(why),
    }
}

/// The handle of a guarded call.
pub fn guarded_handle_out(answer: Result<Handle, CallFault>, out: &mut CHandle) -> u32
    ensures numbered { result ≡ status_by fault_number answer }
    ensures written { out.new ≡ writes one_handle answer out.old }
{
    match answer {
        Ok(handle) => {
            *out = CHandle::of(handle);
            OK
        }
        Err(why) => fault(why),
    }
}

/// The handle of an entry; none where it wasn't linked.
pub fn appended_out(answer: Result<Appended, NiFault>, out: &mut CHandle) -> u32
    ensures numbered { result ≡ status_by refusal_number answer }
    ensures written { out.new ≡ writes appended_told answer out.old }
{
    match answer {
        Ok(Appended::Linked(handle)) => {
            *out = CHandle::of(handle);
            OK
        }
        Ok(Appended::Consumed(_)) => {
            *out = CHandle::NONE;
            OK
        }
        Err(why) => refusal(why),
    }
}

/// A count.
pub fn count_out(answer: Result<Count, NiFault>, out: &mut CCount) -> u32
    ensures numbered { result ≡ status_by refusal_number answer }
    ensures written { out.new ≡ writes one_count answer out.old }
{
    match answer {
        Ok(count) => {
            *out = CCount::of(count);
            OK
        }
        Err(why) => refusal(why),
    }
}

/// A number of 32 bits.
pub fn number_out(answer: Result<u32, NiFault>, out: &mut u32) -> u32
    ensures numbered { result ≡ status_by refusal_number answer }
    ensures written { out.new ≡ writes one_number answer out.old }
{
    match answer {
        Ok(number) => {
            *out = number;
            OK
        }
        Err(why) => refusal(why),
    }
}

/// The number of a guarded call.
pub fn guarded_number_out(answer: Result<u32, CallFault>, out: &mut u32) -> u32
    ensures numbered { result ≡ status_by fault_number answer }
    ensures written { out.new ≡ writes one_number answer out.old }
{
    match answer {
        Ok(number) => {
            *out = number;
            OK
        }
        Err(why) => fault(why),
    }
}

/// The number of one that the interface never refuses.
pub fn tested_number_out(answer: Result<u32, Misuse>, out: &mut u32) -> u32
    ensures numbered { result ≡ status_by misuse_number answer }
    ensures written { out.new ≡ writes one_number answer out.old }
{
    match answer {
        Ok(number) => {
            *out = number;
            OK
        }
        Err(rule) => misuse(rule),
    }
}

/// A number of 64 bits.
pub fn wide_number_out(answer: Result<u64, NiFault>, out: &mut u64) -> u32
    ensures numbered { result ≡ status_by refusal_number answer }
    ensures written { out.new ≡ writes one_number answer out.old }
{
    match answer {
        Ok(number) => {
            *out = number;
            OK
        }
        Err(why) => refusal(why),
    }
}

/// Whether a header was found.
pub fn found_out(answer: Result<Option<UnexpectedHeader>, NiFault>, out: &mut u32) -> u32
    ensures numbered { result ≡ status_by refusal_number answer }
    ensures written { out.new ≡ writes found_told answer out.old }
{
    match answer {
        Ok(Some(_)) => {
            *out = 1;
            OK
        }
        Ok(None) => {
            *out = 0;
            OK
        }
        Err(why) => refusal(why),
    }
}

/// An event, and what was got: 0 for none, 1 for an event, 2 where one was lost.
pub fn event_out(answer: Result<EqGot, NiFault>, event: &mut CEvent, got: &mut u32) -> u32
    ensures numbered { result ≡ status_by refusal_number answer }
    ensures written { (event.new, got.new) ≡ writes got_told answer (event.old, got.old) }
{
    match answer {
        Ok(EqGot::Got(told)) => {
            *event = CEvent::of(&told);
            *got = 1;
            OK
        }
        Ok(EqGot::Empty) => {
            *got = 0;
            OK
        }
        Ok(EqGot::Dropped) => {
            *got = 2;
            OK
        }
        Err(why) => refusal(why),
    }
}
