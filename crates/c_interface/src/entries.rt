//! Portal table indices, match entries and memory descriptors.

ghost use Rattle.ni_model.specs.Calls.{awaits, md_release, me_search, me_unlink, pt_alloc, pt_free};
ghost use Rattle.nic_handles.specs.Holding.{held};
ghost use Rattle.c_interface.specs.Calls.{Appends, Binds};
ghost use Rattle.c_interface.specs.Forms.{appended_told, both_of, descriptor_of, entry_of, found_told, handle_of, list_of, one_handle};
ghost use Rattle.c_interface.specs.Forms.{one_number, unless_none};
ghost use Rattle.c_interface.specs.Over.{Asks, Called, Does, Ends, Named};
ghost use Rattle.c_interface.specs.Statuses.{refusal_number};

use crate::answers::{appended_out, done, found_out, handle_out, wide_number_out};
use crate::forms::{CDescriptor, CEntry, CHandle};
use crate::statuses::{CLOSED, UNKNOWN};
use crate::told::entry_and_list;
use nic_handles::NiHandle;
use ptl_types::{Descriptor, Entry, List};
use std::alloc::Global;

/// `PtlPTAlloc`, at an index that is asked for.
#[unsafe(no_mangle)]
pub extern "C" fn PtlPTAlloc(alloc: Global, ni: &mut NiHandle, index: u32, eq: CHandle) -> u32
    ensures { Ends (Does (pt_alloc index (unless_none eq))) refusal_number (held ni.old) (held ni.new) result }
{
    match ni.take(alloc) {
        Some(mut nic) => {
            let made = nic.as_mut().pt_alloc(index, eq.given());
            *ni = NiHandle::of(nic);
            done(made)
        }
        None => CLOSED,
    }
}

/// `PtlPTFree`.
#[unsafe(no_mangle)]
pub extern "C" fn PtlPTFree(alloc: Global, ni: &mut NiHandle, index: u32) -> u32
    ensures { Ends (Does (pt_free index)) refusal_number (held ni.old) (held ni.new) result }
{
    match ni.take(alloc) {
        Some(mut nic) => {
            let made = nic.as_mut().pt_free(index);
            *ni = NiHandle::of(nic);
            done(made)
        }
        None => CLOSED,
    }
}

/// Appends an entry.
fn append(
    alloc: Global,
    ni: &mut NiHandle,
    pt_index: u32,
    list: List,
    entry: Entry,
    out: &mut CHandle,
) -> u32
    ensures { Called (Appends pt_index list entry) refusal_number appended_told out.old out.new (held ni.old) (held ni.new) result }
{
    match ni.take(alloc) {
        Some(mut nic) => {
            let made = nic.as_mut().me_append(pt_index, list, entry);
            *ni = NiHandle::of(nic);
            appended_out(made, out)
        }
        None => CLOSED,
    }
}

/// `PtlMEAppend`: a use-once entry that takes an unexpected header at once isn't linked, and its handle is none.
#[unsafe(no_mangle)]
pub extern "C" fn PtlMEAppend(
    alloc: Global,
    ni: &mut NiHandle,
    pt_index: u32,
    me: &CEntry,
    list: u32,
    me_handle: &mut CHandle,
) -> u32
    ensures { Named (λ x. Called (Appends pt_index x.1 x.0) refusal_number appended_told me_handle.old me_handle.new
        (held ni.old) (held ni.new) result) me_handle.old me_handle.new (held ni.old) (held ni.new) result (both_of (entry_of me.now)
        (list_of list)) }
{
    match entry_and_list(me, list) {
        Some((entry, list)) => append(alloc, ni, pt_index, list, entry, me_handle),
        None => UNKNOWN,
    }
}

/// `PtlMEUnlink`.
#[unsafe(no_mangle)]
pub extern "C" fn PtlMEUnlink(alloc: Global, ni: &mut NiHandle, me: CHandle) -> u32
    ensures { Ends (Does (me_unlink (handle_of me))) refusal_number (held ni.old) (held ni.new) result }
{
    match ni.take(alloc) {
        Some(mut nic) => {
            let made = nic.as_mut().me_unlink(me.handle());
            *ni = NiHandle::of(nic);
            done(made)
        }
        None => CLOSED,
    }
}

/// Searches for a header.
fn search(
    alloc: Global,
    ni: &mut NiHandle,
    pt_index: u32,
    entry: Entry,
    delete: bool,
    found: &mut u32,
) -> u32
    ensures { Called (Does (me_search pt_index entry delete)) refusal_number found_told found.old found.new (held ni.old) (held ni.new)
        result }
{
    match ni.take(alloc) {
        Some(mut nic) => {
            let made = nic.as_mut().me_search(pt_index, &entry, delete);
            *ni = NiHandle::of(nic);
            found_out(made, found)
        }
        None => CLOSED,
    }
}

/// `PtlMESearch`: `found` is 1 where there was such a header, which is deleted where that is asked for.
#[unsafe(no_mangle)]
pub extern "C" fn PtlMESearch(
    alloc: Global,
    ni: &mut NiHandle,
    pt_index: u32,
    me: &CEntry,
    delete: bool,
    found: &mut u32,
) -> u32
    ensures { Named (λ e. Called (Does (me_search pt_index e delete)) refusal_number found_told found.old found.new
        (held ni.old) (held ni.new) result) found.old found.new (held ni.old) (held ni.new) result (entry_of me.now) }
{
    match me.entry() {
        Some(entry) => search(alloc, ni, pt_index, entry, delete, found),
        None => UNKNOWN,
    }
}

/// Binds a descriptor.
fn bind(alloc: Global, ni: &mut NiHandle, md: Descriptor, out: &mut CHandle) -> u32
    ensures { Called (Binds md) refusal_number one_handle out.old out.new (held ni.old) (held ni.new) result }
{
    match ni.take(alloc) {
        Some(mut nic) => {
            let made = nic.as_mut().md_bind(md);
            *ni = NiHandle::of(nic);
            handle_out(made, out)
        }
        None => CLOSED,
    }
}

/// `PtlMDBind`.
#[unsafe(no_mangle)]
pub extern "C" fn PtlMDBind(
    alloc: Global,
    ni: &mut NiHandle,
    md: &CDescriptor,
    md_handle: &mut CHandle,
) -> u32
    ensures { Named (λ d. Called (Binds d) refusal_number one_handle md_handle.old md_handle.new (held ni.old) (held ni.new) result)
        md_handle.old md_handle.new (held ni.old) (held ni.new) result (descriptor_of md.now) }
{
    match md.descriptor() {
        Some(descriptor) => bind(alloc, ni, descriptor, md_handle),
        None => UNKNOWN,
    }
}

/// `PtlMDRelease`.
#[unsafe(no_mangle)]
pub extern "C" fn PtlMDRelease(alloc: Global, ni: &mut NiHandle, md: CHandle) -> u32
    ensures { Ends (Does (md_release (handle_of md))) refusal_number (held ni.old) (held ni.new) result }
{
    match ni.take(alloc) {
        Some(mut nic) => {
            let made = nic.as_mut().md_release(md.handle());
            *ni = NiHandle::of(nic);
            done(made)
        }
        None => CLOSED,
    }
}

/// How many answers a descriptor awaits.
#[unsafe(no_mangle)]
pub extern "C" fn SfAwaits(alloc: Global, ni: &mut NiHandle, md: CHandle, answers: &mut u64) -> u32
    ensures { Called (Asks (awaits (handle_of md))) refusal_number one_number answers.old answers.new (held ni.old) (held ni.new) result }
{
    match ni.take(alloc) {
        Some(nic) => {
            let made = nic.as_ref().awaits(md.handle());
            *ni = NiHandle::of(nic);
            wide_number_out(made, answers)
        }
        None => CLOSED,
    }
}
