//! Opening and closing an interface, its registers and its region (Portals 4.3, network interfaces, status registers).

ghost use Rattle.std.specs.Prelude.{◌≡◌, ◌<◌, ◌≤◌, ◌+◌, length, nat_lt};
ghost use Rattle.ptl_types.specs.Elements.{part};
ghost use Rattle.nic_handles.specs.Holding.{held};
ghost use Rattle.c_interface.specs.Calls.{Closes, Opens, ReadsPart, Shows, Writes, register};
ghost use Rattle.c_interface.specs.Forms.{limits_of};
ghost use Rattle.c_interface.specs.Over.{Ends, Over};
ghost use Rattle.c_interface.specs.Statuses.{misuse_number};

use crate::answers::tested;
use crate::forms::CLimits;
use crate::statuses::{CLOSED, NO_MEMORY, OK, OPEN, OUTSIDE, UNKNOWN, fault};
use nic_handles::NiHandle;
use portals_ni::Nic;
use ptl_types::Bytes;
use std::alloc::Global;

/// `PtlNIInit`: opens an interface over a copy of a region. `OPEN` where the handle holds one already.
#[unsafe(no_mangle)]
pub extern "C" fn PtlNIInit(
    alloc: Global,
    rank: u32,
    ranks: u32,
    limits: &CLimits,
    region: &[u8],
    ni: &mut NiHandle,
) -> u32
    ensures { Opens rank ranks (limits_of limits.now) region.now (held ni.old) (held ni.new) result }
{
    if let Some(nic) = ni.take(alloc) {
        *ni = NiHandle::of(nic);
        return OPEN;
    }
    let Ok(bytes) = Bytes::of(alloc, region) else {
        return NO_MEMORY;
    };
    let nic = match guarded_ni::open(alloc, rank, ranks, limits.limits(), bytes) {
        Ok(nic) => nic,
        Err(why) => return fault(why),
    };
    match Box::new(alloc, nic) {
        Ok(boxed) => {
            *ni = NiHandle::of(boxed);
            OK
        }
        Err(_) => NO_MEMORY,
    }
}

/// `PtlNIFini`: lets the interface go with all that it holds.
#[unsafe(no_mangle)]
pub extern "C" fn PtlNIFini(alloc: Global, ni: &mut NiHandle) -> u32
    ensures { Closes (held ni.old) (held ni.new) result }
{
    match ni.take(alloc) {
        Some(nic) => {
            drop(nic);
            OK
        }
        None => CLOSED,
    }
}

/// The register of a number: 0 counts drops, 1 violations.
fn register(nic: &Nic, number: u32) -> Option<u64>
    ensures { result ≡ register number nic.now }
{
    match number {
        0 => Some(nic.drops()),
        1 => Some(nic.violations()),
        _ => None,
    }
}

/// A number goes out, where there is one.
fn shown(number: Option<u64>, out: &mut u64) -> u32
    ensures { Shows number out.old out.new result }
{
    match number {
        Some(n) => {
            *out = n;
            OK
        }
        None => UNKNOWN,
    }
}

/// `PtlNIStatus`: register 0 counts drops, 1 violations.
#[unsafe(no_mangle)]
pub extern "C" fn PtlNIStatus(alloc: Global, ni: &mut NiHandle, number: u32, value: &mut u64) -> u32
    ensures { Over (λ s t. (t ≡ s) × Shows (register number s) value.old value.new result)
        value.old value.new (held ni.old) (held ni.new) result }
{
    match ni.take(alloc) {
        Some(nic) => {
            let found = register(nic.as_ref(), number);
            *ni = NiHandle::of(nic);
            shown(found, value)
        }
        None => CLOSED,
    }
}

/// Writes bytes into the region.
#[unsafe(no_mangle)]
pub extern "C" fn SfWrite(alloc: Global, ni: &mut NiHandle, start: u64, from: &[u8]) -> u32
    ensures { Ends (Writes start from.now) misuse_number (held ni.old) (held ni.new) result }
{
    match ni.take(alloc) {
        Some(mut nic) => {
            let made = guarded_ni::write_memory(nic.as_mut(), start, from);
            *ni = NiHandle::of(nic);
            tested(made)
        }
        None => CLOSED,
    }
}

/// Copies a part of the region, as long as `into`.
fn read(memory: &[u8], start: u64, into: &mut [u8]) -> u32
    ensures outside { length memory.now < start + length into.old → (result ≡ 23) × (into.new ≡ into.old) }
    ensures inside { start + length into.old ≤ length memory.now → (result ≡ 0) × (into.new ≡ part start (length into.old) memory.now) }
{
    let size = memory.len();
    let count = into.len();
    if start > size as u64 {
        return OUTSIDE;
    }
    let from = start as usize;
    if count > size - from {
        return OUTSIDE;
    }
    into.copy_from_slice(&memory[from..from + count]);
    OK
}

/// Reads bytes of the region, as many as `into` is long.
#[unsafe(no_mangle)]
pub extern "C" fn SfRead(alloc: Global, ni: &mut NiHandle, start: u64, into: &mut [u8]) -> u32
    ensures { Over (λ s t. (t ≡ s) × ReadsPart (nat_lt (length s.memory) (start + length into.old)) start s into.old into.new result)
        into.old into.new (held ni.old) (held ni.new) result }
{
    match ni.take(alloc) {
        Some(nic) => {
            let status = read(nic.as_ref().memory(), start, into);
            *ni = NiHandle::of(nic);
            status
        }
        None => CLOSED,
    }
}
