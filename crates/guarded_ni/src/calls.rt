//! The other calls that have conditions.

ghost use Rattle.std.specs.Prelude.{◌≡◌, ◌==◌, ◌+◌, ◌<◌, nat_lt, IfOk, IfErr, Some, length, slice_get, if◌then◌else◌};
ghost use Rattle.ni_model.specs.Calls.{ends, eq_alloc, write_memory};
ghost use Rattle.ni_model.specs.Ready.{fired, fires, is_ready, ready_numbers};
ghost use Rattle.ni_model.specs.State.{opened, target};
ghost use Rattle.ni_model.specs.Tables.{has_slot};
ghost use Rattle.portals_ni.specs.Answers.{MakesIfMemory};
ghost use Rattle.portals_ni.specs.Fit.{FitLimits};
ghost use Rattle.guarded_ni.specs.declared.faults.Misuse.TheVariants.{Elsewhere, NoRoom, NotReady, OutsideRegion};
ghost use Rattle.guarded_ni.specs.Guarded.{Guards, NotOpened, Tests};
ghost use Rattle.guarded_ni.specs.Misuses.{unless};

use crate::faults::{CallFault, Misuse};
use portals_ni::{Nic, fit};
use ptl_types::{Bytes, Delivered, Handle, Limits, Message, NiFault, Rank};
use std::alloc::Global;

/// Opens an interface, as `Nic::open` does. `Misused` exactly where the rank isn't below the number of ranks, or else the limits
/// don't fit; otherwise it is only memory that may be wanting. The region goes with it.
pub fn open(
    alloc: Global,
    rank: Rank,
    ranks: u32,
    limits: Limits,
    region: Bytes,
) -> Result<Nic, CallFault>
    ensures makes { IfOk result (λ nic. (rank < ranks) × FitLimits limits × (nic ≡ opened rank ranks limits region.list)) }
    ensures fault { IfErr result (NotOpened rank ranks limits) }
{
    if rank >= ranks {
        return Err(CallFault::Misused(Misuse::UnknownRank));
    }
    if !fit(&limits) {
        return Err(CallFault::Misused(Misuse::UnfitLimits));
    }
    match Nic::open(alloc, rank, ranks, limits, region) {
        Ok(nic) => Ok(nic),
        Err(_) => Err(CallFault::Refused(NiFault::NoMemory)),
    }
}

/// Allocates an event queue, as `Nic::eq_alloc` does. `Misused` exactly where its room is 0.
pub fn eq_alloc(nic: &mut Nic, room: u32) -> Result<Handle, CallFault>
    ensures { Guards (unless (nat_lt 0 room) NoRoom) nic.old nic.new
        (λ r. MakesIfMemory (λ slot. has_slot slot nic.old.eqs.live) (λ slot. eq_alloc slot room nic.old) nic.old (ends nic.new r)) result }
{
    if room == 0 {
        return Err(CallFault::Misused(Misuse::NoRoom));
    }
    match nic.eq_alloc(room) {
        Ok(eq) => Ok(eq),
        Err(fault) => Err(CallFault::Refused(fault)),
    }
}

/// Writes bytes into a part of the region, as `Nic::write_memory` does; `OutsideRegion` exactly where the part reaches past its end.
pub fn write_memory(nic: &mut Nic, start: u64, bytes: &[u8]) -> Result<(), Misuse>
    ensures { Tests (if nat_lt (length nic.old.memory) (start + length bytes.now) then Some OutsideRegion else None) nic.old nic.new
        (λ _. nic.new ≡ write_memory start bytes.now nic.old) result }
{
    let size = nic.memory().len() as u64;
    let count = bytes.len() as u64;
    if start > size || count > size - start {
        return Err(Misuse::OutsideRegion);
    }
    nic.write_memory(start, bytes);
    Ok(())
}

/// Handles a message that arrived, as `Nic::deliver` does; `Elsewhere` exactly where it is for another rank, and it is dropped then
/// without a trace in the interface.
pub fn deliver(nic: &mut Nic, message: Message) -> Result<Delivered, Misuse>
    ensures { Tests (unless (message.header.target == nic.old.rank) Elsewhere) nic.old nic.new
        (λ d. record { state = nic.new; delivered = d } ≡ target nic.old message) result }
{
    if message.header().target != nic.rank() {
        return Err(Misuse::Elsewhere);
    }
    Ok(nic.deliver(message))
}

/// The number of the ready operation at a position, as `Nic::ready_at` has it; `NotReady` exactly where there are no more than so many.
pub fn ready_at(nic: &Nic, i: u32) -> Result<u32, Misuse>
    ensures { Tests (unless (nat_lt i (length (ready_numbers nic.now))) NotReady) nic.now nic.now
        (λ number. slice_get (ready_numbers nic.now) i ≡ Some number) result }
{
    if i >= nic.ready_count() {
        return Err(Misuse::NotReady);
    }
    Ok(nic.ready_at(i))
}

/// Fires a triggered operation, as `Nic::fire` does; `NotReady` exactly where it isn't ready.
pub fn fire(nic: &mut Nic, number: u32) -> Result<Option<Message>, Misuse>
    ensures { Tests (unless (is_ready nic.old number) NotReady) nic.old nic.new (λ made. fires nic.new made ≡ fired nic.old number) result }
{
    if !nic.is_ready(number) {
        return Err(Misuse::NotReady);
    }
    Ok(nic.fire(number))
}
