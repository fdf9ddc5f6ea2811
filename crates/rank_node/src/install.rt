//! The calls of an installation: one small function for each kind, and a loop over the list.

ghost use Rattle.std.specs.Prelude.{◌≡◌, ◌<◌, ℕ, List, [], ◌∷◌, IfOk, OnOk, None, false, length};
ghost use Rattle.ptl_types.specs.declared.calls.Limits.{Limits};
ghost use Rattle.ni_model.specs.Counts.{successes};
ghost use Rattle.plan_core.specs.Places.{place_in};
ghost use Rattle.ni_model.specs.Conditions.{MayStart};
ghost use Rattle.ni_model.specs.Calls.{with_index, with_counter, with_bound, with_operation};
ghost use Rattle.cuts.specs.view.Slots.{Slots, counter_at};
ghost use Rattle.rank_node.specs.Handles.{Agrees, AreAllOf, Fits, IsRising, counted_in};
ghost use Rattle.rank_node.specs.Calls.{HasCounter, MayCall, MayCallAll, AreMade, NewCounter, NewDescriptor, NewEntry, IsWired, MaySend};
ghost use Rattle.rank_node.specs.Calls.{count_call, count_calls};
ghost use Rattle.cuts.specs.view.Calls.{whole_region, action_at, with_entry, area_entry, cell_entry};

use crate::kept::NodeHandles;
use portals_ni::Nic;
use ptl_types::{
    Appended, Call, Count, Descriptor, Entry, Handle, HiddenDescriptorEvents, HiddenEntryEvents,
    List, NoMemory, PlannedOp, PutArgs, TriggeredOp,
};

/// Allocates portal table index 0, without a queue.
pub fn alloc_index(nic: &mut Nic) -> Result<(), NoMemory>
    ensures { OnOk result (nic.new ≡ with_index 0 None nic.old) }
{
    match nic.pt_alloc(0, None) {
        Ok(()) => Ok(()),
        Err(_) => Err(NoMemory),
    }
}

/// Allocates a counting event.
fn alloc_counter(nic: &mut Nic) -> Result<Handle, NoMemory>
    ensures state { IfOk result (λ ct. nic.new ≡ with_counter ct.slot nic.old) }
    ensures stamp { IfOk result (λ ct. ct.stamp ≡ nic.old.cts.given) }
{
    match nic.ct_alloc() {
        Ok(ct) => Ok(ct),
        Err(_) => Err(NoMemory),
    }
}

/// Binds a descriptor.
fn bind(nic: &mut Nic, md: Descriptor) -> Result<Handle, NoMemory>
    ensures state { IfOk result (λ h. nic.new ≡ with_bound h.slot md nic.old) }
    ensures stamp { IfOk result (λ h. h.stamp ≡ nic.old.mds.given) }
{
    match nic.md_bind(md) {
        Ok(h) => Ok(h),
        Err(_) => Err(NoMemory),
    }
}

/// Appends a persistent entry to a list of index 0.
fn link(nic: &mut Nic, list: List, entry: Entry) -> Result<Handle, NoMemory>
    requires { entry.use_once ≡ false }
    ensures state { IfOk result (λ h. nic.new ≡ with_entry h.slot list entry nic.old) }
    ensures stamp { IfOk result (λ h. h.stamp ≡ nic.old.entries_given) }
{
    match nic.me_append(0, list, entry) {
        Ok(Appended::Linked(h)) => Ok(h),
        _ => Err(NoMemory),
    }
}

/// Posts a triggered operation.
pub fn post(nic: &mut Nic, action: TriggeredOp, ct: Handle, threshold: u64) -> Result<(), NoMemory>
    requires { MayStart action nic.old.ranks nic.old.limits }
    ensures { OnOk result (nic.new ≡ with_operation action ct threshold nic.old) }
{
    match nic.triggered(action, ct, threshold) {
        Ok(_) => Ok(()),
        Err(_) => Err(NoMemory),
    }
}

/// A counting event more, whose handle is kept.
pub fn make_counter(nic: &mut Nic, kept: &mut NodeHandles) -> Result<(), NoMemory>
    requires all { AreAllOf nic.old kept.old }
    requires room { length kept.old.counters < kept.old.room.counters }
    ensures { OnOk result (NewCounter nic.old nic.new kept.old kept.new) }
{
    let ct = alloc_counter(nic)?;
    kept.add_counter(ct);
    Ok(())
}

/// A descriptor more, whose handle is kept.
pub fn make_descriptor(
    nic: &mut Nic,
    kept: &mut NodeHandles,
    md: Descriptor,
) -> Result<(), NoMemory>
    requires all { AreAllOf nic.old kept.old }
    requires room { length kept.old.descriptors < kept.old.room.descriptors }
    ensures { OnOk result (NewDescriptor md nic.old nic.new kept.old kept.new) }
{
    let handle = bind(nic, md)?;
    kept.add_descriptor(handle);
    Ok(())
}

/// A persistent entry more, whose handle is kept.
pub fn make_entry(
    nic: &mut Nic,
    kept: &mut NodeHandles,
    list: List,
    entry: Entry,
) -> Result<(), NoMemory>
    requires all { AreAllOf nic.old kept.old }
    requires room { length kept.old.entries < kept.old.room.entries }
    requires persistent { entry.use_once ≡ false }
    ensures { OnOk result (NewEntry list entry nic.old nic.new kept.old kept.new) }
{
    let handle = link(nic, list, entry)?;
    kept.add_entry(handle);
    Ok(())
}

/// The place of a cell among those of the rank, which rise.
fn place_of(cells: &[u32], cell: u32) -> usize
    requires rising { IsRising cells.now }
    requires there { place_in cells.now cell < length cells.now }
    ensures { result ≡ place_in cells.now cell }
{
    let mut low = 0;
    let mut high = cells.len();
    while low + 1 < high {
        let middle = low + (high - low) / 2;
        if cells[middle] <= cell {
            low = middle;
        } else {
            high = middle;
        }
    }
    low
}

/// The counter of a cell.
pub fn counter_of(kept: &NodeHandles, cells: &[u32], cell: u32) -> Handle
    requires rising { IsRising cells.now }
    requires there { HasCounter cells.now (length kept.now.counters) cell }
    ensures { (k : Slots) → Agrees k kept.now → result ≡ counter_at k cells.now cell }
{
    kept.counter(place_of(cells, cell) + 1)
}

/// The descriptor of the whole region.
fn region_descriptor(done: Handle, length: u64, remote: bool) -> Descriptor
    ensures { result ≡ whole_region done length remote }
{
    Descriptor {
        start: 0,
        length,
        eq: None,
        ct: if remote { Some(done) } else { None },
        count_send: false,
        count_reply: false,
        count_ack: remote,
        hidden: HiddenDescriptorEvents::NONE,
    }
}

/// The entry of an area.
fn entry_of_area(start: u64, length: u64, match_bits: u64, ignore_bits: u64) -> Entry
    ensures { result ≡ area_entry start length match_bits ignore_bits }
{
    Entry {
        start,
        length,
        ct: None,
        match_id: None,
        match_bits,
        ignore_bits,
        min_free: 0,
        allow_put: true,
        allow_get: false,
        use_once: false,
        manage_local: true,
        no_truncate: true,
        count_comm: false,
        count_overflow: false,
        hidden: HiddenEntryEvents::NONE,
    }
}

/// The entry of a cell.
pub fn entry_of_cell(
    ct: Handle,
    start: u64,
    length: u64,
    match_bits: u64,
    ignore_bits: u64,
) -> Entry
    ensures { result ≡ cell_entry ct start length match_bits ignore_bits }
{
    Entry {
        start,
        length,
        ct: Some(ct),
        match_id: None,
        match_bits,
        ignore_bits,
        min_free: 0,
        allow_put: true,
        allow_get: false,
        use_once: false,
        manage_local: false,
        no_truncate: true,
        count_comm: true,
        count_overflow: true,
        hidden: HiddenEntryEvents::NONE,
    }
}

/// One success.
pub fn one() -> Count
    ensures { result ≡ successes 1 }
{
    Count {
        success: 1,
        failure: 0,
    }
}

/// What a triggered operation does, by the handles that were made before it.
fn action_of(kept: &NodeHandles, cells: &[u32], act: &PlannedOp) -> TriggeredOp
    requires rising { IsRising cells.now }
    requires wired { IsWired cells.now (counted_in kept.now) act.now }
    ensures does { (k : Slots) → Agrees k kept.now → result ≡ action_at k cells.now act.now }
    ensures may { (ranks : ℕ) (limits : Limits) → MaySend ranks limits act.now →
        MayStart result ranks limits }
{
    match *act {
        PlannedOp::Send {
            local_offset,
            length,
            target,
            match_bits,
            remote_offset,
            hdr_data,
            op,
            ty,
            ack,
        } => {
            let args = PutArgs {
                md: kept.descriptor(),
                local_offset,
                length,
                ack,
                target,
                pt: 0,
                match_bits,
                remote_offset,
                hdr_data,
            };
            match op {
                None => TriggeredOp::Put(args),
                Some(op) => TriggeredOp::Atomic(args, op, ty),
            }
        }
        PlannedOp::BumpCell { cell } => TriggeredOp::Inc(counter_of(kept, cells, cell), one()),
        PlannedOp::BumpDone => TriggeredOp::Inc(kept.counter(0), one()),
    }
}

/// Makes one call.
fn make_call(
    nic: &mut Nic,
    kept: &mut NodeHandles,
    cells: &[u32],
    call: &Call,
) -> Result<(), NoMemory>
    requires rising { IsRising cells.now }
    requires all { AreAllOf nic.old kept.old }
    requires may { MayCall cells.now nic.old.ranks nic.old.limits (counted_in kept.old) call.now }
    requires room { Fits (count_call call.now (counted_in kept.old)) kept.old.room }
    ensures { OnOk result (AreMade cells.now (call.now ∷ []) nic.old nic.new kept.old kept.new) }
{
    match *call {
        Call::PtAlloc => alloc_index(nic),
        Call::CtDone => make_counter(nic, kept),
        Call::CtCell { .. } => make_counter(nic, kept),
        Call::MdBind { length, remote } => {
            let md = region_descriptor(kept.counter(0), length, remote);
            make_descriptor(nic, kept, md)
        }
        Call::Overflow {
            start,
            length,
            match_bits,
            ignore_bits,
        } => {
            let entry = entry_of_area(start, length, match_bits, ignore_bits);
            make_entry(nic, kept, List::Overflow, entry)
        }
        Call::MeAppend {
            cell,
            start,
            length,
            match_bits,
            ignore_bits,
        } => {
            let ct = counter_of(kept, cells, cell);
            let entry = entry_of_cell(ct, start, length, match_bits, ignore_bits);
            make_entry(nic, kept, List::Priority, entry)
        }
        Call::Trigger {
            cell,
            threshold,
            act,
        } => {
            let ct = counter_of(kept, cells, cell);
            let action = action_of(kept, cells, &act);
            post(nic, action, ct, threshold)
        }
    }
}

/// Makes the calls of a list, in order.
pub fn make_calls(
    nic: &mut Nic,
    kept: &mut NodeHandles,
    cells: &[u32],
    calls: &[Call],
) -> Result<(), NoMemory>
    requires rising { IsRising cells.now }
    requires all { AreAllOf nic.old kept.old }
    requires may { MayCallAll cells.now nic.old.ranks nic.old.limits (counted_in kept.old) calls.now }
    requires room { Fits (count_calls calls.now (counted_in kept.old)) kept.old.room }
    ensures { OnOk result (AreMade cells.now calls.now nic.old nic.new kept.old kept.new) }
{
    for call in calls {
        make_call(nic, kept, cells, call)?;
    }
    Ok(())
}
