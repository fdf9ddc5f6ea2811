//! The start of a rank: what came early is brought into its cells, and their entries are appended.

ghost use Rattle.std.specs.Prelude.{◌≡◌, ◌<◌, ◌≤◌, ◌+◌, List, All, nat_le, [], ◌∷◌, true, false, length, vec_capacity};
ghost use Rattle.ni_model.specs.Headers.{found_in};
ghost use Rattle.plan_core.specs.declared.calls.OwnCell.{OwnCell};
ghost use Rattle.rank_node.specs.Handles.{AreAllOf, IsRising};
ghost use Rattle.rank_node.specs.Calls.{HasCounter};
ghost use Rattle.cuts.specs.start.Start.{is_used, lies_in, fits_elements, brought_by, bring, bring_all, go_raised};
ghost use Rattle.rank_node.specs.Start.{IsAppended, AreStarted};

use crate::install::{counter_of, entry_of_cell, one};
use crate::kept::NodeHandles;
use lane_ops::combine;
use match_lists::unexpected::finds;
use plan_core::calls::OwnCell;
use portals_ni::Nic;
use ptl_types::{Appended, AtomicOp, ElemType, Entry, Handle, List, UnexpectedHeader};

/// Whether so many bytes are whole elements, where the cell has an operation.
fn fits_elements(op: Option<AtomicOp>, ty: ElemType, count: u64) -> bool
    ensures { result ≡ fits_elements op ty count }
{
    match op {
        None => true,
        Some(_) => count % ty.size() == 0,
    }
}

/// Whether the sum of both is at most the size.
fn is_within(start: u64, length: u64, size: u64) -> bool
    ensures { result ≡ nat_le (start + length) size }
{
    match start.checked_add(length) {
        Some(end) => end <= size,
        None => false,
    }
}

/// Whether what a header brought is used.
fn is_used(longest: u64, cell: &OwnCell, header: &UnexpectedHeader) -> bool
    ensures { result ≡ is_used longest cell.now header.now }
{
    is_within(header.header.offset, header.delivered, cell.length)
        && header.delivered <= longest
        && fits_elements(cell.op, cell.ty, header.delivered)
}

/// Whether the cell and the header's bytes lie in a region of this size.
fn lies_in(cell: &OwnCell, header: &UnexpectedHeader, size: u64) -> bool
    ensures { result ≡ lies_in cell.now header.now size }
{
    is_within(cell.start, cell.length, size) && is_within(header.place, header.delivered, size)
}

/// Fills the buffer, which has room for them, with the bytes that a part of a cell holds once those that came are written or combined.
fn fill_brought(buffer: &mut Vec<u8>, op: Option<AtomicOp>, ty: ElemType, held: &[u8], came: &[u8])
    requires room { length came.now ≤ vec_capacity buffer.old }
    requires same { length held.now ≡ length came.now }
    requires whole { fits_elements op ty (length came.now) ≡ true }
    ensures filled { buffer.new.items ≡ brought_by op ty held.now came.now }
    ensures count { length buffer.new.items ≡ length came.now }
    ensures room { vec_capacity buffer.old ≤ vec_capacity buffer.new }
{
    buffer.clear();
    match op {
        None => {
            let _ = buffer.extend_from_slice(came);
        }
        Some(op) => {
            let _ = buffer.extend_from_slice(held);
            combine(op, ty, buffer, came);
        }
    }
}

/// Brings what a header brought into the cell, where it is used. The buffer has room for the longest that is used.
#[tactic(auto, unfolding(cuts::specs::start::Start::bring))]
fn bring_one(
    nic: &mut Nic,
    buffer: &mut Vec<u8>,
    longest: u64,
    cell: &OwnCell,
    header: &UnexpectedHeader,
)
    requires { longest ≤ vec_capacity buffer.old }
    ensures brought { nic.new ≡ record nic.old { memory = bring longest cell.now header.now nic.old.memory } }
    ensures room { longest ≤ vec_capacity buffer.new }
{
    let size = nic.memory().len() as u64;
    if is_used(longest, cell, header) && lies_in(cell, header, size) {
        let start = cell.start + header.header.offset;
        let at = start as usize;
        let from = header.place as usize;
        let count = header.delivered as usize;
        let memory = nic.memory();
        fill_brought(
            buffer,
            cell.op,
            cell.ty,
            &memory[at..at + count],
            &memory[from..from + count],
        );
        nic.write_memory(start, buffer);
    }
}

/// Brings what the headers brought that the entry finds, in order of arrival.
fn bring_found(nic: &mut Nic, buffer: &mut Vec<u8>, longest: u64, cell: &OwnCell, entry: &Entry)
    requires { longest ≤ vec_capacity buffer.old }
    ensures brought { nic.new ≡ record nic.old {
      memory = bring_all longest cell.now (found_in 0 entry.now nic.old.headers.unexpected)
          nic.old.memory;
    } }
    ensures room { longest ≤ vec_capacity buffer.new }
{
    for i in 0..nic.headers().len() {
        let unexpected = nic.headers()[i];
        if finds(&unexpected, 0, entry) {
            bring_one(nic, buffer, longest, cell, &unexpected.header);
        }
    }
}

/// Appends the entry of a cell. A refused append changes nothing.
fn append_cell(nic: &mut Nic, kept: &mut NodeHandles, entry: Entry)
    requires all { AreAllOf nic.old kept.old }
    requires persistent { entry.use_once ≡ false }
    requires room { length kept.old.entries < kept.old.room.entries }
    ensures { IsAppended entry nic.old nic.new kept.old kept.new }
{
    match nic.me_append(0, List::Priority, entry) {
        Ok(Appended::Linked(handle)) => kept.add_entry(handle),
        Ok(Appended::Consumed(_)) => {}
        Err(_) => {}
    }
}

/// Starts one cell.
fn start_cell(
    nic: &mut Nic,
    kept: &mut NodeHandles,
    buffer: &mut Vec<u8>,
    longest: u64,
    cells: &[u32],
    cell: &OwnCell,
)
    requires buffer { longest ≤ vec_capacity buffer.old }
    requires all { AreAllOf nic.old kept.old }
    requires rising { IsRising cells.now }
    requires there { HasCounter cells.now (length kept.old.counters) cell.now.number }
    requires room { length kept.old.entries < kept.old.room.entries }
    ensures started { AreStarted longest cells.now (cell.now ∷ []) nic.old nic.new kept.old kept.new }
    ensures buffer { longest ≤ vec_capacity buffer.new }
{
    let ct = counter_of(kept, cells, cell.number);
    let entry = entry_of_cell(
        ct,
        cell.start,
        cell.length,
        cell.match_bits,
        cell.ignore_bits,
    );
    bring_found(nic, buffer, longest, cell, &entry);
    append_cell(nic, kept, entry);
}

/// Starts the cells of a list, in order. The buffer has room for the longest message that is used.
pub fn start_cells(
    nic: &mut Nic,
    kept: &mut NodeHandles,
    buffer: &mut Vec<u8>,
    longest: u64,
    cells: &[u32],
    own: &[OwnCell],
)
    requires buffer { longest ≤ vec_capacity buffer.old }
    requires all { AreAllOf nic.old kept.old }
    requires rising { IsRising cells.now }
    requires there { All (λ (c : OwnCell). HasCounter cells.now (length kept.old.counters) c.number) own.now }
    requires room { length kept.old.entries + length own.now ≤ kept.old.room.entries }
    ensures started { AreStarted longest cells.now own.now nic.old nic.new kept.old kept.new }
    ensures buffer { longest ≤ vec_capacity buffer.new }
{
    for cell in own {
        start_cell(nic, kept, buffer, longest, cells, cell);
    }
}

/// The host raises the go counter by one. A refused count changes nothing.
pub fn raise_go(nic: &mut Nic, go: Handle)
    ensures { nic.new ≡ go_raised go nic.old }
{
    let _ = nic.ct_inc(go, one());
}
