//! An interface that is filled with so many of everything.

use super::calls;
use portals_ni::Nic;
use ptl_types::{AckRequest, Bytes, Descriptor, Entry, Handle, Limits, List};
use std::alloc::Global;

/// How many calls of a kind are measured at most.
pub const CALLS: u32 = 1_000;

/// The sum that no counting event reaches.
pub const NEVER: u64 = 1 << 40;

/// The interface of one rank, which sends to itself.
#[derive(Drop)]
pub struct Full {
    /// The interface.
    pub nic: Nic,
    /// Of how many things it was filled with.
    pub size: u32,
    /// Its counting events. All operations wait on the first.
    pub cts: Vec<Handle>,
    /// Its descriptors.
    pub mds: Vec<Handle>,
    /// Its event queues.
    pub eqs: Vec<Handle>,
    /// The entries of index 0, by match bits.
    pub entries: Vec<Handle>,
    /// What was made last.
    pub made: Vec<Handle>,
}

/// Room for so many things, and for those that are made while measuring.
fn limits(size: u32) -> Limits {
    let room = size.saturating_add(4 * CALLS);
    Limits {
        entries: room,
        unexpected: room,
        mds: room,
        cts: room,
        eqs: room,
        pts: 4,
        triggered: room.saturating_add(room),
        msg: 8,
        atomic: 8,
        fetch_atomic: 8,
    }
}

/// Room for as many handles.
fn handles(alloc: Global, size: u32) -> Option<Vec<Handle>> {
    Vec::with_capacity(alloc, size as usize + 4 * CALLS as usize).ok()
}

/// Opens an interface with room for so many things.
fn open(alloc: Global, size: u32) -> Option<Nic> {
    let region = Bytes::of(alloc, &[1, 2, 3, 4, 5, 6, 7, 8]).ok()?;
    guarded_ni::open(alloc, 0, 1, limits(size), region).ok()
}

/// Whether there is memory for a further interface, which goes again.
pub fn opens(alloc: Global, size: u32) -> bool {
    open(alloc, size).is_some()
}

/// An interface with nothing in it but three portal table indices.
fn empty(alloc: Global, size: u32) -> Option<Full> {
    let mut nic = open(alloc, size)?;
    for index in 0..3 {
        nic.pt_alloc(index, None).ok()?;
    }
    Some(Full {
        nic,
        size,
        cts: handles(alloc, size)?,
        mds: handles(alloc, size)?,
        eqs: handles(alloc, size)?,
        entries: handles(alloc, size)?,
        made: handles(alloc, size)?,
    })
}

impl Full {
    /// So many counting events, queues, descriptors and entries.
    fn make_things(&mut self) -> Option<()> {
        for number in 0..self.size {
            let ct = self.nic.ct_alloc().ok()?;
            self.cts.push(ct).ok()?;
            let eq = self.nic.eq_alloc(1).ok()?;
            self.eqs.push(eq).ok()?;
            let descriptor = Descriptor {
                ct: Some(ct),
                ..Descriptor::over(0, 8)
            };
            let md = self.nic.md_bind(descriptor).ok()?;
            self.mds.push(md).ok()?;
            let entry = Entry {
                ct: Some(ct),
                match_bits: u64::from(number),
                ..Entry::over(0, 8)
            };
            let me = calls::append(&mut self.nic, 0, List::Priority, entry)?;
            self.entries.push(me).ok()?;
        }
        Some(())
    }

    /// So many operations that wait on the first counting event.
    fn post_operations(&mut self) -> Option<()> {
        let first = *self.cts.first()?;
        for number in 0..self.size {
            let threshold = NEVER + u64::from(number % 7);
            calls::post(&mut self.nic, first, first, threshold)?;
        }
        Some(())
    }

    /// As many unexpected headers at index 1 and those that are taken while measuring, of match bits that rise from 0, in one
    /// overflow entry that takes all.
    fn send_unexpected(&mut self) -> Option<()> {
        let entry = Entry {
            ignore_bits: u64::MAX,
            ..Entry::over(0, 8)
        };
        calls::append(&mut self.nic, 1, List::Overflow, entry)?;
        let md = *self.mds.first()?;
        for number in 0..self.size.saturating_add(2 * CALLS) {
            let bits = u64::from(number);
            let message = calls::put(&mut self.nic, md, 1, bits, AckRequest::NoAck);
            let _ = calls::exchange(&mut self.nic, message);
        }
        Some(())
    }
}

/// An interface with so many of everything; `None` where memory runs out.
pub fn fill(alloc: Global, size: u32) -> Option<Full> {
    let mut full = empty(alloc, size)?;
    full.make_things()?;
    full.post_operations()?;
    full.send_unexpected()?;
    Some(full)
}
