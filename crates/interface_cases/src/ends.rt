//! One end of the wire: an interface, and the handles that it gave.

use crate::sides::{Side, over};
use crate::steps::Answer;
use crate::values::{LIMITS, NOTHING};
use ptl_types::{
    Count, Descriptor, Entry, GetArgs, Handle, Header, Limits, NiFault, PutArgs, Rank, TriggeredOp,
    UnexpectedHeader,
};
use std::alloc::Global;
use std::process::Abort;

/// An interface, and the handles that it gave, by their numbers.
pub struct End {
    pub side: Side,
    pub cts: [Handle; 8],
    pub eqs: [Handle; 8],
    pub mds: [Handle; 8],
    pub mes: [Handle; 8],
}

// Written out, so that letting one go is one call: docs/DECISIONS.md, "Large types have a drop of their own".
impl Drop for End {
    fn drop(self) {
        let End {
            side: _,
            cts: _,
            eqs: _,
            mds: _,
            mes: _,
        } = self;
    }
}

/// All that calls tell of an interface which don't change it.
#[derive(Clone, Copy, PartialEq)]
pub struct Seen {
    ranks: (Rank, u32),
    limits: Limits,
    memory: [u8; 16],
    length: usize,
    registers: (u64, u64),
    counts: [Result<Count, NiFault>; 4],
    awaits: [Result<u64, NiFault>; 4],
    pending: u32,
    ready: Option<u32>,
    are_ready: [bool; 6],
}

/// The first sixteen bytes of a region, which are all that the regions of the scripts have; zeros after a shorter one.
fn sixteen(memory: &[u8]) -> [u8; 16] {
    let mut bytes = [0; 16];
    for (to, from) in bytes.iter_mut().zip(memory) {
        *to = *from;
    }
    bytes
}

/// The thing that a handle of a script names; itself where there was none.
pub fn named(given: &[Handle], handle: Handle) -> Handle {
    match given.get(handle.stamp as usize) {
        Some(real) if real.stamp == handle.stamp => *real,
        _ => handle,
    }
}

/// The thing that a handle of a script names, where there is one.
pub fn named_if(given: &[Handle], handle: Option<Handle>) -> Option<Handle> {
    match handle {
        Some(handle) => Some(named(given, handle)),
        None => None,
    }
}

/// Keeps a handle under its number.
pub fn keep(given: &mut [Handle], handle: Handle) {
    if let Some(place) = given.get_mut(handle.stamp as usize) {
        *place = handle;
    }
}

impl End {
    /// The interface of one of two ranks, over a region of these bytes.
    pub fn open<R: Abort + Alloc<A = Global>>(rt: &R, rank: Rank, bytes: &[u8]) -> End {
        assert!(rt; rank < 2);
        End {
            side: over(rt, rank, LIMITS, bytes),
            cts: [NOTHING; 8],
            eqs: [NOTHING; 8],
            mds: [NOTHING; 8],
            mes: [NOTHING; 8],
        }
    }

    /// All bytes of the region.
    pub fn memory(&self) -> &[u8] {
        self.side.memory()
    }

    /// All that calls tell now which change nothing.
    pub fn seen(&self) -> Seen {
        let side = &self.side;
        Seen {
            ranks: (side.rank(), side.ranks()),
            limits: *side.limits(),
            memory: sixteen(side.memory()),
            length: side.memory().len(),
            registers: (side.drops(), side.violations()),
            counts: [
                side.ct_get(self.cts[0]),
                side.ct_get(self.cts[1]),
                side.ct_get(self.cts[2]),
                side.ct_get(self.cts[3]),
            ],
            awaits: [
                side.awaits(self.mds[0]),
                side.awaits(self.mds[1]),
                side.awaits(self.mds[2]),
                side.awaits(self.mds[3]),
            ],
            pending: side.pending(),
            ready: side.ready(),
            are_ready: [
                side.is_ready(0),
                side.is_ready(1),
                side.is_ready(2),
                side.is_ready(3),
                side.is_ready(4),
                side.is_ready(5),
            ],
        }
    }

    fn put_args(&self, args: PutArgs) -> PutArgs {
        PutArgs {
            md: named(&self.mds, args.md),
            ..args
        }
    }

    fn get_args(&self, args: GetArgs) -> GetArgs {
        GetArgs {
            md: named(&self.mds, args.md),
            ..args
        }
    }

    /// The deed with the handles that the interface gave.
    pub fn deed(&self, deed: TriggeredOp) -> TriggeredOp {
        match deed {
            TriggeredOp::Put(args) => TriggeredOp::Put(self.put_args(args)),
            TriggeredOp::Get(args) => TriggeredOp::Get(self.get_args(args)),
            TriggeredOp::Atomic(args, op, ty) => TriggeredOp::Atomic(self.put_args(args), op, ty),
            TriggeredOp::FetchAtomic(back, args, op, ty) => {
                TriggeredOp::FetchAtomic(self.get_args(back), self.put_args(args), op, ty)
            }
            TriggeredOp::Swap(back, args, op, ty, operand) => {
                TriggeredOp::Swap(self.get_args(back), self.put_args(args), op, ty, operand)
            }
            TriggeredOp::Inc(ct, by) => TriggeredOp::Inc(named(&self.cts, ct), by),
            TriggeredOp::Set(ct, to) => TriggeredOp::Set(named(&self.cts, ct), to),
        }
    }

    /// The entry with the handle of its counting event.
    pub fn entry(&self, entry: Entry) -> Entry {
        Entry {
            ct: named_if(&self.cts, entry.ct),
            ..entry
        }
    }

    /// The descriptor with the handles of its queue and its counting event.
    pub fn descriptor(&self, md: Descriptor) -> Descriptor {
        Descriptor {
            eq: named_if(&self.eqs, md.eq),
            ct: named_if(&self.cts, md.ct),
            ..md
        }
    }

    /// The header of an answer with the handle of its descriptor.
    pub fn header(&self, header: Header) -> Header {
        Header {
            home: named_if(&self.mds, header.home),
            ..header
        }
    }

    /// The header of a put that asks for no answer, with the handle that the interface gave its entry.
    fn unexpected(&self, header: UnexpectedHeader) -> UnexpectedHeader {
        UnexpectedHeader {
            entry: named(&self.mes, header.entry),
            ..header
        }
    }

    /// The answer with the handles that the interface gave.
    pub fn real(&self, answer: Answer) -> Answer {
        match answer {
            Answer::Consumed(header) => Answer::Consumed(self.unexpected(header)),
            Answer::Found(header) => Answer::Found(self.unexpected(header)),
            answer => answer,
        }
    }
}
