//! The arguments and answers of an interface's calls.

ghost use Rattle.std.specs.Prelude.{◌≡◌};
ghost use Rattle.ptl_types.specs.declared.calls.NiFault.TheVariants.{NoMemory};

use crate::{
    AckRequest, AtomicOp, Count, ElemType, Event, Handle, Message, NoMemory, Rank, SwapOp,
    UnexpectedHeader,
};
use std::fmt;

/// What an interface is opened with: the actual limits are exactly these (Portals 4.3, network interface limits).
#[derive(Clone, Copy, Debug, PartialEq, Eq)]
pub struct Limits {
    /// Match entries linked at a time.
    pub entries: u32,
    /// Unexpected headers kept at a time, in all indices together.
    pub unexpected: u32,
    /// Memory descriptors bound at a time.
    pub mds: u32,
    /// Counting events allocated at a time.
    pub cts: u32,
    /// Event queues allocated at a time.
    pub eqs: u32,
    /// Portal table indices: every index is below this.
    pub pts: u32,
    /// Triggered operations pending at a time.
    pub triggered: u32,
    /// The longest operation of any kind, in bytes.
    pub msg: u64,
    /// The longest atomic, in bytes.
    pub atomic: u64,
    /// The longest fetch-atomic, in bytes.
    pub fetch_atomic: u64,
}

impl Limits {
    /// Sixteen things of each kind, four portal table indices, and operations of up to 4096 bytes.
    pub const SMALL: Limits = Limits {
        entries: 16,
        unexpected: 16,
        mds: 16,
        cts: 16,
        eqs: 16,
        pts: 4,
        triggered: 16,
        msg: 4096,
        atomic: 4096,
        fetch_atomic: 4096,
    };
}

/// Why a call of an interface was refused. The lowest one that holds is answered, and a refused call changes nothing.
#[derive(Clone, Copy, Debug, PartialEq, Eq)]
pub enum NiFault {
    /// A handle or a portal table index that the call names isn't live.
    Stale = 1,
    /// The table is full, its stamps or numbers are used up, or the index is past the limit.
    NoSpace = 2,
    /// A part reaches past the end of the region or of the descriptor.
    OutOfRegion = 3,
    /// The thing is still named by another one or awaits an answer, or the index is allocated already.
    InUse = 4,
    /// A counting event's success and failure would together pass 2^64 - 1.
    CountFull = 5,
    /// There was no memory.
    NoMemory = 6,
}

impl fmt::Display for NiFault {
    fn fmt<W: fmt::Write>(&self, f: &mut fmt::Formatter<W>) -> fmt::Result {
        f.write_str(match self {
            NiFault::Stale => "a handle or an index isn't live",
            NiFault::NoSpace => "the table is full",
            NiFault::OutOfRegion => "a part reaches past the region",
            NiFault::InUse => "it is still in use",
            NiFault::CountFull => "the count would pass its end",
            NiFault::NoMemory => "out of memory",
        })
    }
}

impl std::error::Error for NiFault {}

impl From<NoMemory> for NiFault {
    ghost from_gives = { λ _ e. e ≡ NoMemory };

    fn from(_e: NoMemory) -> NiFault {
        NiFault::NoMemory
    }
}

/// The arguments of a put, of an atomic, and of the sending half of a fetch-atomic or swap.
#[derive(Clone, Copy, Debug, PartialEq, Eq)]
pub struct PutArgs {
    /// The descriptor whose bytes are sent.
    pub md: Handle,
    /// Where in that descriptor they begin, in bytes.
    pub local_offset: u64,
    /// How many bytes are sent.
    pub length: u64,
    /// What acknowledgement is asked for.
    pub ack: AckRequest,
    /// The rank that it is for.
    pub target: Rank,
    /// The portal table index there.
    pub pt: u32,
    /// The match bits.
    pub match_bits: u64,
    /// The offset at the target, in bytes.
    pub remote_offset: u64,
    /// Header data, which an event shows to the target.
    pub hdr_data: u64,
}

/// The arguments of a get, and of the receiving half of a fetch-atomic or swap.
#[derive(Clone, Copy, Debug, PartialEq, Eq)]
pub struct GetArgs {
    /// The descriptor that the reply is written to.
    pub md: Handle,
    /// Where in that descriptor it is written, in bytes.
    pub local_offset: u64,
    /// How many bytes are asked for.
    pub length: u64,
    /// The rank that is asked.
    pub target: Rank,
    /// The portal table index there.
    pub pt: u32,
    /// The match bits.
    pub match_bits: u64,
    /// The offset at the target, in bytes.
    pub remote_offset: u64,
}

/// What a triggered operation does when it fires (Portals 4.3, triggered operations).
#[derive(Clone, Copy, Debug, PartialEq, Eq)]
pub enum TriggeredOp {
    /// Starts a put.
    Put(PutArgs),
    /// Starts a get.
    Get(GetArgs),
    /// Starts an atomic.
    Atomic(PutArgs, AtomicOp, ElemType),
    /// Starts a fetch-atomic.
    FetchAtomic(GetArgs, PutArgs, AtomicOp, ElemType),
    /// Starts a swap with its operand.
    Swap(GetArgs, PutArgs, SwapOp, ElemType, u64),
    /// Adds to a counting event.
    Inc(Handle, Count),
    /// Sets a counting event.
    Set(Handle, Count),
}

/// The answer of an append.
#[derive(Clone, Copy, Debug, PartialEq, Eq)]
pub enum Appended {
    /// The entry is linked under this handle.
    Linked(Handle),
    /// The use-once entry took this header, the oldest that it found, and isn't linked.
    Consumed(UnexpectedHeader),
}

/// The answer of asking an event queue for its oldest event.
#[derive(Clone, Copy, Debug, PartialEq, Eq)]
pub enum EqGot {
    /// The oldest event, which left the queue.
    Got(Event),
    /// The queue holds none.
    Empty,
    /// An event was lost since the last call. The kept ones are still there.
    Dropped,
}

impl fmt::Display for EqGot {
    fn fmt<W: fmt::Write>(&self, f: &mut fmt::Formatter<W>) -> fmt::Result {
        match self {
            EqGot::Got(event) => write!(f, "{event}"),
            EqGot::Empty => f.write_str("no event"),
            EqGot::Dropped => f.write_str("an event was lost"),
        }
    }
}

/// What became of a message that arrived.
#[derive(Clone, Copy, Debug, PartialEq, Eq)]
pub enum Outcome {
    /// A priority entry took it.
    Matched,
    /// An overflow entry took it, and its header is kept.
    Overflow,
    /// It was an answer that a descriptor awaited.
    Answered,
    /// It was dropped, and the drop register rose.
    Dropped,
    /// The entry that it matched doesn't allow it, and the violation register rose.
    Violation,
}

impl fmt::Display for Outcome {
    fn fmt<W: fmt::Write>(&self, f: &mut fmt::Formatter<W>) -> fmt::Result {
        f.write_str(match self {
            Outcome::Matched => "taken by a priority entry",
            Outcome::Overflow => "taken by an overflow entry",
            Outcome::Answered => "an answer that was awaited",
            Outcome::Dropped => "dropped",
            Outcome::Violation => "not allowed",
        })
    }
}

/// The answer of an arrival.
#[derive(Debug, Drop)]
pub struct Delivered {
    /// What became of the message.
    pub outcome: Outcome,
    /// The acknowledgement or reply that the message asked for.
    pub answer: Option<Message>,
}
