//! What is done with one rank's interface: the calls that install it, as values, and the steps of its history.

use crate::{AckRequest, AtomicOp, ElemType, Lane, Rank};

/// What a triggered operation of an installation does when it fires (Portals 4.3, triggered operations). Offsets and lengths
/// are in bytes.
#[derive(Clone, Copy, Debug, PartialEq, Eq)]
pub enum PlannedOp {
    /// Sends a part of the region to portal table index 0 of another interface: an atomic where there is an operation, else
    /// a put.
    Send {
        /// Where its bytes begin in the region.
        local_offset: u64,
        /// How many bytes are sent.
        length: u64,
        /// The rank that it is for; it may be the sender itself.
        target: Rank,
        /// The match bits.
        match_bits: u64,
        /// Where the bytes begin in the target's cell.
        remote_offset: u64,
        /// The header data: the number of the link.
        hdr_data: u64,
        /// The operation of the target's cell.
        op: Option<AtomicOp>,
        /// The type of its elements.
        ty: ElemType,
        /// The acknowledgement that is asked for.
        ack: AckRequest,
    },
    /// Raises the counting event of a cell of the same rank by one success.
    BumpCell {
        /// The number of that cell.
        cell: u32,
    },
    /// Raises the counting event of what is done by one success.
    BumpDone,
}

/// A call that prepares or starts a rank's interface. Places and lengths are in bytes of its region.
#[derive(Clone, Copy, Debug, PartialEq, Eq)]
pub enum Call {
    /// Allocates portal table index 0, without an event queue.
    PtAlloc,
    /// Allocates the counting event of what is done.
    CtDone,
    /// Allocates the counting event of a cell.
    CtCell {
        /// The number of the cell.
        cell: u32,
    },
    /// Binds the whole region as the one memory descriptor.
    MdBind {
        /// The length of the region.
        length: u64,
        /// Whether acknowledgements are counted, on the counting event of what is done.
        remote: bool,
    },
    /// Appends to the overflow list the entry of an area, where messages that come before the start lie one after the other.
    Overflow {
        /// Where the area begins.
        start: u64,
        /// Its length.
        length: u64,
        /// The match bits of its class of messages.
        match_bits: u64,
        /// The bits that aren't compared.
        ignore_bits: u64,
    },
    /// Appends to the priority list the entry of a cell, which counts each message and each header that its append takes.
    MeAppend {
        /// The number of the cell.
        cell: u32,
        /// Where the cell begins.
        start: u64,
        /// Its length.
        length: u64,
        /// The match bits of its class and number.
        match_bits: u64,
        /// The bits that aren't compared.
        ignore_bits: u64,
    },
    /// Posts a triggered operation on the counting event of a cell.
    Trigger {
        /// The number of the cell.
        cell: u32,
        /// The count at which it is ready.
        threshold: u64,
        /// What it does.
        act: PlannedOp,
    },
}

/// A step of one rank, as an order names it: the message of a receipt is the next of its lane.
#[derive(Clone, Copy, Debug, PartialEq, Eq)]
pub enum LocalStep {
    /// The host starts its interface.
    Start,
    /// The oldest message from a rank on a lane is received.
    Receive {
        /// The rank that sent it.
        source: Rank,
        /// The lane that it came on.
        lane: Lane,
    },
    /// A ready operation is fired.
    Fire {
        /// The number of the operation.
        number: u32,
    },
}

/// Why given orders of local steps fail.
#[derive(Clone, Copy, Debug, PartialEq, Eq)]
pub enum Cause {
    /// A second start of one rank.
    StartedTwice,
    /// No message is there to be received.
    NotSent,
    /// The operation isn't ready, or doesn't wait.
    NotReady,
    /// All steps are made, and the rank isn't at rest.
    NotAtRest,
}
