//! What a rank of a plan installs, as data: classes of messages and their match bits, the areas of its region, the calls that
//! prepare and start it, its triggered operations, its limits, and how many messages and bytes its lanes carry.
//! The definitions stand in `specs/`; there is no code here but the type that a start reads.

use ptl_types::{AtomicOp, ElemType};

/// A cell of a rank, as its start appends it: an entry of the priority list of portal table index 0, with what is needed to
/// bring the bytes that came before the start into the cell. Places and lengths are in bytes of the rank's region.
#[derive(Clone, Copy, Debug, PartialEq, Eq)]
pub struct OwnCell {
    /// The number of the cell.
    pub number: u32,
    /// Where it begins in the region.
    pub start: u64,
    /// Its length.
    pub length: u64,
    /// The operation by which what comes is combined, if any.
    pub op: Option<AtomicOp>,
    /// The type of its elements.
    pub ty: ElemType,
    /// The match bits of its class and number.
    pub match_bits: u64,
    /// The bits that aren't compared.
    pub ignore_bits: u64,
}
