//! What is compiled for one rank.

use plan_core::calls::OwnCell;
use ptl_types::{Bytes, Call, Limits, Rank};

/// The work of one rank of a plan, with the bytes that its region begins with.
#[derive(Drop)]
pub struct Compiled {
    /// The rank.
    pub rank: Rank,
    /// How many ranks there are.
    pub ranks: u32,
    /// The limits that the interface is opened with.
    pub limits: Limits,
    /// The bytes that the region begins with.
    pub region: Bytes,
    /// The numbers of the rank's own cells, rising.
    pub cells: Vec<u32>,
    /// The calls that prepare the interface, in order.
    pub calls: Vec<Call>,
    /// The own cells, rising, with the entries that the start appends for them.
    pub own: Vec<OwnCell>,
    /// The number of the cell whose counting event the host raises at the start.
    pub go: u32,
    /// The longest message of the plan to this rank, in bytes.
    pub longest: u64,
    /// How many messages of the plan come to this rank, requests and answers together.
    pub receipts: u64,
    /// How many bytes these have together.
    pub bytes: u64,
}
