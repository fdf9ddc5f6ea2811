//! All that changes while orders are played, as numbers in one row.

use ptl_types::Rank;

/// How many cells, links and ranks a plan has. Each register stands at a place of one row: first the counting event of each cell, then
/// the state of each link, the state of each acknowledgement by its link, whether the done counter has counted each cell, the done
/// counter of each rank, and whether each rank has started.
#[derive(Clone, Copy, Debug)]
pub struct Registers {
    /// How many cells.
    pub cells: u32,
    /// How many links.
    pub links: u32,
    /// How many ranks.
    pub ranks: u32,
}

/// What a register tells.
#[derive(Clone, Copy, Debug, PartialEq, Eq)]
pub enum Register {
    /// Where the counting event of this cell stands.
    Counter(u32),
    /// The state of this link.
    Link(u32),
    /// The state of the acknowledgement of this link's message: 0 none, 1 under way, 2 counted.
    Answer(u32),
    /// Whether the done counter of its rank has counted this cell: 0 or 1.
    Told(u32),
    /// Where the done counter of this rank stands.
    Done(Rank),
    /// Whether this rank has started: 0 or 1.
    Started(Rank),
}

/// The link has not been fired.
pub const WAITS: u64 = 0;

/// Its message is under way, on the lane between the two ranks.
pub const UNDER_WAY: u64 = 1;

/// Its message has come before the rank's start.
pub const EARLY: u64 = 2;

/// Its target has counted it.
pub const COUNTED: u64 = 3;

impl Registers {
    /// How many registers there are.
    pub fn count(self) -> u64 {
        2 * (u64::from(self.cells) + u64::from(self.links) + u64::from(self.ranks))
    }

    /// The place of a register.
    pub fn place(self, register: Register) -> u64 {
        let (cells, links) = (u64::from(self.cells), u64::from(self.links));
        match register {
            Register::Counter(cell) => u64::from(cell),
            Register::Link(link) => cells + u64::from(link),
            Register::Answer(link) => cells + links + u64::from(link),
            Register::Told(cell) => cells + 2 * links + u64::from(cell),
            Register::Done(rank) => 2 * cells + 2 * links + u64::from(rank),
            Register::Started(rank) => {
                2 * cells + 2 * links + u64::from(self.ranks) + u64::from(rank)
            }
        }
    }
}
