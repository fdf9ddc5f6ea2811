//! The ends of a rank's wires.

ghost use Rattle.std.specs.Prelude.{◌≡◌, ◌↔◌, IsTrue};

use pair_wires::{InEnd, OutEnd};
use ptl_types::{Lane, Rank};

/// The out end of a lane from the rank, with the number of its wire.
#[derive(Drop)]
pub struct OutPort {
    /// The end.
    pub end: OutEnd,
    /// The number of its wire.
    pub wire: u32,
    /// The rank that the lane leads to.
    pub target: Rank,
    /// Its kind.
    pub lane: Lane,
}

/// The in end of a lane to the rank, with the number of its wire.
#[derive(Drop)]
pub struct InPort {
    /// The end.
    pub end: InEnd,
    /// The number of its wire.
    pub wire: u32,
    /// The rank that the lane comes from.
    pub source: Rank,
    /// Its kind.
    pub lane: Lane,
}

/// Whether both are one lane.
fn same_lane(a: Lane, b: Lane) -> bool
    ensures { IsTrue result ↔ (a ≡ b) }
{
    a == b
}

impl OutPort {
    /// Whether the lane leads to this rank and is of this kind.
    pub(crate) fn is_to(&self, target: Rank, lane: Lane) -> bool
        ensures { IsTrue result ↔ ((self.now.target ≡ target) × (self.now.lane ≡ lane)) }
    {
        self.target == target && same_lane(self.lane, lane)
    }
}

impl InPort {
    /// Whether the lane comes from this rank and is of this kind.
    pub(crate) fn is_from(&self, source: Rank, lane: Lane) -> bool
        ensures { IsTrue result ↔ ((self.now.source ≡ source) × (self.now.lane ≡ lane)) }
    {
        self.source == source && same_lane(self.lane, lane)
    }
}
