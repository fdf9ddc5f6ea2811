//! What is noted of a rank.

ghost use Rattle.std.specs.Prelude.{◌≡◌, ◌↔◌, ◌<◌, ◌^◌, IfSome, IfNone, IsTrue, length, slice_set};
ghost use mathlib.Core.Option.{some};
ghost use lib.ListN.{get_elem?};
ghost use Rattle.rest_probe.specs.declared.notes.LaneCount.{LaneCount};
ghost use Rattle.rest_probe.specs.Counted.{Tells, TellsNone, cleared, counted};

use ptl_types::{Lane, Rank};
use std::marker::Model;

/// How many messages were noted on a lane.
#[derive(Clone, Copy, Debug, PartialEq, Eq)]
pub struct LaneCount {
    /// The rank at the other end of the lane.
    pub rank: Rank,
    /// Its kind.
    pub lane: Lane,
    /// How many messages.
    pub number: u64,
}

/// Whether both are one lane.
fn same_lane(a: Lane, b: Lane) -> bool
    ensures { IsTrue result ↔ (a ≡ b) }
{
    a == b
}

impl LaneCount {
    /// Whether it is of the lane.
    fn is_on(&self, rank: Rank, lane: Lane) -> bool
        ensures { IsTrue result ↔ ((self.now.rank ≡ rank) × (self.now.lane ≡ lane)) }
    {
        self.rank == rank && same_lane(self.lane, lane)
    }
}

/// The lanes from a rank, or to it, that messages go on, by the other rank with request first, and how many messages were noted on each.
#[derive(Debug, Drop)]
pub struct Counts {
    items: Vec<LaneCount>,
}

impl Model for Counts {
    ghost use Rattle.std.specs.Prelude.{◌<◌, ◌^◌, List, length};
    ghost use Rattle.rest_probe.specs.declared.notes.LaneCount.{LaneCount};

    ghost Value = { List LaneCount };

    ghost view = { λ c. c.items.items };

    ghost invariant = { λ c. length c.items.items < 2 ^ 32 };
}

impl Counts {
    // These lanes.
    pub(crate) fn of(items: Vec<LaneCount>) -> Counts
        requires { length items.items < 2 ^ 32 }
        ensures { result ≡ items.items }
    {
        Counts { items }
    }

    /// How many lanes there are.
    pub fn len(&self) -> u32
        ensures { result ≡ length self.now }
    {
        self.items.len() as u32
    }

    /// A lane, and how many messages were noted on it.
    pub fn at(&self, i: u32) -> LaneCount
        requires { i < length self.now }
        ensures { get_elem? self.now i ≡ some result }
    {
        self.items[i as usize]
    }

    // The number of a lane, looked for among all.
    fn search(&self, rank: Rank, lane: Lane) -> Option<u64>
        ensures some { IfSome result (λ k. Tells self.now rank lane k) }
        ensures none { IfNone result (TellsNone self.now rank lane) }
    {
        for at in 0..self.items.len() {
            let count = self.items[at];
            if count.is_on(rank, lane) {
                return Some(count.number);
            }
        }
        None
    }

    /// The number of a lane. `None` exactly where the lane isn't here. It is looked for where it is likely to stand first.
    pub(crate) fn find(&self, likely: usize, rank: Rank, lane: Lane) -> Option<u64>
        ensures some { IfSome result (λ k. Tells self.now rank lane k) }
        ensures none { IfNone result (TellsNone self.now rank lane) }
    {
        if likely < self.items.len() {
            let count = self.items[likely];
            if count.is_on(rank, lane) {
                return Some(count.number);
            }
        }
        self.search(rank, lane)
    }

    /// The number of a lane is from now on this one.
    pub(crate) fn set(&mut self, i: u32, number: u64)
        requires { i < length self.old }
        ensures { (c : LaneCount) → get_elem? self.old i ≡ some c → self.new ≡ slice_set self.old i (counted c number) }
    {
        let count = &mut self.items[i as usize];
        count.number = number;
    }

    /// All numbers are from now on 0.
    pub(crate) fn clear(&mut self)
        ensures { self.new ≡ cleared self.old }
    {
        let count = self.items.len();
        for at in 0..count {
            self.items[at].number = 0;
        }
    }
}

/// What is noted of a rank.
#[derive(Debug, Drop)]
pub struct ProbeNote {
    /// Whether it had started.
    pub started: bool,
    /// The number of an operation that was ready, if one was.
    pub ready: Option<u32>,
    /// How many messages it sent, lane by lane.
    pub sent: Counts,
    /// How many it received.
    pub got: Counts,
}

/// A rank in a wave: its note, if it is there.
#[derive(Debug, Drop)]
pub struct RankNote {
    /// Whether the rank has its note.
    pub there: bool,
    /// The note; where it isn't there, its room.
    pub note: ProbeNote,
}
