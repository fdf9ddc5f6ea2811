//! The lanes of a world: by source, target, request before answer.

ghost use Rattle.std.specs.Prelude.{◌≡◌, ◌<◌, ◌≤◌, ◌*◌, ◌+◌, ◌++◌, ◌∷◌, [], drop, length, slice_set};
ghost use Rattle.std.specs.Borrow.{sem};
ghost use Rattle.ptl_types.specs.Kinds.{lane_of};
ghost use Rattle.pair_wires.specs.Lanes.{plain};
ghost use Rattle.cuts.specs.windows.Places.{lane_place};
ghost use Rattle.worlds.specs.parts.Layout.{lane_at};
ghost use Rattle.worlds.specs.parts.Marks.{lane_has, lane_may, out_with, popped, receiver, sent_out, HasPlace};

use pair_wires::PlainLane;
use ptl_types::{Lane, Message, Rank};
use std::marker::Model;

/// What a world is laid out for.
#[derive(Clone, Copy)]
pub struct Setting {
    /// How many ranks there are.
    pub ranks: u32,
    /// How many messages a lane may hold before a step that would put one there has to wait.
    pub window: u64,
    /// How many strays may still be injected.
    pub strays: u32,
    /// How many strays may be injected in all.
    pub spare: u32,
}

/// The index in the table of the lane from s to d.
pub fn lane_index(ranks: u32, s: Rank, d: Rank, lane: Lane) -> usize
    requires at_most { ranks ≤ 256 }
    requires source { s < ranks }
    requires destination { d < ranks }
    ensures value { result ≡ lane_place ranks s d lane }
    ensures inside { result < 2 * (ranks * ranks) }
{
    let pair = s as usize * ranks as usize + d as usize;
    match lane {
        Lane::Request => 2 * pair,
        Lane::Answer => 2 * pair + 1,
    }
}

/// The lanes between all ranks. Its value is the list of the lanes: by source, target, request before answer.
#[derive(Drop)]
pub struct LaneTable {
    lanes: Vec<PlainLane>,
}

impl Model for LaneTable {
    ghost use Rattle.std.specs.Prelude.{List};
    ghost use Rattle.pair_wires.specs.Lanes.{Plain};

    ghost Value = { List Plain };

    ghost view = { λ t. t.lanes.items };
}

impl LaneTable {
    ghost use Rattle.worlds.specs.LaneLends.{LendsLaneAt};

    /// The table of these lanes.
    pub fn of_lanes(lanes: Vec<PlainLane>) -> LaneTable
        ensures { result ≡ lanes.items }
    {
        LaneTable { lanes }
    }

    /// The lane at an index.
    pub fn lane_mut(&mut self, index: usize) -> &mut PlainLane
        requires { index < length self.old }
        ensures* writes_back { sem 𝓛 (LendsLaneAt self.entry index result) }
        ensures value { result.now ≡ lane_at self.old index }
    {
        &mut self.lanes[index]
    }

    /// Whether a further message fits under the window.
    pub fn has_window(&self, setting: Setting, s: Rank, d: Rank, lane: Lane) -> bool
        requires at_most { setting.ranks ≤ 256 }
        requires size { length self.now ≡ 2 * (setting.ranks * setting.ranks) }
        requires source { s < setting.ranks }
        requires destination { d < setting.ranks }
        ensures { result ≡ lane_has self.now setting.ranks setting.window s d lane }
    {
        let index = lane_index(setting.ranks, s, d, lane);
        u64::from(self.lanes[index].len()) < setting.window
    }

    /// Whether the first message of the lane may be delivered.
    pub fn may_deliver(&self, setting: Setting, s: Rank, d: Rank, lane: Lane) -> bool
        requires at_most { setting.ranks ≤ 256 }
        requires size { length self.now ≡ 2 * (setting.ranks * setting.ranks) }
        requires source { s < setting.ranks }
        requires destination { d < setting.ranks }
        ensures { result ≡ lane_may self.now setting.ranks setting.window s d lane }
    {
        let some = 0 < self.lanes[lane_index(setting.ranks, s, d, lane)].len();
        match lane {
            Lane::Request => some && self.has_window(setting, d, s, Lane::Answer),
            Lane::Answer => some,
        }
    }

    /// Puts a message of rank r at the end of its lane.
    pub fn put(&mut self, ranks: u32, r: Rank, d: Rank, lane: Lane, message: Message)
        requires at_most { ranks ≤ 256 }
        requires size { length self.old ≡ 2 * (ranks * ranks) }
        requires source { r < ranks }
        requires destination { d < ranks }
        requires room { length (lane_at self.old (lane_place ranks r d lane)).messages
            < (lane_at self.old (lane_place ranks r d lane)).capacity }
        ensures put { self.new ≡ slice_set self.old (lane_place ranks r d lane)
            (plain ((lane_at self.old (lane_place ranks r d lane)).messages ++ message ∷ [])
            (lane_at self.old (lane_place ranks r d lane)).capacity) }
        ensures size { length self.new ≡ length self.old }
    {
        self.lanes[lane_index(ranks, r, d, lane)].push_back(message);
    }

    /// Takes the first message of a lane.
    pub fn take(&mut self, ranks: u32, s: Rank, d: Rank, lane: Lane) -> Message
        requires at_most { ranks ≤ 256 }
        requires size { length self.old ≡ 2 * (ranks * ranks) }
        requires source { s < ranks }
        requires destination { d < ranks }
        requires nonempty { 0 < length (lane_at self.old (lane_place ranks s d lane)).messages }
        ensures front { (lane_at self.old (lane_place ranks s d lane)).messages ≡ result ∷ drop 1
            (lane_at self.old (lane_place ranks s d lane)).messages }
        ensures rest { self.new ≡ popped ranks s d lane self.old }
        ensures size { length self.new ≡ length self.old }
    {
        match self.lanes[lane_index(ranks, s, d, lane)].pop_front() {
            Some(message) => message,
            None => unreachable!(),
        }
    }

    /// Puts a message of rank r at the end of the lane that it names.
    pub fn send(&mut self, ranks: u32, r: Rank, message: Message)
        requires at_most { ranks ≤ 256 }
        requires size { length self.old ≡ 2 * (ranks * ranks) }
        requires source { r < ranks }
        requires destination { message.header.target < ranks }
        requires room { length (lane_at self.old (lane_place ranks r message.header.target (lane_of message.header.kind))).messages
            < (lane_at self.old (lane_place ranks r message.header.target (lane_of message.header.kind))).capacity }
        ensures sent { self.new ≡ sent_out ranks r message self.old }
        ensures size { length self.new ≡ length self.old }
    {
        let d = message.header().target;
        let lane = message.header().kind.lane();
        self.put(ranks, r, d, lane, message);
    }

    /// Puts what rank r makes, if anything, at the end of its lane, and answers for whom it is: none is for r itself.
    pub fn send_out(&mut self, ranks: u32, r: Rank, made: Option<Message>) -> Rank
        requires at_most { ranks ≤ 256 }
        requires size { length self.old ≡ 2 * (ranks * ranks) }
        requires source { r < ranks }
        requires goes { HasPlace ranks r self.old made }
        ensures lanes { self.new ≡ out_with ranks r made self.old }
        ensures size { length self.new ≡ length self.old }
        ensures for_whom { result ≡ receiver r made }
        ensures destination { result < ranks }
    {
        match made {
            Some(message) => {
                let d = message.header().target;
                self.send(ranks, r, message);
                d
            }
            None => r,
        }
    }
}
