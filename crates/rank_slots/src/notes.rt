//! What a slot notes of its rank.

ghost use Rattle.std.specs.Prelude.{ℕ, true, false, ◌≡◌, ◌<◌, List, length, slice_set};
ghost use mathlib.Core.Option.{some};
ghost use lib.ListN.{get_elem?};
ghost use Rattle.cuts.specs.histories.History.{got};
ghost use Rattle.rest_probe.specs.declared.notes.LaneCount.{LaneCount};
ghost use Rattle.rest_probe.specs.declared.notes.RankNote.{RankNote};
ghost use Rattle.rest_probe.specs.Waves.{with_got, with_sent};
ghost use Rattle.rank_slots.specs.Names.{history};
ghost use Rattle.rank_slots.specs.Probes.{CountsGot, HasIn, HasOut, HasSentOn, IsNoted, Recounted};

use crate::posts::{find_in, find_out};
use crate::turn_rank::TurnRank;
use ptl_types::{Lane, Rank};
use rest_probe::Wave;

impl TurnRank {
    // How many messages the rank sent on a lane from it. One that waits for room counts.
    fn sent_on(&self, target: Rank, lane: Lane) -> u64
        requires { HasOut self.now target lane }
        ensures { HasSentOn self.now (record { rank = target; lane = lane; number = result }) }
    {
        match find_out(&self.outs, &self.hints.outs, target, lane) {
            Some(at) => self.outs[at].end.sent(),
            None => unreachable!(),
        }
    }

    // How many messages the rank received on a lane to it.
    fn got_on(&self, source: Rank, lane: Lane) -> u64
        requires { HasIn self.now source lane }
        ensures { result ≡ length (got (history self.now) source lane) }
    {
        match find_in(&self.ins, &self.hints.ins, source, lane) {
            Some(at) => self.ins[at].end.received(),
            None => unreachable!(),
        }
    }

    // Notes how many messages the rank sent, lane by lane.
    fn note_sent(&self, rank: Rank, wave: &mut Wave)
        requires rank { rank < length wave.old }
        requires there { (x : RankNote) → get_elem? wave.old rank ≡ some x → x.there ≡ true }
        requires ends { (x : RankNote) (i : ℕ) (c : LaneCount) → get_elem? wave.old rank ≡ some x → get_elem? x.note.sent i ≡ some c →
            HasOut self.now c.rank c.lane }
        ensures { (x : RankNote) → get_elem? wave.old rank ≡ some x →
            (cs : List LaneCount) × (wave.new ≡ slice_set wave.old rank (with_sent x cs)) × Recounted (HasSentOn self.now) x.note.sent cs }
    {
        let count = wave.note(rank).sent.len();
        for i in 0..count {
            let lane = wave.note(rank).sent.at(i);
            let number = self.sent_on(lane.rank, lane.lane);
            wave.set_sent(rank, i, number);
        }
    }

    // Notes how many messages it received.
    fn note_got(&self, rank: Rank, wave: &mut Wave)
        requires rank { rank < length wave.old }
        requires there { (x : RankNote) → get_elem? wave.old rank ≡ some x → x.there ≡ true }
        requires ends { (x : RankNote) (i : ℕ) (c : LaneCount) → get_elem? wave.old rank ≡ some x → get_elem? x.note.got i ≡ some c →
            HasIn self.now c.rank c.lane }
        ensures { (x : RankNote) → get_elem? wave.old rank ≡ some x →
            (cs : List LaneCount) × (wave.new ≡ slice_set wave.old rank (with_got x cs)) ×
            Recounted (CountsGot (history self.now)) x.note.got cs }
    {
        let count = wave.note(rank).got.len();
        for i in 0..count {
            let lane = wave.note(rank).got.at(i);
            let number = self.got_on(lane.rank, lane.lane);
            wave.set_got(rank, i, number);
        }
    }

    /// Notes what the slot says of its rank, of which nothing is noted yet: whether it has started, an operation that is ready if one is,
    /// and how many messages it sent and received on each lane that the wave has for it. One that waits for room counts as sent.
    pub fn note_in(&self, rank: Rank, wave: &mut Wave)
        requires rank { rank < length wave.old }
        requires empty { (x : RankNote) → get_elem? wave.old rank ≡ some x → x.there ≡ false }
        requires outs { (x : RankNote) (i : ℕ) (c : LaneCount) → get_elem? wave.old rank ≡ some x → get_elem? x.note.sent i ≡ some c →
            HasOut self.now c.rank c.lane }
        requires ins { (x : RankNote) (i : ℕ) (c : LaneCount) → get_elem? wave.old rank ≡ some x → get_elem? x.note.got i ≡ some c →
            HasIn self.now c.rank c.lane }
        ensures { (x : RankNote) → get_elem? wave.old rank ≡ some x → (y : RankNote) × (wave.new ≡ slice_set wave.old rank y) ×
            IsNoted self.now x y }
    {
        wave.begin(rank, self.node.started(), self.node.nic().ready());
        self.note_sent(rank, wave);
        self.note_got(rank, wave);
    }
}
