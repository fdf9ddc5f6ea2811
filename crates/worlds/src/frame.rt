//! A frame: a world without its nodes.

ghost use Rattle.std.specs.Prelude.{true, ◌≡◌, ◌<◌, IfOk};
ghost use Rattle.std.specs.Borrow.{sem};
ghost use Rattle.plan_core.specs.calls.Lanes.{is_used_lane};
ghost use Rattle.cuts.specs.windows.Places.{lane_place};
ghost use Rattle.worlds.specs.parts.Layout.{lane_at};
ghost use Rattle.worlds.specs.Frames.{IsClosed, IsFrameOf, MayClose};

use crate::opening::{mark_all, open_bare};
use crate::parts::lanes::lane_index;
use crate::parts::traffic::Traffic;
use crate::world::World;
use pair_wires::PlainLane;
use ptl_types::{Lane, NoMemory, Rank};
use rank_node::Node;
use schedule_compiler::Job;
use std::alloc::Global;
use std::marker::Model;

/// A world of a job without its nodes: the lanes between the ranks, and all room that the world needs. Nodes that ran elsewhere, with
/// what was still on its way between them, become a world by it, and no memory is taken then.
pub struct Frame {
    job: Job,
    traffic: Traffic,
}

impl Model for Frame {
    ghost use Rattle.worlds.specs.FrameState.{AreFramed, FrameState};

    ghost Value = { FrameState };

    ghost view = { λ f. record { schedule = f.job.schedule; inputs = f.job.inputs; lanes = f.traffic.lanes } };

    ghost invariant = { λ f. AreFramed f.job f.traffic };
}

// Written out, so that letting one go is one call: docs/DECISIONS.md, "Large types have a drop of their own".
impl Drop for Frame {
    fn drop(self) {
        let Frame { job: _, traffic: _ } = self;
    }
}

impl Frame {
    ghost use Rattle.worlds.specs.FrameLends.{LendsLane};

    /// The frame of a job. Nothing lies in its lanes, and each has room for four messages, or for all that the job sends on it where
    /// these are fewer.
    ///
    /// # Errors
    ///
    /// There was no memory for it. The job is as it was.
    pub fn open(alloc: Global, job: &Job) -> Result<Frame, NoMemory>
        ensures { IfOk result (λ frame. IsFrameOf job.now frame) }
    {
        let shared = job.share()?;
        let traffic = open_bare(alloc, job)?;
        Ok(Frame {
            job: shared,
            traffic,
        })
    }

    /// The lane from a rank to a rank, which the job uses, to put messages into.
    pub fn lane(&mut self, s: Rank, d: Rank, lane: Lane) -> &mut PlainLane
        requires source { s < self.old.schedule.plan.ranks }
        requires target { d < self.old.schedule.plan.ranks }
        requires used { is_used_lane self.old.schedule.plan s d lane ≡ true }
        ensures* writes_back { sem 𝓛 (LendsLane self.entry s d lane result) }
        ensures value { result.now ≡ lane_at self.old.lanes (lane_place self.old.schedule.plan.ranks s d lane) }
    {
        let index = lane_index(self.traffic.setting.ranks, s, d, lane);
        let lanes = &mut self.traffic.lanes;
        lanes.lane_mut(index)
    }

    /// The world of these nodes, one for each rank in order, and of what lies in the frame's lanes. Under its window a lane holds at
    /// most four messages. Conditions: the nodes are of the frame's job and without room for strays; on each lane what was sent is
    /// what was received, followed by what lies in the frame's lane; and each of these has room for four messages, or for all that
    /// the plan sends on it, and holds at most four.
    pub fn into_world(self, nodes: Vec<Node>) -> World
        requires { MayClose self nodes.items }
        ensures { IsClosed self nodes.items result }
    {
        let mut nodes = nodes;
        let Frame { job, mut traffic } = self;
        mark_all(&mut nodes, &mut traffic);
        World::around(job, nodes, traffic)
    }
}
