//! What a world of a given plan holds in the end.

use coll_shape::Shape;
use ptl_types::Rank;
use run_text::ResultLists;
use worlds::World;

/// The results of a world at rest of a plan that was given for a shape.
#[derive(Clone, Copy)]
pub struct GivenResults<'a> {
    /// The world.
    pub world: &'a World,
    /// The shape.
    pub shape: &'a Shape,
}

impl<'a> ResultLists for GivenResults<'a> {
    ghost use Rattle.given_top.specs.runs.GivenRuns.{HoldsGiven};
    ghost use Rattle.verdict_laws.specs.GivenJobs.{given_lists};

    ghost outline = { λ results. results.shape.now };

    ghost lists = { λ results. given_lists results.world.now.schedule.plan results.world.now.schedule.held results.world.now.inputs };

    ghost can_give = { λ results. HoldsGiven results.shape.now results.world.now };

    fn shape(&self) -> &Shape {
        self.shape
    }

    fn list(&self, buffer: u32, rank: Rank) -> &[u8] {
        self.world.result(buffer, rank)
    }
}
