//! Writing what a world at rest holds.

ghost use Rattle.std.specs.Prelude.{◌≡◌, Some, []};
ghost use Rattle.coll_lang.specs.Generated.{generated};
ghost use Rattle.run_text.specs.Putting.{EndsWith};
ghost use Rattle.portals_top.specs.Begun.{mode_of};
ghost use Rattle.portals_top.specs.Due.{mode_text};
ghost use Rattle.portals_top.specs.Large.{summary_text};
ghost use Rattle.portals_top.specs.Resting.{IsResting};
ghost use Rattle.job_runs.specs.Modes.{HasWorkers};
ghost use Rattle.run_text.specs.Ending.{status_of};

use crate::begun::Crew;
use coll_shape::Shape;
use job_runs::{Host, write_ordered};
use port_io::{Failed, Sink};
use ptl_types::Rank;
use run_text::{Pieces, ResultLists, Status, write_result_by, write_summary};
use std::thread::Threads;
use worlds::World;

/// The results of a world at rest of the plan of a shape.
#[derive(Clone, Copy)]
pub(crate) struct Results<'a> {
    /// The world.
    pub(crate) world: &'a World,
    /// The shape.
    pub(crate) shape: &'a Shape,
}

impl<'a> ResultLists for Results<'a> {
    ghost use Rattle.coll_shape.specs.Meaning.{meaning_of};
    ghost use Rattle.portals_top.specs.Resting.{IsResting};

    ghost outline = { λ results. results.shape.now };

    ghost lists = { λ results. meaning_of results.shape.now results.world.now.inputs };

    ghost can_give = { λ results. IsResting results.shape.now results.world.now };

    fn shape(&self) -> &Shape {
        self.shape
    }

    fn list(&self, buffer: u32, rank: Rank) -> &[u8] {
        self.world.result(buffer, rank)
    }
}

/// Writes what a run by these workers owes. No call in it waits. As many threads at most make long lines, the caller among them.
pub(crate) fn write_run<R: Threads + Sync, G, K: Sink>(
    host: &Host<R, G>,
    out: &mut Pieces,
    sink: &mut K,
    crew: Crew,
    results: &Results,
) -> Result<(), Failed>
    requires workers { HasWorkers (mode_of crew) }
    requires empty { out.old ≡ [] }
    requires resting { IsResting results.now.shape.now results.now.world.now }
    ensures { EndsWith (K.outflow sink.old) (K.outflow sink.new)
        (mode_text (mode_of crew) results.now.shape.now results.now.world.now.inputs (Some results.now.world.now)) result }
{
    match crew {
        Crew::Run { workers } | Crew::Steady { workers } => {
            write_result_by(host.rt, host.alloc, workers, out, sink, results)
        }
        Crew::Trace { .. } => write_ordered(out, sink, results, results.world),
    }
}

/// Writes the summary of a run of the description that a number chooses.
pub(crate) fn write_sums<K: Sink>(
    out: &mut Pieces,
    sink: &mut K,
    number: u32,
    results: &Results,
) -> Result<(), Failed>
    requires empty { out.old ≡ [] }
    requires shape { results.now.shape.now ≡ (generated number).shape }
    requires inputs { results.now.world.now.inputs ≡ (generated number).inputs }
    requires resting { IsResting results.now.shape.now results.now.world.now }
    ensures { EndsWith (K.outflow sink.old) (K.outflow sink.new) (summary_text number) result }
{
    let plan = results.world.schedule().plan();
    let cells = plan.cells().len() as u64;
    let links = plan.links().len() as u64;
    write_summary(out, sink, number, cells, links, results)
}

/// The status of what was written.
pub(crate) fn status_of(written: Result<(), Failed>) -> Status
    ensures { result ≡ status_of written }
{
    match written {
        Ok(()) => Status::Done,
        Err(_) => Status::WriteFault,
    }
}
