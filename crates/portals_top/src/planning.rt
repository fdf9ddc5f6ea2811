//! The plan that a description is compiled to.

ghost use Rattle.run_text.specs.Plans.{plan_text};
ghost use Rattle.run_text.specs.Ending.{Written, done};

use plan_core::Plan;
use port_io::Sink;
use ptl_types::Rank;
use run_text::{Pieces, PlanTables, Status, write_plan};
use schedule_compiler::done::CountedPlan;
use std::alloc::Global;

/// A plan that is written.
#[derive(Drop)]
struct Planned(CountedPlan);

impl PlanTables for Planned {
    ghost drawn = { λ planned. planned.0 };

    fn plan(&self) -> &Plan {
        self.0.plan()
    }

    fn done(&self, r: Rank) -> u64 {
        self.0.done(r)
    }
}

/// Writes a plan.
pub(crate) fn plan<K: Sink>(alloc: Global, sink: &mut K, counted: CountedPlan) -> Status
    ensures { Written (done (plan_text counted)) (K.outflow sink.old) (K.outflow sink.new) result }
{
    let Ok(mut out) = Pieces::open(alloc) else {
        return Status::NoMemory;
    };
    match write_plan(&mut out, sink, &Planned(counted)) {
        Ok(()) => Status::Done,
        Err(_) => Status::WriteFault,
    }
}
