//! What is done with a plan that follows a description.

ghost use Rattle.std.specs.Prelude.{◌<◌, ◌^◌, length};
ghost use Rattle.given_verdicts.specs.Answers.{IsFlawless, judged_text};
ghost use Rattle.given_verdicts.specs.declared.answer.Judged.TheVariants.{Flawless};
ghost use Rattle.given_top.specs.Explained.{BesideRun, BesideUse};
ghost use Rattle.given_top.specs.Ran.{RanText};
ghost use Rattle.plan_top.specs.Explained.{TellsOf};
ghost use Rattle.given_top.specs.Words.{CanDo};

use crate::runs::{GivenRun, run_given};
use crate::telling::tell;
use crate::words::Purpose;
use given_verdicts::{FlawlessText, Judged, judge_text};
use job_runs::Host;
use plan_top::{Status, write_noted};
use port_io::Sink;
use rank_threads::Gate;
use std::sync::Wait;
use std::thread::Threads;
use text_notes::notes::Printable;
use verdict_laws::jobs::flawless_job;

/// Does with the plan of a text in which no flaw was found what is asked for.
#[tactic(auto, using(plan_top::proofs::Telling::result_tells))]
fn use_flawless<R: Threads + Wait + Sync, G: Gate, K: Sink>(
    host: &Host<R, G>,
    purpose: Purpose,
    found: FlawlessText,
    sink: &mut K,
    told: &mut Printable,
) -> GivenRun
    requires possible { CanDo purpose }
    requires flawless { IsFlawless found }
    requires at_most { length found.given.plan.links < 2 ^ 26 }
    ensures ran { RanText purpose (Flawless found) (K.outflow sink.old) (K.outflow sink.new) result }
    ensures told { TellsOf (BesideUse purpose found) result.status told.new }
{
    let head = found.line;
    let Ok((shape, job)) = flawless_job(host.alloc, found) else {
        return GivenRun::without(Status::NoMemory);
    };
    match purpose {
        Purpose::Run(mode) => run_given(host, mode, &shape, &job, sink),
        Purpose::Tell(telling) => {
            GivenRun::without(tell(host.alloc, telling, head, job.schedule(), sink, told))
        }
    }
}

/// Judges the plan of a text, and does what is asked for with it if it is sound, whatever its results are. What a person
/// is told where it isn't is kept.
pub(crate) fn use_text<R: Threads + Wait + Sync, G: Gate, K: Sink>(
    host: &Host<R, G>,
    purpose: Purpose,
    text: &[u8],
    sink: &mut K,
    told: &mut Printable,
) -> GivenRun
    requires { CanDo purpose }
    ensures ran { RanText purpose (judged_text text.now) (K.outflow sink.old) (K.outflow sink.new) result }
    ensures told { TellsOf (BesideRun purpose text.now (judged_text text.now)) result.status told.new }
{
    match judge_text(host.alloc, text) {
        Ok(Judged::Answered(answer)) => {
            GivenRun::without(write_noted(host.alloc, text, &answer, sink, told))
        }
        Ok(Judged::Flawless(found)) => use_flawless(host, purpose, found, sink, told),
        Err(_) => GivenRun::without(Status::NoMemory),
    }
}
