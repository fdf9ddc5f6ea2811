//! A plan that is drawn or judged, from a source to a sink.

ghost use Rattle.std.specs.Prelude.{List, ℕ, ◌≢◌};
ghost use Rattle.run_text.specs.Ending.{IsTold};
ghost use Rattle.plan_top.specs.Explained.{Beside, Explained, TellsOf};
ghost use Rattle.plan_top.specs.Owed.{Answers, PlanAnswered};

use crate::drawing::draw_text;
use crate::judging::{judge_for_all, judge_given};
use crate::saying::say_beside;
use crate::words::PlanRequest;
use port_io::{Sink, Source};
use run_text::{ReadError, Status, read_text};
use std::alloc::Global;
use text_notes::notes::Printable;
use verdict_laws::{general_verdicts_are_right, given_verdicts_are_right};

/// Answers a text that was read.
fn answer_text<K: Sink>(
    alloc: Global,
    request: PlanRequest,
    text: &[u8],
    sink: &mut K,
    told: &mut Printable,
) -> Status
    ensures answers { Answers request text.now (K.outflow sink.old) (K.outflow sink.new) result }
    ensures no_read { result ≢ Status.ReadFault }
    ensures told { TellsOf (Beside request text.now (K.outflow sink.old) (K.outflow sink.new)) result told.new }
{
    match request {
        PlanRequest::Draw => draw_text(alloc, text, sink, told),
        PlanRequest::Verify => judge_for_all(alloc, text, sink, told),
        PlanRequest::VerifyGiven => judge_given(alloc, text, sink, told),
    }
}

/// Reads a text and answers it.
fn read_and_answer<S: Source, K: Sink>(
    alloc: Global,
    request: PlanRequest,
    source: &mut S,
    sink: &mut K,
    told: &mut Printable,
) -> Status
    ensures { (bytes : List ℕ) × IsTold (S.inflow source.old).left bytes
        × PlanAnswered request bytes (S.inflow source.old) (S.inflow source.new)
        (K.outflow sink.old) (K.outflow sink.new) result
        × TellsOf (Beside request bytes (K.outflow sink.old) (K.outflow sink.new)) result told.new }
{
    given_verdicts_are_right();
    general_verdicts_are_right();
    match read_text(alloc, request.longest(), source) {
        Ok(text) => answer_text(alloc, request, text.as_slice(), sink, told),
        Err(ReadError::Failed) => Status::ReadFault,
        Err(ReadError::NoMemory) => Status::NoMemory,
    }
}

/// Draws or judges a plan: reads what is asked for from the source, writes the text that is owed to the sink, and answers how it ended.
///
/// `Draw` reads a description, and writes the plan that it is compiled to, with the cells of its results and those at which its barriers
/// are entered and left; nothing is run. `Verify` reads a description and a plan after it, and writes whether the plan is right for all
/// inputs of the description's shape; `VerifyGiven` does so for the inputs of the description. Of a source that doesn't tell its bytes
/// there are bytes for which all this holds; of a sink that doesn't tell what it took nothing is said of the text.
///
/// Where `holds` is answered, the plan is right: in every order of starts, deliveries and firings all ranks end complete, with what the
/// description means as results (`IsRightForAll`, `IsRightGiven`).
///
/// What a person is to know stands in `notes`: beside a result nothing; beside a plan that fails, is refused or of which it couldn't be
/// decided whether it is right, and beside a description that is refused, a line that says where and why; beside a fault or want of memory
/// which it was. What fails there changes nothing.
pub fn plan_main<S: Source, K: Sink, N: Sink>(
    alloc: Global,
    request: PlanRequest,
    source: &mut S,
    sink: &mut K,
    notes: &mut N,
) -> Status
    ensures { (bytes : List ℕ) × IsTold (S.inflow source.old).left bytes
        × PlanAnswered request bytes (S.inflow source.old) (S.inflow source.new)
        (K.outflow sink.old) (K.outflow sink.new) result
        × Explained (Beside request bytes (K.outflow sink.old) (K.outflow sink.new)) result
        (N.outflow notes.old) (N.outflow notes.new) }
{
    let mut told = Printable::new();
    let status = read_and_answer(alloc, request, source, sink, &mut told);
    say_beside(notes, status, told);
    status
}
