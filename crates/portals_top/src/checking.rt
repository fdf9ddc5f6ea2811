//! The verdict on given orders.

ghost use Rattle.std.specs.Prelude.{◌≡◌, ◌<◌, ◌≤◌, [], IfOk, Some, length};
ghost use Rattle.coll_shape.specs.Meaning.{AreInputs};
ghost use Rattle.order_lines.specs.Check.{read_check};
ghost use Rattle.run_text.specs.Orders.{fails_line};
ghost use Rattle.run_text.specs.Putting.{EndsWith};
ghost use Rattle.schedule_compiler.specs.shapes.Footprint.{refusal};
ghost use Rattle.schedule_compiler.specs.Schedules.{schedule_of};
ghost use Rattle.order_lines.specs.declared.checking.TheConstants.{LONGEST_CHECK};
ghost use Rattle.portals_top.specs.Explained.{IsPlaced, NotesVerdict, Tells, TellsOf};
ghost use Rattle.portals_top.specs.Checked.{FindsFor, FindsIn, IsVerdictOn, Judges, due_checked, due_judged, due_verdict};
ghost use Rattle.run_text.specs.Ending.{Written};

use crate::refusing::{refuse_plan, refuse_with};
use coll_lang::{Description, ParseFault};
use coll_shape::{Inputs, Shape};
use cuts::orders::Verdict;
use order_check::check;
use order_lines::{Orders, parse_check};
use port_io::{Failed, Sink};
use ptl_types::{Cause, NoMemory, Rank};
use run_text::{Pieces, Status, fails_line, write_short};
use schedule_compiler::{Schedule, compile, shape_job, shape_schedules};
use std::alloc::Global;
use text_notes::notes::Note;
use text_notes::{explain_fails, explain_text};

const HOLDS: &[u8] = b"holds\n";

/// Writes what fails of orders, and finishes the sink.
fn write_failure<K: Sink>(
    out: &mut Pieces,
    sink: &mut K,
    rank: Rank,
    place: u64,
    cause: Cause,
) -> Result<(), Failed>
    requires { out.old ≡ [] }
    ensures { EndsWith (K.outflow sink.old) (K.outflow sink.new) (fails_line rank place cause) result }
{
    fails_line(out, sink, rank, place, cause)?;
    out.end(sink)
}

/// Writes a verdict, and finishes the sink.
fn write_verdict<K: Sink>(out: &mut Pieces, sink: &mut K, verdict: Verdict) -> Result<(), Failed>
    requires { out.old ≡ [] }
    ensures { EndsWith (K.outflow sink.old) (K.outflow sink.new) (due_verdict (Some verdict)).text result }
{
    match verdict {
        Verdict::Holds => write_short(sink, HOLDS),
        Verdict::Fails { rank, place, cause } => write_failure(out, sink, rank, place, cause),
    }
}

/// The status with which a verdict is written.
fn status_of(verdict: Verdict) -> Status
    ensures { result ≡ (due_verdict (Some verdict)).status }
{
    match verdict {
        Verdict::Holds => Status::Done,
        Verdict::Fails { .. } => Status::Refused,
    }
}

/// The verdict on orders of the ranks of a shape's plan with these inputs.
fn verdict_on(
    alloc: Global,
    shape: &Shape,
    schedule: Schedule,
    inputs: Inputs,
    orders: &Orders,
) -> Result<Verdict, NoMemory>
    requires schedule { schedule ≡ schedule_of shape.now }
    requires given { AreInputs shape.now inputs }
    requires lists { length orders.now ≡ shape.now.ranks }
    ensures { IfOk result (λ verdict. IsVerdictOn shape.now inputs orders.now verdict) }
{
    shape.recall_form();
    shape_schedules();
    let job = shape_job(alloc, shape, schedule, inputs)?;
    check(alloc, &job, orders)
}

/// The note of a verdict on the orders of a text.
fn note_of(text: &[u8], verdict: Verdict) -> Option<Note>
    requires { length text.now ≤ LONGEST_CHECK }
    ensures { NotesVerdict text.now verdict result }
{
    match verdict {
        Verdict::Holds => None,
        Verdict::Fails { rank, place, cause } => Some(explain_fails(text, rank, place, cause)),
    }
}

/// Writes the verdict on the orders of a text, and keeps the note of what fails.
fn answer_verdict<K: Sink>(
    alloc: Global,
    text: &[u8],
    verdict: Verdict,
    sink: &mut K,
    told: &mut Option<Note>,
) -> Status
    requires short { length text.now ≤ LONGEST_CHECK }
    ensures written { Written (due_verdict (Some verdict)) (K.outflow sink.old) (K.outflow sink.new) result }
    ensures told { TellsOf (IsPlaced text.now) result (K.outflow sink.old) (K.outflow sink.new) told.new }
{
    let Ok(mut out) = Pieces::open(alloc) else {
        return Status::NoMemory;
    };
    *told = note_of(text, verdict);
    match write_verdict(&mut out, sink, verdict) {
        Ok(()) => status_of(verdict),
        Err(_) => Status::WriteFault,
    }
}

/// Compiles a description, and judges orders of its ranks.
fn compiled<K: Sink>(
    alloc: Global,
    d: Description,
    orders: &Orders,
    text: &[u8],
    sink: &mut K,
    told: &mut Option<Note>,
) -> Status
    requires lists { length orders.now ≡ d.shape.ranks }
    requires short { length text.now ≤ LONGEST_CHECK }
    ensures judged { Judges (λ found. due_judged d.shape found (refusal d.shape))
        (λ found. FindsFor d.shape d.inputs orders.now (refusal d.shape) found) (K.outflow sink.old) (K.outflow sink.new) result }
    ensures told { TellsOf (IsPlaced text.now) result (K.outflow sink.old) (K.outflow sink.new) told.new }
{
    let (shape, inputs) = d.into_parts();
    match compile(alloc, &shape) {
        Ok(schedule) => match verdict_on(alloc, &shape, schedule, inputs, orders) {
            Ok(verdict) => answer_verdict(alloc, text, verdict, sink, told),
            Err(_) => Status::NoMemory,
        },
        Err(fault) => refuse_plan(alloc, sink, &shape, fault, told),
    }
}

/// Answers a description with orders.
pub(crate) fn judged_text<K: Sink>(
    alloc: Global,
    text: &[u8],
    sink: &mut K,
    told: &mut Option<Note>,
) -> Status
    ensures judged { Judges (λ found. due_checked found (read_check text.now)) (λ found. FindsIn (read_check text.now) found)
        (K.outflow sink.old) (K.outflow sink.new) result }
    ensures told { TellsOf (IsPlaced text.now) result (K.outflow sink.old) (K.outflow sink.new) told.new }
    // Of a text that is too long nothing is told of orders.
    ensures long { LONGEST_CHECK < length text.now → Tells result (K.outflow sink.old) (K.outflow sink.new) told.new }
{
    match parse_check(alloc, text) {
        Ok((d, orders)) => compiled(alloc, d, &orders, text, sink, told),
        Err(ParseFault::Refused { line, name }) => {
            let note = explain_text(text, line, name);
            refuse_with(alloc, sink, line, name, note, told)
        }
        Err(ParseFault::NoMemory) => Status::NoMemory,
    }
}
