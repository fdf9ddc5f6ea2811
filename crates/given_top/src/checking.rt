//! The verdict on orders of a given plan's ranks.

ghost use Rattle.std.specs.Prelude.{◌≡◌, ◌<◌, ◌≤◌, ◌^◌, ◌++◌, [], IfOk, length};
ghost use Rattle.coll_text.specs.Text.{lines};
ghost use Rattle.order_lines.specs.Check.{description_bytes, read_check};
ghost use Rattle.run_text.specs.Ending.{Written};
ghost use Rattle.run_text.specs.Orders.{fails_line};
ghost use Rattle.run_text.specs.Putting.{EndsWith};
ghost use Rattle.given_verdicts.specs.Answers.{IsFlawless};
ghost use Rattle.given_verdicts.specs.declared.answer.Judged.TheVariants.{Flawless};
ghost use Rattle.plan_top.specs.Owed.{owed_given};
ghost use Rattle.given_top.specs.Checked.{Checks, IsVerdictOn, check_text, on_orders, on_plan, owed_verdict, plan_end, plan_lines};
ghost use Rattle.given_top.specs.Checked.{whole_line};
ghost use Rattle.given_top.specs.Explained.{BesideCheck, BesideOn, BesideOrders, BesideVerdict, NotesVerdict};
ghost use Rattle.plan_top.specs.Explained.{TellsOf};
ghost use Rattle.text_notes.specs.notes.Notes.{note_text};
ghost use Rattle.text_notes.specs.notes.Shown.{then_shown};
ghost use Rattle.given_top.specs.Checked.CheckText.{Ordered};

use coll_lang::{ParseFault, Refusal};
use cuts::orders::Verdict;
use given_verdicts::{FlawlessText, GivenAnswer, Judged, TextRefusal, judge_text};
use order_check::check;
use order_lines::{LONGEST_CHECK, Orders, first_end, parse_check};
use plan_top::{Status, write_answer, write_noted};
use port_io::{Failed, Sink};
use ptl_types::{Cause, NoMemory, Rank};
use run_text::{Pieces, fails_line, write_short};
use std::alloc::Global;
use text_notes::notes::{Note, Printable, note_text};
use text_notes::{explain_fails, explain_text};
use verdict_laws::jobs::flawless_job;

/// The most bytes of a description, a plan after it and the order lines after that: 33,554,432 and 16,777,216.
pub const LONGEST_PLAN_CHECK: usize = 50_331_648;

const HOLDS: &[u8] = b"holds\n";

/// A description and the order lines after it, without the plan between them.
#[derive(Clone, Copy)]
struct OrderText<'a> {
    /// Both.
    text: &'a [u8],
    /// How many lines the plan between them has.
    lines: u32,
}

/// Writes what fails of orders, and finishes the sink.
fn write_failure<K: Sink>(
    out: &mut Pieces,
    sink: &mut K,
    rank: Rank,
    place: u64,
    cause: Cause,
) -> Result<(), Failed>
    requires { out.old ≡ [] }
    ensures { EndsWith (K.outflow sink.old) (K.outflow sink.new) (fails_line rank place cause) result }
{
    fails_line(out, sink, rank, place, cause)?;
    out.end(sink)
}

/// Writes a verdict, and finishes the sink.
fn write_verdict<K: Sink>(out: &mut Pieces, sink: &mut K, verdict: Verdict) -> Result<(), Failed>
    requires { out.old ≡ [] }
    ensures { EndsWith (K.outflow sink.old) (K.outflow sink.new) (owed_verdict verdict).text result }
{
    match verdict {
        Verdict::Holds => write_short(sink, HOLDS),
        Verdict::Fails { rank, place, cause } => write_failure(out, sink, rank, place, cause),
    }
}

/// The status with which a verdict is written.
fn status_of(verdict: Verdict) -> Status
    ensures { result ≡ (owed_verdict verdict).status }
{
    match verdict {
        Verdict::Holds => Status::Done,
        Verdict::Fails { .. } => Status::Refused,
    }
}

/// The text of a note of a line of a description and orders, as one of the whole text.
fn moved(mut note: Note, lines: u32) -> Printable
    ensures { result ≡ note_text (record note { line = whole_line lines note.line }) }
{
    note.line = whole_line(note.line, lines);
    note_text(&note)
}

/// What a person is told of orders that fail; nothing of others.
fn verdict_note(orders: OrderText, verdict: Verdict) -> Printable
    requires { length orders.text.now ≤ LONGEST_CHECK }
    ensures { NotesVerdict orders.entry.text.now orders.entry.lines verdict result }
{
    match verdict {
        Verdict::Holds => Printable::new(),
        Verdict::Fails { rank, place, cause } => {
            moved(explain_fails(orders.text, rank, place, cause), orders.lines)
        }
    }
}

/// Answers a verdict on the orders of a text, and keeps what a person is told of it.
fn answer_verdict<K: Sink>(
    alloc: Global,
    orders: OrderText,
    verdict: Verdict,
    sink: &mut K,
    told: &mut Printable,
) -> Status
    requires { length orders.text.now ≤ LONGEST_CHECK }
    ensures written { Written (owed_verdict verdict) (K.outflow sink.old) (K.outflow sink.new) result }
    ensures told { TellsOf (BesideVerdict orders.entry.text.now orders.entry.lines (K.outflow sink.old) (K.outflow sink.new)) result
        told.new }
{
    let Ok(mut out) = Pieces::open(alloc) else {
        return Status::NoMemory;
    };
    *told = verdict_note(orders, verdict);
    match write_verdict(&mut out, sink, verdict) {
        Ok(()) => status_of(verdict),
        Err(_) => Status::WriteFault,
    }
}

/// The verdict on orders of a plan's ranks, with the inputs of its description.
fn verdict_on(alloc: Global, found: FlawlessText, orders: &Orders) -> Result<Verdict, NoMemory>
    requires flawless { IsFlawless found }
    requires at_most { length found.given.plan.links < 2 ^ 26 }
    requires lists { length orders.now ≡ found.given.plan.ranks }
    ensures { IfOk result (λ verdict. IsVerdictOn found orders.now verdict) }
{
    let (_, job) = flawless_job(alloc, found)?;
    check(alloc, &job, orders)
}

/// Judges orders of a plan's ranks, and answers the verdict.
fn answer_ordered<K: Sink>(
    alloc: Global,
    found: FlawlessText,
    orders: &Orders,
    text: OrderText,
    sink: &mut K,
    told: &mut Printable,
) -> Status
    requires flawless { IsFlawless found }
    requires at_most { length found.given.plan.links < 2 ^ 26 }
    requires lists { length orders.now ≡ found.given.plan.ranks }
    requires short { length text.text.now ≤ LONGEST_CHECK }
    ensures checks { Checks (Ordered found orders.now) (K.outflow sink.old) (K.outflow sink.new) result }
    ensures told { TellsOf (BesideVerdict text.entry.text.now text.entry.lines (K.outflow sink.old) (K.outflow sink.new)) result told.new }
{
    match verdict_on(alloc, found, orders) {
        Ok(verdict) => answer_verdict(alloc, text, verdict, sink, told),
        Err(_) => Status::NoMemory,
    }
}

/// These words, as a person is told them.
pub(crate) fn words_note(words: &[u8]) -> Printable
    ensures { result ≡ then_shown [] words.now }
{
    let mut text = Printable::new();
    text.show(words);
    text
}

/// Answers that a line is refused.
fn answer_refused<K: Sink>(alloc: Global, line: u32, name: Refusal, sink: &mut K) -> Status
    ensures { Written (owed_given (GivenAnswer.Refused line (TextRefusal.Description name)))
        (K.outflow sink.old) (K.outflow sink.new) result }
{
    let name = TextRefusal::Description(name);
    write_answer(alloc, &GivenAnswer::Refused { line, name }, sink)
}

/// The description and the order lines of a text, without the plan between them.
fn orders_text(alloc: Global, description: &[u8], orders: &[u8]) -> Result<Vec<u8>, NoMemory>
    ensures { IfOk result (λ text. text.items ≡ description.now ++ orders.now) }
{
    let mut text = Vec::from_slice(alloc, description)?;
    text.extend_from_slice(orders)?;
    Ok(text)
}

/// A line of a text without its plan, in the text with a plan of so many lines.
fn whole_line(line: u32, lines: u32) -> u32
    ensures { result ≡ whole_line lines line }
{
    if line == 0 {
        0
    } else {
        line.saturating_add(lines)
    }
}

/// Reads the order lines of a text with a plan in which no flaw was found, and answers the verdict on them.
fn answer_orders<K: Sink>(
    alloc: Global,
    found: FlawlessText,
    text: OrderText,
    sink: &mut K,
    told: &mut Printable,
) -> Status
    requires flawless { IsFlawless found }
    requires at_most { length found.given.plan.links < 2 ^ 26 }
    ensures checks { Checks (on_orders text.entry.lines found (read_check text.entry.text.now))
        (K.outflow sink.old) (K.outflow sink.new) result }
    ensures told { TellsOf (BesideOrders text.entry.text.now text.entry.lines found.given.plan.ranks
        (K.outflow sink.old) (K.outflow sink.new) (read_check text.entry.text.now)) result told.new }
{
    match parse_check(alloc, text.text) {
        Ok((d, orders)) => {
            if d.shape().ranks() == found.given.plan().ranks() {
                answer_ordered(alloc, found, &orders, text, sink, told)
            } else {
                *told = words_note(b"the order lines aren't one for each rank of the plan");
                answer_refused(alloc, 0, Refusal::BadOrder, sink)
            }
        }
        Err(ParseFault::Refused { line, name }) => {
            *told = moved(explain_text(text.text, line, name), text.lines);
            answer_refused(alloc, whole_line(line, text.lines), name, sink)
        }
        Err(ParseFault::NoMemory) => Status::NoMemory,
    }
}

/// The parts of a text: a description, a plan, and how many lines the plan has, and the order lines.
fn parts(text: &[u8]) -> (usize, usize, u32)
    requires { length text.now ≤ LONGEST_PLAN_CHECK }
    ensures description { result.0 ≡ description_bytes (lines text.now) }
    ensures within { result.0 ≤ result.1 }
    ensures plan { result.1 ≡ plan_end text.now }
    ensures at_most { result.1 ≤ length text.now }
    ensures lines { result.2 ≡ plan_lines text.now }
{
    let (description, _) = first_end(text);
    let (plan, after) = first_end(&text[description..]);
    (description, description + plan, after - 1)
}

/// Answers a text whose plan has no flaw.
fn answer_flawless<K: Sink>(
    alloc: Global,
    found: FlawlessText,
    text: &[u8],
    sink: &mut K,
    told: &mut Printable,
) -> Status
    requires flawless { IsFlawless found }
    requires at_most { length found.given.plan.links < 2 ^ 26 }
    requires long { length text.now ≤ LONGEST_PLAN_CHECK }
    ensures checks { Checks (on_plan text.now (Flawless found)) (K.outflow sink.old) (K.outflow sink.new) result }
    ensures told { TellsOf (BesideOn text.now (K.outflow sink.old) (K.outflow sink.new) (Flawless found)) result told.new }
{
    let (description, end, lines) = parts(text);
    match orders_text(alloc, &text[..description], &text[end..]) {
        Ok(orders) => {
            let text = OrderText {
                text: orders.as_slice(),
                lines,
            };
            answer_orders(alloc, found, text, sink, told)
        }
        Err(_) => Status::NoMemory,
    }
}

/// Answers the text of a description, a plan after it and order lines after that. The description with the plan is judged first, and
/// where it is refused or has a flaw, that is the answer. Then the order lines are read, and judged as those of the plan's ranks. What
/// a person is told beside it is kept.
pub(crate) fn answer_check<K: Sink>(
    alloc: Global,
    text: &[u8],
    sink: &mut K,
    told: &mut Printable,
) -> Status
    ensures checks { Checks (check_text text.now) (K.outflow sink.old) (K.outflow sink.new) result }
    ensures told { TellsOf (BesideCheck text.now (K.outflow sink.old) (K.outflow sink.new)) result told.new }
{
    if text.len() > LONGEST_PLAN_CHECK {
        *told = words_note(b"the text has more than 50331648 bytes");
        return answer_refused(alloc, 0, Refusal::TooLong, sink);
    }
    let (_, end, _) = parts(text);
    match judge_text(alloc, &text[..end]) {
        Ok(Judged::Answered(answer)) => write_noted(alloc, &text[..end], &answer, sink, told),
        Ok(Judged::Flawless(found)) => answer_flawless(alloc, found, text, sink, told),
        Err(_) => Status::NoMemory,
    }
}
