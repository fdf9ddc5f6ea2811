//! What a text shows before the results of its plan are looked at.

ghost use Rattle.std.specs.Prelude.{◌≡◌, ◌<◌, ◌+◌, ◌-◌, ◌^◌, None, Ok, IfOk, length};
ghost use Rattle.coll_text.specs.Text.{lines};
ghost use Rattle.given_lines.specs.Given.{read_given};
ghost use Rattle.given_lines.specs.Reads.{Reads};
ghost use Rattle.plan_judge.specs.Causes.{judged};
ghost use Rattle.given_verdicts.specs.Answers.{IsRightlyJudged, judged_text, least_cells, lengths_of, on_flaw, on_pieces, on_read};

use crate::answer::{FlawlessText, GivenAnswer, GivenCause, Judged, TextRefusal};
use crate::places::{cause_of, flaw_line};
use coll_lang::{Description, ParseFault, Refusal, parse};
use coll_shape::Shape;
use given_lines::{GivenFault, GivenPlan, read_given};
use mark_judge::{judge_marks, line_of};
use order_lines::first_end;
use plan_judge::judge;
use plan_judge::values::judged_plans;
use ptl_types::NoMemory;
use std::alloc::Global;

/// The most bytes of a description and a plan after it.
pub const LONGEST_GIVEN: usize = 33_554_432;

/// Of each input the bytes of its list.
fn input_lengths(alloc: Global, shape: &Shape) -> Result<Vec<u64>, NoMemory>
    ensures { IfOk result (λ lengths. lengths.items ≡ lengths_of shape.now) }
{
    shape.recall_form();
    let mut lengths = Vec::new(alloc);
    for b in 0..shape.input_count() {
        lengths.push(shape.buffers()[b as usize].list_bytes())?;
    }
    Ok(lengths)
}

/// The refusal of a line as one of a description.
fn refused(line: u32, name: Refusal) -> GivenAnswer
    ensures { result ≡ GivenAnswer.Refused line (TextRefusal.Description name) }
{
    GivenAnswer::Refused {
        line,
        name: TextRefusal::Description(name),
    }
}

/// The refusal of a plan whose text begins with this line as too large.
pub fn too_large(line: u32) -> GivenAnswer
    ensures { result ≡ GivenAnswer.Refused line (TextRefusal.Description Refusal.TooLarge) }
{
    refused(line, Refusal::TooLarge)
}

/// What the lines after the links of a plan without a flaw show, in a text whose plan begins with this line.
fn on_marks(alloc: Global, d: Description, first: u32, given: GivenPlan) -> Result<Judged, NoMemory>
    requires flawless { judged given.plan (lengths_of d.shape) ≡ None }
    requires ranks { given.plan.ranks ≡ d.shape.ranks }
    requires few_marks { length given.marks < 2 ^ 32 }
    ensures { IfOk result (λ found. found ≡ on_flaw first d given None) }
{
    judged_plans();
    let shape = d.shape();
    let plan = given.plan();
    let marks = given.marks();
    match judge_marks(alloc, plan, shape, given.done(), marks)? {
        None => Ok(Judged::Flawless(FlawlessText {
            line: first,
            description: d,
            given,
        })),
        Some(flaw) => Ok(Judged::Answered(GivenAnswer::Fails {
            line: line_of(first, plan, marks, flaw),
            cause: GivenCause::Mark(flaw),
        })),
    }
}

/// What a plan that was read shows, in a text whose plan begins with this line.
fn on_plan(alloc: Global, d: Description, first: u32, given: GivenPlan) -> Result<Judged, NoMemory>
    requires ranks { given.plan.ranks ≡ d.shape.ranks }
    requires few_marks { length given.marks < 2 ^ 32 }
    ensures { IfOk result (λ found. found ≡ on_read first d (Ok given)) }
{
    let plan = given.plan();
    let lengths = input_lengths(alloc, d.shape())?;
    match judge(alloc, plan, lengths.as_slice())? {
        None => on_marks(alloc, d, first, given),
        Some(flaw) => Ok(Judged::Answered(GivenAnswer::Fails {
            line: flaw_line(first, plan, flaw),
            cause: cause_of(flaw),
        })),
    }
}

/// Reads a plan for a description, from the line of this number on.
fn read_plan(alloc: Global, shape: &Shape, first: u32, text: &[u8]) -> Result<GivenPlan, GivenFault>
    requires { first + length text.now < 2 ^ 32 - 1 }
    ensures read { Reads (λ given. given) result
        (read_given shape.now.ranks (least_cells shape.now) shape.now.buffers first (lines text.now)) }
    ensures ranks { IfOk result (λ given. given.plan.ranks ≡ shape.now.ranks) }
    ensures few_marks { IfOk result (λ given. length given.marks < 2 ^ 32) }
{
    shape.recall_form();
    let ranks = shape.ranks();
    let least = ranks + shape.input_count() * ranks;
    read_given(alloc, ranks, least, shape.buffers(), first, text)
}

/// What the text of a plan for a description that is no choice text shows.
fn on_read(alloc: Global, d: Description, first: u32, text: &[u8]) -> Result<Judged, NoMemory>
    requires { first + length text.now < 2 ^ 32 - 1 }
    ensures { IfOk result (λ found. found ≡ on_pieces first d None (lines text.now)) }
{
    match read_plan(alloc, d.shape(), first, text) {
        Ok(given) => on_plan(alloc, d, first, given),
        Err(GivenFault::Refused { line, name }) => Ok(Judged::Answered(GivenAnswer::Refused {
            line,
            name: TextRefusal::Plan(name),
        })),
        Err(GivenFault::NoMemory) => Err(NoMemory),
    }
}

/// What follows a description shows, from the line of this number on.
fn on_pieces(alloc: Global, d: Description, first: u32, text: &[u8]) -> Result<Judged, NoMemory>
    requires { first + length text.now < 2 ^ 32 - 1 }
    ensures { IfOk result (λ found. found ≡ on_pieces first d d.choices (lines text.now)) }
{
    match d.choices() {
        Some(_) => Ok(Judged::Answered(refused(0, Refusal::OneThread))),
        None => on_read(alloc, d, first, text),
    }
}

/// What the text of a description, which ends with the first line `end`, and of a plan after it shows, whatever the inputs.
///
/// It is judged in the order in which the answers are listed: the text's size and the description; that it is no choice text; the
/// plan's text; the plan as a whole, its cells, its links; the done counters, the named cells and barriers.
///
/// # Errors
///
/// There was no memory.
pub fn judge_text(alloc: Global, text: &[u8]) -> Result<Judged, NoMemory>
    ensures exact { IfOk result (λ found. found ≡ judged_text text.now) }
    ensures rightly { IfOk result IsRightlyJudged }
{
    if text.len() > LONGEST_GIVEN {
        return Ok(Judged::Answered(refused(0, Refusal::TooLong)));
    }
    let (at, first) = first_end(text);
    match parse(alloc, &text[..at]) {
        Ok(d) => on_pieces(alloc, d, first, &text[at..]),
        Err(ParseFault::Refused { line, name }) => Ok(Judged::Answered(refused(line, name))),
        Err(ParseFault::NoMemory) => Err(NoMemory),
    }
}
