//! The answer on a text for the inputs of its description.

ghost use Rattle.std.specs.Prelude.{◌≡◌, IfOk, nat_lt, sum_by};
ghost use Rattle.coll_shape.specs.Meaning.{AreInputs};
ghost use Rattle.schedule_compiler.specs.declared.shapes.judging.TheConstants.{MOST_BYTES};
ghost use Rattle.given_verdicts.specs.declared.for_inputs.TheConstants.{MOST_CARRIED};
ghost use Rattle.given_verdicts.specs.Answers.{IsFlawless, answer_of, is_large, on_results, on_size, wrong_for};

use crate::answer::{FlawlessText, GivenAnswer, Judged, WrongResult};
use crate::judging::{judge_text, too_large};
use crate::results::first_wrong;
use coll_meaning::buffers_of;
use coll_shape::Inputs;
use plan_core::{Cell, Link, Plan};
use plan_judge::values::{judged_plans, values};
use ptl_types::NoMemory;
use schedule_compiler::shapes::MOST_BYTES;
use std::alloc::Global;

/// The first result of a plan without a flaw that is wrong for these inputs of its description's shape.
///
/// # Errors
///
/// There was no memory.
pub fn wrong_for(
    alloc: Global,
    text: &FlawlessText,
    inputs: &Inputs,
) -> Result<Option<WrongResult>, NoMemory>
    requires flawless { IsFlawless text.now }
    requires inputs { AreInputs text.now.description.shape inputs.now }
    ensures { IfOk result (λ wrong. wrong ≡ wrong_for text.now inputs.now) }
{
    judged_plans();
    let shape = text.description.shape();
    shape.recall_form();
    let given = &text.given;
    let values = values(alloc, given.plan(), inputs, shape.input_count())?;
    let meant = buffers_of(alloc, shape, inputs)?;
    match first_wrong(alloc, shape, text.line, given, &values, &meant) {
        Ok(wrong) => Ok(wrong),
        Err(_) => Err(NoMemory),
    }
}

/// The most bytes that the links of a plan carry together when it is evaluated. It is twice that of cells. By the tables of steps, though
/// by no clause, a plan that is drawn of a description stays below it: its links carry at most 1.7 times the bytes of its cells.
pub const MOST_CARRIED: u64 = 268_435_456;

/// Whether these cells have more bytes together than are evaluated.
fn are_large(cells: &[Cell]) -> bool
    ensures { result ≡ nat_lt MOST_BYTES (sum_by (λ c. c.length) cells.now) }
{
    let mut left = MOST_BYTES;
    for cell in cells {
        if cell.length > left {
            return true;
        }
        left -= cell.length;
    }
    false
}

/// Whether these links carry more bytes together than are evaluated.
fn are_heavy(links: &[Link]) -> bool
    ensures { result ≡ nat_lt MOST_CARRIED (sum_by (λ k. k.length) links.now) }
{
    let mut left = MOST_CARRIED;
    for link in links {
        if link.length > left {
            return true;
        }
        left -= link.length;
    }
    false
}

/// Whether the cells of a plan have more bytes together than are evaluated, or its links carry more.
pub fn is_large(plan: &Plan) -> bool
    ensures { result ≡ is_large plan.now }
{
    are_large(plan.cells()) || are_heavy(plan.links())
}

/// What the results of a plan show.
fn on_results(wrong: Option<WrongResult>) -> GivenAnswer
    ensures { result ≡ on_results wrong }
{
    match wrong {
        None => GivenAnswer::Holds,
        Some(WrongResult { line, cause }) => GivenAnswer::Fails { line, cause },
    }
}

/// What the results of a plan without a flaw show, unless it is too large.
fn on_size(alloc: Global, text: &FlawlessText) -> Result<GivenAnswer, NoMemory>
    requires { IsFlawless text.now }
    ensures { IfOk result (λ answer. answer ≡ on_size text.now) }
{
    if is_large(text.given.plan()) {
        return Ok(too_large(text.line));
    }
    let _shape = text.description.shape();
    let wrong = wrong_for(alloc, text, text.description.inputs())?;
    Ok(on_results(wrong))
}

/// The answer on the text of a description, which ends with the first line `end`, and of a plan after it, for the inputs of the
/// description.
///
/// It is judged as by `judge_text`. Where that shows no flaw, the bytes of the cells follow, and then the lists of the results.
///
/// # Errors
///
/// There was no memory.
pub fn answer_of(alloc: Global, text: &[u8]) -> Result<GivenAnswer, NoMemory>
    ensures { IfOk result (λ answer. answer ≡ answer_of text.now) }
{
    match judge_text(alloc, text)? {
        Judged::Answered(answer) => Ok(answer),
        Judged::Flawless(text) => on_size(alloc, &text),
    }
}
