//! The answer on a text for all inputs.

ghost use Rattle.std.specs.Prelude.{ℕ, IfOk};
ghost use Rattle.given_verdicts.specs.Answers.{IsFlawless};
ghost use Rattle.plan_agreement.specs.Agreement.{Agrees, AreNumbersTried, IsPlanFor, IsShown};
ghost use Rattle.given_verdicts.specs.general.General.{IsAnsweredFor, IsFound, IsGeneralAnswer};

use crate::general::unknown::on_unknown;
use crate::{
    FlawlessText, GivenAnswer, Judged, WrongResult, is_large, judge_text, too_large, wrong_for,
};
use coll_shape::Inputs;
use plan_agreement::{Agreement, agree, judged_plans_fit};
use ptl_types::NoMemory;
use std::alloc::Global;

/// The answer where these inputs show of a result that it isn't what is meant.
fn on_witness(alloc: Global, text: &FlawlessText, inputs: &Inputs) -> Result<GivenAnswer, NoMemory>
    requires flawless { IsFlawless text.now }
    requires fits { IsPlanFor text.now.given.plan text.now.description.shape }
    requires shown { (i : ℕ) × IsShown text.now.given.plan text.now.description.shape text.now.given.marks i inputs.now }
    ensures { IfOk result (IsFound text.now) }
{
    match wrong_for(alloc, text, inputs)? {
        Some(WrongResult { line, cause }) => Ok(GivenAnswer::Fails { line, cause }),
        None => unreachable!(),
    }
}

/// The answer by what was found of the results.
fn on_agreement(
    alloc: Global,
    text: &FlawlessText,
    found: Agreement,
) -> Result<GivenAnswer, NoMemory>
    requires flawless { IsFlawless text.now }
    requires fits { IsPlanFor text.now.given.plan text.now.description.shape }
    requires found { Agrees text.now.given.plan text.now.description.shape text.now.given.marks found }
    requires tried { AreNumbersTried text.now.given.plan text.now.description.shape text.now.given.marks found }
    ensures { IfOk result (IsFound text.now) }
{
    match found {
        Agreement::Same => Ok(GivenAnswer::Holds),
        Agreement::Differs(_, inputs) => on_witness(alloc, text, &inputs),
        Agreement::Unknown(mark, byte) => on_unknown(alloc, text, mark, byte),
    }
}

/// The answer on a text in which no flaw was found.
fn on_flawless(alloc: Global, text: &FlawlessText) -> Result<GivenAnswer, NoMemory>
    requires { IsFlawless text.now }
    ensures { IfOk result (IsAnsweredFor text.now) }
{
    if is_large(text.given.plan()) {
        return Ok(too_large(text.line));
    }
    judged_plans_fit();
    let found = agree(
        alloc,
        text.given.plan(),
        text.description.shape(),
        text.given.marks(),
    )?;
    on_agreement(alloc, text, found)
}

/// The answer on the text of a description, which ends with the first line `end`, and of a plan after it, for all inputs of the
/// description's shape.
///
/// It is judged as by `judge_text`. Where that shows no flaw, the bytes of the cells follow, and then the lists of the results: the plan
/// holds where each is computed from the inputs' bytes as it is in the shape's own plan; it fails where inputs were found for which one
/// is wrong; else it isn't known of a result, which is what is meant for the inputs of numbered bytes. Where nothing is combined these
/// tell, and it is known, unless the shape's own plan is refused.
///
/// # Errors
///
/// There was no memory.
pub fn general_answer(alloc: Global, text: &[u8]) -> Result<GivenAnswer, NoMemory>
    ensures { IfOk result (IsGeneralAnswer text.now) }
{
    match judge_text(alloc, text)? {
        Judged::Answered(answer) => Ok(answer),
        Judged::Flawless(text) => on_flawless(alloc, &text),
    }
}
