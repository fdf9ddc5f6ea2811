//! Texts in which nothing is combined: the inputs of numbered bytes tell of such a plan whether it is right for all inputs.

ghost use Rattle.std.specs.Prelude.{ℕ, List, ◌≡◌, ◌<◌, None, true, false, All, IfOk, MatchOption};
ghost use Rattle.schedule_compiler.specs.shapes.Drawing.{plan_of};
ghost use Rattle.schedule_compiler.specs.shapes.Footprint.{refusal};
ghost use Rattle.plan_agreement.specs.Agreement.{IsPlanFor};
ghost use Rattle.plan_agreement.specs.Bare.{IsBare};
ghost use Rattle.given_verdicts.specs.declared.answer.FlawlessText.{FlawlessText};
ghost use Rattle.given_verdicts.specs.declared.answer.GivenAnswer.TheVariants.{Unknown};
ghost use Rattle.given_verdicts.specs.declared.answer.Judged.TheVariants.{Flawless};
ghost use Rattle.given_verdicts.specs.Answers.{IsFlawless, judged_text};
ghost use Rattle.given_verdicts.specs.general.General.{IsCombined, IsFound, IsGeneralAnswer, IsRightByNumber, IsShownWrong};

use crate::{FlawlessText, GivenAnswer, WrongResult, wrong_for};
use plan_agreement::{NUMBER_UNITS, numbered};
use plan_core::Plan;
use ptl_types::NoMemory;
use schedule_compiler::shapes::{CompileFault, drawn_shape};
use std::alloc::Global;

/// Whether no cell of a plan has an operation.
fn is_bare(plan: &Plan) -> bool
    ensures bare { result ≡ true → IsBare plan.now }
    ensures combined { result ≡ false → IsBare plan.now → ⊥ }
{
    for cell in plan.cells() {
        if cell.op.is_some() {
            return false;
        }
    }
    true
}

/// Whether nothing is combined, neither in the plan of a text nor in its shape's own plan. Of a shape whose plan is refused it isn't
/// found.
pub(crate) fn is_bare_text(alloc: Global, text: &FlawlessText) -> Result<bool, NoMemory>
    ensures given { IfOk result (λ bare. bare ≡ true → IsBare text.now.given.plan) }
    ensures own { IfOk result (λ bare. bare ≡ true → IsBare (plan_of text.now.description.shape)) }
    ensures combined { IfOk result (λ bare. bare ≡ false → IsCombined text.now) }
{
    if !is_bare(text.given.plan()) {
        return Ok(false);
    }
    match drawn_shape(alloc, text.description.shape()) {
        Ok(drawn) => Ok(is_bare(&drawn.plan)),
        Err(CompileFault::NoMemory) => Err(NoMemory),
        Err(_) => Ok(false),
    }
}

/// A result that is wrong for inputs of numbered bytes: these of the numbers.
fn wrong_by_numbers(
    alloc: Global,
    text: &FlawlessText,
    units: &[u64],
) -> Result<Option<WrongResult>, NoMemory>
    requires flawless { IsFlawless text.now }
    requires units { All (λ unit. 0 < unit) units.now }
    ensures { IfOk result (λ found. MatchOption found (All (IsRightByNumber text.now) units.now) (IsShownWrong text.now)) }
{
    for unit in units {
        let inputs = numbered(alloc, text.description.shape(), *unit)?;
        match wrong_for(alloc, text, &inputs)? {
            Some(wrong) => return Ok(Some(wrong)),
            None => {}
        }
    }
    Ok(None)
}

/// The answer where nothing is combined.
pub(crate) fn by_numbers(alloc: Global, text: &FlawlessText) -> Result<GivenAnswer, NoMemory>
    requires flawless { IsFlawless text.now }
    requires fits { IsPlanFor text.now.given.plan text.now.description.shape }
    requires given { IsBare text.now.given.plan }
    requires own { IsBare (plan_of text.now.description.shape) }
    ensures { IfOk result (IsFound text.now) }
{
    text.description.shape().recall_form();
    match wrong_by_numbers(alloc, text, &NUMBER_UNITS)? {
        Some(WrongResult { line, cause }) => Ok(GivenAnswer::Fails { line, cause }),
        None => Ok(GivenAnswer::Holds),
    }
}

/// Where nothing is combined, neither in a plan nor in the shape's own, which isn't refused, it is never answered that it isn't known.
pub fn bare_plans_are_known()
    ensures { (bytes : List ℕ) (t : FlawlessText) (n : ℕ) (name : List ℕ) (rank place : ℕ) → judged_text bytes ≡ Flawless t →
        refusal t.description.shape ≡ None → IsBare t.given.plan → IsBare (plan_of t.description.shape) →
        IsGeneralAnswer bytes (Unknown n name rank place) → ⊥ }
{}
