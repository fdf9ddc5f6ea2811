//! A result of which it isn't known whether it is what is meant.

ghost use Rattle.std.specs.Prelude.{◌≡◌, ◌+◌, ◌-◌, ◌<◌, ◌^◌, None, All, IfOk, length};
ghost use Rattle.mark_judge.specs.Due.{mark_at};
ghost use Rattle.given_verdicts.specs.Answers.{IsFlawless, wrong_for};
ghost use Rattle.plan_agreement.specs.Agreement.{IsMeantIfThere, IsOpen, IsPlanFor, IsResult};
ghost use Rattle.plan_agreement.specs.Witness.{number_units};
ghost use Rattle.given_verdicts.specs.general.General.{IsCombined, IsFound, IsListOf};

use crate::general::bare::{by_numbers, is_bare_text};
use crate::{FlawlessText, GivenAnswer, WrongResult, element_size, name_of, wrong_for};
use given_lines::Mark;
use mark_judge::{MarkFlaw, line_of};
use ptl_types::{NoMemory, Rank};
use std::alloc::{AllocError, Global};

/// The buffer and the rank of a result.
fn list_of(mark: Mark) -> (u32, Rank)
    requires { IsResult mark }
    ensures { IsListOf mark result.0 result.1 }
{
    match mark {
        Mark::Result { buffer, rank, .. } => (buffer, rank),
        Mark::Enter { step, rank, .. } => (step, rank),
        Mark::Leave { step, rank, .. } => (step, rank),
    }
}

/// The answer that it isn't known of a result, from this byte on.
fn said(alloc: Global, text: &FlawlessText, mark: u32, byte: u64) -> Result<GivenAnswer, AllocError>
    requires flawless { IsFlawless text.now }
    requires fits { IsPlanFor text.now.given.plan text.now.description.shape }
    requires unknown { IsOpen text.now.given.plan text.now.description.shape text.now.given.marks mark byte }
    requires numbers { All (IsMeantIfThere text.now.given.plan text.now.description.shape (mark_at text.now.given.marks mark))
        number_units }
    requires own { wrong_for text.now text.now.description.inputs ≡ None }
    requires combined { IsCombined text.now }
    ensures { IfOk result (IsFound text.now) }
{
    let shape = text.description.shape();
    let marks = text.given.marks();
    let (buffer, rank) = list_of(marks[mark as usize]);
    Ok(GivenAnswer::Unknown {
        line: line_of(
            text.line,
            text.given.plan(),
            marks,
            MarkFlaw::BadResult { mark },
        ),
        name: name_of(alloc, shape, buffer)?,
        rank,
        place: byte / element_size(shape, buffer),
    })
}

/// The answer that it isn't known of a result, from this byte on, unless the description's own inputs show that a result is wrong. Where
/// nothing is combined, and the shape's own plan isn't refused, it is known.
pub(crate) fn on_unknown(
    alloc: Global,
    text: &FlawlessText,
    mark: u32,
    byte: u64,
) -> Result<GivenAnswer, NoMemory>
    requires flawless { IsFlawless text.now }
    requires fits { IsPlanFor text.now.given.plan text.now.description.shape }
    requires unknown { IsOpen text.now.given.plan text.now.description.shape text.now.given.marks mark byte }
    requires numbers { All (IsMeantIfThere text.now.given.plan text.now.description.shape (mark_at text.now.given.marks mark))
        number_units }
    ensures { IfOk result (IsFound text.now) }
{
    if is_bare_text(alloc, text)? {
        return by_numbers(alloc, text);
    }
    let inputs = text.description.inputs();
    let _shape = text.description.shape();
    match wrong_for(alloc, text, inputs)? {
        Some(WrongResult { line, cause }) => Ok(GivenAnswer::Fails { line, cause }),
        None => match said(alloc, text, mark, byte) {
            Ok(answer) => Ok(answer),
            Err(_) => Err(NoMemory),
        },
    }
}
