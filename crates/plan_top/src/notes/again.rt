//! A text that is read again.

ghost use Rattle.std.specs.Prelude.{◌≡◌, ◌+◌, ◌<◌, ◌-◌, ◌^◌, IfOk, length};
ghost use Rattle.coll_text.specs.Text.{lines};
ghost use Rattle.coll_lang.specs.Language.{read};
ghost use Rattle.plan_top.specs.notes.Again.{given_in, with_description};

use coll_lang::{Description, ParseFault, parse};
use given_lines::{GivenFault, GivenPlan, read_given};
use given_verdicts::LONGEST_GIVEN;
use order_lines::first_end;
use ptl_types::NoMemory;
use std::alloc::Global;

/// What a text says that isn't refused.
#[derive(Drop)]
pub(crate) struct GivenText {
    /// The number of the line with which the plan begins.
    pub line: u32,
    /// The description.
    pub description: Description,
    /// The plan and the lines after it.
    pub given: GivenPlan,
}

/// What the text of a plan says after a description, from the line of this number on. None where it is refused.
fn with_description(
    alloc: Global,
    line: u32,
    description: Description,
    text: &[u8],
) -> Result<Option<GivenText>, NoMemory>
    requires { line + length text.now < 2 ^ 32 - 1 }
    ensures { IfOk result (λ found. found ≡ with_description line (Ok description) (lines text.now)) }
{
    let shape = description.shape();
    shape.recall_form();
    let ranks = shape.ranks();
    let least = ranks + shape.input_count() * ranks;
    match read_given(alloc, ranks, least, shape.buffers(), line, text) {
        Ok(given) => Ok(Some(GivenText {
            line,
            description,
            given,
        })),
        Err(GivenFault::Refused { .. }) => Ok(None),
        Err(GivenFault::NoMemory) => Err(NoMemory),
    }
}

/// What a text says: a description and a plan after it. None where it is refused.
///
/// # Errors
///
/// There was no memory.
pub(crate) fn given_in(alloc: Global, text: &[u8]) -> Result<Option<GivenText>, NoMemory>
    ensures { IfOk result (λ found. found ≡ given_in text.now) }
{
    if text.len() > LONGEST_GIVEN {
        return Ok(None);
    }
    let (at, line) = first_end(text);
    match parse(alloc, &text[..at]) {
        Ok(description) => with_description(alloc, line, description, &text[at..]),
        Err(ParseFault::Refused { .. }) => Ok(None),
        Err(ParseFault::NoMemory) => Err(NoMemory),
    }
}
