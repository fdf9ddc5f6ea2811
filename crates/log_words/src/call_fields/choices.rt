//! Words of which only a few may stand.

ghost use Rattle.std.specs.Prelude.{◌≡◌};
ghost use Rattle.log_words.specs.Reading.{yielded};
ghost use Rattle.log_words.specs.call_fields.Choices.{deletes_named, deletes_next, list_named, list_next, op_next, start_named, swap_named};
ghost use Rattle.log_words.specs.call_fields.Choices.{swap_next, type_next};

use crate::call_fields::said::StartName;
use crate::{Flaw, LineFault, Rest, at};
use coll_text::{is, op_named, type_named};
use ptl_types::{AtomicOp, ElemType, List, SwapOp};

/// The list that a word names.
#[tactic(auto, unfolding(crate::specs::call_fields::Choices::list_named))]
fn list_named(text: &[u8]) -> Option<List>
    ensures { result ≡ list_named text.now }
{
    if is(text, b"priority") {
        Some(List::Priority)
    } else if is(text, b"overflow") {
        Some(List::Overflow)
    } else {
        None
    }
}

/// The list that the next word names.
///
/// # Errors
///
/// `BadLine` where no word is left, `BadWord` where it is another.
#[tactic(auto, unfolding(crate::specs::call_fields::Choices::list_next))]
pub fn list_in(words: &mut Rest) -> Result<List, LineFault>
    ensures { yielded result words.new ≡ list_next words.old }
{
    let word = words.word()?;
    match list_named(word.text()) {
        Some(meaning) => Ok(meaning),
        None => Err(at(word.column(), Flaw::BadWord)),
    }
}

/// Whether a search deletes what it finds.
#[tactic(auto, unfolding(crate::specs::call_fields::Choices::deletes_named))]
fn deletes_named(text: &[u8]) -> Option<bool>
    ensures { result ≡ deletes_named text.now }
{
    if is(text, b"keep") {
        Some(false)
    } else if is(text, b"delete") {
        Some(true)
    } else {
        None
    }
}

/// The next word: whether a search deletes what it finds.
///
/// # Errors
///
/// `BadLine` where no word is left, `BadWord` where it is another.
#[tactic(auto, unfolding(crate::specs::call_fields::Choices::deletes_next))]
pub fn deletes_in(words: &mut Rest) -> Result<bool, LineFault>
    ensures { yielded result words.new ≡ deletes_next words.old }
{
    let word = words.word()?;
    match deletes_named(word.text()) {
        Some(meaning) => Ok(meaning),
        None => Err(at(word.column(), Flaw::BadWord)),
    }
}

/// The operation that the next word names.
///
/// # Errors
///
/// `BadLine` where no word is left, `BadWord` where it is another.
#[tactic(auto, unfolding(crate::specs::call_fields::Choices::op_next))]
pub fn op_in(words: &mut Rest) -> Result<AtomicOp, LineFault>
    ensures { yielded result words.new ≡ op_next words.old }
{
    let word = words.word()?;
    match op_named(word.text()) {
        Some(meaning) => Ok(meaning),
        None => Err(at(word.column(), Flaw::BadWord)),
    }
}

/// The swap that a word names.
#[tactic(auto, unfolding(crate::specs::call_fields::Choices::swap_named))]
fn swap_named(text: &[u8]) -> Option<SwapOp>
    ensures { result ≡ swap_named text.now }
{
    if is(text, b"swap") {
        Some(SwapOp::Swap)
    } else if is(text, b"cswap") {
        Some(SwapOp::Cswap)
    } else if is(text, b"mswap") {
        Some(SwapOp::Mswap)
    } else {
        None
    }
}

/// The swap that the next word names.
///
/// # Errors
///
/// `BadLine` where no word is left, `BadWord` where it is another.
#[tactic(auto, unfolding(crate::specs::call_fields::Choices::swap_next))]
pub fn swap_in(words: &mut Rest) -> Result<SwapOp, LineFault>
    ensures { yielded result words.new ≡ swap_next words.old }
{
    let word = words.word()?;
    match swap_named(word.text()) {
        Some(meaning) => Ok(meaning),
        None => Err(at(word.column(), Flaw::BadWord)),
    }
}

/// The type that the next word names.
///
/// # Errors
///
/// `BadLine` where no word is left, `BadWord` where it is another.
#[tactic(auto, unfolding(crate::specs::call_fields::Choices::type_next))]
pub fn type_in(words: &mut Rest) -> Result<ElemType, LineFault>
    ensures { yielded result words.new ≡ type_next words.old }
{
    let word = words.word()?;
    match type_named(word.text()) {
        Some(meaning) => Ok(meaning),
        None => Err(at(word.column(), Flaw::BadWord)),
    }
}

/// What a word starts.
#[tactic(auto, unfolding(crate::specs::call_fields::Choices::start_named))]
pub fn start_named(text: &[u8]) -> Option<StartName>
    ensures { result ≡ start_named text.now }
{
    if is(text, b"put") {
        Some(StartName::Put)
    } else if is(text, b"get") {
        Some(StartName::Get)
    } else if is(text, b"atomic") {
        Some(StartName::Atomic)
    } else if is(text, b"fetch_atomic") {
        Some(StartName::FetchAtomic)
    } else if is(text, b"swap") {
        Some(StartName::Swap)
    } else {
        None
    }
}
