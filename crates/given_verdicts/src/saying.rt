//! The line of an answer.

ghost use Rattle.std.specs.Prelude.{List, ℕ, ◌≡◌, ◌∷◌, [], IfOk, codes, map};
ghost use Rattle.std.specs.Borrow.{Bor};
ghost use Rattle.std.specs.Fmt.{decimal};
ghost use Rattle.coll_text.specs.Text.{line};
ghost use Rattle.given_verdicts.specs.Saying.{answer_line, cause_words, value_words};

use crate::answer::{GivenAnswer, GivenCause};
use crate::naming::{cell_word, link_word, mark_word, name_word, plan_word};
use itoa::Buffer;
use ptl_types::NoMemory;
use std::alloc::{AllocError, Global};

/// A line of these words, parted by one space.
fn line_of(alloc: Global, first: &[u8], words: &[&[u8]]) -> Result<Vec<u8>, AllocError>
    ensures { IfOk result (λ text. text.items ≡ line (first.now ∷ map (λ (word : Bor (List ℕ)). word.now) words.now)) }
{
    let mut text = Vec::from_slice(alloc, first)?;
    for word in words {
        text.push(b' ')?;
        text.extend_from_slice(word)?;
    }
    text.push(b'\n')?;
    Ok(text)
}

/// The line of a plan that fails, of a cause that is one word.
fn plain_line(alloc: Global, number: u64, word: &[u8]) -> Result<Vec<u8>, AllocError>
    ensures { IfOk result (λ text. text.items ≡ line (codes "fails" ∷ decimal number ∷ word.now ∷ [])) }
{
    let mut digits = Buffer::new();
    line_of(alloc, b"fails", &[digits.format(number).as_bytes(), word])
}

/// The line, after this first word, of an element of a buffer of this name at a rank.
fn value_line(
    alloc: Global,
    word: &[u8],
    number: u64,
    name: &[u8],
    rank: u32,
    place: u64,
) -> Result<Vec<u8>, AllocError>
    ensures { IfOk result (λ text. text.items ≡
        line (word.now ∷ decimal number ∷ value_words name.now rank place)) }
{
    let (mut first, mut second, mut third) = (Buffer::new(), Buffer::new(), Buffer::new());
    let number = first.format(number).as_bytes();
    let rank = second.format(rank).as_bytes();
    let place = third.format(place).as_bytes();
    line_of(alloc, word, &[number, b"Value", name, rank, place])
}

/// The line of a plan that fails.
fn fails_line(alloc: Global, number: u64, cause: &GivenCause) -> Result<Vec<u8>, AllocError>
    ensures { IfOk result (λ text. text.items ≡ line (codes "fails" ∷ decimal number ∷ cause_words cause.now)) }
{
    match cause {
        GivenCause::Plan(cause) => plain_line(alloc, number, plan_word(*cause)),
        GivenCause::Cell(cause) => plain_line(alloc, number, cell_word(*cause)),
        GivenCause::Link(cause) => plain_line(alloc, number, link_word(*cause)),
        GivenCause::Mark(flaw) => plain_line(alloc, number, mark_word(*flaw)),
        GivenCause::Value { name, rank, place } => {
            value_line(alloc, b"fails", number, name.as_slice(), *rank, *place)
        }
    }
}

/// The line of a text that is refused.
fn refused_line(alloc: Global, number: u32, word: &[u8]) -> Result<Vec<u8>, AllocError>
    ensures { IfOk result (λ text. text.items ≡ line (codes "refused" ∷ decimal number ∷ word.now ∷ [])) }
{
    let mut digits = Buffer::new();
    line_of(alloc, b"refused", &[digits.format(number).as_bytes(), word])
}

/// The line of an answer.
fn said(alloc: Global, answer: &GivenAnswer) -> Result<Vec<u8>, AllocError>
    ensures { IfOk result (λ text. text.items ≡ answer_line answer.now) }
{
    match answer {
        GivenAnswer::Holds => line_of(alloc, b"holds", &[]),
        GivenAnswer::Fails { line, cause } => fails_line(alloc, *line, cause),
        GivenAnswer::Unknown {
            line,
            name,
            rank,
            place,
        } => value_line(alloc, b"unknown", *line, name.as_slice(), *rank, *place),
        GivenAnswer::Refused { line, name } => refused_line(alloc, *line, name_word(*name)),
    }
}

/// The line in which an answer is written, with its LF: `holds`, `fails LINE CAUSE`, `unknown LINE Value NAME RANK PLACE` or
/// `refused LINE NAME`.
///
/// # Errors
///
/// There was no memory for it.
pub fn answer_line(alloc: Global, answer: &GivenAnswer) -> Result<Vec<u8>, NoMemory>
    ensures { IfOk result (λ text. text.items ≡ answer_line answer.now) }
{
    match said(alloc, answer) {
        Ok(text) => Ok(text),
        Err(_) => Err(NoMemory),
    }
}
