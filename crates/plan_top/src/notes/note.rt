//! The note beside an answer.

ghost use Rattle.std.specs.Prelude.{◌≡◌, ◌≤◌, ◌<◌, List, ℕ, IfOk, length};
ghost use Rattle.text_notes.specs.notes.Causes.{name_of};
ghost use Rattle.plan_top.specs.notes.Notes.{IsNoteOf, Notes, RefusedSo, description_in, fails_words, noted};

use crate::notes::again::given_in;
use crate::notes::dues::refused_words;
use crate::notes::failing::{given_words, place_words};
use crate::notes::table::{DIFFERS, UNKNOWN, plan_words};
use coll_lang::Refusal;
use given_verdicts::{GivenAnswer, GivenCause, LONGEST_GIVEN, TextRefusal};
use order_lines::first_end;
use ptl_types::NoMemory;
use schedule_compiler::shapes::MOST_BYTES;
use std::alloc::Global;
use text_notes::notes::{About, Cause, Excess, Printable, note_text};
use text_notes::{explain_text, plain_note};

/// A message of a line; line 0 is the whole text.
#[tactic(auto, unfolding(text_notes::specs::notes::Notes::line_place))]
fn noted(line: u64, message: &[u8]) -> Printable
    ensures { result ≡ noted line message.now }
{
    let mut note = Printable::new();
    if line != 0 {
        note.show(b"line ");
        note.show_number(line);
        note.show(b": ");
    }
    note.show(message);
    note
}

/// What is said of a plan that fails in a line.
fn fails_words(
    alloc: Global,
    text: &[u8],
    line: u64,
    cause: &GivenCause,
) -> Result<Printable, NoMemory>
    ensures { IfOk result (λ words. words ≡ fails_words text.now line cause.now) }
{
    match cause {
        GivenCause::Plan(cause) => Ok(noted(0, plan_words(*cause))),
        GivenCause::Value { name, rank, place } => Ok(place_words(
            name.as_slice(),
            *rank,
            *place,
            DIFFERS,
        )),
        GivenCause::Cell(_) | GivenCause::Link(_) | GivenCause::Mark(_) => {
            match given_in(alloc, text)? {
                Some(given) => Ok(given_words(&given, line, cause)),
                None => Ok(Printable::new()),
            }
        }
    }
}

/// The text of a note of a refusal that points at no word of its line.
pub(crate) fn cause_note(line: u32, cause: Cause) -> Printable
    ensures { (bytes : List ℕ) → IsNoteOf bytes line (name_of cause) result }
{
    note_text(&plain_note(line, About::Refused(cause)))
}

/// The text of the note of a description, or of a description and orders after it, that is refused in a line.
pub(crate) fn line_note(text: &[u8], line: u32, name: Refusal) -> Printable
    ensures { IsNoteOf text.now line name result }
{
    note_text(&explain_text(text, line, name))
}

/// The note of a description that is refused in a line, or of a plan whose cells are too large, in the first one of its text.
#[tactic(auto, using(crate::proofs::notes::Reading::front_note))]
fn described(text: &[u8], line: u32, name: Refusal) -> Printable
    requires { length text.now ≤ LONGEST_GIVEN }
    ensures { IsNoteOf (description_in text.now) line name result }
{
    let (at, first) = first_end(text);
    match name {
        Refusal::TooLarge if line == first => cause_note(
            line,
            Cause::TooLarge(Excess::Cells {
                most: MOST_BYTES as u32,
            }),
        ),
        _ => line_note(&text[..at], line, name),
    }
}

/// The note of a text that has more bytes than are read.
#[tactic(auto, using(crate::proofs::notes::Reading::long_note))]
fn too_long(text: &[u8], line: u32, name: Refusal) -> Printable
    requires { LONGEST_GIVEN < length text.now }
    ensures { IsNoteOf (description_in text.now) line name result }
{
    match name {
        Refusal::TooLong => cause_note(
            line,
            Cause::TooLong {
                most: LONGEST_GIVEN as u32,
            },
        ),
        _ => line_note(text, line, name),
    }
}

/// The note of a description that is refused.
fn description_note(text: &[u8], line: u32, name: Refusal) -> Printable
    ensures { IsNoteOf (description_in text.now) line name result }
{
    if text.len() > LONGEST_GIVEN {
        too_long(text, line, name)
    } else {
        described(text, line, name)
    }
}

/// The note of a text that is refused in a line.
fn refused(text: &[u8], line: u32, name: TextRefusal) -> Printable
    ensures { RefusedSo text.now line name result }
{
    match name {
        TextRefusal::Description(name) => description_note(text, line, name),
        TextRefusal::Plan(name) => {
            noted(u64::from(line), refused_words(text, line, name).as_slice())
        }
    }
}

/// What a person is told beside the answer on a text that holds a description and a plan: the line at fault, and what is wrong there; what
/// the cell or the link has, and what it would need. Nothing beside `holds`. At most 200 bytes, each printable, without an LF.
///
/// # Errors
///
/// There was no memory to read the text again.
pub(crate) fn note_of(
    alloc: Global,
    text: &[u8],
    answer: &GivenAnswer,
) -> Result<Printable, NoMemory>
    ensures { IfOk result (Notes text.now answer.now) }
{
    match answer {
        GivenAnswer::Holds => Ok(Printable::new()),
        GivenAnswer::Fails { line, cause } => {
            let words = fails_words(alloc, text, *line, cause)?;
            Ok(noted(*line, words.as_slice()))
        }
        GivenAnswer::Unknown {
            line,
            name,
            rank,
            place,
        } => {
            let words = place_words(name.as_slice(), *rank, *place, UNKNOWN);
            Ok(noted(*line, words.as_slice()))
        }
        GivenAnswer::Refused { line, name } => Ok(refused(text, *line, *name)),
    }
}
