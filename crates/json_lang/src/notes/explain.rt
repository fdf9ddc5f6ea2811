//! Notes of refused JSON.

ghost use Rattle.std.specs.Prelude.{◌≡◌};
ghost use Rattle.text_notes.specs.Places.{IsNamed};

use crate::lines_of;
use crate::notes::forms::form_flaw;
use crate::notes::paths::path_of;
use coll_lang::Refusal;
use serde_json::{Error, Value};
use std::alloc::Global;
use text_notes::notes::{About, Cause, Note, Printable};
use text_notes::{explain_text, line_at, plain_note};

/// A note with this place in place of its own.
fn with_path(note: Note, path: Printable) -> Note
    ensures line { result.line ≡ note.line }
    ensures about { result.about ≡ note.about }
{
    Note {
        line: note.line,
        column: note.column,
        path,
        about: note.about,
        found: note.found,
    }
}

/// A note of a text that isn't at hand.
fn bare_note(line: u32, name: Refusal) -> Note
    ensures line { result.line ≡ line }
    ensures name { IsNamed name result.about }
{
    let note = explain_text(&[], line, name);
    plain_note(note.line, note.about)
}

/// Where the bytes are no JSON.
fn json_place(fault: &Error) -> Printable {
    let mut path = Printable::new();
    if fault.line() > 0 {
        path.show(b"line ");
        path.show_number(fault.line() as u64);
        path.show(b", column ");
        path.show_number(fault.column() as u64);
        path.show(b" of the JSON");
    }
    path
}

/// The number of the word in that column, both from 0 and from 1 as they are counted.
fn word_number(line: &[u8], column: u32) -> Option<usize> {
    if column == 0 {
        return None;
    }
    let mut number = 0usize;
    for (i, b) in line.iter().enumerate() {
        if i + 1 < column as usize && *b == b' ' {
            number = number.saturating_add(1);
        }
    }
    Some(number)
}

/// The note of a value whose line text is refused.
fn explain_lines(alloc: Global, value: &Value, line: u32, name: Refusal) -> Note
    ensures line { result.line ≡ line }
    ensures name { IsNamed name result.about }
{
    let Ok(text) = lines_of(alloc, value) else {
        return bare_note(line, name);
    };
    let note = explain_text(text.as_slice(), line, name);
    let word = word_number(line_at(text.as_slice(), line), note.column);
    with_path(note, path_of(value, line, word))
}

/// The note of a value that isn't of the form.
fn explain_form(value: &Value, line: u32) -> Note
    ensures line { result.line ≡ line }
    ensures name { IsNamed Refusal.BadForm result.about }
{
    let (path, flaw) = form_flaw(value);
    with_path(plain_note(line, About::Refused(Cause::BadForm(flaw))), path)
}

/// The note of JSON that is refused so: the line and the name are those that reading answers, the line that of the line text. It takes
/// memory for the value and the line text, as reading does; where there is none, the note names no place.
pub fn explain_json(alloc: Global, bytes: &[u8], line: u32, name: Refusal) -> Note
    ensures line { result.line ≡ line }
    ensures name { IsNamed name result.about }
{
    if matches!(name, Refusal::TooLong) {
        return bare_note(line, name);
    }
    match Value::from_slice(alloc, bytes) {
        Err(fault) => with_path(bare_note(line, name), json_place(&fault)),
        Ok(value) => match name {
            Refusal::BadForm => explain_form(&value, line),
            _ => explain_lines(alloc, &value, line, name),
        },
    }
}
