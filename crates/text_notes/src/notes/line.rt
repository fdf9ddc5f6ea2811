//! The line of a note.

ghost use Rattle.std.specs.Prelude.{◌≡◌, []};
ghost use Rattle.text_notes.specs.notes.Messages.{said};
ghost use Rattle.text_notes.specs.notes.Notes.{line_place, message_of, note_text, path_place, place_of, then_column, then_found, then_line};
ghost use Rattle.text_notes.specs.notes.Notes.{then_said, then_text_line};

use crate::notes::detail::show_detail;
use crate::notes::message::{Message, cause_message, fails_message};
use crate::notes::note::{About, Note};
use crate::notes::printable::Printable;

/// Adds a column.
fn show_column(text: &mut Printable, column: u32)
    ensures { text.new ≡ then_column text.old column }
{
    if column != 0 {
        text.show(b", column ");
        text.show_number(u64::from(column));
    }
}

/// A line and a column.
#[tactic(auto, unfolding(crate::specs::notes::Notes::line_place))]
fn line_place(line: u32, column: u32) -> Printable
    ensures { result ≡ line_place line column }
{
    let mut text = Printable::new();
    if line != 0 {
        text.show(b"line ");
        text.show_number(u64::from(line));
        show_column(&mut text, column);
        text.show(b": ");
    }
    text
}

/// Adds the line of a line text.
#[tactic(auto, unfolding(crate::specs::notes::Notes::then_text_line))]
fn show_text_line(text: &mut Printable, line: u32)
    ensures { text.new ≡ then_text_line text.old line }
{
    text.show(b" (line ");
    text.show_number(u64::from(line));
    text.show(b" of its line text)");
}

/// Adds the line of a line text, where it is a line.
fn show_line(text: &mut Printable, line: u32)
    ensures { text.new ≡ then_line text.old line }
{
    if line != 0 {
        show_text_line(text, line);
    }
}

/// A place in JSON, and the line of the line text.
#[tactic(auto, unfolding(crate::specs::notes::Notes::path_place))]
fn path_place(path: &[u8], line: u32) -> Printable
    ensures { result ≡ path_place path.now line }
{
    let mut text = Printable::new();
    text.show(path);
    show_line(&mut text, line);
    text.show(b": ");
    text
}

/// Where a note points.
fn place_of(note: &Note) -> Printable
    ensures { result ≡ place_of note.now }
{
    let path = note.path.as_slice();
    if path.is_empty() {
        line_place(note.line, note.column)
    } else {
        path_place(path, note.line)
    }
}

/// Adds the word that stands in the column.
fn show_found(text: &mut Printable, column: u32, found: &[u8])
    ensures { text.new ≡ then_found text.old column found.now }
{
    if column != 0 {
        text.show(b"'");
        text.show(found);
        text.show(b"' ");
    }
}

/// Adds what is said.
fn show_message(text: &mut Printable, message: Message)
    ensures { text.new ≡ then_said text.old (said message) }
{
    text.show(message.head);
    show_detail(text, message.detail);
    text.show(message.tail);
}

/// What is said of what a note is about.
fn message_of(about: About) -> Message
    ensures { said result ≡ message_of about }
{
    match about {
        About::Refused(cause) => cause_message(cause),
        About::Fails { cause, .. } => fails_message(cause),
    }
}

/// The line of a note, without its LF: the place, the word that stands there, and what is said of it, as far as 200 bytes hold it.
#[tactic(auto, unfolding(crate::specs::notes::Notes::note_text))]
pub fn note_text(note: &Note) -> Printable
    ensures { result ≡ note_text note.now }
{
    let mut text = place_of(note);
    show_found(&mut text, note.column, note.found.as_slice());
    show_message(&mut text, message_of(note.about));
    text
}
