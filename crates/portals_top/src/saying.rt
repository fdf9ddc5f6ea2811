//! What is said on standard error.

ghost use Rattle.note_lines.specs.Said.{SaysAll};
ghost use Rattle.portals_top.specs.Explained.{Says};

use note_lines::{say, say_each, say_line};
use port_io::{Failed, Sink};
use run_text::Status;
use text_notes::notes::{FORMS, Note, note_text, wrong_words};

/// Writes which word of the command line is wrong, and a line for each form.
#[tactic(auto, using(note_lines::proofs::Lines::says_then))]
fn say_forms<N: Sink>(notes: &mut N, words: &[String]) -> Result<(), Failed>
    ensures { SaysAll (N.outflow notes.old) (N.outflow notes.new) result }
{
    say(notes, wrong_words(words).as_slice())?;
    say_each(notes, &FORMS)
}

/// Writes the line of a note, where there is one.
#[tactic(auto, using(note_lines::proofs::Lines::begins_with))]
fn say_note<N: Sink>(notes: &mut N, told: &Option<Note>)
    ensures { Says Status.Refused told.now (N.outflow notes.old) (N.outflow notes.new) }
{
    if let Some(note) = told {
        let _ = say_line(notes, note_text(note));
    }
}

/// Says what a person is to know beside an answer. What fails here changes nothing.
#[tactic(auto, using(note_lines::proofs::Lines::begins_all))]
pub(crate) fn say_beside<N: Sink>(
    notes: &mut N,
    words: &[String],
    status: Status,
    told: &Option<Note>,
)
    ensures { Says status told.now (N.outflow notes.old) (N.outflow notes.new) }
{
    let _ = match status {
        Status::Done => Ok(()),
        Status::Usage => say_forms(notes, words),
        Status::Refused => {
            say_note(notes, told);
            Ok(())
        }
        Status::ReadFault => say(notes, b"standard input can't be read"),
        Status::WriteFault => say(notes, b"standard output can't be written"),
        Status::NoMemory => say(notes, b"there is not enough memory"),
    };
}
