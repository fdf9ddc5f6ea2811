//! What is said on standard error.

ghost use Rattle.std.specs.Prelude.{[]};
ghost use Rattle.plan_top.specs.Explained.{Says, SaysText, Stood, form_lines};
ghost use Rattle.text_notes.specs.notes.Shown.{then_shown};

use note_lines::say_line;
use port_io::Sink;
use run_text::{Status, write_short};
use text_notes::notes::Printable;

/// A line for each form of the command line.
const FORMS: &[u8] = b"\
draw: reads a description and writes its plan, with the cells of its results and barriers
verify: reads a description and a plan, and writes whether the plan is right for all inputs
verify given: reads a description and a plan, and writes whether the plan is right for the inputs given
once, sim X, run W, trace W, steady W: reads a description and a plan, and runs the plan if it is sound
check: reads a description, a plan and order lines, and writes whether these are a run of the plan
limits: reads a description and a plan, and writes what each rank takes of an interface
explain, explain RANK, explain --dot: says what each triggered operation of a plan is; draws it for Graphviz
cost L o g G [O]: reads a description and a plan, and writes when each cell is reached; L, o, g in ns, G, O in ps a byte
X: what seeds the order of steps, below 2^64; W: how many workers there are, from 1 to 16
";

/// Writes a line of this text.
#[tactic(auto, using(crate::proofs::Telling::stood))]
fn say_text<N: Sink>(notes: &mut N, text: Printable)
    ensures { SaysText (N.outflow notes.old) (N.outflow notes.new) text }
{
    let _ = say_line(notes, text);
}

/// Writes a line of these words.
fn say_words<N: Sink>(notes: &mut N, words: &[u8])
    ensures { SaysText (N.outflow notes.old) (N.outflow notes.new) (then_shown [] words.now) }
{
    let mut text = Printable::new();
    text.show(words);
    say_text(notes, text);
}

/// Writes a line for each form of the command line.
#[tactic(auto, using(crate::proofs::Telling::stood))]
fn say_forms<N: Sink>(notes: &mut N)
    ensures { Stood (N.outflow notes.old) (N.outflow notes.new) form_lines }
{
    let _ = write_short(notes, FORMS);
}

/// Says what a person is to know beside an answer: of what is refused, fails or isn't known, this. What fails here changes nothing.
pub fn say_beside<N: Sink>(notes: &mut N, status: Status, told: Printable)
    ensures { Says status told (N.outflow notes.old) (N.outflow notes.new) }
{
    match status {
        Status::Done => {}
        Status::Usage => say_forms(notes),
        Status::Refused => say_text(notes, told),
        Status::ReadFault => say_words(notes, b"standard input can't be read"),
        Status::WriteFault => say_words(notes, b"standard output can't be written"),
        Status::NoMemory => say_words(notes, b"there is not enough memory"),
    }
}
